//! Storing a form under its hash, and the note that it was checked, so that no read hashes it again.
ghost use Rattle.std.specs.Prelude.{◌≡◌, IsTrue, IfErr, is_some};
ghost use Rattle.ledger_spec.specs.Findings.{held_of};
ghost use Rattle.run_io.specs.Bytes.{Rose};
ghost use Rattle.rotating_store.specs.Stores.{IsNoted};
ghost use Rattle.rotating_store.specs.Reading.{IsLater, IsReadable};
ghost use Rattle.node_offer.specs.Stored.{Stores};
ghost use Rattle.node_offer.specs.Faults.{refused_by};

use crate::fault::OfferFault;
use half_hash::{Hash32, NodeHash};
use node_backend::Shelf;
use rotating_store::{Put, RotStore, StoreFault};
use std::alloc::Global;

/// What became of a form.
pub(crate) enum Stored {
    /// It is stored.
    New,
    /// It was stored before.
    Same,
    /// It has this other hash.
    WrongHash(Hash32),
}

/// Stores the form of a node or a header under the hash, where that is its own, unless it is there. It is noted as checked then.
pub(crate) fn put<H: NodeHash, Sh: Shelf>(
    alloc: Global,
    store: &mut RotStore<Sh>,
    hash: &Hash32,
    form: &[u8],
) -> Result<Stored, OfferFault>
    ensures stores { IsTrue Sh.B.tells → Stores H.half store.old hash.now form.now result store.new }
    ensures notes { IsTrue (is_some (held_of H.half form.now)) → IsReadable Sh.B.tells H.half store.old
        → IsReadable Sh.B.tells H.half store.new }
    ensures later { IsLater store.old store.new }
    ensures fault { IfErr result (λ e. e ≡ OfferFault.Fault → Rose store.old.faults store.new.faults) }
{
    match store.put::<H>(alloc, hash, form) {
        Ok(Put::New) => Ok(noted(store, hash, Stored::New)),
        Ok(Put::Same) => Ok(noted(store, hash, Stored::Same)),
        Err(fault) => refused(fault),
    }
}

// The same, with the form under the hash noted as checked.
fn noted<Sh: Shelf>(store: &mut RotStore<Sh>, hash: &Hash32, stored: Stored) -> Stored
    ensures noted { IsNoted store.old hash.now store.new }
    ensures stored { result ≡ stored }
{
    store.note(hash);
    stored
}

// What became of a form that the store refused.
fn refused(fault: StoreFault) -> Result<Stored, OfferFault>
    ensures { result ≡ refused_by fault }
{
    match fault {
        StoreFault::WrongHash { found, .. } => Ok(Stored::WrongHash(found)),
        StoreFault::Clash { hash, old, new } => Err(OfferFault::Clash { hash, old, new }),
        StoreFault::Fault => Err(OfferFault::Fault),
        StoreFault::Memory => Err(OfferFault::Memory),
    }
}

//! A header that a peer offers: it is stored where the target is its hash.
ghost use Rattle.std.specs.Prelude.{◌≡◌, IsTrue, IfErr, IfOk, Ok};
ghost use Rattle.std.specs.FinMap as map;
ghost use Rattle.ledger_spec.specs.Offers.{head_forms, head_outcome};
ghost use Rattle.rotating_store.specs.Stores.{nodes_of};
ghost use Rattle.rotating_store.specs.Reading.{KeepsReadable};
ghost use Rattle.node_offer.specs.Stored.{HasForms, Refuses};
ghost use Rattle.node_offer.specs.Ways.{head_as};

use crate::fault::OfferFault;
use crate::store::{Stored, put};
use half_hash::{Hash32, NodeHash};
use ledger_header::{Header, HeaderFault};
use ledger_spec::HeadOffered;
use node_backend::Shelf;
use rotating_store::RotStore;
use std::alloc::Global;

/// Judges the header that these bytes are, offered for the target, and stores its form where the target is its hash. The first of these
/// that applies is the answer: a length other than 118, another hash than the target, a clash, a header that is stored, good. After a
/// fault, or for want of memory, a good header may be stored, and nothing else.
pub fn offer_header<H: NodeHash, Sh: Shelf>(
    alloc: Global,
    store: &mut RotStore<Sh>,
    target: &Hash32,
    bytes: &[u8],
) -> Result<HeadOffered, OfferFault>
    ensures outcome { IsTrue Sh.B.tells
        → IfOk result (λ o. head_outcome H.half (map.get (nodes_of store.old)) target.now bytes.now ≡ Ok o) }

    // a good header is stored under its hash, and nothing else changes
    ensures stored { IsTrue Sh.B.tells → IfOk result (λ o. HasForms H.half (head_forms (Ok o) bytes.now) store.old store.new) }
    ensures err { IsTrue Sh.B.tells
        → IfErr result (λ e. Refuses H.half (head_outcome H.half (map.get (nodes_of store.old)) target.now bytes.now)
        (head_forms (head_outcome H.half (map.get (nodes_of store.old)) target.now bytes.now) bytes.now) store.old e store.new) }
    ensures store { KeepsReadable Sh.B.tells H.half OfferFault.Fault store.old store.new result }
{
    let header = match Header::decode(bytes) {
        Ok(header) => header,
        Err(HeaderFault::Length(size)) => return Ok(HeadOffered::BadLength(size)),
    };
    let stored = put::<H, Sh>(alloc, store, target, &header.form())?;
    Ok(head_of(stored))
}

// What became of a header of the right length.
fn head_of(stored: Stored) -> HeadOffered
    ensures { result ≡ head_as stored }
{
    match stored {
        Stored::New => HeadOffered::Good,
        Stored::Same => HeadOffered::Duplicate,
        Stored::WrongHash(found) => HeadOffered::BadHash { found },
    }
}

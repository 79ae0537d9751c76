//! The parts of a base reply, judged over a store.
ghost use Rattle.std.specs.Prelude.{◌≡◌, [], IsTrue, OnOk};
ghost use Rattle.std.specs.Option.{option_copied};
ghost use Rattle.ledger_spec.specs.Bytes.{is_nonzero};
ghost use Rattle.ledger_spec.specs.Own.{AreStored};
ghost use Rattle.ledger_spec.specs.Wire.{read_wire};
ghost use Rattle.ledger_spec.specs.Offers.{head_outcome, head_forms, node_outcome, stored_by};
ghost use Rattle.ledger_spec.specs.Bases.{root_outcome, root_forms, base_outcome, base_forms};
ghost use Rattle.rotating_store.specs.Reading.{KeepsReadable};
ghost use Rattle.acquire_core.specs.Answers.{forms_in, Answers};
ghost use Rattle.acquire_core.specs.Parts.{judged, said};

use half_hash::{Hash32, NodeHash, known_half};
use ledger_spec::{HeadOffered, Kind, Offered};
use nib_path::NodeId;
use node_backend::Shelf;
use node_offer::{OfferFault, Offered as Outcome, offer, offer_header};
use rotating_store::RotStore;
use std::alloc::Global;

/// What became of the parts: of the header, and of each root that was given.
#[derive(Drop)]
pub(crate) struct Parts {
    pub(crate) header: HeadOffered,
    pub(crate) state: Option<Offered>,
    pub(crate) tx: Option<Offered>,
}

/// Judges the parts, each over what those before it left in the store.
pub(crate) fn take_parts<H: NodeHash, Sh: Shelf>(
    alloc: Global,
    store: &mut RotStore<Sh>,
    target: &Hash32,
    header: &[u8],
    state: Option<&[u8]>,
    tx: Option<&[u8]>,
) -> Result<Parts, OfferFault>
    requires { IsTrue (is_nonzero target.now) }
    ensures answer { IsTrue Sh.B.tells → AreStored H.half (forms_in store.old) → Answers H.half
        (base_outcome H.half (forms_in store.old) target.now header.now (option_copied state.entry) (option_copied tx.entry))
        (base_forms H.half (forms_in store.old) target.now header.now (option_copied state.entry) (option_copied tx.entry))
        store.old (judged result) store.new }
    ensures store { KeepsReadable Sh.B.tells H.half OfferFault.Fault store.old store.new result }
{
    let header = take_header::<H, Sh>(alloc, store, target, header)?;
    let state = take_root::<H, Sh>(alloc, store, target, Kind::State, state)?;
    let tx = take_root::<H, Sh>(alloc, store, target, Kind::Tx, tx)?;
    Ok(Parts { header, state, tx })
}

// Judges a header. What is stored stays forms under their own hashes.
fn take_header<H: NodeHash, Sh: Shelf>(
    alloc: Global,
    store: &mut RotStore<Sh>,
    target: &Hash32,
    header: &[u8],
) -> Result<HeadOffered, OfferFault>
    requires { IsTrue (is_nonzero target.now) }
    ensures answer { IsTrue Sh.B.tells → Answers H.half (head_outcome H.half (forms_in store.old) target.now header.now)
        (head_forms (head_outcome H.half (forms_in store.old) target.now header.now) header.now) store.old result store.new }
    ensures kept { IsTrue Sh.B.tells → AreStored H.half (forms_in store.old) → OnOk result (AreStored H.half (forms_in store.new)) }
    ensures store { KeepsReadable Sh.B.tells H.half OfferFault.Fault store.old store.new result }
{
    offer_header::<H, Sh>(alloc, store, target, header)
}

// Judges a root, where one is given.
fn take_root<H: NodeHash, Sh: Shelf>(
    alloc: Global,
    store: &mut RotStore<Sh>,
    target: &Hash32,
    kind: Kind,
    blob: Option<&[u8]>,
) -> Result<Option<Offered>, OfferFault>
    ensures answer { IsTrue Sh.B.tells → AreStored H.half (forms_in store.old) → Answers H.half
        (root_outcome H.half (forms_in store.old) target.now kind (option_copied blob.entry))
        (root_forms H.half (forms_in store.old) target.now kind (option_copied blob.entry)) store.old result store.new }
    ensures kept { IsTrue Sh.B.tells → AreStored H.half (forms_in store.old) → OnOk result (AreStored H.half (forms_in store.new)) }
    ensures store { KeepsReadable Sh.B.tells H.half OfferFault.Fault store.old store.new result }
{
    let Some(blob) = blob else {
        return Ok(None);
    };
    let offered = take_node::<H, Sh>(alloc, store, target, kind, &NodeId::root(), blob)?;
    Ok(Some(offered))
}

/// Judges a node. What is stored stays forms under their own hashes.
pub(crate) fn take_node<H: NodeHash, Sh: Shelf>(
    alloc: Global,
    store: &mut RotStore<Sh>,
    target: &Hash32,
    kind: Kind,
    id: &NodeId,
    blob: &[u8],
) -> Result<Offered, OfferFault>
    ensures answer { IsTrue Sh.B.tells → AreStored H.half (forms_in store.old) → Answers H.half
        (node_outcome H.half (forms_in store.old) target.now kind id.now blob.now)
        (stored_by (read_wire H.half blob.now) (node_outcome H.half (forms_in store.old) target.now kind id.now blob.now))
        store.old result store.new }
    ensures kept { IsTrue Sh.B.tells → AreStored H.half (forms_in store.old) → OnOk result (AreStored H.half (forms_in store.new)) }
    ensures store { KeepsReadable Sh.B.tells H.half OfferFault.Fault store.old store.new result }
{
    known_half::<H>();
    numbered(offer::<H, Sh>(alloc, store, target, kind, id, blob))
}

// What became of a node, with the cause of bad bytes and a broken rule by their numbers.
fn numbered(offered: Result<Outcome, OfferFault>) -> Result<Offered, OfferFault>
    ensures { result ≡ said offered }
{
    match offered {
        Ok(outcome) => Ok(outcome.numbered()),
        Err(fault) => Err(fault),
    }
}

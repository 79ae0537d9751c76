//! What an offer may write is shaded before it is judged, so that the walk of the rotation under way takes it once it is written. A hash
//! that is stored already needs no shade.
ghost use Rattle.std.specs.Prelude.{◌≡◌, true, false, IsTrue, IfErr, OnOk, Ok};
ghost use Rattle.std.specs.List.{Contains};
ghost use Rattle.run_io.specs.Bytes.{Rose};
ghost use Rattle.ledger_spec.specs.Forms.{Held, hash_of as half_of};
ghost use Rattle.ledger_spec.specs.Own.{AreStored};
ghost use Rattle.ledger_spec.specs.Wire.{read_wire};
ghost use Rattle.rotating_store.specs.Reading.{IsLater};
ghost use Rattle.acquire_core.specs.Answers.{forms_in, Answers};
ghost use Rattle.ledger_spec.specs.Replies.{base_given, base_stored, node_given, node_stored};
ghost use Rattle.acquire_core.specs.Replies.{TakesBase, TakesNode};
ghost use Rattle.online_rotate.specs.Copying.{IsWalking};
ghost use Rattle.std.specs.Option.{option_copied};
ghost use Rattle.core_machine.specs.Heeds.{HeedsFirst, IsHeeded, AreHeeded};

use acquire_core::Acquire;
use half_hash::{Hash32, NodeHash};
use ledger_spec::{BaseReply, NodeReply};
use nib_path::NodeId;
use node_backend::{BackFault, Shelf};
use node_offer::OfferFault;
use node_wire::{WireFault, decode_wire};
use online_rotate::Rotator;
use rotating_store::RotStore;
use shamap_node::{Kind, hash_of};
use std::alloc::Global;

/// Takes a node of a peer, as the acquisition does. Its hash is shaded first, where nothing is stored under it.
pub(crate) fn take_node<H: NodeHash, Sh: Shelf>(
    alloc: Global,
    acquire: &mut Acquire,
    store: &mut RotStore<Sh>,
    rotator: &mut Rotator,
    peer: u16,
    kind: Kind,
    id: &NodeId,
    blob: &[u8],
) -> Result<NodeReply, OfferFault>
    ensures answer { IsTrue Sh.B.tells → AreStored H.half (forms_in store.old) → Answers H.half
        (node_given H.half (forms_in store.old) acquire.old.target acquire.old.peers peer kind id.now blob.now)
        (node_stored H.half (forms_in store.old) acquire.old.target acquire.old.peers peer kind id.now blob.now) store.old result
        store.new }
    ensures after { TakesNode acquire.old peer result acquire.new }
    ensures walks { IsTrue Sh.B.tells → AreStored H.half (forms_in store.old) → rotator.old.turning ≡ true
        → Contains rotator.old.shaded acquire.old.target → IsWalking rotator.old.shaded rotator.old.walk store.old
        → IsWalking rotator.old.shaded rotator.new.walk store.new }
    ensures rotator { rotator.new ≡ record rotator.old { walk = rotator.new.walk } }
    ensures idle { rotator.old.turning ≡ false → rotator.new ≡ rotator.old }
    ensures later { IsLater store.old store.new }
    ensures fault { IfErr result (λ e. e ≡ OfferFault.Fault → Rose store.old.faults store.new.faults) }
{
    if !acquire.has(peer) {
        return Ok(NodeReply::Unasked);
    }
    heed_node::<H, Sh>(alloc, rotator, store, blob)?;
    acquire.node::<H, Sh>(alloc, store, peer, kind, id, blob)
}

/// Takes a base reply of a peer, as the acquisition of the target does. The target and the hashes of the roots that are given are shaded
/// first, where nothing is stored under them.
pub(crate) fn take_base<H: NodeHash, Sh: Shelf>(
    alloc: Global,
    acquire: &mut Acquire,
    store: &mut RotStore<Sh>,
    rotator: &mut Rotator,
    target: &Hash32,
    peer: u16,
    header: &[u8],
    state: Option<&[u8]>,
    tx: Option<&[u8]>,
) -> Result<BaseReply, OfferFault>
    ensures answer { IsTrue Sh.B.tells → AreStored H.half (forms_in store.old) → Answers H.half
        (base_given H.half (forms_in store.old) acquire.old.target acquire.old.peers peer header.now (option_copied state.entry)
        (option_copied tx.entry))
        (base_stored H.half (forms_in store.old) acquire.old.target acquire.old.peers peer header.now (option_copied state.entry)
        (option_copied tx.entry))
        store.old result store.new }
    ensures after { TakesBase acquire.old peer result acquire.new }
    ensures walks { IsTrue Sh.B.tells → AreStored H.half (forms_in store.old) → rotator.old.turning ≡ true
        → acquire.old.target ≡ target.now → Contains rotator.old.shaded target.now
        → IsWalking rotator.old.shaded rotator.old.walk store.old → IsWalking rotator.old.shaded rotator.new.walk store.new }
    ensures rotator { rotator.new ≡ record rotator.old { walk = rotator.new.walk } }
    ensures idle { rotator.old.turning ≡ false → rotator.new ≡ rotator.old }
    ensures later { IsLater store.old store.new }
    ensures fault { IfErr result (λ e. e ≡ OfferFault.Fault → Rose store.old.faults store.new.faults) }
{
    if !acquire.has(peer) {
        return Ok(BaseReply::Unasked);
    }
    heed_base::<H, Sh>(alloc, rotator, store, target, state, tx)?;
    acquire.base::<H, Sh>(alloc, store, peer, header, state, tx)
}

// Has the walk take the target and the hashes of these roots, where nothing is stored under them.
fn heed_base<H: NodeHash, Sh: Shelf>(
    alloc: Global,
    rotator: &mut Rotator,
    store: &mut RotStore<Sh>,
    target: &Hash32,
    state: Option<&[u8]>,
    tx: Option<&[u8]>,
) -> Result<(), BackFault>
    ensures walk { HeedsFirst Sh.B.tells store.old rotator.old result store.new rotator.new }
    ensures target { IsTrue Sh.B.tells
        → OnOk result (rotator.old.turning ≡ true → IsHeeded (forms_in store.old) rotator.new target.now) }
    ensures state { IsTrue Sh.B.tells → OnOk result (rotator.old.turning ≡ true
        → AreHeeded H.half (forms_in store.old) rotator.new (option_copied state.entry)) }
    ensures tx { IsTrue Sh.B.tells → OnOk result (rotator.old.turning ≡ true
        → AreHeeded H.half (forms_in store.old) rotator.new (option_copied tx.entry)) }
{
    if !rotator.busy() {
        return Ok(());
    }
    heed_hash(alloc, rotator, store, target)?;
    heed_root::<H, Sh>(alloc, rotator, store, state)?;
    heed_root::<H, Sh>(alloc, rotator, store, tx)
}

// The same of a root, where one is given.
fn heed_root<H: NodeHash, Sh: Shelf>(
    alloc: Global,
    rotator: &mut Rotator,
    store: &mut RotStore<Sh>,
    blob: Option<&[u8]>,
) -> Result<(), BackFault>
    ensures walk { HeedsFirst Sh.B.tells store.old rotator.old result store.new rotator.new }
    ensures heeded { IsTrue Sh.B.tells → OnOk result (rotator.old.turning ≡ true
        → AreHeeded H.half (forms_in store.old) rotator.new (option_copied blob.entry)) }
{
    match blob {
        Some(blob) => heed_node::<H, Sh>(alloc, rotator, store, blob),
        None => Ok(()),
    }
}

// Has the walk take the hash of the node that these bytes are the wire form of, where nothing is stored under it.
fn heed_node<H: NodeHash, Sh: Shelf>(
    alloc: Global,
    rotator: &mut Rotator,
    store: &mut RotStore<Sh>,
    blob: &[u8],
) -> Result<(), BackFault>
    ensures walk { HeedsFirst Sh.B.tells store.old rotator.old result store.new rotator.new }
    ensures heeded { IsTrue Sh.B.tells → OnOk result (rotator.old.turning ≡ true → (n : Held) → read_wire H.half blob.now ≡ Ok n
        → IsHeeded (forms_in store.old) rotator.new (half_of H.half n)) }
{
    if !rotator.busy() {
        return Ok(());
    }
    let node = match decode_wire::<H>(alloc, blob) {
        Ok(node) => node,
        Err(WireFault::Memory) => return Err(BackFault::Memory),
        Err(_) => return Ok(()),
    };
    let hash = hash_of::<H>(&node);
    heed_hash(alloc, rotator, store, &hash)
}

// Has the walk take a hash, where nothing is stored under it.
fn heed_hash<Sh: Shelf>(
    alloc: Global,
    rotator: &mut Rotator,
    store: &mut RotStore<Sh>,
    h: &Hash32,
) -> Result<(), BackFault>
    ensures walk { HeedsFirst Sh.B.tells store.old rotator.old result store.new rotator.new }
    ensures heeded { IsTrue Sh.B.tells
        → OnOk result (rotator.old.turning ≡ true → IsHeeded (forms_in store.old) rotator.new h.now) }
{
    match store.has(alloc, h) {
        Ok(true) => Ok(()),
        Ok(false) => match rotator.heed(h) {
            Ok(()) => Ok(()),
            Err(_) => Err(BackFault::Memory),
        },
        Err(fault) => Err(fault.plain()),
    }
}

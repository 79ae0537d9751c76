//! The way from a ledger's header to a place in one of its maps, read in place from the forms that are held: the hash that is wanted there,
//! or what stands in the way.
ghost use Rattle.std.specs.Prelude.{◌≡◌, ◌+◌, ◌*◌, ◌≤◌, [], None, List, length, IfOk, IfErr};
ghost use Rattle.std.specs.FinMap as map;
ghost use Rattle.std.specs.Option.{option_and_then, option_map, option_map_or};
ghost use Rattle.ledger_spec.specs.Forms.{header_of, inner_of as inner_form};
ghost use Rattle.ledger_spec.specs.Bytes.{Hash};
ghost use Rattle.ledger_spec.specs.Spots as way;
ghost use Rattle.ledger_spec.specs.Spots.{header_in, header_root, spot_from, spot_of};
ghost use Rattle.run_io.specs.Bytes.{Rose};
ghost use Rattle.ledger_spec.specs.Own.{own_forms};
ghost use Rattle.node_backend.specs.Filling.{filled};
ghost use Rattle.rotating_store.specs.Stores.{nodes_of};
ghost use Rattle.rotating_store.specs.Reading.{WasRead, IsReadable};
ghost use Rattle.node_offer.specs.Stored.{IsPlain};
ghost use Rattle.node_offer.specs.Ways.{hashes_of_parent, spot, spot_found, step_down, step_of, way_on, HasInner};

use crate::fault::OfferFault;
use half_hash::{Blob, Hash32, Memory, NodeHash};
use ledger_header::Header;
use nib_path::{NodeId, nibble};
use node_backend::{BackFault, Shelf};
use rotating_store::{RotStore, own_form_into};
use shamap_node::{Inner, Kind, inner_branch, inner_of, is_inner_form};
use std::alloc::Global;

/// How many bytes the form of an inner node has: its prefix and sixteen hashes.
const INNER_BYTES: usize = 516;

/// What a place in a ledger's map is.
#[derive(Clone, Copy, Debug)]
pub enum Spot {
    /// A node with this hash is wanted there, below this inner node; the root has none above it.
    Wanted { hash: Hash32, parent: Option<Inner> },
    /// The ledger's header is not stored.
    NoBase,
    /// No node is stored at this place, which lies on the way.
    NoParent(NodeId),
    /// The map has nothing at this place, on the way or at its end.
    EmptyBranch(NodeId),
    /// What is stored at this place, which lies on the way, is no inner node.
    UnderLeaf(NodeId),
}

/// What stands in the way to a place.
#[derive(Clone, Copy)]
pub(crate) enum Block {
    /// No node is stored at this place.
    NoParent(NodeId),
    /// The map has nothing at this place.
    EmptyBranch(NodeId),
    /// What is stored at this place is no inner node.
    UnderLeaf(NodeId),
}

/// What is found of a place: the same as `Spot`, with the form of the inner node above it, which takes less room than the node.
#[derive(Drop)]
pub(crate) enum Found {
    /// A node with this hash is wanted there, below the inner node of this form; the root has none above it.
    Wanted { hash: Hash32, parent: Option<Blob> },
    /// The ledger's header is not stored.
    NoBase,
    /// Something stands in the way.
    Blocked(Block),
}

impl Found {
    // What the place is, with the inner node above it.
    fn spot(&self) -> Spot
        ensures { spot result ≡ spot_found self.now }
    {
        match self {
            Found::Wanted { hash, parent } => Spot::Wanted {
                hash: *hash,
                parent: inner_in(parent),
            },
            Found::NoBase => Spot::NoBase,
            Found::Blocked(Block::NoParent(at)) => Spot::NoParent(*at),
            Found::Blocked(Block::EmptyBranch(at)) => Spot::EmptyBranch(*at),
            Found::Blocked(Block::UnderLeaf(at)) => Spot::UnderLeaf(*at),
        }
    }
}

/// What the place is, by the nodes that are held. The first thing in the way, from the root on, is the answer. It asks each backend
/// at most once for the header and for each place on the way.
pub fn place<H: NodeHash, Sh: Shelf>(
    alloc: Global,
    store: &mut RotStore<Sh>,
    target: &Hash32,
    kind: Kind,
    id: &NodeId,
) -> Result<Spot, OfferFault>
    ensures spot { IsReadable Sh.B.tells H.half store.old
        → IfOk result (λ s. spot s ≡ spot_of (own_forms H.half (map.get (nodes_of store.old))) target.now kind id.now) }
    ensures read { WasRead Sh.B.tells H.half store.old store.new }
    ensures few { store.new.gets ≤ store.old.gets + 2 * (length id.now + 1) }
    ensures fault { IfErr result (λ e. e ≡ OfferFault.Fault → Rose store.old.faults store.new.faults) }
    ensures kind { IfErr result IsPlain }
{
    let found = find::<H, Sh>(alloc, store, target, kind, id)?;
    Ok(found.spot())
}

// An empty room in which the form of each inner node finds place.
fn room_for_inner(alloc: Global) -> Result<Vec<u8>, Memory> {
    Ok(Vec::with_capacity(alloc, INNER_BYTES)?)
}

/// The same, with the form of the inner node above the place.
pub(crate) fn find<H: NodeHash, Sh: Shelf>(
    alloc: Global,
    store: &mut RotStore<Sh>,
    target: &Hash32,
    kind: Kind,
    id: &NodeId,
) -> Result<Found, OfferFault>
    ensures spot { IsReadable Sh.B.tells H.half store.old
        → IfOk result (λ s. spot_found s ≡ spot_of (own_forms H.half (map.get (nodes_of store.old))) target.now kind id.now) }
    ensures read { WasRead Sh.B.tells H.half store.old store.new }
    ensures few { store.new.gets ≤ store.old.gets + 2 * (length id.now + 1) }
    ensures fault { IfErr result (λ e. e ≡ OfferFault.Fault → Rose store.old.faults store.new.faults) }
    ensures kind { IfErr result IsPlain }
{
    let mut room = room_for_inner(alloc)?;
    let root = root_into::<H, Sh>(alloc, store, target, kind, &mut room)?;
    match root {
        None => Ok(Found::NoBase),
        Some(root) => Ok(walk::<H, Sh>(alloc, store, root, id, room)?),
    }
}

/// The root of the map of this kind, of the header that is held under the target, where one is. It asks each backend at most once.
pub fn root_in<H: NodeHash, Sh: Shelf>(
    alloc: Global,
    store: &mut RotStore<Sh>,
    target: &Hash32,
    kind: Kind,
) -> Result<Option<Hash32>, BackFault>
    ensures root { IsReadable Sh.B.tells H.half store.old → IfOk result (λ root. root
        ≡ option_map (header_root kind) (header_in (own_forms H.half (map.get (nodes_of store.old))) target.now)) }
    ensures read { WasRead Sh.B.tells H.half store.old store.new }
    ensures few { store.new.gets ≤ store.old.gets + 2 }
    ensures fault { IfErr result (λ e. e ≡ BackFault.Fault → Rose store.old.faults store.new.faults) }
{
    let mut room = Vec::new(alloc);
    let root = root_into::<H, Sh>(alloc, store, target, kind, &mut room)?;
    Ok(root)
}

// The same, with a room for the header's form.
fn root_into<H: NodeHash, Sh: Shelf>(
    alloc: Global,
    store: &mut RotStore<Sh>,
    target: &Hash32,
    kind: Kind,
    room: &mut Vec<u8>,
) -> Result<Option<Hash32>, BackFault>
    ensures root { IsReadable Sh.B.tells H.half store.old → IfOk result (λ root. root
        ≡ option_map (header_root kind) (header_in (own_forms H.half (map.get (nodes_of store.old))) target.now)) }
    ensures read { WasRead Sh.B.tells H.half store.old store.new }
    ensures few { store.new.gets ≤ store.old.gets + 2 }
    ensures fault { IfErr result (λ e. e ≡ BackFault.Fault → Rose store.old.faults store.new.faults) }
{
    let there = own_form_into::<H, Sh>(alloc, store, target, room)?;
    if there {
        return Ok(root_of(room, kind));
    }
    Ok(None)
}

// The same, of the header whose form this is.
fn root_of(form: &[u8], kind: Kind) -> Option<Hash32>
    ensures { result ≡ option_map (header_root kind) (header_of form.now) }
{
    let header = Header::from_form(form)?;
    Some(match kind {
        Kind::State => header.state_root,
        Kind::Tx => header.tx_root,
        Kind::Set => Hash32::zero(),
    })
}

// The place, from the root on. The forms on the way are read into one room.
fn walk<H: NodeHash, Sh: Shelf>(
    alloc: Global,
    store: &mut RotStore<Sh>,
    root: Hash32,
    id: &NodeId,
    room: Vec<u8>,
) -> Result<Found, BackFault>
    ensures spot { IsReadable Sh.B.tells H.half store.old
        → IfOk result (λ s. spot_found s ≡ spot_from (own_forms H.half (map.get (nodes_of store.old))) [] None root id.now) }
    ensures read { WasRead Sh.B.tells H.half store.old store.new }
    ensures few { store.new.gets ≤ store.old.gets + 2 * length id.now }
    ensures fault { IfErr result (λ e. e ≡ BackFault.Fault → Rose store.old.faults store.new.faults) }
{
    id.known();
    let key = id.id();
    let mut room = room;
    let mut hash = root;
    let mut below = false;
    for depth in 0..id.depth() {
        let at = NodeId::of_key(&key, depth);
        let stop = step::<H, Sh>(alloc, store, &hash, at, &mut room)?;
        match stop {
            None => {
                hash = inner_branch(&room, nibble(&key, depth));
                below = true;
            }
            Some(block) => return Ok(Found::Blocked(block)),
        }
    }
    if hash.is_zero() {
        return Ok(Found::Blocked(Block::EmptyBranch(*id)));
    }
    Ok(Found::Wanted {
        hash,
        parent: form_in(below, room),
    })
}

// What a room holds, where it was filled.
fn form_in(there: bool, room: Vec<u8>) -> Option<Blob>
    ensures { result ≡ filled there room.items }
{
    if there { Some(Blob::new(room)) } else { None }
}

// The inner node whose form this is, if one is given.
fn inner_in(form: &Option<Blob>) -> Option<Inner>
    ensures { hashes_of_parent result ≡ option_and_then inner_form form.now }
{
    match form {
        Some(form) => inner_of(form.bytes()),
        None => None,
    }
}

// What stands in the way at a place; where nothing does, the form of the inner node that is held there is written into the room.
fn step<H: NodeHash, Sh: Shelf>(
    alloc: Global,
    store: &mut RotStore<Sh>,
    hash: &Hash32,
    at: NodeId,
    room: &mut Vec<u8>,
) -> Result<Option<Block>, BackFault>
    ensures step { IsReadable Sh.B.tells H.half store.old → IfOk result (λ s. (on : List Hash → way.Spot)
        → step_of (way_on s room.new.items) on
        ≡ step_down at on hash.now (own_forms H.half (map.get (nodes_of store.old)) hash.now)) }
    ensures inner { IfOk result (λ s. HasInner (way_on s room.new.items)) }
    ensures read { WasRead Sh.B.tells H.half store.old store.new }
    ensures few { store.new.gets ≤ store.old.gets + 2 }
    ensures fault { IfErr result (λ e. e ≡ BackFault.Fault → Rose store.old.faults store.new.faults) }
{
    if hash.is_zero() {
        return Ok(Some(Block::EmptyBranch(at)));
    }
    let there = own_form_into::<H, Sh>(alloc, store, hash, room)?;
    if there {
        return Ok(no_inner(room, at));
    }
    Ok(Some(Block::NoParent(at)))
}

// What stands in the way where this form is held at a place: one that is no inner node's does.
fn no_inner(form: &[u8], at: NodeId) -> Option<Block>
    ensures way { (on : List Hash → way.Spot)
        → step_of (way_on result form.now) on ≡ option_map_or on (inner_form form.now) (way.under_leaf at) }
    ensures inner { HasInner (way_on result form.now) }
{
    if is_inner_form(form) {
        None
    } else {
        Some(Block::UnderLeaf(at))
    }
}

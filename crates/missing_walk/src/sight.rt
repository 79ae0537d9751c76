//! What is seen at one place: the node of the form that is held there, judged by the rules of shape.
ghost use Rattle.std.specs.Prelude.{◌≡◌, ◌+◌, [], if◌then◌else◌, length, None, Some};
ghost use Rattle.std.specs.Option.{option_map};
ghost use Rattle.std.specs.Prelude.{IfOk, IfErr};
ghost use Rattle.std.specs.FinMap as map;
ghost use Rattle.ledger_spec.specs.Own.{own_forms};
ghost use Rattle.rotating_store.specs.Stores.{nodes_of};
ghost use Rattle.rotating_store.specs.Reading.{IsReadable};
ghost use Rattle.ledger_spec.specs.Bytes.{is_nonzero};
ghost use Rattle.ledger_spec.specs.Forms.{leaf, leaf_of};
ghost use Rattle.ledger_spec.specs.Rules.{fault_of};
ghost use Rattle.ledger_spec.specs.Findings.{seen_as, judged, held_of, sight_of, sound as belongs};
ghost use Rattle.shamap_node.specs.Nodes.{held, held_leaf, hashes_above};
ghost use Rattle.shamap_node.specs.declared.Node.TheVariants as nodes;
ghost use Rattle.shamap_node.specs.Heads.{without_data};
ghost use Rattle.missing_walk.specs.Views.{ShowsAs, HasLevels, is_inner_node};
ghost use Rattle.missing_walk.specs.Leaving.{Asks};

use half_hash::{Blob, Hash32, NodeHash};
use ledger_header::Header;
use ledger_spec::{Kind, ShapeFault};
use nib_path::NodeId;
use node_backend::{BackFault, Shelf};
use rotating_store::{RotStore, own_form_into};
use shamap_node::{Inner, Item, Leaf, Node, inner_of, leaf_head, shape};
use std::alloc::Global;
use std::sync::Arc;

/// What is seen at a place: its hash isn't stored, it breaks a rule, it has an inner node to go below, or nothing is found at it and
/// below.
#[derive(Drop)]
pub(crate) enum View {
    Missing,
    Broken(ShapeFault),
    Below(Arc<Node>),
    Nothing,
}

/// What is seen at a place below this parent, in a map of this kind, at this path. Where it is an inner node that belongs there, that
/// takes the memory of one node. A form that is held there is written into a room.
pub(crate) fn look<H: NodeHash, Sh: Shelf>(
    alloc: Global,
    store: &mut RotStore<Sh>,
    kind: Kind,
    parent: Option<&Inner>,
    id: &NodeId,
    hash: &Hash32,
    room: &mut Vec<u8>,
) -> Result<View, BackFault>
    ensures sight { IsReadable Sh.B.tells H.half store.old → IfOk result (λ v. ShowsAs v (sight_of H.half
        (λ n. fault_of n (hashes_above parent.entry) kind id.now) (own_forms H.half (map.get (nodes_of store.old)) hash.now))) }
    ensures levels { IfOk result (HasLevels (length id.now)) }
    ensures asks { Asks Sh.B.tells H.half BackFault.Fault (store.old.gets + 2) store.old store.new result }
{
    if own_form_into::<H, Sh>(alloc, store, hash, room)? {
        return Ok(judge::<H>(alloc, room, kind, parent, id)?);
    }
    Ok(View::Missing)
}

// What is seen where this form is stored. A leaf takes no memory: the allocator is that of its empty data.
fn judge<H: NodeHash>(
    alloc: Global,
    form: &[u8],
    kind: Kind,
    parent: Option<&Inner>,
    id: &NodeId,
) -> Result<View, BackFault>
    ensures shows { IfOk result (λ v.
        ShowsAs v (judged (λ n. fault_of n (hashes_above parent.entry) kind id.now) (held_of H.half form.now))) }
    ensures memory { IfErr result (λ e. e ≡ BackFault.Memory) }
{
    if let Some(inner) = inner_of(form) {
        let node = shared(alloc, inner)?;
        return Ok(judge_node(node, kind, parent, id));
    }
    if Header::from_form(form).is_some() {
        return Ok(View::Broken(ShapeFault::Foreign));
    }
    match leaf_in::<H>(alloc, form) {
        Some(leaf) => Ok(judge_leaf(leaf, kind, parent, id)),
        None => Ok(View::Broken(ShapeFault::Foreign)),
    }
}

// The inner node, to be shared.
fn shared(alloc: Global, inner: Inner) -> Result<Arc<Node>, BackFault>
    ensures node { IfOk result (λ node. node.value ≡ nodes.Inner inner) }
    ensures memory { IfErr result (λ e. e ≡ BackFault.Memory) }
{
    match Arc::new(alloc, Node::Inner(inner)) {
        Ok(node) => Ok(node),
        Err(_) => Err(BackFault::Memory),
    }
}

/// What is seen where this node stands.
pub(crate) fn judge_node(node: Arc<Node>, kind: Kind, parent: Option<&Inner>, id: &NodeId) -> View
    ensures shows { ShowsAs result (seen_as (held node.value) (fault_of (held node.value) (hashes_above parent.entry) kind id.now)) }
    ensures levels { HasLevels (length id.now) result }
{
    match shape(&node, parent, kind, id) {
        Ok(()) => below_or_nothing(node),
        Err(fault) => View::Broken(fault),
    }
}

// What is seen where this node belongs.
fn below_or_nothing(node: Arc<Node>) -> View
    ensures { ShowsAs result (belongs (held node.value)) }
{
    if is_inner(&node) {
        View::Below(node)
    } else {
        View::Nothing
    }
}

fn is_inner(node: &Node) -> bool
    ensures { result ≡ is_inner_node node.now }
{
    matches!(node, Node::Inner(_))
}

// What is seen where this leaf stands.
fn judge_leaf(leaf: Leaf, kind: Kind, parent: Option<&Inner>, id: &NodeId) -> View
    ensures { ShowsAs result (seen_as (held_leaf leaf) (fault_of (held_leaf leaf) (hashes_above parent.entry) kind id.now)) }
{
    match shape(&Node::Leaf(leaf), parent, kind, id) {
        Ok(()) => View::Nothing,
        Err(fault) => View::Broken(fault),
    }
}

// The leaf whose form the bytes are, without its data, since no rule looks at the data.
fn leaf_in<H: NodeHash>(alloc: Global, form: &[u8]) -> Option<Leaf>
    ensures { option_map held_leaf result ≡ option_map without_data (leaf_of H.half form.now) }
{
    match leaf_head::<H>(form) {
        Some(head) => leaf_with(alloc, head.kind(), head.key()),
        None => None,
    }
}

// The leaf of this key with no data, which takes no memory, unless the key is zero.
fn leaf_with(alloc: Global, kind: Kind, key: Hash32) -> Option<Leaf>
    ensures { option_map held_leaf result ≡ (if is_nonzero key then Some (leaf kind key []) else None) }
{
    match Item::new(key, Blob::new(Vec::new(alloc))) {
        Ok(item) => Some(Leaf { kind, item }),
        Err(_) => None,
    }
}

//! What is seen through a link at its place: nothing, a leaf or an inner node, of the map's own list or of the source, where it may stand
//! there by the rules of shape.
ghost use Rattle.std.specs.Prelude.{◌≡◌, ◌<◌, ℕ, length, IsTrue, IfErr, IfOk, None, Some};
ghost use Rattle.std.specs.List.{slice_get};
ghost use Rattle.std.specs.FinMap as map;
ghost use Rattle.ledger_spec.specs.Bytes.{Bytes};
ghost use Rattle.ledger_spec.specs.Rules.{fault_of};
ghost use Rattle.ledger_spec.specs.Findings.{sight_of, sound};
ghost use Rattle.shamap_node.specs.Nodes.{held};
ghost use Rattle.path_proof.specs.Sources.{LeavesSource};
ghost use Rattle.cow_map.specs.Bodies.{leaf as leaf_body, IsBelow};
ghost use Rattle.cow_map.specs.Shown.{body_of};
ghost use Rattle.cow_map.specs.Trees.{Found, found_held, found_seen, found_body, found_at};
ghost use Rattle.cow_map.specs.Ways.{lone_or, IsSourceFault};
ghost use Rattle.cow_map.specs.Looks.{SeenAs, Stops, Looks, IsPlaced};

use crate::arena::Arena;
use crate::table::Table;
use crate::{Cow, Link, Links, MapFault};
use half_hash::{Blob, Hash32, Memory, NodeHash};
use ledger_spec::{Kind, ShapeFault};
use nib_path::NodeId;
use path_proof::{FetchFault, NodeSource};
use shamap_node::{Item, Node, shape};
use std::alloc::Global;
use std::sync::Arc;

/// What a link leads to: nothing, a leaf with its key and data, or an inner node with its links.
#[derive(Drop)]
pub(crate) enum Seen {
    Nothing,
    Leaf(Hash32, Blob),
    Inner(Links),
}

/// What a link leads to at its place, in a map of this kind. What is own is tried by the rules of shape as what is the source's is;
/// `lone` says that the link is the only one of an inner node.
pub(crate) fn look<H: NodeHash, S: NodeSource<H>>(
    alloc: Global,
    arena: &Arena,
    source: &mut S,
    kind: Kind,
    lone: bool,
    id: &NodeId,
    link: &Link,
) -> Result<Seen, MapFault>
    requires { IsBelow (length arena.now) link.now }
    ensures seen { IsTrue S.tells →
        Looks id.now (lone_or lone id.now (found_at H.half (map.get (S.stored source.old)) kind arena.now id.now link.now)) result }
    ensures placed { IfOk result (IsPlaced (length arena.now) id.now) }
    ensures source { LeavesSource S.tells S.stored S.rest S.faults IsSourceFault source.old source.new result }
{
    let seen = through::<H, S>(alloc, arena, source, kind, id, link)?;
    alone(seen, lone, id)
}

// The same but for the rule of the lone leaf.
fn through<H: NodeHash, S: NodeSource<H>>(
    alloc: Global,
    arena: &Arena,
    source: &mut S,
    kind: Kind,
    id: &NodeId,
    link: &Link,
) -> Result<Seen, MapFault>
    requires { IsBelow (length arena.now) link.now }
    ensures seen { IsTrue S.tells → Looks id.now (found_at H.half (map.get (S.stored source.old)) kind arena.now id.now link.now) result }
    ensures placed { IfOk result (IsPlaced (length arena.now) id.now) }
    ensures source { LeavesSource S.tells S.stored S.rest S.faults IsSourceFault source.old source.new result }
{
    match link {
        Link::Empty => Ok(Seen::Nothing),
        Link::Own(at) => own(alloc, arena, *at, id),
        Link::Unloaded(hash) => {
            let node = load::<H, S>(alloc, source, kind, id, hash)?;
            id.known();
            Ok(of_node(alloc, &node)?)
        }
    }
}

// A leaf that is the only branch of an inner node below the root breaks the rule of the lone leaf.
fn alone(seen: Seen, lone: bool, id: &NodeId) -> Result<Seen, MapFault>
    ensures seen { (found : Found) → SeenAs found seen → Looks id.now (lone_or lone id.now found) result }
    ensures same { IfOk result (λ s. s ≡ seen) }
    ensures cause { (before after : ℕ) → IfErr result (IsSourceFault before after) }
{
    match seen {
        Seen::Leaf(..) if lone && id.depth() >= 2 => Err(MapFault::Shape {
            place: *id,
            rule: ShapeFault::LoneLeaf,
        }),
        seen => Ok(seen),
    }
}

// What the map's own node at a place of the list is.
fn own(alloc: Global, arena: &Arena, at: usize, id: &NodeId) -> Result<Seen, MapFault>
    requires { at < length arena.now }
    ensures seen { Looks id.now (found_body id.now (slice_get arena.now at)) result }
    ensures placed { IfOk result (IsPlaced (length arena.now) id.now) }
    ensures cause { (before after : ℕ) → IfErr result (IsSourceFault before after) }
{
    id.known();
    arena.known();
    match arena.get(at) {
        Cow::Leaf(item) => own_leaf(alloc, item, id),
        Cow::Inner(links) => {
            if id.depth() == 64 {
                return Err(MapFault::Shape {
                    place: *id,
                    rule: ShapeFault::InnerAtBottom,
                });
            }
            Ok(Seen::Inner(links.copy()?))
        }
    }
}

// What the map's own leaf of an item is.
fn own_leaf(alloc: Global, item: &Item, id: &NodeId) -> Result<Seen, MapFault>
    ensures seen { Looks id.now (found_body id.now (Some (leaf_body item.now.key item.now.value))) result }
    ensures placed { (n : ℕ) → IfOk result (IsPlaced n id.now) }
    ensures cause { (before after : ℕ) → IfErr result (IsSourceFault before after) }
{
    if id.depth() == 0 {
        return Err(MapFault::Shape {
            place: *id,
            rule: ShapeFault::LeafAtRoot,
        });
    }
    let key = *item.key();
    if !id.holds(&key.bytes) {
        return Err(MapFault::Shape {
            place: *id,
            rule: ShapeFault::LeafElsewhere(key),
        });
    }
    Ok(Seen::Leaf(key, Blob::from_slice(alloc, item.data())?))
}

// The source's node of a hash, which breaks no rule that doesn't look at its parent.
fn load<H: NodeHash, S: NodeSource<H>>(
    alloc: Global,
    source: &mut S,
    kind: Kind,
    id: &NodeId,
    hash: &Hash32,
) -> Result<Arc<Node>, MapFault>
    ensures node { IsTrue S.tells → IfOk result (λ node.
        sight_of H.half (λ n. fault_of n None kind id.now) (map.get (S.stored source.old) hash.now) ≡ sound (held node.value)) }
    ensures fits { IfOk result (λ node. fault_of (held node.value) None kind id.now ≡ None) }
    ensures stops { IsTrue S.tells → IfErr result
        (let sight = sight_of H.half (λ n. fault_of n None kind id.now) (map.get (S.stored source.old) hash.now) in
        Stops id.now (found_seen hash.now sight)) }
    ensures source { LeavesSource S.tells S.stored S.rest S.faults IsSourceFault source.old source.new result }
{
    match source.fetch(alloc, hash) {
        Ok(Some(node)) => match shape(&node, None, kind, id) {
            Ok(()) => Ok(node),
            Err(rule) => Err(MapFault::Shape { place: *id, rule }),
        },
        Ok(None) => Err(MapFault::Absent(*hash)),
        Err(FetchFault::Fault) => Err(MapFault::Fault),
        Err(FetchFault::Foreign) => Err(MapFault::Shape {
            place: *id,
            rule: ShapeFault::Foreign,
        }),
        Err(FetchFault::Memory) => Err(MapFault::Memory),
    }
}

// What a node of the source is.
fn of_node(alloc: Global, node: &Arc<Node>) -> Result<Seen, Memory>
    ensures { IfOk result (SeenAs (found_held (held node.now.value))) }
{
    match &**node {
        Node::Leaf(leaf) => {
            let data = Blob::from_slice(alloc, leaf.item.data())?;
            Ok(Seen::Leaf(*leaf.item.key(), data))
        }
        Node::Inner(inner) => {
            let table = Table::of_node(Arc::try_clone(node)?);
            Ok(Seen::Inner(Links::of_inner(inner, table)))
        }
    }
}

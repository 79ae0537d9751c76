//! The rules of shape: which node may stand at a place of a map.
ghost use Rattle.std.specs.Prelude.{◌≡◌};
ghost use Rattle.std.specs.Result.{result_err};
ghost use Rattle.ledger_spec.specs.Rules.{same_kind, is_lone, fault_of};
ghost use Rattle.shamap_node.specs.Nodes.{held, held_leaf, hashes_above};

use crate::{Inner, Kind, Leaf, Node, ShapeFault};
use nib_path::NodeId;

/// Whether the node may stand at its place: below this parent (none at the root), in a map of this
/// kind, at this path. The first rule that it breaks is the answer. An inner node is tried for 4, that
/// none stands at depth 64; a leaf for 1, that its kind is the map's, 5, that no leaf is the root, 2,
/// that it lies on the way to its key, and 3, that it is not the only branch of its parent unless that
/// is the root.
pub fn shape(node: &Node, parent: Option<&Inner>, kind: Kind, id: &NodeId) -> Result<(), ShapeFault>
    ensures { result_err result ≡ fault_of (held node.now) (hashes_above parent.entry) kind id.now }
{
    match node {
        Node::Inner(_) => {
            if id.depth() == 64 {
                return Err(ShapeFault::InnerAtBottom);
            }
            Ok(())
        }
        Node::Leaf(leaf) => leaf_shape(leaf, parent, kind, id),
    }
}

// The same for a leaf.
fn leaf_shape(
    leaf: &Leaf,
    parent: Option<&Inner>,
    kind: Kind,
    id: &NodeId,
) -> Result<(), ShapeFault>
    ensures { result_err result ≡ fault_of (held_leaf leaf.now) (hashes_above parent.entry) kind id.now }
{
    if !is_same(leaf.kind, kind) {
        return Err(ShapeFault::WrongKind);
    }
    if id.depth() == 0 {
        return Err(ShapeFault::LeafAtRoot);
    }
    if !id.holds(&leaf.item.key().bytes) {
        return Err(ShapeFault::LeafElsewhere(*leaf.item.key()));
    }
    if stands_alone(parent, id) {
        return Err(ShapeFault::LoneLeaf);
    }
    Ok(())
}

// Whether the two kinds are one.
fn is_same(a: Kind, b: Kind) -> bool
    ensures { result ≡ same_kind a b }
{
    match (a, b) {
        (Kind::State, Kind::State) | (Kind::Tx, Kind::Tx) | (Kind::Set, Kind::Set) => true,
        _ => false,
    }
}

// Whether a parent below the root has one branch alone that is not empty.
fn stands_alone(parent: Option<&Inner>, id: &NodeId) -> bool
    ensures { result ≡ is_lone (hashes_above parent.entry) id.now }
{
    match parent {
        None => false,
        Some(inner) => id.depth() >= 2 && inner.has_one_branch(),
    }
}

//! A place on the way from a root to a key: the hash that a node must have to stand there, and the place below it. The inner node above
//! it isn't kept here: it is the last of the nodes that lead there, which the caller has.
ghost use Rattle.std.specs.Prelude.{◌≡◌, ◌≤◌, ◌<◌, ◌+◌, ◌&&◌, if◌then◌else◌, is_none, take, List, Option, OnOk, MatchResult, ◌∷◌, [], Some};
ghost use Rattle.std.specs.Bool.{OnTrue};
ghost use Rattle.std.specs.Result.{result_err};
ghost use Rattle.std.specs.List.{slice_index_or};
ghost use Rattle.half_hash.specs.Zero.{zero_hash};
ghost use Rattle.nib_path.specs.Paths.{nibbles, nibble_of};
ghost use Rattle.ledger_spec.specs.Bytes.{Hash, same_bytes};
ghost use Rattle.ledger_spec.specs.Forms as spec;
ghost use Rattle.ledger_spec.specs.Rules.{fault_of};
ghost use Rattle.shamap_node.specs.Nodes.{held, hashes_above};
ghost use Rattle.path_proof.specs.Paths.{outcome_by, IsAbove};
ghost use Rattle.path_proof.specs.Ways.{waypoint, GoesOn};
ghost use Rattle.ledger_spec.specs.Reads as reads;
ghost use Rattle.ledger_spec.specs.Reads.{ends_at, inner_hashes};

use crate::Outcome;
use half_hash::{Hash32, NodeHash};
use nib_path::{NodeId, nibble};
use shamap_node::{Inner, Kind, Leaf, Node, ShapeFault, hash_of, shape};

/// A place on the way from a root to a key: its depth and the hash there.
#[derive(Clone, Copy)]
pub struct Waypoint {
    pub depth: u8,
    pub wanted: Hash32,
    ghost within: { depth ≤ 64 },
}

impl Waypoint {
    // The root's place.
    pub(crate) fn root(root: &Hash32) -> Waypoint
        ensures { (result.depth ≡ 0) × (result.wanted ≡ root.now) }
    {
        Waypoint {
            depth: 0,
            wanted: *root,
        }
    }

    // The place on the way to the key below this one, where an inner node stands.
    pub(crate) fn below(&self, inner: &Inner, key: &Hash32) -> Waypoint
        requires { self.now.depth < 64 }
        ensures depth { result.depth ≡ self.now.depth + 1 }
        ensures wanted { result.wanted ≡ slice_index_or inner.now.hashes (nibble_of key.now self.now.depth) zero_hash }
    {
        Waypoint {
            depth: self.depth + 1,
            wanted: inner.branch(nibble(&key.bytes, self.depth)),
        }
    }

    // The rule of shape that the node breaks here, below this inner node (none at the root).
    pub(crate) fn judge(
        &self,
        node: &Node,
        parent: Option<&Inner>,
        kind: Kind,
        key: &Hash32,
    ) -> Result<(), ShapeFault>
        ensures rule { result_err result
            ≡ fault_of (held node.now) (hashes_above parent.entry) kind (take self.now.depth (nibbles key.now)) }
        ensures above { OnOk result (IsAbove (held node.now) self.now.depth) }
    {
        key.known();
        let id = NodeId::of_key(&key.bytes, self.depth);
        shape(node, parent, kind, &id)
    }

    // Whether the node has the hash that is wanted here and may stand here, below this inner node.
    pub(crate) fn fits<H: NodeHash>(
        &self,
        node: &Node,
        parent: Option<&Inner>,
        kind: Kind,
        key: &Hash32,
    ) -> bool
        ensures fits { result ≡ (same_bytes (spec.hash_of H.half (held node.now)) self.now.wanted
            && is_none (fault_of (held node.now) (hashes_above parent.entry) kind (take self.now.depth (nibbles key.now)))) }
        ensures above { OnTrue result (IsAbove (held node.now) self.now.depth) }
    {
        hash_of::<H>(node).equals(&self.wanted) && self.judge(node, parent, kind, key).is_ok()
    }

    // The place below the node on the way to the key, or what a path that ends with the node says.
    pub(crate) fn after(&self, node: &Node, key: &Hash32) -> Result<Waypoint, Outcome>
        requires { IsAbove (held node.now) self.now.depth }
        ensures { MatchResult result
            (λ s. (above : Option (List Hash)) → GoesOn key.now (waypoint self.now.depth above self.now.wanted) (held node.now)
            (waypoint s.depth (inner_hashes (held node.now)) s.wanted))
            (λ o. ends_at key.now self.now.depth (held node.now) ≡ Some (outcome_by (held node.now ∷ []) o)) }
    {
        let inner = match node {
            Node::Inner(inner) => inner,
            Node::Leaf(leaf) => return Err(leaf_says(leaf, key)),
        };
        let below = self.below(inner, key);
        if below.wanted.is_zero() {
            return Err(Outcome::Nothing);
        }
        Ok(below)
    }
}

// What a leaf says of the key.
pub(crate) fn leaf_says(leaf: &Leaf, key: &Hash32) -> Outcome
    ensures { outcome_by (held (Node.Leaf leaf.now) ∷ []) result
        ≡ (if same_bytes leaf.now.item.key key.now then reads.value leaf.now.item.value else reads.nothing) }
{
    if leaf.item.key().equals(key) {
        Outcome::Value
    } else {
        Outcome::Nothing
    }
}

//! What a path of nodes says of a key. It is asked of nobody: who has the root and the path can judge the answer.
ghost use Rattle.std.specs.Prelude.{◌≡◌, ◌≢◌, IfSome, [], ◌∷◌, Some};
ghost use Rattle.std.specs.Option.{option_map};
ghost use Rattle.ledger_spec.specs.Reads as spec;
ghost use Rattle.ledger_spec.specs.Reads.{IsKey, AreNodes, AnswersOrShows};
ghost use Rattle.shamap_node.specs.Nodes.{held};
ghost use Rattle.path_proof.specs.Paths.{held_nodes, outcome_by, IsAbove};

use crate::Outcome;
use crate::waypoints::{Waypoint, leaf_says};
use half_hash::{Hash32, NodeHash, known_half};
use nib_path::NodeId;
use shamap_node::{Inner, Kind, Node};
use std::sync::Arc;

/// What the nodes say of the key, where they are a path to it: each of the hash that the one before
/// names for the key's next nibble, the first of the root hash, each fit for its place, and the last
/// a leaf or an inner node whose next branch is empty. For the zero root the path has no node. It takes
/// no memory.
pub fn follow<H: NodeHash>(
    root: &Hash32,
    kind: Kind,
    key: &Hash32,
    used: &[Arc<Node>],
) -> Option<Outcome>
    ensures exact { option_map (outcome_by (held_nodes used.now)) result ≡ spec.follow H.half kind root.now key.now (held_nodes used.now) }

    // it is the answer of each map of states or transactions with this root, or the nodes show two with one hash
    ensures law { IfSome result (λ o. kind ≢ Kind.Set →
        AnswersOrShows H.half kind root.now key.now (held_nodes used.now) (outcome_by (held_nodes used.now) o)) }

    // so it is for maps of sets, where each leaf of the nodes has its hash as its key
    ensures sets { IfSome result (λ o. AreNodes H.half kind (held_nodes used.now) →
        AnswersOrShows H.half kind root.now key.now (held_nodes used.now) (outcome_by (held_nodes used.now) o)) }
{
    known_key(key);
    known_half::<H>();
    path_says::<H>(root, kind, key, used)
}

/// For proofs: a key is 32 bytes, each of two nibbles. The call changes nothing.
pub fn known_key(key: &Hash32)
    ensures { IsKey key.now }
{
    key.known();
    NodeId::of_key(&key.bytes, 64).known();
}

// The same as `follow`.
fn path_says<H: NodeHash>(
    root: &Hash32,
    kind: Kind,
    key: &Hash32,
    used: &[Arc<Node>],
) -> Option<Outcome>
    ensures { option_map (outcome_by (held_nodes used.now)) result ≡ spec.follow H.half kind root.now key.now (held_nodes used.now) }
{
    if root.is_zero() {
        return if used.is_empty() {
            Some(Outcome::Nothing)
        } else {
            None
        };
    }
    let mut waypoint = Waypoint::root(root);
    let mut parent: Option<&Inner> = None;
    let mut rest = used;
    while let Some((node, after)) = rest.split_first() {
        if !waypoint.fits::<H>(node, parent, kind, key) {
            return None;
        }
        if after.is_empty() {
            return last_says(node, &waypoint, key);
        }
        let Node::Inner(inner) = &**node else {
            return None;
        };
        waypoint = waypoint.below(inner, key);
        parent = Some(inner);
        rest = after;
    }
    None
}

// What the last node of a path says.
fn last_says(node: &Node, waypoint: &Waypoint, key: &Hash32) -> Option<Outcome>
    requires { IsAbove (held node.now) waypoint.now.depth }
    ensures { option_map (outcome_by (held node.now ∷ [])) result ≡ spec.ends_at key.now waypoint.now.depth (held node.now) }
{
    match node {
        Node::Inner(inner) => {
            if waypoint.below(inner, key).wanted.is_zero() {
                Some(Outcome::Nothing)
            } else {
                None
            }
        }
        Node::Leaf(leaf) => Some(leaf_says(leaf, key)),
    }
}

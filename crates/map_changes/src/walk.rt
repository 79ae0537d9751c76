//! A walk of two maps at once that share nodes: a branch at which both have one node is passed over whole.
ghost use Rattle.std.specs.Prelude.{◌≡◌, ◌<◌, ◌≤◌, ◌++◌, ◌∷◌, [], ℕ, List, Option, None, Some, map, length};
ghost use Rattle.std.specs.Prelude.{if◌then◌else◌, ◌≢◌, IfOk, OnOk, MatchBool};
ghost use Rattle.std.specs.List.{flat_map};
ghost use Rattle.ledger_spec.specs.Bytes.{branches, same_bytes};
ghost use Rattle.ledger_spec.specs.Forms.{Held, form_of};
ghost use Rattle.map_changes.specs.Placed.{Placed, changed};
ghost use Rattle.map_changes.specs.Given.{given};
ghost use Rattle.map_changes.specs.Walks.{placed_at, old_kid, itself, shared_nodes};

use crate::PlacedNode;
use half_hash::{Memory, NodeHash};
use nib_path::NodeId;
use std::alloc::Global;

/// Nodes that maps share: a map is one of them, its root, or none.
pub(crate) trait Shared<H: NodeHash> {
    /// What a node is.
    ghost held: { Self → ℕ → Held };

    /// The node at a branch, if there is one.
    ghost kid: { Self → ℕ → ℕ → Option ℕ };

    /// The node at a branch.
    fn child(&self, node: usize, b: u8) -> Option<usize>
        requires { b < 16 }
        ensures { result ≡ kid self.now node b };

    /// A node at a place, with its hash and its wire form.
    fn show(&self, alloc: Global, node: usize, place: NodeId) -> Result<PlacedNode, Memory>
        ensures { IfOk result (λ p. p ≡ given H.half (placed_at place (held self.now node))) };

    /// Whether two nodes have one form.
    fn has_form_of(&self, alloc: Global, node: usize, other: usize) -> Result<bool, Memory>
        ensures { IfOk result (λ same. same ≡ same_bytes (form_of (held self.now node)) (form_of (held self.now other))) };
}

/// The node at a branch of another map's node, if there are both.
fn old_child<H: NodeHash, T: Shared<H>>(tree: &T, old: Option<usize>, b: u8) -> Option<usize>
    requires { b < 16 }
    ensures { result ≡ old_kid (T.kid tree.now) old b }
{
    match old {
        Some(node) => tree.child(node, b),
        None => None,
    }
}

/// Lists a node, unless the other map's has its form.
fn list_itself<H: NodeHash, T: Shared<H>>(
    alloc: Global,
    tree: &T,
    node: usize,
    old: Option<usize>,
    place: NodeId,
    out: &mut Vec<PlacedNode>,
) -> Result<(), Memory>
    ensures { OnOk result (out.new.items ≡ out.old.items ++ map (given H.half) (itself (T.held tree.now) place node old)) }
{
    let same = match old {
        Some(other) => tree.has_form_of(alloc, node, other)?,
        None => false,
    };
    if !same {
        out.push(tree.show(alloc, node, place)?)?;
    }
    Ok(())
}

/// Whether both maps have one node here, or none.
fn is_shared(new: Option<usize>, old: Option<usize>) -> bool
    ensures { MatchBool result (new ≡ old) (new ≢ old) }
{
    new == old
}

/// Lists the nodes of a map, at a place and below it, whose place holds another node or none in
/// another map, in pre-order. What both share isn't looked at.
#[cycle(walk)]
pub(crate) fn walk<H: NodeHash, T: Shared<H>>(
    alloc: Global,
    tree: &T,
    new: Option<usize>,
    old: Option<usize>,
    place: NodeId,
    out: &mut Vec<PlacedNode>,
) -> Result<(), Memory>
    ensures { OnOk result (out.new.items ≡ out.old.items ++ map (given H.half) (changed
        (shared_nodes (T.held tree.now) (T.kid tree.now) old place)
        (shared_nodes (T.held tree.now) (T.kid tree.now) new place))) }
{
    let Some(node) = new else {
        return Ok(());
    };
    if is_shared(new, old) {
        return Ok(());
    }
    place.known();
    list_itself(alloc, tree, node, old, place, out)?;
    for b in 0..16 {
        walk_branch(alloc, tree, node, old, place, b, out)?;
    }
    Ok(())
}

// The same for the places below a branch of a node. Where the map has no node there, nothing more is looked at.
#[cycle(walk)]
fn walk_branch<H: NodeHash, T: Shared<H>>(
    alloc: Global,
    tree: &T,
    node: usize,
    old: Option<usize>,
    place: NodeId,
    b: u8,
    out: &mut Vec<PlacedNode>,
) -> Result<(), Memory>
    requires { b < 16 }
    ensures { OnOk result (out.new.items ≡ out.old.items ++ map (given H.half) (changed
        (shared_nodes (T.held tree.now) (T.kid tree.now) (old_kid (T.kid tree.now) old b) (place ++ b ∷ []))
        (shared_nodes (T.held tree.now) (T.kid tree.now) (T.kid tree.now node b) (place ++ b ∷ [])))) }
{
    let Some(new) = tree.child(node, b) else {
        return Ok(());
    };
    let Some(below) = place.child(b) else {
        return Ok(());
    };
    let before = old_child(tree, old, b);
    walk(alloc, tree, Some(new), before, below, out)
}

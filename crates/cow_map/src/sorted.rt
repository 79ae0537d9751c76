//! The nodes of a map whose items are given in the order of their keys. Each node is made once: a list of items in order has those below a
//! place side by side, so that they are taken from its end, branch by branch from the last one on.
ghost use Rattle.std.specs.Prelude.{◌≡◌, ◌<◌, ◌-◌, ◌++◌, ◌∷◌, [], ℕ, length, take, IsTrue};
ghost use Rattle.ledger_spec.specs.Maps.{hash_cmp, IsMap};
ghost use Rattle.cow_map.specs.Gathered.{entries_of};
ghost use Rattle.cow_map.specs.Taking.{ends_under as end_lies_under, EndUnder, TakesEnd};
ghost use Rattle.cow_map.specs.Trees.{fewest};

use crate::arena::Arena;
use crate::step::{below, toward};
use crate::{Link, Links};
use half_hash::Memory;
use nib_path::NodeId;
use shamap_node::Item;
use std::alloc::Global;

/// Makes an inner node over the items at the end of a list whose keys lie under a place, and takes them off. There are enough of them
/// for an inner node to stand there.
#[cycle(gather)]
pub(crate) fn inner_of(
    alloc: Global,
    arena: &mut Arena,
    rest: &mut Vec<Item>,
    id: &NodeId,
) -> Result<Link, Memory>
    requires inner { length id.now < 64 }
    requires rising { IsMap hash_cmp (entries_of rest.old.items) }
    requires enough { EndUnder (fewest id.now) id.now rest.old.items }
    ensures { TakesEnd id.now rest.old.items rest.new.items arena.old arena.new result }
{
    let mut links = Links::none();
    let mut b = 16;
    while b > 0 {
        b -= 1;
        arena.known();
        let link = link_of(alloc, arena, rest, &below(id, b))?;
        links = links.with(alloc, b, link)?;
    }
    known_branch(rest, id);
    arena.known();
    arena.push_inner(alloc, links)
}

/// Makes the nodes of the items at the end of a list whose keys lie under a place below the root, and takes them off: none, a leaf,
/// or an inner node.
#[cycle(gather)]
fn link_of(
    alloc: Global,
    arena: &mut Arena,
    rest: &mut Vec<Item>,
    id: &NodeId,
) -> Result<Link, Memory>
    requires placed { 0 < length id.now }
    requires rising { IsMap hash_cmp (entries_of rest.old.items) }
    ensures { TakesEnd id.now rest.old.items rest.new.items arena.old arena.new result }
{
    if !ends_under(rest, id) {
        return Ok(Link::Empty);
    }
    if ends_under(&rest[..rest.len() - 1], id) {
        known_inner(rest, id);
        return inner_of(alloc, arena, rest, id);
    }
    match rest.pop() {
        Some(item) => arena.push_leaf(alloc, item),
        None => Ok(Link::Empty),
    }
}

/// Whether the key of the last item lies under a place.
fn ends_under(items: &[Item], id: &NodeId) -> bool
    ensures { result ≡ end_lies_under id.now items.now }
{
    match items.last() {
        Some(item) => id.holds(&item.key().bytes),
        None => false,
    }
}

/// Tells a proof that a key which lies under an inner node's place lies under one of its branches.
fn known_branch(items: &[Item], id: &NodeId)
    requires { length id.now < 64 }
    ensures { IsTrue (end_lies_under id.now items.now)
        → (b : ℕ) × (b < 16) × IsTrue (end_lies_under (id.now ++ b ∷ []) items.now) }
{
    if let Some(item) = items.last() {
        toward(id, item.key());
    }
}

/// Tells a proof that a place under which two keys lie isn't at the bottom.
fn known_inner(items: &[Item], id: &NodeId)
    requires rising { IsMap hash_cmp (entries_of items.now) }
    requires last { IsTrue (end_lies_under id.now items.now) }
    requires second { IsTrue (end_lies_under id.now (take (length items.now - 1) items.now)) }
    ensures { length id.now < 64 }
{
    id.known();
}

//! The hashes of the nodes that the versions of a map reach, each made once. A node that an edit has replaced before any version had it is
//! passed over, and so is each that had its hash before. So the cost is that of the edits, whatever the number of versions.
ghost use Rattle.std.specs.Prelude.{◌≡◌, ℕ, Some, OnOk};
ghost use Rattle.std.specs.List.{All};
ghost use Rattle.map_changes.specs.Tracking.{place_of, AreHashes, AreClosed, IsKnown, KnowsAll};

use crate::ahead::hash_reached;
use crate::nodes::{known, place};
use cow_map::{Cow, CowMap, Link};
use half_hash::{Hash32, Memory, NodeHash};
use std::alloc::Global;
use std::thread::Threads;

/// So many nodes that aren't marked.
fn unmarked(alloc: Global, n: usize) -> Result<Vec<bool>, Memory> {
    let mut marks = Vec::new(alloc);
    for _ in 0..n {
        marks.push(false)?;
    }
    Ok(marks)
}

/// Marks the node to which a link leads.
fn mark(marks: &mut Vec<bool>, link: &Link) {
    if let Link::Own(at) = link {
        if let Some(slot) = marks.get_mut(*at) {
            *slot = true;
        }
    }
}

/// Marks the nodes to which the branches of a node lead.
fn mark_kids(map: &CowMap, marks: &mut Vec<bool>, at: usize) {
    if let Some(Cow::Inner(links)) = map.node(at) {
        for b in 0..16u8 {
            mark(marks, &links.get(b));
        }
    }
}

/// Marks the nodes to which the tops lead.
fn marked_tops(alloc: Global, map: &CowMap, tops: &[Link]) -> Result<Vec<bool>, Memory> {
    let mut marks = unmarked(alloc, map.node_count())?;
    for top in tops {
        mark(&mut marks, top);
    }
    Ok(marks)
}

/// Marks the nodes that the tops reach. Links name lower places, so that the marks of a node are set before
/// it is looked at, from the last one down.
fn reached(alloc: Global, map: &CowMap, tops: &[Link]) -> Result<Vec<bool>, Memory> {
    let mut marks = marked_tops(alloc, map, tops)?;
    let count = marks.len();
    for n in 0..count {
        let at = count - 1 - n;
        if let Some(true) = marks.get(at) {
            mark_kids(map, &mut marks, at);
        }
    }
    Ok(marks)
}

/// A place for the hash of each node that has none yet.
fn make_places<H: NodeHash>(map: &CowMap, hashes: &mut Vec<Option<Hash32>>) -> Result<(), Memory>
    requires hashes { AreHashes H.half map.now.kind map.now.nodes hashes.old.items }
    requires closed { AreClosed map.now.nodes hashes.old.items }
    ensures hashes { AreHashes H.half map.now.kind map.now.nodes hashes.new.items }
    ensures closed { AreClosed map.now.nodes hashes.new.items }
{
    for _ in hashes.len()..map.node_count() {
        hashes.push(None)?;
    }
    Ok(())
}

/// Adds the hashes of the nodes that have none yet and that the tops reach. After want of memory some may
/// be there. A top whose hash isn't known then is answered as want of memory.
pub(crate) fn fill<R: Threads + Sync, H: NodeHash>(
    rt: &R,
    alloc: Global,
    map: &CowMap,
    tops: &[Link],
    hashes: &mut Vec<Option<Hash32>>,
) -> Result<(), Memory>
    requires hashes { AreHashes H.half map.now.kind map.now.nodes hashes.old.items }
    requires closed { AreClosed map.now.nodes hashes.old.items }
    ensures hashes { AreHashes H.half map.now.kind map.now.nodes hashes.new.items }
    ensures closed { AreClosed map.now.nodes hashes.new.items }

    // then the hash at each place that a top reaches is known
    ensures all { OnOk result (All (λ top. (steps : ℕ) → KnowsAll map.now.nodes hashes.new.items steps top) tops.now) }
{
    let marks = reached(alloc, map, tops)?;
    make_places::<H>(map, hashes)?;
    hash_reached::<R, H>(rt, alloc, map, &marks, hashes)?;
    known_tops(tops, hashes)
}

/// Whether the hash of the node is known to which a top leads, if it leads to one.
fn known_top(top: &Link, hashes: &[Option<Hash32>]) -> Result<(), Memory>
    ensures { OnOk result ((i : ℕ) → place_of top.now ≡ Some i → IsKnown hashes.now i) }
{
    if let Some(at) = place(top) {
        known(hashes, at)?;
    }
    Ok(())
}

/// The same of all tops.
fn known_tops(tops: &[Link], hashes: &[Option<Hash32>]) -> Result<(), Memory>
    ensures { OnOk result (All (λ top. (i : ℕ) → place_of top ≡ Some i → IsKnown hashes.now i) tops.now) }
{
    for top in tops {
        known_top(top, hashes)?;
    }
    Ok(())
}

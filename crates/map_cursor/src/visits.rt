//! The visit of the places below a root, branches rising. It passes over what lies before the key that is asked for, and ends when the page
//! is full.
ghost use Rattle.std.specs.Prelude.{◌≡◌, ◌<◌, ◌-◌, ◌==◌, ◌||◌, ◌++◌, ◌∷◌, [], length, OnOk};
ghost use Rattle.std.specs.FinMap as map;
ghost use Rattle.std.specs.List.{range_with_len, slice_index_or};
ghost use Rattle.half_hash.specs.Zero.{zero_hash, is_zero as all_zero};
ghost use Rattle.ledger_spec.specs.Pages.{page_from, in_turn, is_passed, is_skipped};
ghost use Rattle.shamap_node.specs.Nodes.{hashes_above};
ghost use Rattle.path_proof.specs.Sources.{LeavesSource, RoseIf};
ghost use Rattle.map_cursor.specs.Shown.{shown, HasFurther};
ghost use Rattle.map_cursor.specs.Visits.{Visits, branch_reading};

use crate::Page;
use crate::paging::inner_in;
use half_hash::{Hash32, NodeHash};
use nib_path::NodeId;
use path_proof::{NodeSource, ReadFault, known_key, node_at};
use shamap_node::{Inner, Kind};
use std::alloc::Global;

/// What is asked: at most so many items of a map of this kind, behind this key.
#[derive(Clone, Copy)]
pub(crate) struct Query {
    pub kind: Kind,
    pub after: Hash32,
    pub most: usize,
}

impl Query {
    // Whether nothing is wanted from a place with this hash, after so many items.
    fn skips(&self, id: &NodeId, wanted: &Hash32, found: usize) -> bool
        ensures { result ≡ is_skipped self.now.after id.now wanted.now (self.now.most - found) }
    {
        found >= self.most || wanted.is_zero() || is_before(id, &self.after)
    }
}

// Whether each key that lies under the place is less than this one. The first of them tells of most places that they aren't before it.
fn is_before(id: &NodeId, after: &Hash32) -> bool
    ensures { result ≡ is_passed after.now id.now }
{
    id.known();
    known_key(after);
    let first = Hash32 { bytes: id.id() };
    if !first.cmp(after).is_lt() {
        return false;
    }
    let reached = NodeId::of_key(&after.bytes, id.depth());
    first
        .cmp(&Hash32 {
            bytes: reached.id(),
        })
        .is_lt()
}

/// Adds to the page what is found at a place and below it: the place with this hash, below this inner
/// node (none at the root).
#[cycle(visits)]
pub(crate) fn visit<H: NodeHash, S: NodeSource<H>>(
    alloc: Global,
    source: &mut S,
    query: &Query,
    parent: Option<&Inner>,
    id: &NodeId,
    wanted: &Hash32,
    page: &mut Page,
) -> Result<(), ReadFault>
    ensures visited { Visits H.half query.now.kind S.tells (map.get (S.stored source.old))
        (page_from H.half query.now.kind query.now.after (64 - length id.now) (hashes_above parent.entry) id.now wanted.now)
        query.now.most (shown page.old) (shown page.new) result }
    ensures further { OnOk result (HasFurther query.now.after page.old → HasFurther query.now.after page.new) }
    ensures source { LeavesSource S.tells S.stored S.rest S.faults (RoseIf ReadFault.Fault) source.old source.new result }
{
    if query.skips(id, wanted, page.leaves.len()) {
        return Ok(());
    }
    id.known();
    let node = node_at::<H, S>(alloc, source, query.kind, parent, id, wanted)?;
    let Some(inner) = inner_in(&node) else {
        let Ok(()) = page.take(node, &query.after) else {
            return Err(ReadFault::Memory);
        };
        return Ok(());
    };
    let Ok(()) = page.take_shared(&node, &query.after) else {
        return Err(ReadFault::Memory);
    };
    visit_branches::<H, S>(alloc, source, query, inner, id, page)?;
    Ok(())
}

// Adds what is found below an inner node.
#[cycle(visits)]
#[inline(always)]
fn visit_branches<H: NodeHash, S: NodeSource<H>>(
    alloc: Global,
    source: &mut S,
    query: &Query,
    inner: &Inner,
    id: &NodeId,
    page: &mut Page,
) -> Result<(), ReadFault>
    requires { length id.now < 64 }
    ensures visited { Visits H.half query.now.kind S.tells (map.get (S.stored source.old))
        (in_turn (branch_reading H.half query.now.kind query.now.after (63 - length id.now) inner.now.hashes id.now) (range_with_len 0 16))
        query.now.most (shown page.old) (shown page.new) result }
    ensures further { OnOk result (HasFurther query.now.after page.old → HasFurther query.now.after page.new) }
    ensures source { LeavesSource S.tells S.stored S.rest S.faults (RoseIf ReadFault.Fault) source.old source.new result }
{
    let hashes = inner.hashes();
    for b in 0..16u8 {
        let wanted = &hashes[b as usize];
        if wanted.is_zero() {
            continue;
        }
        visit_branch::<H, S>(alloc, source, query, inner, id, b, wanted, page)?;
    }
    Ok(())
}

// Adds what is found below a branch of an inner node, where it has this hash.
#[cycle(visits)]
#[inline(always)]
fn visit_branch<H: NodeHash, S: NodeSource<H>>(
    alloc: Global,
    source: &mut S,
    query: &Query,
    inner: &Inner,
    id: &NodeId,
    b: u8,
    wanted: &Hash32,
    page: &mut Page,
) -> Result<(), ReadFault>
    requires levels { length id.now < 64 }
    requires branch { b < 16 }
    requires hash { wanted.now ≡ slice_index_or inner.now.hashes b zero_hash }
    ensures visited { Visits H.half query.now.kind S.tells (map.get (S.stored source.old))
        (branch_reading H.half query.now.kind query.now.after (63 - length id.now) inner.now.hashes id.now b)
        query.now.most (shown page.old) (shown page.new) result }
    ensures further { OnOk result (HasFurther query.now.after page.old → HasFurther query.now.after page.new) }
    ensures source { LeavesSource S.tells S.stored S.rest S.faults (RoseIf ReadFault.Fault) source.old source.new result }
{
    let Some(below) = id.child(b) else {
        unreachable!();
    };
    visit::<H, S>(alloc, source, query, Some(inner), &below, wanted, page)
}

//! `remove`: the nodes on the way to a key are made anew without its leaf. An inner node that is left with one leaf alone gives way to it,
//! and one that is left with nothing goes.
ghost use Rattle.std.specs.Prelude.{◌≡◌, ◌≢◌, ◌<◌, ◌-◌, ℕ, length, IsTrue, IfOk, MatchOption};
ghost use Rattle.std.specs.List.{slice_index_or};
ghost use Rattle.std.specs.FinMap as map;
ghost use Rattle.path_proof.specs.Sources.{LeavesSource};
ghost use Rattle.cow_map.specs.declared.link.Link.TheVariants.{Empty as empty_link};
ghost use Rattle.cow_map.specs.Bodies.{IsBelow};
ghost use Rattle.cow_map.specs.Edits.{Counts, EditsMap, IsBelowIf, IsLeaf, IsOnWay, MakesNodes, MapGrowsBy, MayStand, RemovesKey};
ghost use Rattle.cow_map.specs.Edits.{StandsIn, StaysUnlessThere, TakesKey};
ghost use Rattle.cow_map.specs.declared.link.Only.TheVariants as only;
ghost use Rattle.cow_map.specs.Trees.{found_at};
ghost use Rattle.cow_map.specs.Ways.{removal_stop_at, stop_here, Goes, IsSourceFault, removal_stop_of};

use crate::arena::Arena;
use crate::link::Only;
use crate::look::{Seen, look};
use crate::map::CowMap;
use crate::step::{below, toward};
use crate::{Link, Links, MapFault};
use half_hash::{Hash32, NodeHash};
use ledger_spec::Kind;
use nib_path::NodeId;
use path_proof::NodeSource;
use std::alloc::Global;

impl CowMap {
    /// Removes a key, and tells whether it was there.
    pub fn remove<H: NodeHash, S: NodeSource<H>>(
        &mut self,
        alloc: Global,
        source: &mut S,
        key: &Hash32,
    ) -> Result<bool, MapFault>
        // what the map stood for over what the source holds, it stands for without the key
        ensures stands { IsTrue S.tells → IfOk result (RemovesKey H.half (map.get (S.stored source.old)) self.old self.new key.now) }

        // at most 64 nodes are new, and those that were there are as they were
        ensures grows { MapGrowsBy 64 self.old self.new }

        // it needs nothing of the source that wasn't needed before, and what stops it is the first such on the way, or else stands
        // beside the key's leaf as the only other branch of an inner node below the root
        ensures edits { let stored = map.get (S.stored source.old) in
            EditsMap S.tells H.half stored self.old self.new (removal_stop_of H.half stored self.old key.now) result }

        // a map without the key stays as it is, its nodes too
        ensures stays { StaysUnlessThere self.old self.new result }
        ensures source { LeavesSource S.tells S.stored S.rest S.faults IsSourceFault source.old source.new result }
    {
        let start = self.nodes.len();
        let top = self.top;
        let kind = self.kind;
        let root = NodeId::root();
        match remove_at::<H, S>(
            alloc,
            &mut self.nodes,
            source,
            kind,
            false,
            &root,
            &top,
            key,
        ) {
            Ok(Some(next)) => {
                self.top = next;
                Ok(true)
            }
            Ok(None) => {
                self.nodes.truncate(start);
                Ok(false)
            }
            Err(fault) => {
                self.nodes.truncate(start);
                Err(fault)
            }
        }
    }
}

// Removes a key from what a link stands for, at a place on the way to the key: the nodes on its way are
// made anew, and the answer is the link to the first of them, or none where the key isn't there.
fn remove_at<H: NodeHash, S: NodeSource<H>>(
    alloc: Global,
    arena: &mut Arena,
    source: &mut S,
    kind: Kind,
    lone: bool,
    id: &NodeId,
    link: &Link,
    key: &Hash32,
) -> Result<Option<Link>, MapFault>
    requires { IsOnWay arena.old id.now link.now key.now }
    ensures made { MakesNodes (64 - length id.now) IsBelowIf arena.old arena.new result }
    ensures takes { let stored = map.get (S.stored source.old) in
        TakesKey S.tells H.half stored kind arena.old arena.new lone id.now link.now key.now result }
    ensures way { IsTrue S.tells →
        let left = 64 - length id.now in
        Goes (removal_stop_at H.half (map.get (S.stored source.old)) kind arena.old left lone id.now link.now key.now) result }
    ensures source { LeavesSource S.tells S.stored S.rest S.faults IsSourceFault source.old source.new result }
{
    id.known();
    arena.known();
    match look::<H, S>(alloc, arena, source, kind, lone, id, link)? {
        Seen::Nothing => Ok(None),
        Seen::Leaf(own, _) => Ok(if_same(&own, key)),
        Seen::Inner(links) => {
            let b = toward(id, key);
            let place = below(id, b);
            let next = remove_at::<H, S>(
                alloc,
                arena,
                source,
                kind,
                links.is_only(),
                &place,
                &links.get(b),
                key,
            )?;
            match next {
                None => Ok(None),
                Some(next) => {
                    let links = links.with(alloc, b, next)?;
                    let left = settle::<H, S>(alloc, arena, source, kind, id, links)?;
                    Ok(Some(left))
                }
            }
        }
    }
}

// Nothing in the place of a leaf, if this is its key.
fn if_same(own: &Hash32, key: &Hash32) -> Option<Link>
    ensures { MatchOption result (own.now ≢ key.now) (λ link. (link ≡ empty_link) × (own.now ≡ key.now)) }
{
    if own.equals(key) {
        Some(Link::Empty)
    } else {
        None
    }
}

/// What stands in the place of an inner node with these links: nothing where none leads anywhere; below the
/// root the leaf where just one leads anywhere, and to a leaf; else an inner node.
pub(crate) fn settle<H: NodeHash, S: NodeSource<H>>(
    alloc: Global,
    arena: &mut Arena,
    source: &mut S,
    kind: Kind,
    id: &NodeId,
    links: Links,
) -> Result<Link, MapFault>
    requires inner { length id.now < 64 }
    requires below { (b : ℕ) → IsBelow (length arena.old) (slice_index_or links b empty_link) }
    ensures made { MakesNodes 1 IsBelow arena.old arena.new result }
    ensures stands { let stored = map.get (S.stored source.old) in
        StandsIn S.tells H.half stored kind arena.old arena.new id.now links result }
    ensures source { LeavesSource S.tells S.stored S.rest S.faults IsSourceFault source.old source.new result }
{
    arena.known();
    links.known();
    match links.only() {
        Only::Nowhere => Ok(Link::Empty),
        Only::One(b) => Ok(one_left::<H, S>(alloc, arena, source, kind, id, links, b)?),
        Only::Many => Ok(arena.push_inner(alloc, links)?),
    }
}

// The same where the link of this branch alone leads anywhere.
fn one_left<H: NodeHash, S: NodeSource<H>>(
    alloc: Global,
    arena: &mut Arena,
    source: &mut S,
    kind: Kind,
    id: &NodeId,
    links: Links,
    b: u8,
) -> Result<Link, MapFault>
    requires node { MayStand arena.old id.now links }
    requires only { Counts links (only.One b) }
    ensures made { MakesNodes 1 IsBelow arena.old arena.new result }
    ensures stands { let stored = map.get (S.stored source.old) in
        StandsIn S.tells H.half stored kind arena.old arena.new id.now links result }
    ensures source { LeavesSource S.tells S.stored S.rest S.faults IsSourceFault source.old source.new result }
{
    arena.known();
    links.known();
    let link = links.get(b);
    if id.depth() == 0 {
        return Ok(arena.push_inner(alloc, links)?);
    }
    if is_leaf::<H, S>(alloc, arena, source, kind, &below(id, b), &link)? {
        return Ok(link);
    }
    Ok(arena.push_inner(alloc, links)?)
}

// Whether a link leads to a leaf at its place.
fn is_leaf<H: NodeHash, S: NodeSource<H>>(
    alloc: Global,
    arena: &Arena,
    source: &mut S,
    kind: Kind,
    id: &NodeId,
    link: &Link,
) -> Result<bool, MapFault>
    requires { IsBelow (length arena.now) link.now }
    ensures leaf { IsTrue S.tells → IfOk result
        (IsLeaf id.now (found_at H.half (map.get (S.stored source.old)) kind arena.now id.now link.now)) }
    ensures way { IsTrue S.tells →
        Goes (stop_here id.now (found_at H.half (map.get (S.stored source.old)) kind arena.now id.now link.now)) result }
    ensures source { LeavesSource S.tells S.stored S.rest S.faults IsSourceFault source.old source.new result }
{
    match look::<H, S>(alloc, arena, source, kind, false, id, link)? {
        Seen::Nothing => Ok(false),
        Seen::Leaf(..) => Ok(true),
        Seen::Inner(_) => Ok(false),
    }
}

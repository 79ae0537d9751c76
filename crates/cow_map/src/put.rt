//! `put`: the nodes on the way to a key are made anew. Where another leaf stands on the way, inner nodes are put above both down to where
//! their keys part.
ghost use Rattle.std.specs.Prelude.{◌≢◌, ◌≤◌, ◌<◌, ◌-◌, ◌∷◌, ◌++◌, [], List, length, IsTrue, IfOk, ◌≡◌, OnErr, OnOk};
ghost use Rattle.std.specs.FinMap as map;
ghost use Rattle.nib_path.specs.Paths.{lies_under};
ghost use Rattle.ledger_spec.specs.declared.Kind.{Kind as KindOf};
ghost use Rattle.ledger_spec.specs.Bytes.{Bytes, Hash, Half, Lookup};
ghost use Rattle.ledger_spec.specs.Maps.{hash_cmp, insert_in};
ghost use Rattle.ledger_spec.specs.Tree.{Entry};
ghost use Rattle.path_proof.specs.Sources.{LeavesSource};
ghost use Rattle.cow_map.specs.Bodies.{IsBelow};
ghost use Rattle.cow_map.specs.Trees.{fewest, StandsAt};
ghost use Rattle.cow_map.specs.Ways.{stop_at, Goes, IsSourceFault, stop_of};
ghost use Rattle.cow_map.specs.Edits.{AreTwoBranches, AreUnder, EditsMap, IsOnWay, LeadsTo, MakesNodes, MapGrowsBy, Sets, SetsItem};

use crate::arena::Arena;
use crate::look::{Seen, look};
use crate::map::CowMap;
use crate::step::{below, known_inner, toward};
use crate::{Link, Links, MapFault};
use half_hash::{Hash32, Memory, NodeHash};
use ledger_spec::Kind;
use nib_path::NodeId;
use path_proof::NodeSource;
use shamap_node::Item;
use std::alloc::Global;

impl CowMap {
    /// Sets an item.
    pub fn put<H: NodeHash, S: NodeSource<H>>(
        &mut self,
        alloc: Global,
        source: &mut S,
        item: Item,
    ) -> Result<(), MapFault>
        // what the map stood for over what the source holds, it stands for with the item set
        ensures stands { IsTrue S.tells →
            OnOk result (SetsItem H.half (map.get (S.stored source.old)) self.old self.new item.key item.value) }

        // at most 65 nodes are new, and those that were there are as they were
        ensures grows { MapGrowsBy 65 self.old self.new }

        // it needs nothing of the source that wasn't needed before, and what stops it is the first such on the way
        ensures edits { let stored = map.get (S.stored source.old) in
            EditsMap S.tells H.half stored self.old self.new (stop_of H.half stored self.old item.key) result }
        ensures err { OnErr result (self.new ≡ self.old) }
        ensures source { LeavesSource S.tells S.stored S.rest S.faults IsSourceFault source.old source.new result }
    {
        let start = self.nodes.len();
        let top = self.top;
        let kind = self.kind;
        let root = NodeId::root();
        match put_at::<H, S>(
            alloc,
            &mut self.nodes,
            source,
            kind,
            false,
            &root,
            &top,
            item,
        ) {
            Ok(next) => {
                self.top = next;
                Ok(())
            }
            Err(fault) => {
                self.nodes.truncate(start);
                Err(fault)
            }
        }
    }
}

// Sets an item in what a link stands for, at a place on the way to its key: the nodes on its way are
// made anew, and the answer is the link to the first of them.
fn put_at<H: NodeHash, S: NodeSource<H>>(
    alloc: Global,
    arena: &mut Arena,
    source: &mut S,
    kind: Kind,
    lone: bool,
    id: &NodeId,
    link: &Link,
    item: Item,
) -> Result<Link, MapFault>
    requires { IsOnWay arena.old id.now link.now item.key }
    ensures made { MakesNodes (65 - length id.now) IsBelow arena.old arena.new result }
    ensures sets { IsTrue S.tells → IfOk result (λ next.
        let left = 64 - length id.now in
        Sets H.half (map.get (S.stored source.old)) kind arena.old arena.new left id.now link.now next item.key item.value) }
    ensures way { IsTrue S.tells →
        Goes (stop_at H.half (map.get (S.stored source.old)) kind arena.old (64 - length id.now) lone id.now link.now item.key) result }
    ensures source { LeavesSource S.tells S.stored S.rest S.faults IsSourceFault source.old source.new result }
{
    id.known();
    arena.known();
    match look::<H, S>(alloc, arena, source, kind, lone, id, link)? {
        Seen::Nothing => Ok(plant(alloc, arena, id, item)?),
        Seen::Leaf(key, _) => Ok(beside(alloc, arena, id, link, &key, item)?),
        Seen::Inner(links) => {
            let b = toward(id, item.key());
            let next = put_at::<H, S>(
                alloc,
                arena,
                source,
                kind,
                links.is_only(),
                &below(id, b),
                &links.get(b),
                item,
            )?;
            arena.known();
            let links = links.with(alloc, b, next)?;
            Ok(arena.push_inner(alloc, links)?)
        }
    }
}

// A leaf of the item, at a place where nothing stands; the root is an inner node above it.
fn plant(alloc: Global, arena: &mut Arena, id: &NodeId, item: Item) -> Result<Link, Memory>
    requires { IsTrue (lies_under id.now item.key) }
    ensures made { MakesNodes (65 - length id.now) IsBelow arena.old arena.new result }
    ensures stands { IfOk result (λ next. (half : Half) (stored : Lookup) (kind : KindOf) →
        StandsAt half stored kind arena.new (64 - length id.now) id.now next ((item.key, item.value) ∷ [])) }
{
    id.known();
    if id.depth() > 0 {
        return arena.push_leaf(alloc, item);
    }
    let b = toward(id, item.key());
    let leaf = arena.push_leaf(alloc, item)?;
    above(alloc, arena, id, b, &leaf)
}

// The item in the place of a leaf with its key, or beside one of another key.
fn beside(
    alloc: Global,
    arena: &mut Arena,
    id: &NodeId,
    old: &Link,
    old_key: &Hash32,
    item: Item,
) -> Result<Link, Memory>
    requires below { IsBelow (length arena.old) old.now }
    requires keys { AreUnder id.now old_key.now item.key }
    requires placed { 0 < length id.now }
    ensures made { MakesNodes (65 - length id.now) IsBelow arena.old arena.new result }
    ensures stands { IfOk result (λ next. (half : Half) (stored : Lookup) (kind : KindOf) (bytes : Bytes) →
        LeadsTo half stored kind arena.old old.now old_key.now bytes →
        let items = insert_in hash_cmp ((old_key.now, bytes) ∷ []) item.key item.value in
        StandsAt half stored kind arena.new (64 - length id.now) id.now next items) }
{
    id.known();
    if old_key.equals(item.key()) {
        return arena.push_leaf(alloc, item);
    }
    split(alloc, arena, id, old, old_key, item)
}

// The inner nodes down to the first nibble in which the two keys differ, with the old leaf and one of
// the item below the last.
fn split(
    alloc: Global,
    arena: &mut Arena,
    id: &NodeId,
    old: &Link,
    old_key: &Hash32,
    item: Item,
) -> Result<Link, Memory>
    requires below { IsBelow (length arena.old) old.now }
    requires keys { AreUnder id.now old_key.now item.key }
    requires differ { old_key.now ≢ item.key }
    ensures made { MakesNodes (65 - length id.now) IsBelow arena.old arena.new result }
    ensures stands { IfOk result (λ next. (half : Half) (stored : Lookup) (kind : KindOf) (bytes : Bytes) →
        LeadsTo half stored kind arena.old old.now old_key.now bytes →
        let items = insert_in hash_cmp ((old_key.now, bytes) ∷ []) item.key item.value in
        StandsAt half stored kind arena.new (64 - length id.now) id.now next items) }
{
    known_inner(id, old_key, item.key());
    let a = toward(id, old_key);
    let b = toward(id, item.key());
    if a != b {
        return fork(alloc, arena, id, old, a, b, item);
    }
    let next = split(alloc, arena, &below(id, b), old, old_key, item)?;
    above(alloc, arena, id, b, &next)
}

// An inner node with one branch.
fn above(alloc: Global, arena: &mut Arena, id: &NodeId, b: u8, next: &Link) -> Result<Link, Memory>
    requires below { IsBelow (length arena.old) next.now }
    requires inner { length id.now < 64 }
    requires branch { b < 16 }
    ensures made { MakesNodes 1 IsBelow arena.old arena.new result }
    ensures stands { IfOk result (λ link. (half : Half) (stored : Lookup) (kind : KindOf) (items : List Entry) →
        fewest id.now ≤ length items →
        StandsAt half stored kind arena.old (64 - length (id.now ++ b ∷ [])) (id.now ++ b ∷ []) next.now items →
        StandsAt half stored kind arena.new (64 - length id.now) id.now link items) }
{
    arena.known();
    let links = Links::none().with(alloc, b, *next)?;
    arena.push_inner(alloc, links)
}

// An inner node over the old leaf and one of the item, at two branches.
fn fork(
    alloc: Global,
    arena: &mut Arena,
    id: &NodeId,
    old: &Link,
    a: u8,
    b: u8,
    item: Item,
) -> Result<Link, Memory>
    requires below { IsBelow (length arena.old) old.now }
    requires branches { AreTwoBranches id.now a b }
    requires under { IsTrue (lies_under (id.now ++ b ∷ []) item.key) }
    ensures made { MakesNodes 2 IsBelow arena.old arena.new result }
    ensures stands { IfOk result (λ next. (half : Half) (stored : Lookup) (kind : KindOf) (key : Hash) (bytes : Bytes) →
        item.key ≢ key → IsTrue (lies_under (id.now ++ a ∷ []) key) → LeadsTo half stored kind arena.old old.now key bytes →
        let items = insert_in hash_cmp ((key, bytes) ∷ []) item.key item.value in
        StandsAt half stored kind arena.new (64 - length id.now) id.now next items) }
{
    arena.known();
    let leaf = arena.push_leaf(alloc, item)?;
    let links = Links::none().with(alloc, a, *old)?.with(alloc, b, leaf)?;
    arena.push_inner(alloc, links)
}

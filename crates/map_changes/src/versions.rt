//! Maps of items of which versions are kept, and that tell what each version changes.
ghost use Rattle.std.specs.Prelude.{◌≡◌, ◌≢◌, ◌-◌, ◌++◌, ◌∷◌, ℕ, [], map, IfOk, OnOk, OnErr, MatchOption};
ghost use Rattle.std.specs.List.{All, slice_index_or};
ghost use Rattle.ledger_spec.specs.Bytes.{Items};
ghost use Rattle.ledger_spec.specs.Maps.{hash_cmp, insert_in, IsMap};
ghost use Rattle.cow_map.specs.Edits.{GrowsBy, SetsItem};
ghost use Rattle.cow_map.specs.Gathered.{nothing_held, entries_of};
ghost use Rattle.cow_map.specs.Trees.{StandsFor};
ghost use Rattle.cow_map.specs.declared.link.Link.TheVariants.{Empty as empty_link};
ghost use Rattle.map_changes.specs.Placed.{changed};
ghost use Rattle.map_changes.specs.Given.{given, IsRoot};
ghost use Rattle.map_changes.specs.Tracking.{leaves_in, items_in, versions_in, version_at, nodes_at, items_at, place_of, KnowsAll};

use crate::hashing::fill;
use crate::nodes::{have_one_form, kid, known, place, wire};
use crate::walk::{Shared, walk};
use crate::{PlacedNode, Root};
use cow_map::{CowMap, Link, MapFault, a_map_without_a_source_stands_anywhere};
use half_hash::{Hash32, Memory, NodeHash};
use nib_path::NodeId;
use path_proof::NoSource;
use shamap_node::{Item, Kind};
use std::alloc::Global;
use std::marker::{Model, PhantomData};
use std::thread::Threads;

/// A map of items of which versions are kept, the empty map first.
///
/// An edit adds the nodes on its way to a list and changes none that is there, so the node that was on top
/// when a version was kept still stands for what the map was. Versions share each node that no edit has
/// replaced. To tell what a version changes one goes down from its top and the one before at once, and not
/// below a node that is shared. The hashes of nodes are kept beside the list, by place: those that any version
/// reaches are made together, each once.
#[derive(Drop)]
pub struct Versions<H: NodeHash> {
    tree: CowMap,
    /// The top of each version.
    tops: Vec<Link>,
    /// The hash of the node at each place up to some, of those that a version reached when they were hashed.
    hashes: Vec<Option<Hash32>>,
    of: PhantomData<H>,
}

impl<H: NodeHash> Model for Versions<H> {
    ghost use Rattle.map_changes.specs.Tracking.{Tracking, Keeps};

    ghost Value = { Tracking };

    ghost view = { λ t. record { tree = t.tree; tops = t.tops.items; hashes = t.hashes.items } };

    ghost invariant = { λ t. Keeps H.half (record { tree = t.tree; tops = t.tops.items; hashes = t.hashes.items }) };
}

impl<H: NodeHash> Shared<H> for Versions<H> {
    ghost use Rattle.map_changes.specs.Tracking.{node_at, kid_at};

    ghost held = { λ t. node_at H.half t.tree.kind t.tree.nodes };

    ghost kid = { λ t. kid_at t.tree.nodes };

    fn child(&self, node: usize, b: u8) -> Option<usize> {
        kid(&self.tree, node, b)
    }

    fn show(&self, alloc: Global, node: usize, place: NodeId) -> Result<PlacedNode, Memory> {
        self.tree.known();
        let hash = known(&self.hashes, node)?;
        let blob = wire(alloc, &self.tree, &self.hashes, node)?;
        Ok(PlacedNode {
            id: place,
            hash,
            blob,
        })
    }

    fn has_form_of(&self, alloc: Global, node: usize, other: usize) -> Result<bool, Memory> {
        let same = have_one_form(alloc, &self.tree, &self.hashes, node, other)?;
        Ok(same)
    }
}

impl<H: NodeHash> Versions<H> {
    /// The empty map, which is its only version.
    pub fn new(alloc: Global, kind: Kind) -> Result<Self, Memory>
        ensures kind { IfOk result (λ m. leaves_in m ≡ kind) }
        ensures items { IfOk result (λ m. items_in m ≡ []) }
        ensures versions { IfOk result (λ m. versions_in m ≡ [] ∷ []) }
    {
        let tree = CowMap::new(alloc, kind);
        over(alloc, tree)
    }

    /// The map of items whose keys rise, of which the empty map is the only version. Each of its nodes is made once.
    pub fn from_sorted(alloc: Global, kind: Kind, items: Vec<Item>) -> Result<Self, Memory>
        requires { IsMap hash_cmp (entries_of items.items) }
        ensures kind { IfOk result (λ m. leaves_in m ≡ kind) }
        ensures items { IfOk result (λ m. items_in m ≡ entries_of items.items) }
        ensures versions { IfOk result (λ m. versions_in m ≡ [] ∷ []) }
    {
        let tree = CowMap::from_sorted(alloc, kind, items)?;
        over(alloc, tree)
    }

    /// Sets an item. Where memory is refused nothing changes.
    pub fn set(&mut self, alloc: Global, item: Item) -> Result<(), Memory>
        ensures kind { OnOk result (leaves_in self.new ≡ leaves_in self.old) }
        ensures items { OnOk result (items_in self.new ≡ insert_in hash_cmp (items_in self.old) item.key item.value) }
        ensures versions { OnOk result (versions_in self.new ≡ versions_in self.old) }
        ensures err { OnErr result (self.new ≡ self.old) }
    {
        self.tree.known();
        put_item::<H>(alloc, &mut self.tree, item)?;
        Ok(())
    }

    /// What the map is now is its next version. Where memory is refused nothing changes.
    pub fn keep(&mut self) -> Result<(), Memory>
        ensures kind { OnOk result (leaves_in self.new ≡ leaves_in self.old) }
        ensures items { OnOk result (items_in self.new ≡ items_in self.old) }
        ensures versions { OnOk result (versions_in self.new ≡ versions_in self.old ++ items_in self.old ∷ []) }
        ensures err { OnErr result (self.new ≡ self.old) }
    {
        self.tree.known();
        let top = self.tree.top();
        self.tops.push(top)?;
        Ok(())
    }

    /// Hashes the nodes that its versions reach, side by side where they are many. Where memory is refused it is the same map with the
    /// same versions; some hashes may be known that weren't.
    pub fn hash_all<R: Threads + Sync>(&mut self, rt: &R, alloc: Global) -> Result<(), Memory>
        ensures kind { leaves_in self.new ≡ leaves_in self.old }
        ensures items { items_in self.new ≡ items_in self.old }
        ensures versions { versions_in self.new ≡ versions_in self.old }
        ensures same { self.new ≡ record self.old { hashes = self.new.hashes } }

        // then the hash at each place that a version reaches is known
        ensures all { OnOk result (All (λ top. (steps : ℕ) → KnowsAll self.new.tree.nodes self.new.hashes steps top) self.new.tops) }
    {
        fill::<R, H>(rt, alloc, &self.tree, &self.tops, &mut self.hashes)
    }

    /// The root of a version, or None of the empty map. It is known once all are hashed; before that, want of
    /// memory is answered.
    pub fn root(&self, alloc: Global, n: usize) -> Result<Option<Root>, Memory>
        ensures { IfOk result (λ root. MatchOption root (version_at self.now n ≡ [])
            (λ r. (version_at self.now n ≢ []) × IsRoot H.half (leaves_in self.now) (version_at self.now n) r)) }
    {
        self.tree.known();
        let Some(at) = top_place(&self.tops, n) else {
            return Ok(None);
        };
        let hash = known(&self.hashes, at)?;
        let blob = wire(alloc, &self.tree, &self.hashes, at)?;
        Ok(Some(Root { hash, blob }))
    }

    /// The nodes of a version whose place holds another node or none in the version before, in pre-order. They are known once all are
    /// hashed; before that, want of memory is answered.
    pub fn changes(&self, alloc: Global, n: usize) -> Result<Vec<PlacedNode>, Memory>
        ensures { IfOk result (λ nodes. nodes.items ≡ map (given H.half)
            (changed (nodes_at H.half self.now (n - 1)) (nodes_at H.half self.now n))) }
    {
        self.tree.known();
        let new = top_place(&self.tops, n);
        let old = top_place(&self.tops, n.saturating_sub(1));
        let mut changes = Vec::new(alloc);
        walk::<H, Versions<H>>(alloc, self, new, old, NodeId::root(), &mut changes)?;
        Ok(changes)
    }
}

/// The place of the top of a version, if it isn't empty.
fn top_place(tops: &[Link], n: usize) -> Option<usize>
    ensures { result ≡ place_of (slice_index_or tops.now n empty_link) }
{
    match tops.get(n) {
        Some(top) => place(top),
        None => None,
    }
}

/// A map of which the empty one is the only version.
fn over<H: NodeHash>(alloc: Global, tree: CowMap) -> Result<Versions<H>, Memory>
    requires { StandsFor H.half nothing_held tree (items_at tree.nodes tree.top) }
    ensures kind { IfOk result (λ m. leaves_in m ≡ tree.kind) }
    ensures items { IfOk result (λ m. items_in m ≡ items_at tree.nodes tree.top) }
    ensures versions { IfOk result (λ m. versions_in m ≡ [] ∷ []) }
{
    let mut tops = Vec::new(alloc);
    tops.push(Link::Empty)?;
    Ok(Versions {
        tree,
        tops,
        hashes: Vec::new(alloc),
        of: PhantomData,
    })
}

/// Sets an item in a map that leaves nothing to a source. Nothing is absent or misshapen in such a map, and
/// a source that holds nothing doesn't fail, so memory is all that can be wanting.
fn put_item<H: NodeHash>(alloc: Global, map: &mut CowMap, item: Item) -> Result<(), Memory>
    requires alone { (items : Items) × StandsFor H.half nothing_held map.old items }
    ensures kind { map.new.kind ≡ map.old.kind }
    ensures grows { GrowsBy 65 map.old.nodes map.new.nodes }
    ensures stands { OnOk result (SetsItem H.half nothing_held map.old map.new item.key item.value) }
    ensures err { OnErr result (map.new ≡ map.old) }
{
    a_map_without_a_source_stands_anywhere();
    match map.put::<H, NoSource>(alloc, &mut NoSource, item) {
        Ok(()) => Ok(()),
        Err(MapFault::Memory) => Err(Memory),
        Err(_) => unreachable!(),
    }
}

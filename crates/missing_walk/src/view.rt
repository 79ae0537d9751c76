//! What a search sees at a place: what is marked or cached is not asked of the store.
ghost use Rattle.std.specs.Prelude.{◌≡◌, ◌+◌, All, IfOk, IfErr, OnOk, OnErr, length};
ghost use Rattle.ledger_spec.specs.Bytes.{Half, Lookup};
ghost use Rattle.shamap_node.specs.Nodes.{hashes_above};
ghost use Rattle.tree_laws.specs.Walks.{at_place};
ghost use Rattle.tree_cache.specs.Caching.{shown as shown_node, cached as cached_in, after_get};
ghost use Rattle.missing_walk.specs.Pending.{above, branches_in, IsOpen, IsCachedTrue};
ghost use Rattle.missing_walk.specs.Views.{Tells, ShowsAs, KeepsCache, KeepsMarks, HasLevels, MayPut};
ghost use Rattle.shamap_node.specs.declared.Node.TheVariants as nodes;
ghost use Rattle.missing_walk.specs.Leaving.{Asks, KeepsCached};
ghost use Rattle.missing_walk.specs.Sights.{SeesAt, PassesMarked};

use crate::sight::{View, judge_node, look};
use crate::todo::{Open, Todo};
use full_below::Marks;
use half_hash::{Hash32, NodeHash};
use node_backend::{BackFault, Shelf};
use rotating_store::RotStore;
use shamap_node::{Inner, Node};
use std::alloc::Global;
use std::sync::Arc;
use tree_cache::TreeCache;

/// What is seen at a place. It asks each backend at most once; a form that is held there is written into a room.
pub(crate) fn see<H: NodeHash, Sh: Shelf>(
    alloc: Global,
    store: &mut RotStore<Sh>,
    cache: &mut TreeCache,
    marks: &mut Marks,
    todo: &Todo,
    room: &mut Vec<u8>,
) -> Result<View, BackFault>
    ensures seen { SeesAt Sh.B.tells H.half store.old cache.old marks.old todo.now result }
    ensures cached { KeepsCached Sh.B.tells H.half store.old cache.old cache.new }
    ensures marks { KeepsMarks marks.old marks.new }
    ensures passes { PassesMarked store.old store.new marks.old marks.new todo.now result }
    ensures asks { Asks Sh.B.tells H.half BackFault.Fault (store.old.gets + 2) store.old store.new result }
{
    todo.at.id.known();
    // no place without a hash is put on the stack
    if todo.at.hash.is_zero() {
        return Ok(View::Nothing);
    }
    if marks.is_full(&todo.at) {
        return Ok(View::Nothing);
    }
    match cached(cache, &todo.at.hash)? {
        Some(node) => Ok(judge_node(node, todo.at.kind, inner_above(&todo.parent), &todo.at.id)),
        None => Ok(fetch::<H, Sh>(alloc, store, todo, room)?),
    }
}

// The node that is cached under the hash.
fn cached(cache: &mut TreeCache, h: &Hash32) -> Result<Option<Arc<Node>>, BackFault>
    ensures value { IfOk result (λ o. shown_node o ≡ cached_in cache.old h.now cache.old.generation) }
    ensures used { OnOk result (cache.new ≡ after_get cache.old h.now cache.old.generation) }
    ensures err { OnErr result (cache.new ≡ cache.old) }
    ensures fault { IfErr result (λ e. e ≡ BackFault.Memory) }
{
    let generation = cache.generation();
    match cache.get(h, generation) {
        Ok(node) => Ok(node),
        Err(_) => Err(BackFault::Memory),
    }
}

// The inner node above a place.
fn inner_above(parent: &Option<Arc<Node>>) -> Option<&Inner>
    ensures { hashes_above result ≡ above parent.now }
{
    match parent {
        None => None,
        Some(node) => inner_in(node),
    }
}

fn inner_in(node: &Node) -> Option<&Inner>
    ensures { hashes_above result ≡ branches_in node.now }
{
    match node {
        Node::Inner(inner) => Some(inner),
        Node::Leaf(_) => None,
    }
}

// What is seen where the store is asked.
fn fetch<H: NodeHash, Sh: Shelf>(
    alloc: Global,
    store: &mut RotStore<Sh>,
    todo: &Todo,
    room: &mut Vec<u8>,
) -> Result<View, BackFault>
    ensures shows { (nodes : Lookup) → Tells Sh.B.tells H.half store.old nodes → IfOk result (λ v. ShowsAs v
        (at_place H.half nodes todo.now.at.kind (above todo.now.parent) todo.now.at.id todo.now.at.hash)) }
    ensures levels { IfOk result (HasLevels (length todo.now.at.id)) }
    ensures asks { Asks Sh.B.tells H.half BackFault.Fault (store.old.gets + 2) store.old store.new result }
{
    let parent = inner_above(&todo.parent);
    look::<H, Sh>(
        alloc,
        store,
        todo.at.kind,
        parent,
        &todo.at.id,
        &todo.at.hash,
        room,
    )
}

/// Puts inner nodes that are held under their hashes into the cache, where memory for that is there.
pub(crate) fn keep_all(cache: &mut TreeCache, opened: &[Open])
    ensures entries { (half : Half) (nodes : Lookup) → All (IsOpen half nodes) opened.now
        → KeepsCache (IsCachedTrue half nodes) cache.old cache.new }
    ensures generation { cache.new.generation ≡ cache.old.generation }
{
    for one in opened {
        keep(cache, &one.at.hash, &one.node);
    }
}

// The inner node that is held under the hash, put into the cache where memory for that is there.
fn keep(cache: &mut TreeCache, h: &Hash32, node: &Arc<Node>)
    ensures cache { MayPut cache.old h.now node.now.value cache.new }
    ensures generation { cache.new.generation ≡ cache.old.generation }
{
    let Ok(again) = Arc::try_clone(node) else {
        return;
    };
    let generation = cache.generation();
    let _kept = cache.put_hashed(h, again, generation);
}

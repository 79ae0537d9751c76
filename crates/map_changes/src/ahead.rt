//! Nodes are hashed in rounds: in each the forms of nodes whose kids have their hashes are made, and hashed on several threads where they
//! are many. Of rounds that aren't full there are about as many as the highest version is high.
ghost use Rattle.std.specs.Prelude.{◌≡◌, ◌<◌, ℕ, true, length, Some, IfOk, OnOk};
ghost use Rattle.std.specs.List.{All, slice_index_or};
ghost use Rattle.cow_map.specs.declared.link.Link.TheVariants.{Empty as empty_link};
ghost use Rattle.ledger_spec.specs.Forms.{form_of};
ghost use Rattle.map_changes.specs.Tracking.{place_of, node_at, AreHashes, AreClosed, IsKnown, KnowsKids};
ghost use Rattle.map_changes.specs.Rounds.{HasForm, HasHash};

use crate::nodes::form;
use cow_map::{Cow, CowMap, Link, Links};
use half_hash::{Blob, Hash32, Memory, NodeHash};
use std::alloc::Global;
use std::thread;
use std::thread::Threads;

/// On so many threads.
const THREADS: usize = 4;

/// From so many nodes in a round on. Fewer are hashed before a thread has started.
const MANY: usize = 256;

/// The most forms that a round makes. An inner node's takes half a kilobyte, and all of a round stand at once.
const PORTION: usize = 2048;

/// The form of the node at a place, and its hash, once it is made.
#[derive(Drop)]
pub(crate) struct Due {
    pub(crate) place: usize,
    pub(crate) form: Blob,
    pub(crate) hash: Hash32,
}

/// Whether the hash to whose place a link leads is known.
fn is_known(hashes: &[Option<Hash32>], link: &Link) -> bool
    ensures { result ≡ true → (i : ℕ) → place_of link.now ≡ Some i → IsKnown hashes.now i }
{
    match link {
        Link::Own(at) => matches!(hashes.get(*at), Some(Some(_))),
        _ => true,
    }
}

/// Whether those are to whose places the links of an inner node lead.
fn are_known(hashes: &[Option<Hash32>], links: &Links) -> bool
    requires { length links.now ≡ 16 }
    ensures { result ≡ true → (b : ℕ) → b < 16 → (i : ℕ) → place_of (slice_index_or links.now b empty_link) ≡ Some i
        → IsKnown hashes.now i }
{
    for b in 0..16u8 {
        if !is_known(hashes, &links.get(b)) {
            return false;
        }
    }
    true
}

/// Whether the hashes of all kids of the node at a place are known.
fn knows_kids(map: &CowMap, hashes: &[Option<Hash32>], at: usize) -> bool
    ensures { result ≡ true → KnowsKids map.now.nodes hashes.now at }
{
    map.known();
    match map.node(at) {
        Some(Cow::Inner(links)) => are_known(hashes, links),
        Some(Cow::Leaf(_)) => true,
        None => true,
    }
}

/// Adds the form of the node at a place, where its hash isn't known and those of its kids are.
fn add_due<H: NodeHash>(
    alloc: Global,
    map: &CowMap,
    hashes: &[Option<Hash32>],
    at: usize,
    dues: &mut Vec<Due>,
) -> Result<(), Memory>
    requires hashes { AreHashes H.half map.now.kind map.now.nodes hashes.now }
    requires forms { All (HasForm H.half map.now.kind map.now.nodes) dues.old.items }
    ensures { OnOk result (All (HasForm H.half map.now.kind map.now.nodes) dues.new.items) }
{
    if is_known(hashes, &Link::Own(at)) || !knows_kids(map, hashes, at) {
        return Ok(());
    }
    let form = form(alloc, map, hashes, at)?;
    dues.push(Due {
        place: at,
        form,
        hash: Hash32::zero(),
    })?;
    Ok(())
}

/// The forms of the marked nodes that are to be hashed next.
fn next_dues<H: NodeHash>(
    alloc: Global,
    map: &CowMap,
    hashes: &[Option<Hash32>],
    marks: &[bool],
) -> Result<Vec<Due>, Memory>
    requires { AreHashes H.half map.now.kind map.now.nodes hashes.now }
    ensures { IfOk result (λ dues. All (HasForm H.half map.now.kind map.now.nodes) dues.items) }
{
    let mut dues = Vec::new(alloc);
    for at in 0..marks.len() {
        if marks[at] && dues.len() < PORTION {
            add_due::<H>(alloc, map, hashes, at, &mut dues)?;
        }
    }
    Ok(dues)
}

/// On how many threads so many nodes are hashed.
fn threads_for(n: usize) -> usize
    ensures { 0 < result }
{
    if n < MANY { 1 } else { THREADS }
}

/// Makes the hashes, side by side.
fn halve<R: Threads + Sync, H: NodeHash>(rt: &R, map: &CowMap, dues: &mut [Due])
    requires { All (HasForm H.half map.now.kind map.now.nodes) dues.old }
    ensures { All (HasHash H.half map.now.kind map.now.nodes) dues.new }
{
    let threads = threads_for(dues.len());
    thread::for_each_mut(
        rt,
        dues,
        threads,
        &|_, due: &mut Due|
            ensures { (due.new.place ≡ due.old.place) × (due.new.hash ≡ H.half due.old.form) }
        {
            due.hash = H::half(due.form.bytes());
        },
    );
}

/// Sets the hash of a node, where those of its kids are known.
fn settle<H: NodeHash>(map: &CowMap, hashes: &mut Vec<Option<Hash32>>, due: &Due)
    requires hashes { AreHashes H.half map.now.kind map.now.nodes hashes.old.items }
    requires closed { AreClosed map.now.nodes hashes.old.items }
    requires hash { HasHash H.half map.now.kind map.now.nodes due.now }
    ensures hashes { AreHashes H.half map.now.kind map.now.nodes hashes.new.items }
    ensures closed { AreClosed map.now.nodes hashes.new.items }
{
    map.known();
    let at = due.place;
    if at < map.node_count() && at < hashes.len() && knows_kids(map, hashes, at) {
        hashes[at] = Some(due.hash);
    }
}

/// Sets the hashes of all.
fn settle_all<H: NodeHash>(map: &CowMap, hashes: &mut Vec<Option<Hash32>>, dues: &[Due])
    requires hashes { AreHashes H.half map.now.kind map.now.nodes hashes.old.items }
    requires closed { AreClosed map.now.nodes hashes.old.items }
    requires made { All (HasHash H.half map.now.kind map.now.nodes) dues.now }
    ensures hashes { AreHashes H.half map.now.kind map.now.nodes hashes.new.items }
    ensures closed { AreClosed map.now.nodes hashes.new.items }
{
    for due in dues {
        settle::<H>(map, hashes, due);
    }
}

/// Adds the hashes of the marked nodes that have none yet, round by round. After want of memory some may be there.
pub(crate) fn hash_reached<R: Threads + Sync, H: NodeHash>(
    rt: &R,
    alloc: Global,
    map: &CowMap,
    marks: &[bool],
    hashes: &mut Vec<Option<Hash32>>,
) -> Result<(), Memory>
    requires hashes { AreHashes H.half map.now.kind map.now.nodes hashes.old.items }
    requires closed { AreClosed map.now.nodes hashes.old.items }
    ensures hashes { AreHashes H.half map.now.kind map.now.nodes hashes.new.items }
    ensures closed { AreClosed map.now.nodes hashes.new.items }
{
    for _ in 0..marks.len() {
        let mut dues = next_dues::<H>(alloc, map, hashes, marks)?;
        if dues.is_empty() {
            return Ok(());
        }
        halve::<R, H>(rt, map, &mut dues);
        settle_all::<H>(map, hashes, &dues);
    }
    Ok(())
}

//! Reads outside the core's lock. Each node of the path is one that the reader keeps for itself, or comes from the cache of all readers;
//! where both lack it, it is made here of the bytes that the core gives in a section of its own: no two locks are held at once, and none
//! between two nodes. A node that comes either way has the hash that was asked for, so what the path says is known here, and nothing of it
//! is hashed as it is handed in.
ghost use Rattle.std.specs.Prelude.{◌≡◌, false, IfSome, IsTrue};
ghost use Rattle.ledger_spec.specs.Bytes.{is_zero};
ghost use Rattle.ledger_spec.specs.Forms.{hash_of};
ghost use Rattle.path_proof.specs.Sources.{HasHash};
ghost use Rattle.shamap_node.specs.Nodes.{held};
ghost use Rattle.store_core.specs.Reads.{IsSaid};
ghost use Rattle.actor_pool.specs.Descents.{IsDescent};

use crate::descent::{Descent, Going, Way};
use crate::gate::{Gate, Point};
use crate::given::Given;
use crate::locked::{form_locked, forms_below_locked};
use crate::near::{Near, place_below};
use crate::shared::Pinned;
use crate::worker::Worker;
use half_hash::{Hash32, NodeHash};
use node_backend::{Backend, Shelf};
use path_proof::{Answer, FetchFault, Outcome, Progress, ReadFault, Reading, node_of_form};
use shamap_node::Node;
use std::alloc::Global;
use std::sync::{Arc, Wait};
use store_core::{Followed, ReadJob};

/// What a reader gets for each of these jobs: the nodes from the root on by the key's nibbles, and what they say; or why there are none.
/// The nodes that it lacks are given in one section, where no gate is passed. Where memory is refused the last jobs are left out.
pub(crate) fn read_outside<R: Wait, H: NodeHash, Sh: Shelf, G: Gate, J: Pinned>(
    worker: &Worker<R, H, Sh, G, J>,
    near: &mut Near<H>,
    jobs: Vec<ReadJob>,
) -> Vec<Followed<H>> {
    let mut ways = Vec::new(worker.alloc);
    let _ = ways.reserve(jobs.len());
    for job in jobs {
        if ways.push(begun(worker, near, job)).is_err() {
            break;
        }
    }
    let given = given_to(worker, near, &ways);
    let mut got = Vec::new(worker.alloc);
    let _ = got.reserve(ways.len());
    for (read, way) in ways.into_iter().enumerate() {
        if got.push(followed(worker, near, way, read, &given)).is_err() {
            break;
        }
    }
    got
}

// A job's read, as far as the nodes go that the reader has.
fn begun<R: Wait, H: NodeHash, Sh: Shelf, G: Gate, J: Pinned>(
    worker: &Worker<R, H, Sh, G, J>,
    near: &mut Near<H>,
    job: ReadJob,
) -> Way<H> {
    if job.root.is_zero() {
        let nothing = Answer {
            outcome: Outcome::Nothing,
            used: Vec::new(worker.alloc),
        };
        return Way::Ended(Followed::new(job, Ok(nothing)));
    }
    match go_near(worker, near, &job) {
        Ok(way) => way,
        Err(why) => Way::Ended(Followed::new(job, Err(why))),
    }
}

// The same below a root whose hash isn't zero.
fn go_near<R: Wait, H: NodeHash, Sh: Shelf, G: Gate, J: Pinned>(
    worker: &Worker<R, H, Sh, G, J>,
    near: &mut Near<H>,
    job: &ReadJob,
) -> Result<Way<H>, ReadFault>
    requires { is_zero job.now.root ≡ false }
{
    let mut reading = Reading::at_root(worker.alloc, &job.root);
    let mut depth: u8 = 0;
    let mut place: usize = 0;
    loop {
        let Some(node) = kept(worker, near, place, reading.wanted()) else {
            return Ok(Way::Lacks(Descent::new(Going {
                job: *job,
                reading,
                depth,
                place,
            })));
        };
        place = place_below(place, depth, &job.key);
        depth = depth.saturating_add(1);
        match reading.go_on::<H>(Ok(Some(node)), job.kind, &job.key)? {
            Progress::More(next) => reading = next,
            Progress::Done(answer) => return Ok(Way::Ended(Followed::new(*job, Ok(answer)))),
        }
    }
}

// The bytes that are lacking for these reads, where they may be given together. A reader that is alone waits for nobody, and asks for each
// node that it lacks by itself: below one of them it often has the others.
fn given_to<R: Wait, H: NodeHash, Sh: Shelf, G: Gate, J: Pinned>(
    worker: &Worker<R, H, Sh, G, J>,
    near: &Near<H>,
    ways: &[Way<H>],
) -> Given<H, Sh> {
    let mut lacks = Vec::new(worker.alloc);
    if worker.stride.reads < 2 || near.is_alone() {
        return Given::new(worker.alloc, 0);
    }
    for (read, way) in ways.iter().enumerate() {
        if let Way::Lacks(descent) = way {
            let _ = lacks.push(descent.lack(read));
        }
    }
    if lacks.is_empty() {
        return Given::new(worker.alloc, 0);
    }
    forms_below_locked(worker.rt, worker.alloc, worker.shared, worker.actor, &lacks)
}

// What a read gets to its end, with the bytes that are given for nodes.
fn followed<R: Wait, H: NodeHash, Sh: Shelf, G: Gate, J: Pinned>(
    worker: &Worker<R, H, Sh, G, J>,
    near: &mut Near<H>,
    way: Way<H>,
    read: usize,
    given: &Given<H, Sh>,
) -> Followed<H> {
    match way {
        Way::Ended(followed) => followed,
        Way::Lacks(descent) => {
            let going = descent.into_going();
            let job = going.job;
            let got = go_down(worker, near, going, read, given);
            Followed::new(job, got)
        }
    }
}

// The same where a node is lacking.
fn go_down<R: Wait, H: NodeHash, Sh: Shelf, G: Gate, J: Pinned>(
    worker: &Worker<R, H, Sh, G, J>,
    near: &mut Near<H>,
    going: Going,
    read: usize,
    given: &Given<H, Sh>,
) -> Result<Answer, ReadFault>
    requires { IsDescent H.half going.job going.reading }
    ensures { IsSaid H.half going.job result }
{
    let Going {
        job,
        mut reading,
        mut depth,
        mut place,
    } = going;
    loop {
        let node = node_of(worker, near, place, reading.wanted(), read, given);
        place = place_below(place, depth, &job.key);
        depth = depth.saturating_add(1);
        match reading.go_on::<H>(node, job.kind, &job.key)? {
            Progress::More(next) => reading = next,
            Progress::Done(answer) => return Ok(answer),
        }
    }
}

// The node of a hash, where the reader keeps a copy of it or the cache has it; want of memory is passed over.
fn kept<R: Wait, H: NodeHash, Sh: Shelf, G: Gate, J: Pinned>(
    worker: &Worker<R, H, Sh, G, J>,
    near: &mut Near<H>,
    place: usize,
    h: &Hash32,
) -> Option<Arc<Node>>
    ensures { IfSome result (λ a. hash_of H.half (held a.value) ≡ h.now) }
{
    if let Some(node) = near.find(place, h) {
        return Some(node);
    }
    shared_with(worker, near, place, h)
}

// The node of a hash, where the cache of all readers has it. The reader keeps it too.
fn shared_with<R: Wait, H: NodeHash, Sh: Shelf, G: Gate, J: Pinned>(
    worker: &Worker<R, H, Sh, G, J>,
    near: &mut Near<H>,
    place: usize,
    h: &Hash32,
) -> Option<Arc<Node>>
    ensures { IfSome result (λ a. hash_of H.half (held a.value) ≡ h.now) }
{
    let node = cached(worker, h)?;
    near.keep(worker.alloc, place, h, &node);
    Some(node)
}

// The node of a hash, where the cache of all readers has it; want of memory is passed over.
fn cached<R: Wait, H: NodeHash, Sh: Shelf, G: Gate, J: Pinned>(
    worker: &Worker<R, H, Sh, G, J>,
    h: &Hash32,
) -> Option<Arc<Node>>
    ensures { IfSome result (λ a. hash_of H.half (held a.value) ≡ h.now) }
{
    match worker.cache.get(worker.rt, h) {
        Ok(found) => found,
        Err(_) => None,
    }
}

// The node of a hash: a copy that the reader keeps, or that of the bytes which are given for it, or one from elsewhere.
fn node_of<R: Wait, H: NodeHash, Sh: Shelf, G: Gate, J: Pinned>(
    worker: &Worker<R, H, Sh, G, J>,
    near: &mut Near<H>,
    place: usize,
    h: &Hash32,
    read: usize,
    given: &Given<H, Sh>,
) -> Result<Option<Arc<Node>>, FetchFault>
    ensures { HasHash H.half h.now result }
{
    if let Some(node) = near.find(place, h) {
        return Ok(Some(node));
    }
    let Some(form) = given.find(read, h) else {
        return elsewhere(worker, near, place, h);
    };
    let node = decoded::<H, Sh>(worker.alloc, h, form.bytes())?;
    noted(worker, near, place, h, &node);
    Ok(node)
}

// The node of a hash, which the reader keeps no copy of: one that the cache has, or that of the bytes which the core gives.
fn elsewhere<R: Wait, H: NodeHash, Sh: Shelf, G: Gate, J: Pinned>(
    worker: &Worker<R, H, Sh, G, J>,
    near: &mut Near<H>,
    place: usize,
    h: &Hash32,
) -> Result<Option<Arc<Node>>, FetchFault>
    ensures { HasHash H.half h.now result }
{
    if let Some(node) = shared_with(worker, near, place, h) {
        return Ok(Some(node));
    }
    let node = fetched(worker, h)?;
    noted(worker, near, place, h, &node);
    Ok(node)
}

// Keeps the node of a hash, if there is one. Readers beside one another share no leaf: they would wait for the cache's locks for it, and
// most ask for others.
fn noted<R: Wait, H: NodeHash, Sh: Shelf, G: Gate, J: Pinned>(
    worker: &Worker<R, H, Sh, G, J>,
    near: &mut Near<H>,
    place: usize,
    h: &Hash32,
    node: &Option<Arc<Node>>,
)
    requires { IfSome node.now (λ a. hash_of H.half (held a.value) ≡ h.now) }
{
    let Some(node) = node else {
        return;
    };
    near.keep(worker.alloc, place, h, node);
    if near.is_alone() || is_inner(node) {
        keep(worker, h, node);
    }
}

// Whether a node is an inner one.
fn is_inner(node: &Node) -> bool {
    matches!(node, Node::Inner(_))
}

// The node of the bytes that the core gives for a hash in a section of its own.
fn fetched<R: Wait, H: NodeHash, Sh: Shelf, G: Gate, J: Pinned>(
    worker: &Worker<R, H, Sh, G, J>,
    h: &Hash32,
) -> Result<Option<Arc<Node>>, FetchFault>
    ensures { HasHash H.half h.now result }
{
    worker.gate.pass(worker.actor, Point::BeforeFetch);
    let form = form_locked(worker.rt, worker.alloc, worker.shared, worker.actor, h);
    worker.gate.pass(worker.actor, Point::AfterFetch);
    match form? {
        Some(form) => decoded::<H, Sh>(worker.alloc, h, form.bytes()),
        None => Ok(None),
    }
}

// The node of the bytes that are stored under a hash. They are hashed where the store doesn't tell what it holds; where it does they have
// the hash.
fn decoded<H: NodeHash, Sh: Shelf>(
    alloc: Global,
    h: &Hash32,
    form: &[u8],
) -> Result<Option<Arc<Node>>, FetchFault>
    requires { IsTrue Sh.B.tells → H.half form.now ≡ h.now }
    ensures { HasHash H.half h.now result }
{
    if Sh::B::is_telling() {
        node_of_form(alloc, h, h, form)
    } else {
        node_of_form(alloc, h, &H::half(form), form)
    }
}

// Puts a node that was fetched under this hash into the cache; want of memory is passed over.
fn keep<R: Wait, H: NodeHash, Sh: Shelf, G: Gate, J: Pinned>(
    worker: &Worker<R, H, Sh, G, J>,
    h: &Hash32,
    node: &Arc<Node>,
)
    requires { hash_of H.half (held node.now.value) ≡ h.now }
{
    if let Ok(node) = Arc::try_clone(node) {
        let _ = worker.cache.put_hashed(worker.rt, h, node);
    }
}

//! Sections of the lock round a core: each takes the lock, does one thing, and gives it back.
ghost use Rattle.std.specs.Prelude.{◌≡◌, IfOk, IfSome, IsTrue};
ghost use Rattle.actor_pool.specs.Order.{IsOf};

use crate::given::{Given, Lack};
use crate::shared::{Pinned, Section, Served, Shared, Stride, Turn};
use half_hash::{Blob, Hash32, NodeHash};
use node_backend::{Backend, Shelf};
use path_proof::FetchFault;
use read_cache::take_lock;
use std::alloc::Global;
use std::sync::{Mutex, Wait};
use store_core::{Core, Followed, ReadJob};

/// One section for the actor's next lines.
pub(crate) fn step_locked<H: NodeHash, Sh: Shelf, J: Pinned>(
    rt: &impl Wait,
    alloc: Global,
    shared: &Mutex<Shared<H, Sh, J>>,
    actor: u8,
    stride: Stride,
) -> Section {
    take_lock(rt, shared).step(alloc, actor, stride)
}

/// The reads that the actor's next lines ask for.
pub(crate) fn reads_locked<H: NodeHash, Sh: Shelf, J: Pinned>(
    rt: &impl Wait,
    alloc: Global,
    shared: &Mutex<Shared<H, Sh, J>>,
    actor: u8,
    stride: Stride,
) -> Vec<ReadJob> {
    take_lock(rt, shared).reads(alloc, actor, stride)
}

/// The bytes that are stored under a hash, in a section of its own.
pub(crate) fn form_locked<H: NodeHash, Sh: Shelf, J: Pinned>(
    rt: &impl Wait,
    alloc: Global,
    shared: &Mutex<Shared<H, Sh, J>>,
    actor: u8,
    h: &Hash32,
) -> Result<Option<Blob>, FetchFault>
    ensures { IfOk result (λ o. IfSome o (λ form. IsTrue Sh.B.tells → H.half form ≡ h.now)) }
{
    take_lock(rt, shared).form_at(alloc, actor, h)
}

/// The bytes that these reads lack, each down to the end of its path, in one section.
pub(crate) fn forms_below_locked<H: NodeHash, Sh: Shelf, J: Pinned>(
    rt: &impl Wait,
    alloc: Global,
    shared: &Mutex<Shared<H, Sh, J>>,
    actor: u8,
    lacks: &[Lack],
) -> Given<H, Sh> {
    take_lock(rt, shared).forms_below(alloc, actor, lacks)
}

/// One section for the actor's next lines, with what a reader got for the first of them.
pub(crate) fn commit_locked<H: NodeHash, Sh: Shelf, J: Pinned>(
    rt: &impl Wait,
    alloc: Global,
    shared: &Mutex<Shared<H, Sh, J>>,
    actor: u8,
    handed: Vec<Followed<H>>,
    stride: Stride,
) -> Section {
    take_lock(rt, shared).commit(alloc, actor, handed, stride)
}

/// A turn for the caller.
pub(crate) fn turn_locked<H: NodeHash, Sh: Shelf, J: Pinned>(
    rt: &impl Wait,
    alloc: Global,
    shared: &Mutex<Shared<H, Sh, J>>,
    stride: Stride,
) -> Option<Turn> {
    take_lock(rt, shared).turn(alloc, stride)
}

/// A worker's first turn.
pub(crate) fn worker_turn_locked<H: NodeHash, Sh: Shelf, J: Pinned>(
    rt: &impl Wait,
    alloc: Global,
    shared: &Mutex<Shared<H, Sh, J>>,
    stride: Stride,
) -> Option<Turn> {
    take_lock(rt, shared).worker_turn(alloc, stride)
}

/// Hands in what the caller got in an actor's turn.
pub(crate) fn hand_in_locked<H: NodeHash, Sh: Shelf, J: Pinned>(
    rt: &impl Wait,
    alloc: Global,
    shared: &Mutex<Shared<H, Sh, J>>,
    actor: u8,
    handed: Vec<Followed<H>>,
    stride: Stride,
) {
    take_lock(rt, shared).hand_in(alloc, actor, handed, stride);
}

/// A worker's turn behind one in which it got this for an actor.
pub(crate) fn next_turn_locked<H: NodeHash, Sh: Shelf, J: Pinned>(
    rt: &impl Wait,
    alloc: Global,
    shared: &Mutex<Shared<H, Sh, J>>,
    actor: u8,
    handed: Vec<Followed<H>>,
    stride: Stride,
) -> Option<Turn> {
    take_lock(rt, shared).next_turn(alloc, actor, handed, stride)
}

/// One section for lines of actors at whose lines nobody is.
pub(crate) fn serve_locked<H: NodeHash, Sh: Shelf, J: Pinned>(
    rt: &impl Wait,
    alloc: Global,
    shared: &Mutex<Shared<H, Sh, J>>,
    lines: u32,
) -> Served {
    take_lock(rt, shared).serve(alloc, lines)
}

/// The same where the lock is free.
pub(crate) fn try_serve_locked<H: NodeHash, Sh: Shelf, J: Pinned>(
    alloc: Global,
    shared: &Mutex<Shared<H, Sh, J>>,
    lines: u32,
) -> Option<Served> {
    Some(shared.try_lock()?.serve(alloc, lines))
}

/// Notes that nobody is at an actor's lines any more.
pub(crate) fn free_locked<H: NodeHash, Sh: Shelf, J: Pinned>(
    rt: &impl Wait,
    shared: &Mutex<Shared<H, Sh, J>>,
    actor: u8,
) {
    take_lock(rt, shared).set_free(actor);
}

/// How many lines have their entries.
pub(crate) fn answered_locked<H: NodeHash, Sh: Shelf, J: Pinned>(
    rt: &impl Wait,
    shared: &Mutex<Shared<H, Sh, J>>,
) -> usize {
    take_lock(rt, shared).answered()
}

/// Whether the actor has a line left.
pub(crate) fn is_left_locked<H: NodeHash, Sh: Shelf, J: Pinned>(
    rt: &impl Wait,
    shared: &Mutex<Shared<H, Sh, J>>,
    actor: u8,
) -> bool {
    take_lock(rt, shared).is_left(actor)
}

/// The core of a lock that goes out of use.
pub(crate) fn unlocked<H: NodeHash, Sh: Shelf, J: Pinned>(
    shared: Mutex<Shared<H, Sh, J>>,
) -> Core<H, Sh>
    ensures { IsOf J.run result }
{
    shared.into_inner().into_core()
}

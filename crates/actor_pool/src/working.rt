//! What a worker does: its actor's lines, one section after another.

use crate::gate::{Gate, Point};
use crate::locked::{
    commit_locked, free_locked, hand_in_locked, next_turn_locked, reads_locked, step_locked,
    turn_locked, worker_turn_locked,
};
use crate::near::Near;
use crate::reading::read_outside;
use crate::shared::{Pinned, READS, Section, Shared, Stride, Turn};
use crate::worker::Worker;
use half_hash::NodeHash;
use node_backend::Shelf;
use read_cache::ReadCache;
use std::alloc::Global;
use std::sync::{Mutex, Wait};
use std::thread;
use store_core::{ReadJob, Stepped};

/// The most sections of a line that is done in slices, more than a store can make needful.
pub(crate) const SECTIONS: u32 = u32::MAX;

/// How many lines a section answers at most, where no gate is passed between them.
pub(crate) const LINES: u32 = 16;

/// How often a worker tries a line that waits before it leaves it to the next round, where a gate is passed.
const TRIES: u32 = 64;

/// What a worker does: where a gate is passed, an actor's lines, of which there are at most so many; and else the reads that actors wait
/// for.
pub(crate) fn work<R: Wait, H: NodeHash, Sh: Shelf, G: Gate, J: Pinned>(
    rt: &R,
    alloc: Global,
    shared: &Mutex<Shared<H, Sh, J>>,
    cache: &ReadCache<H>,
    gate: &G,
    actor: u8,
    lines: usize,
) {
    let worker = Worker {
        rt,
        alloc,
        shared,
        cache,
        gate,
        actor,
        stride: stride_of(gate),
    };
    let mut near = Near::new(alloc);
    if gate.is_open() {
        read_turns(&worker, &mut near);
    } else {
        run_lines(&worker, &mut near, lines);
    }
}

// Runs an actor's lines until it has none, or its next one waits each time that it is tried.
fn run_lines<R: Wait, H: NodeHash, Sh: Shelf, G: Gate, J: Pinned>(
    worker: &Worker<R, H, Sh, G, J>,
    near: &mut Near<H>,
    lines: usize,
) {
    let mut jobs = reads_locked(
        worker.rt,
        worker.alloc,
        worker.shared,
        worker.actor,
        worker.stride,
    );
    for _ in 0..lines {
        match answer(worker, near, jobs) {
            Some(next) => jobs = next,
            None => break,
        }
    }
    free_locked(worker.rt, worker.shared, worker.actor);
}

// Reads for one actor after the other, each in its turn, until none waits for it.
fn read_turns<R: Wait, H: NodeHash, Sh: Shelf, G: Gate, J: Pinned>(
    worker: &Worker<R, H, Sh, G, J>,
    near: &mut Near<H>,
) {
    let mut next = worker_turn_locked(worker.rt, worker.alloc, worker.shared, worker.stride);
    for _ in 0..SECTIONS {
        let Some(Turn { actor, jobs }) = next else {
            return;
        };
        let handed = read_outside(&worker.of(actor), near, jobs);
        next = next_turn_locked(
            worker.rt,
            worker.alloc,
            worker.shared,
            actor,
            handed,
            worker.stride,
        );
    }
}

/// Reads for an actor that waits for it, for one turn, as the caller does that has nothing else to do. False where none waits.
pub(crate) fn read_turn<R: Wait, H: NodeHash, Sh: Shelf, G: Gate, J: Pinned>(
    worker: &Worker<R, H, Sh, G, J>,
    near: &mut Near<H>,
) -> bool {
    let Some(Turn { actor, jobs }) = turn_locked(
        worker.rt,
        worker.alloc,
        worker.shared,
        worker.stride,
    ) else {
        return false;
    };
    let handed = read_outside(&worker.of(actor), near, jobs);
    hand_in_locked(
        worker.rt,
        worker.alloc,
        worker.shared,
        actor,
        handed,
        worker.stride,
    );
    true
}

/// Answers what an actor's next lines ask to be read, and some of its lines behind those, for one that has no worker.
pub(crate) fn read_few<R: Wait, H: NodeHash, Sh: Shelf, G: Gate, J: Pinned>(
    worker: &Worker<R, H, Sh, G, J>,
    near: &mut Near<H>,
) {
    let jobs = reads_locked(
        worker.rt,
        worker.alloc,
        worker.shared,
        worker.actor,
        worker.stride,
    );
    let _ = answer(worker, near, jobs);
    free_locked(worker.rt, worker.shared, worker.actor);
}

// One line and one read at a time where a gate is passed between them.
pub(crate) fn stride_of<G: Gate>(gate: &G) -> Stride {
    if gate.is_open() {
        Stride {
            lines: LINES,
            reads: READS,
            tries: 1,
        }
    } else {
        Stride {
            lines: 1,
            reads: 1,
            tries: TRIES,
        }
    }
}

/// Tries the actor's next line until it is answered, at first as the reads that it and those behind it are known to ask for. It gives the
/// reads that the lines behind ask for, if any; none where there is no line, or it still waits.
fn answer<R: Wait, H: NodeHash, Sh: Shelf, G: Gate, J: Pinned>(
    worker: &Worker<R, H, Sh, G, J>,
    near: &mut Near<H>,
    jobs: Vec<ReadJob>,
) -> Option<Vec<ReadJob>> {
    let mut jobs = jobs;
    for _ in 0..worker.stride.tries {
        let Section {
            stepped,
            jobs: next,
        } = try_line(worker, near, jobs);
        match stepped {
            Stepped::Answered => {
                worker.gate.pass(worker.actor, Point::Answered);
                return Some(next);
            }
            Stepped::Blocked | Stepped::More => {
                thread::yield_now();
                jobs = reads_locked(
                    worker.rt,
                    worker.alloc,
                    worker.shared,
                    worker.actor,
                    worker.stride,
                );
            }
            Stepped::Finished => return None,
        }
    }
    None
}

/// Does sections of the actor's next line as long as each is a slice of a swap or of a check.
fn try_line<R: Wait, H: NodeHash, Sh: Shelf, G: Gate, J: Pinned>(
    worker: &Worker<R, H, Sh, G, J>,
    near: &mut Near<H>,
    jobs: Vec<ReadJob>,
) -> Section {
    let mut jobs = jobs;
    for _ in 0..SECTIONS {
        let Section {
            stepped,
            jobs: next,
        } = section(worker, near, jobs);
        match stepped {
            Stepped::More => worker.gate.pass(worker.actor, Point::BetweenSlices),
            _ => {
                return Section {
                    stepped,
                    jobs: next,
                };
            }
        }
        jobs = next;
    }
    Section {
        stepped: Stepped::More,
        jobs: Vec::new(worker.alloc),
    }
}

/// One section of the actor's next lines. Reads are done outside of the core's lock, and what they give is handed in.
fn section<R: Wait, H: NodeHash, Sh: Shelf, G: Gate, J: Pinned>(
    worker: &Worker<R, H, Sh, G, J>,
    near: &mut Near<H>,
    jobs: Vec<ReadJob>,
) -> Section {
    if jobs.is_empty() {
        worker.gate.pass(worker.actor, Point::BeforeCommit);
        return step_locked(
            worker.rt,
            worker.alloc,
            worker.shared,
            worker.actor,
            worker.stride,
        );
    }
    let handed = read_outside(worker, near, jobs);
    worker.gate.pass(worker.actor, Point::BeforeCommit);
    commit_locked(
        worker.rt,
        worker.alloc,
        worker.shared,
        worker.actor,
        handed,
        worker.stride,
    )
}

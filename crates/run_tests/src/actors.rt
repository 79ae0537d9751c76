//! Actors on threads of their own, and the points at which the gate is passed.
use crate::cores::{acted, core_of, core_over, entries, epoch};
use actor_pool::{Gate, Point};
use half_hash::{Half512, TinyHash};
use ledger_machine::{Entry, Reply, WantReply};
use node_backend::MemShelf;
use run_io::MemSource;
use std::alloc::Global;
use std::sync::atomic::{AtomicU64, Ordering};
use std::test::Fail;
use std::thread::Threads;
use store_core::Core;
use swarm_gen::{Plan, make};

/// How long an actor is held at most.
const MOST_TURNS: u32 = 100_000_000;

/// Holds each of the first two actors at its first section until the other has come to its own.
#[derive(Drop)]
struct Meeting {
    came: [AtomicU64; 2],
    gave_up: AtomicU64,
}

impl Meeting {
    fn new() -> Meeting {
        Meeting {
            came: [AtomicU64::new(0), AtomicU64::new(0)],
            gave_up: AtomicU64::new(0),
        }
    }

    fn hold(&self, mine: &AtomicU64, other: &AtomicU64) {
        if mine.swap(1, Ordering::SeqCst) == 1 {
            return;
        }
        for _ in 0..MOST_TURNS {
            if other.load(Ordering::SeqCst) == 1 {
                return;
            }
        }
        self.gave_up.store(1, Ordering::SeqCst);
    }
}

impl Gate for Meeting {
    fn pass(&self, actor: u8, point: Point) {
        let [first, second] = &self.came;
        match (actor, point) {
            (0, Point::BeforeCommit) => self.hold(first, second),
            (1, Point::BeforeCommit) => self.hold(second, first),
            _ => {}
        }
    }
}

/// Counts the sections that recorded an entry, and the points between slices.
#[derive(Drop)]
struct Counts {
    answered: AtomicU64,
    between: AtomicU64,
}

impl Counts {
    fn new() -> Counts {
        Counts {
            answered: AtomicU64::new(0),
            between: AtomicU64::new(0),
        }
    }
}

impl Gate for Counts {
    fn pass(&self, _actor: u8, point: Point) {
        match point {
            Point::BeforeCommit => {}
            Point::Answered => {
                self.answered.fetch_add(1, Ordering::SeqCst);
            }
            _ => {
                self.between.fetch_add(1, Ordering::SeqCst);
            }
        }
    }
}

/// A core of these lines, over a shelf that never fails.
fn opened(alloc: Global, lines: &str) -> Result<Core<TinyHash, MemShelf>, Fail> {
    let bytes = Vec::from_slice(alloc, lines.as_bytes())?;
    let source = MemSource::new(bytes, 500, Vec::new(alloc));
    Ok(core_over(alloc, TinyHash, source, 256).ok_or("no core")?)
}

/// Two actors with one line each.
const TWO_WANTS: &str =
    "0 want 1111111111111111111111111111111111111111111111111111111111111111 10\n\
      1 want 2222222222222222222222222222222222222222222222222222222222222222 11\n";

/// Two actors that wait for each other in turn.
const IN_TURN: &str = "1 want 1111111111111111111111111111111111111111111111111111111111111111 10\n\
      0 after 1 want 1111111111111111111111111111111111111111111111111111111111111111 10\n\
      1 after 2 want 1111111111111111111111111111111111111111111111111111111111111111 10\n";

/// How many of the entries opened an acquisition.
fn opened_in(entries: &[Entry]) -> u64 {
    let mut count: u64 = 0;
    for entry in entries {
        if matches!(&entry.reply, Reply::Want(WantReply::Opened)) {
            count = count.saturating_add(1);
        }
    }
    count
}

#[test]
fn two_actors_run_on_threads_of_their_own(rt: HostRuntime) -> Result<(), Fail> {
    let alloc = rt.alloc();
    let core = opened(alloc, TWO_WANTS)?;
    let gate = Meeting::new();
    let core = acted(&rt, alloc, core, &gate);
    assert_eq!(rt; gate.gave_up.load(Ordering::SeqCst), 0);
    let [first, second] = &gate.came;
    assert_eq!(rt; first.load(Ordering::SeqCst), 1);
    assert_eq!(rt; second.load(Ordering::SeqCst), 1);
    assert_eq!(rt; entries(&core).len(), 2);
    assert_eq!(rt; opened_in(entries(&core)), 2);
    Ok(())
}

/// Whether the entries stand as their lines do.
fn are_in_order(entries: &[Entry]) -> bool {
    let mut number: u32 = 0;
    for entry in entries {
        number = number.saturating_add(1);
        if entry.line != number {
            return false;
        }
    }
    true
}

#[test]
fn lines_wait_for_their_turn(rt: HostRuntime) -> Result<(), Fail> {
    let alloc = rt.alloc();
    let core = opened(alloc, IN_TURN)?;
    let gate = Counts::new();
    let core = acted(&rt, alloc, core, &gate);
    assert_eq!(rt; entries(&core).len(), 3);
    assert_eq!(rt; gate.answered.load(Ordering::SeqCst), 3);
    assert_eq!(rt; gate.between.load(Ordering::SeqCst), 0);
    assert!(rt; are_in_order(entries(&core)));
    Ok(())
}

/// A core of a small swarm with one rotation, whose ledgers have some hundred nodes.
fn swarmed<R: Threads + Sync>(rt: &R, alloc: Global) -> Result<Core<Half512, MemShelf>, Fail> {
    let plan = Plan {
        number: 1,
        ledgers: 9,
        items: 300,
        liars: 0,
        actors: 3,
        interval: 8,
    };
    let script = make::<R, Half512>(rt, alloc, &plan)?;
    Ok(core_of(alloc, Half512, script, 8).ok_or("no core")?)
}

#[test]
fn a_rotation_is_copied_in_slices(rt: HostRuntime) -> Result<(), Fail> {
    let alloc = rt.alloc();
    let core = swarmed(&rt, alloc)?;
    let gate = Counts::new();
    let core = acted(&rt, alloc, core, &gate);
    assert_eq!(rt;
        gate.answered.load(Ordering::SeqCst),
        entries(&core).len() as u64
    );
    assert!(rt; gate.between.load(Ordering::SeqCst) > 0);
    assert_eq!(rt; epoch(&core), 1);
    Ok(())
}

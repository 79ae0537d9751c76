//! Workers for actors, in rounds.
ghost use Rattle.std.specs.Prelude.{◌≡◌, ◌↔◌, ◌<◌, ◌+◌, ◌==◌, false, not, length};
ghost use Rattle.std.specs.List.{list_any};
ghost use Rattle.ledger_machine.specs.Runs.{Projects, IsFull};
ghost use Rattle.store_core.specs.Journal.{IsJournal};
ghost use Rattle.actor_pool.specs.Order.{IsOf, IsSameRun, AreAnswered, AreOfOne};

use crate::gate::{Gate, Point};
use crate::locked::{answered_locked, is_left_locked, serve_locked, try_serve_locked, unlocked};
use crate::near::Near;
use crate::shared::{ACTORS, Pinned, Served, Shared};
use crate::worker::Worker;
use crate::working::{LINES, SECTIONS, read_few, read_turn, stride_of, work};
use half_hash::NodeHash;
use ledger_machine::Line;
use node_backend::Shelf;
use read_cache::ReadCache;
use std::alloc::Global;
use std::marker::Brand;
use std::sync::{Mutex, Wait};
use std::thread;
use std::thread::Threads;
use store_core::{Core, Stepped};

/// How often the caller gives way before each of its tries at the lock beside workers. A worker that waits gives way once between two, so
/// it tries more often, and sooner behind a section of the caller, however long giving way takes.
const PAUSES: u32 = 3;

/// How often the caller tries the lock in this way before it waits for it as a worker does.
const TRIES: u32 = 1_000;

/// Answers every line of the core's script, over the core under one lock: each actor's by a worker of its own, but that where the gate is
/// open lines that ask for no read, or for few in a row, are answered here; and what is left undone then here too, in line order. Where
/// only one actor has lines no thread is started.
pub fn run_actors<R: Threads + Wait + Sync, H: NodeHash, Sh: Shelf, G: Gate>(
    rt: &R,
    alloc: Global,
    core: Core<H, Sh>,
    gate: &G,
) -> Core<H, Sh>
    ensures same { IsSameRun core result }
    // A run from the opening, each check exact, to a sound state, and what was received stays along it.
    ensures kept { IsJournal H.half Sh.B.tells result }
    ensures full { IsFull result.lines result.journal }
{
    let mut core = core;
    if are_several(&core.script().lines) {
        core = run_workers::<R, H, Sh, G, Brand>(rt, alloc, core, gate);
    }
    run_rest(alloc, &mut core, gate);
    // For its contract.
    let _ = core.journal();
    core
}

/// Whether more than one actor has lines. A single one needs no thread.
fn are_several(lines: &[Line]) -> bool
    ensures { (result ≡ false) ↔ AreOfOne lines.now }
{
    match lines.first() {
        Some(first) => has_others(lines, first.actor),
        None => false,
    }
}

// Whether a line is another actor's.
fn has_others(lines: &[Line], actor: u8) -> bool
    ensures { result ≡ list_any (λ l. not (l.actor == actor)) lines.now }
{
    lines.iter().any(|line| line.actor != actor)
}

/// What is done of the lines in rounds: while lines are left, and the last round answered one. The nodes that workers read stay for all
/// rounds. Where there is no memory for those nothing is done.
fn run_workers<R: Threads + Wait + Sync, H: NodeHash, Sh: Shelf, G: Gate, J: Pinned + Send + Sync>(
    rt: &R,
    alloc: Global,
    core: Core<H, Sh>,
    gate: &G,
) -> Core<H, Sh>
    requires { IsOf J.run core }
    ensures { IsOf J.run result }
{
    let Ok(cache) = ReadCache::new(alloc, core.hash()) else {
        return core;
    };
    let lines = core.script().lines.len();
    let mut answered = core.journal().len();
    let shared: Mutex<Shared<H, Sh, J>> = Mutex::new(Shared::new(core));
    while answered < lines {
        run_round(rt, alloc, &shared, &cache, gate, lines);
        let now = answered_locked(rt, &shared);
        if now <= answered {
            break;
        }
        answered = now;
    }
    unlocked(shared)
}

/// Runs workers for actors that have lines left, and waits for them: one for each where a gate is passed. Else they read for all actors
/// whose lines ask for many reads, one worker for the first of those and for each behind the second, while the lines of the others are
/// answered here, and then reads too: so there are as many threads as readers, but two at least. What one that can't be started leaves
/// undone is done by the others, or later.
fn run_round<R: Threads + Wait + Sync, H: NodeHash, Sh: Shelf, G: Gate, J: Pinned + Send + Sync>(
    rt: &R,
    alloc: Global,
    shared: &Mutex<Shared<H, Sh, J>>,
    cache: &ReadCache<H>,
    gate: &G,
    lines: usize,
) {
    thread::scope(thread::scope_env(), rt, |scope| {
        let mut from = 0;
        for _ in 0..lines {
            let Some(actor) = next_worker(rt, alloc, shared, cache, gate, from) else {
                break;
            };
            from = actor.saturating_add(1);
            let _ = scope.spawn(move || work(rt, alloc, shared, cache, gate, actor, lines));
        }
    });
}

// The next actor that is to have a worker, if any: where a gate is passed the next one from this on that has a line left.
fn next_worker<R: Wait, H: NodeHash, Sh: Shelf, G: Gate, J: Pinned>(
    rt: &R,
    alloc: Global,
    shared: &Mutex<Shared<H, Sh, J>>,
    cache: &ReadCache<H>,
    gate: &G,
    from: u8,
) -> Option<u8> {
    if gate.is_open() {
        return next_reader(rt, alloc, shared, cache, gate, from > 0);
    }
    for actor in from..ACTORS {
        if is_left_locked(rt, shared, actor) {
            return Some(actor);
        }
    }
    None
}

// Answers lines that ask for no read, or for few, until one more worker is to read for actors that ask for many, with one of those actors;
// where there is nothing else to do it reads for them itself.
fn next_reader<R: Wait, H: NodeHash, Sh: Shelf, G: Gate, J: Pinned>(
    rt: &R,
    alloc: Global,
    shared: &Mutex<Shared<H, Sh, J>>,
    cache: &ReadCache<H>,
    gate: &G,
    beside: bool,
) -> Option<u8> {
    let caller = Worker {
        rt,
        alloc,
        shared,
        cache,
        gate,
        actor: 0,
        stride: stride_of(gate),
    };
    let mut alone = Near::alone(alloc);
    let mut near = Near::new(alloc);
    for _ in 0..SECTIONS {
        match caller_section(rt, alloc, shared, beside) {
            Served::Reader(actor) => return Some(actor),
            Served::Few(actor) => read_few(&caller.of(actor), &mut alone),
            Served::Line | Served::Slice => {}
            Served::Nothing => {
                if !read_turn(&caller, &mut near) {
                    return None;
                }
            }
        }
    }
    None
}

// One section of the caller, for lines that ask for no read. Beside workers it gives way before each of its tries, so that they have the
// lock first: who takes it again at once takes it from those who wait for it.
fn caller_section<R: Wait, H: NodeHash, Sh: Shelf, J: Pinned>(
    rt: &R,
    alloc: Global,
    shared: &Mutex<Shared<H, Sh, J>>,
    beside: bool,
) -> Served {
    if beside {
        for _ in 0..TRIES {
            pause();
            if let Some(served) = try_serve_locked(alloc, shared, LINES) {
                return served;
            }
        }
    }
    serve_locked(rt, alloc, shared, LINES)
}

// Gives way for as long as a worker takes that waits to try again.
fn pause() {
    for _ in 0..PAUSES {
        thread::yield_now();
    }
}

/// Answers every line that has no entry yet, in line order. Mostly there is none, which the number of entries tells.
fn run_rest<H: NodeHash, Sh: Shelf, G: Gate>(alloc: Global, core: &mut Core<H, Sh>, gate: &G)
    ensures same { IsSameRun core.old core.new }
    ensures projects { Projects core.new.lines core.new.journal }
    ensures full { IsFull core.new.lines core.new.journal }
{
    if has_fewer_entries(core) {
        run_left(alloc, core, gate);
    }
    // For its contract.
    let _ = core.journal();
}

/// Whether there are fewer entries than lines; else each line has its own.
fn has_fewer_entries<H: NodeHash, Sh: Shelf>(core: &Core<H, Sh>) -> bool
    ensures { result ≡ false → IsFull core.now.lines core.now.journal }
{
    let entries = core.journal().len();
    if entries < core.script().lines.len() {
        return true;
    }
    false
}

/// Answers every line that has no entry yet, by a look at each.
fn run_left<H: NodeHash, Sh: Shelf, G: Gate>(alloc: Global, core: &mut Core<H, Sh>, gate: &G)
    ensures same { IsSameRun core.old core.new }
    ensures full { IsFull core.new.lines core.new.journal }
{
    for at in 0..core.script().lines.len() {
        run_line(alloc, core, gate, at);
    }
    // For their contracts.
    let _ = core.journal();
    let _ = core.script();
}

/// Answers the line at a place where it has no entry yet. Those before it have theirs, so it is its
/// actor's next one, and isn't blocked.
fn run_line<H: NodeHash, Sh: Shelf, G: Gate>(
    alloc: Global,
    core: &mut Core<H, Sh>,
    gate: &G,
    at: usize,
)
    requires within { at < length core.old.lines }
    requires before { AreAnswered core.old.lines core.old.journal at }
    ensures same { IsSameRun core.old core.new }
    ensures answered { AreAnswered core.new.lines core.new.journal (at + 1) }
{
    // For its contract: the journal projects the script.
    let _ = core.journal();
    let line = &core.script().lines[at];
    let number = line.number;
    let actor = line.actor;
    if core.is_answered(number) {
        return;
    }
    gate.pass(actor, Point::BeforeCommit);
    match core.step_whole(alloc, actor) {
        Stepped::Answered => gate.pass(actor, Point::Answered),
        _ => unreachable!(),
    }
}

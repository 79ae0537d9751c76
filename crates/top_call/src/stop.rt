//! A run on disks that stop: its journal, and how much of what it retained is whole again over what they were left with.
ghost use Rattle.std.specs.Prelude.{◌≡◌, ◌≤◌, ◌<◌, ℕ, IsTrue, None, Some, IfErr, IfOk, OnErr, OnOk, string_bytes};
ghost use Rattle.ledger_machine.specs.Records.{AreRecords};
ghost use Rattle.run_io.specs.Bytes.{Rose, Wrote, WrotePart};
ghost use Rattle.script_form.specs.Servable.{AreServable};
ghost use Rattle.stop_run.specs.Ending.{MatchEnd, HasFailed, IsExplained, wanted_memory};
ghost use Rattle.stop_run.specs.Leaving.{AreLeft};
ghost use Rattle.top_call.specs.Stopping.{stopped_text, HasStopped, HasNotRun, IsRunOf, PrintsStop};

use crate::ends::own_status;
use crate::printing::print;
use crate::status::{NO_MEMORY, SINK_FAILED, STORE_FAILED};
use actor_pool::{Gate, run_actors};
use half_hash::NodeHash;
use ledger_machine::Script;
use log_shelf::{Disk, LogShelf, MemDisk, MemRoom, Room, Unmade};
use rotating_store::Unopened;
use run_io::{AllFault, Sink, write_all};
use std::alloc::{AllocError, Global};
use std::fmt::Write;
use std::sync::Wait;
use std::thread::Threads;
use stop_run::{Reopened, StopEnd, open_stopped, reopen};
use store_core::Core;

/// What the words of a stop ask for.
#[derive(Clone, Copy)]
pub(crate) struct StopAsked {
    /// After how many changing calls the disks stop.
    pub(crate) at: u64,
    /// Which images are picked.
    pub(crate) pick: u8,
    /// How far apart rotations are.
    pub(crate) interval: u32,
    /// Whether the entries aren't printed.
    pub(crate) quiet: bool,
}

/// Runs a script over a log shelf whose disks stop, opens a core again over what they were left with, and prints both: the status, and what
/// is left.
pub(crate) fn run_stop<R: Threads + Wait + Sync, H: NodeHash, K: Sink, G: Gate>(
    rt: &R,
    alloc: Global,
    hash: H,
    script: Script,
    asked: StopAsked,
    sink: &mut K,
    gate: &G,
) -> (u8, StopEnd<H>)
    requires apart { 0 < asked.interval }
    requires lines { AreServable script.lines.items }
    requires records { AreRecords H.half script.records.items }
    ensures ended { MatchEnd result.1
        (λ c d. IsRunOf H.half script.records.items script.lines.items asked.interval c
        × HasStopped H.half (λ c. AreLeft (⟦<MemRoom as Room>⟧) (⟦<MemDisk as Disk>⟧) H.half asked.pick c.written c.archived) asked.at
        asked.interval asked.quiet (K.held sink.old) (K.held sink.new) (K.faults sink.old) (K.faults sink.new) result.0 c d)
        (λ e. HasNotRun asked.at (HasFailed e) (IsTrue (wanted_memory e)) (K.held sink.old) (K.held sink.new) (K.faults sink.old)
        (K.faults sink.new) result.0 (sink.new ≡ sink.old)) }
    ensures later { K.faults sink.old ≤ K.faults sink.new }
{
    let core = match open_stopped(alloc, hash, script, asked.interval, asked.at) {
        Ok(core) => core,
        Err(ended) => return (print_not_run(alloc, asked.at, &ended, sink), ended),
    };
    let core = run_actors(rt, alloc, core, gate);
    match reopen(rt, alloc, hash, &core, asked.pick, asked.interval) {
        Ok(reopened) => {
            let status = print_stop(alloc, &core, asked, &reopened, sink);
            (status, StopEnd::Ran(core, Some(reopened.core)))
        }
        Err(_) => {
            let status = print_alone(alloc, &core, asked.quiet, sink);
            (status, StopEnd::Ran(core, None))
        }
    }
}

// Prints the run, and then what is whole.
fn print_stop<H: NodeHash, K: Sink>(
    alloc: Global,
    core: &Core<H, LogShelf<MemRoom>>,
    asked: StopAsked,
    reopened: &Reopened<H>,
    sink: &mut K,
) -> u8
    requires { core.now.missed ≡ 0 }
    ensures prints { PrintsStop core.now asked.at asked.quiet (Some (reopened.now.kept, reopened.now.whole)) (K.held sink.old)
        (K.held sink.new) (K.faults sink.old) (K.faults sink.new) result }
    ensures later { K.faults sink.old ≤ K.faults sink.new }
{
    match print(alloc, core, sink, asked.quiet) {
        Ok(()) => {}
        Err(AllFault::Fault) => return SINK_FAILED,
        Err(AllFault::Memory) => return NO_MEMORY,
    }
    match print_last(alloc, asked.at, reopened.kept, reopened.whole, sink) {
        Ok(()) => own_status(core),
        Err(AllFault::Fault) => SINK_FAILED,
        Err(AllFault::Memory) => NO_MEMORY,
    }
}

// Prints the run alone, since memory was wanted to look at what is whole.
fn print_alone<H: NodeHash, K: Sink>(
    alloc: Global,
    core: &Core<H, LogShelf<MemRoom>>,
    quiet: bool,
    sink: &mut K,
) -> u8
    requires { core.now.missed ≡ 0 }
    ensures prints { (at : ℕ) → PrintsStop core.now at quiet None (K.held sink.old) (K.held sink.new) (K.faults sink.old)
        (K.faults sink.new) result }
    ensures later { K.faults sink.old ≤ K.faults sink.new }
{
    match print(alloc, core, sink, quiet) {
        Ok(()) => NO_MEMORY,
        Err(AllFault::Fault) => SINK_FAILED,
        Err(AllFault::Memory) => NO_MEMORY,
    }
}

// The line of how many ledgers were retained, and how many of them are whole.
fn last_line(alloc: Global, at: u64, kept: u32, whole: u32) -> Result<String, AllocError>
    ensures { IfOk result (λ text. string_bytes text ≡ stopped_text at kept whole) }
{
    let mut text = format!(in alloc; "stopped {at} kept {kept}")?;
    writeln!(text, " whole {whole}")?;
    Ok(text)
}

// Prints it.
fn print_last<K: Sink>(
    alloc: Global,
    at: u64,
    kept: u32,
    whole: u32,
    sink: &mut K,
) -> Result<(), AllFault>
    ensures wrote { OnOk result (Wrote (K.held sink.old) (K.held sink.new) (stopped_text at kept whole)) }
    ensures part { OnErr result (WrotePart (K.held sink.old) (K.held sink.new) (stopped_text at kept whole)) }
    ensures later { K.faults sink.old ≤ K.faults sink.new }
    ensures cause { IfErr result (λ e. e ≡ AllFault.Fault → Rose (K.faults sink.old) (K.faults sink.new)) }
{
    let Ok(text) = last_line(alloc, at, kept, whole) else {
        return Err(AllFault::Memory);
    };
    write_all(sink, text.as_bytes())?;
    Ok(())
}

// The status where there was no run. Where the room, a disk, the shelf or the store failed, the last line stands alone, as far as the sink
// takes it.
fn print_not_run<H: NodeHash, K: Sink>(
    alloc: Global,
    at: u64,
    ended: &StopEnd<H>,
    sink: &mut K,
) -> u8
    requires { IsExplained ended.now }
    ensures not_run { HasNotRun at (HasFailed ended.now) (IsTrue (wanted_memory ended.now)) (K.held sink.old) (K.held sink.new)
        (K.faults sink.old) (K.faults sink.new) result (sink.new ≡ sink.old) }
    ensures later { K.faults sink.old ≤ K.faults sink.new }
{
    if is_memory(ended) {
        return NO_MEMORY;
    }
    let Ok(text) = last_line(alloc, at, 0, 0) else {
        return NO_MEMORY;
    };
    match write_all(sink, text.as_bytes()) {
        Ok(()) => STORE_FAILED,
        Err(_) => STORE_FAILED,
    }
}

// Whether memory was wanted.
fn is_memory<H: NodeHash>(ended: &StopEnd<H>) -> bool
    ensures { result ≡ wanted_memory ended.now }
{
    match ended {
        StopEnd::Unmade(Unmade::Memory) => true,
        StopEnd::Unopened(Unopened::Memory) => true,
        _ => false,
    }
}

//! `ledger_run replay` reads a script from standard input, `ledger_run swarm` makes one from a plan. It is run over a store that has the
//! script's records and nothing else, and its journal is printed. `ledger_run stop` runs one on disks that stop.
#![tactic(auto)]

ghost use Rattle.std.specs.Prelude.{◌≡◌, ◌↔◌, true, ◌∷◌, [], map, IfOk, IfSome, IsSome, IsNone, MatchOption, string_bytes};
ghost use Rattle.std.specs.Process.{exit_status};
ghost use Rattle.run_words.specs.declared.words.Words.{Words};
ghost use Rattle.run_words.specs.Words.{Says};
ghost use Rattle.top_call.specs.declared.status.TheConstants.{USAGE, REFUSED, SOURCE_FAILED, STORE_FAILED, NO_MEMORY};
ghost use Rattle.top_call.specs.Asking.{Asks, AreCommand, AskForRun, interval_in, dump_in, IsPlanned};
ghost use Rattle.top_call.specs.Top.{IsOneOf, IsWhole, HasStatus, HasDumped};

use actor_pool::OpenGate;
use half_hash::{Half512, NodeHash};
use node_backend::MemShelf;
use run_io::{StdSink, StdSource};
use std::alloc::AllocError;
use std::process::ExitCode;
use std::sync::Wait;
use std::thread::Threads;
use std::{env, io, mem};
use top_call::{DumpEnd, Ended, NO_MEMORY, ledger_run, without_core};

/// How the process ends: the code, and the run that it is of.
#[derive(Drop)]
struct ProgramEnd {
    code: ExitCode,
    run: Ended<Half512, MemShelf>,
}

fn main(rt: HostRuntime) -> ExitCode {
    let ProgramEnd { code, run } = run_program(&rt, &rt);
    // The process ends, and gives all of its memory back at once.
    mem::forget(run);
    code
}

/// The run with the words behind the program's name. Words that are no text are other words than the command's. The runtime is handed in
/// twice: as itself for standard input, and by its bounds for the threads.
fn run_program<R: Threads + Wait + Sync>(rt: &HostRuntime, threads: &R) -> ProgramEnd
    ensures code { exit_status result.code ≡ result.run.status }
    ensures status { IfSome result.run.core (HasStatus (⟦<Half512 as NodeHash>⟧.half) true (exit_status result.code)) }
{
    match words_of(rt) {
        Ok(words) => run_with(rt, threads, &words),
        Err(fault) => {
            if fault.kind() == io::ErrorKind::OutOfMemory {
                exit_with(without_core(NO_MEMORY))
            } else {
                exit_with(run_on(rt, threads, &[]))
            }
        }
    }
}

/// The process ends with the run's status.
fn exit_with(run: Ended<Half512, MemShelf>) -> ProgramEnd
    ensures code { exit_status result.code ≡ run.status }
    ensures run { result.run ≡ run }
{
    ProgramEnd {
        code: ExitCode::from(run.status),
        run,
    }
}

/// The words behind the program's name.
fn words_of(rt: &HostRuntime) -> io::Result<Vec<String>> {
    let mut words = Vec::new(rt.alloc());
    let mut args = env::args(rt)?;
    let _ = args.next();
    for word in args {
        words.push(word)?;
    }
    Ok(words)
}

/// The run with these words.
fn run_with<R: Threads + Wait + Sync>(rt: &HostRuntime, threads: &R, words: &[String]) -> ProgramEnd
    ensures code { exit_status result.code ≡ result.run.status }
    ensures usage { exit_status result.code ≡ USAGE → AskForRun (map string_bytes words.now) → ⊥ }
    ensures others { (AskForRun (map string_bytes words.now) → ⊥) → IsOneOf (exit_status result.code) (USAGE ∷ NO_MEMORY ∷ []) }
    // The core and the status are those of a run.
    ensures script { IfSome result.run.core (λ c. (w : Words) → Says (map string_bytes words.now) w
        → IsPlanned (⟦<Half512 as NodeHash>⟧.half) w c.records c.lines) }
    ensures interval { IfSome result.run.core (λ c. (w : Words) → Says (map string_bytes words.now) w → c.interval ≡ interval_in w) }
    ensures whole { IfSome result.run.core (IsWhole (⟦<Half512 as NodeHash>⟧.half) true) }
    ensures status { IfSome result.run.core (HasStatus (⟦<Half512 as NodeHash>⟧.half) true (exit_status result.code)) }
    ensures dump { MatchOption result.run.core (result.run.dump ≡ DumpEnd.NotAsked) (λ c. (w : Words) → Says (map string_bytes words.now) w
        → HasDumped (dump_in w) (exit_status result.code) result.run.dump c) }
    ensures none { IsNone result.run.core → IsNone result.run.stopped
        → IsOneOf (exit_status result.code) (USAGE ∷ REFUSED ∷ SOURCE_FAILED ∷ STORE_FAILED ∷ NO_MEMORY ∷ []) }
    ensures unopened { IsSome result.run.unopened → IsNone result.run.core }
{
    match texts_of(rt, words) {
        Ok(texts) => exit_with(run_on(rt, threads, &texts)),
        Err(AllocError) => exit_with(without_core(NO_MEMORY)),
    }
}

/// The texts of the words.
fn texts_of<'a>(rt: &HostRuntime, words: &'a [String]) -> Result<Vec<&'a str>, AllocError>
    ensures { IfOk result (λ texts. map (λ t. t.now) texts.items ≡ map string_bytes words.now) }
{
    let mut texts = Vec::new(rt.alloc());
    for word in words {
        texts.push(word.as_str())?;
    }
    Ok(texts)
}

/// A run over standard input and output with SHA-512Half.
fn run_on<R: Threads + Wait + Sync>(
    rt: &HostRuntime,
    threads: &R,
    words: &[&str],
) -> Ended<Half512, MemShelf>
    ensures usage { (result.status ≡ USAGE) ↔ (AreCommand words.now → ⊥) }
    ensures script { IfSome result.core (λ c. (w : Words) → Asks words.now w
        → IsPlanned (⟦<Half512 as NodeHash>⟧.half) w c.records c.lines) }
    ensures interval { IfSome result.core (λ c. (w : Words) → Asks words.now w → c.interval ≡ interval_in w) }
    ensures whole { IfSome result.core (IsWhole (⟦<Half512 as NodeHash>⟧.half) true) }
    ensures status { IfSome result.core (HasStatus (⟦<Half512 as NodeHash>⟧.half) true result.status) }
    ensures dump { MatchOption result.core (result.dump ≡ DumpEnd.NotAsked) (λ c. (w : Words) → Asks words.now w
        → HasDumped (dump_in w) result.status result.dump c) }
    ensures none { IsNone result.core → IsNone result.stopped
        → IsOneOf result.status (USAGE ∷ REFUSED ∷ SOURCE_FAILED ∷ STORE_FAILED ∷ NO_MEMORY ∷ []) }
    ensures unopened { IsSome result.unopened → IsNone result.core }
{
    let mut source = StdSource::new(rt.stdin());
    let mut sink = StdSink::new(rt.stdout());
    let alloc = rt.alloc();
    ledger_run(
        threads,
        alloc,
        words,
        Half512,
        &mut source,
        &mut sink,
        MemShelf::new(alloc, Vec::new(alloc), Vec::new(alloc)),
        &OpenGate,
    )
}

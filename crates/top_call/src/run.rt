//! The top call: reads a script, runs it, and prints its journal.
ghost use Rattle.std.specs.Prelude.{None, Some, ◌≡◌, ◌⊎◌, IfSome, IsNone, MatchOption};
ghost use Rattle.std.specs.Prelude.{if◌then◌else◌};
ghost use Rattle.run_io.specs.Bytes.{Rose};
ghost use Rattle.rotating_store.specs.Stores.{Store};
ghost use Rattle.run_words.specs.declared.words.Words.{Words as Said};
ghost use Rattle.top_call.specs.declared.status.TheConstants.{NO_MEMORY};
ghost use Rattle.top_call.specs.Asking.{Asks, WasRead};
ghost use Rattle.top_call.specs.Top.{TellsOfRun, IsCalm, EndsWell};
ghost use Rattle.top_call.specs.Top.{IsUsage, IsScriptRefusal, HasCause, HasNotOpened};
ghost use Rattle.stop_run.specs.Leaving.{AreLeft};
ghost use Rattle.top_call.specs.Stopping.{HasStopEnd};

use crate::asking::{asked_for, has_dump, interval_of, is_quiet, script_for, stop_of};
pub use crate::dump::DumpEnd;
use crate::printing::{print_all, refuse};
use crate::status::{NO_MEMORY, SOURCE_FAILED, STORE_FAILED, USAGE};
use crate::stop::run_stop;
use actor_pool::{Gate, run_actors};
use half_hash::NodeHash;
use log_shelf::{Disk, MemDisk, MemRoom, Room};
use node_backend::Shelf;
use rotating_store::Unopened;
use run_io::{Sink, Source, write_all};
use script_form::ScriptFault;
use std::alloc::Global;
use std::sync::Wait;
use std::thread::Threads;
use stop_run::StopEnd;
use store_core::Core;

/// How a run ended, with the core that it left.
#[derive(Drop)]
pub struct Ended<H: NodeHash, Sh: Shelf> {
    /// One of the exit statuses.
    pub status: u8,
    /// The core that the run left; none where there was no run.
    pub core: Option<Core<H, Sh>>,
    /// What is left of the shelf; some only where the store wasn't opened.
    pub unopened: Option<Unopened<Sh>>,
    /// How the dump ended.
    pub dump: DumpEnd,
    /// What a run on disks that stop left; some only where the words ask for one.
    pub stopped: Option<StopEnd<H>>,
}

const USAGE_TEXT: &[u8; 33] = b"usage: ledger_run replay | swarm\n";

/// No run took place.
pub fn without_core<H: NodeHash, Sh: Shelf>(status: u8) -> Ended<H, Sh>
    ensures status { result.status ≡ status }
    ensures core { result.core ≡ None }
    ensures dump { result.dump ≡ DumpEnd.NotAsked }
    ensures unopened { result.unopened ≡ None }
    ensures stopped { result.stopped ≡ None }
{
    Ended {
        status,
        core: None,
        unopened: None,
        dump: DumpEnd::NotAsked,
        stopped: None,
    }
}

/// A run on disks that stop ended so.
fn only_stopped<H: NodeHash, Sh: Shelf>(status: u8, ended: StopEnd<H>) -> Ended<H, Sh>
    ensures status { result.status ≡ status }
    ensures core { result.core ≡ None }
    ensures dump { result.dump ≡ DumpEnd.NotAsked }
    ensures unopened { result.unopened ≡ None }
    ensures stopped { result.stopped ≡ Some ended }
{
    Ended {
        status,
        core: None,
        unopened: None,
        dump: DumpEnd::NotAsked,
        stopped: Some(ended),
    }
}

/// No run took place, since the store wasn't opened.
fn not_opened<H: NodeHash, Sh: Shelf>(unopened: Unopened<Sh>) -> Ended<H, Sh>
    ensures shelf { (s : Sh) → unopened ≡ Unopened.Shelf s → result.status ≡ STORE_FAILED }
    ensures store { (t : Store) → unopened ≡ Unopened.Store t → result.status ≡ STORE_FAILED }
    ensures memory { unopened ≡ Unopened.Memory → result.status ≡ NO_MEMORY }
    ensures core { result.core ≡ None }
    ensures dump { result.dump ≡ DumpEnd.NotAsked }
    ensures unopened { result.unopened ≡ Some unopened }
    ensures stopped { result.stopped ≡ None }
{
    let status = match &unopened {
        Unopened::Memory => NO_MEMORY,
        _ => STORE_FAILED,
    };
    Ended {
        status,
        core: None,
        unopened: Some(unopened),
        dump: DumpEnd::NotAsked,
        stopped: None,
    }
}

/// Reads a script, or makes a swarm's, answers each of its lines, and prints the journal of what was answered, of which `--quiet` leaves
/// the summary alone, and with `--dump` all that is stored then. With `--interval N` a rotation is due at N sequences, else at 256.
///
/// `stop` runs a script on disks that stop after so many changing calls, and then opens a core again over what they are left with, and says
/// how many ledgers the run retained and how many are whole in it. It doesn't use the shelf.
///
/// The first that is met is answered: other words than the commands'; want of memory; the source failed; the
/// script is refused; the store can't be opened. After the run it is the sink's failing, or want of memory in printing; then a clash,
/// a fault, also in the dump, and want of memory by the journal's replies.
pub fn ledger_run<R: Threads + Wait + Sync, H: NodeHash, S: Source, K: Sink, Sh: Shelf, G: Gate>(
    rt: &R,
    alloc: Global,
    words: &[&str],
    hash: H,
    source: &mut S,
    sink: &mut K,
    shelf: Sh,
    gate: &G,
) -> Ended<H, Sh>
    ensures run { MatchOption result.core (result.dump ≡ DumpEnd.NotAsked) (TellsOfRun H.half Sh.B.tells words.now
        (S.left source.old) (S.left source.new) (K.held sink.old) (K.held sink.new) (Sh.faults shelf) result.status result.dump) }
    ensures complete { (Rose (S.faults source.old) (S.faults source.new) → ⊥) → (Rose (K.faults sink.old) (K.faults sink.new) → ⊥)
        → IsNone result.stopped → IfSome result.core (IsCalm (Sh.faults shelf)) → IfSome result.unopened (λ u. u ≡ Unopened.Memory)
        → EndsWell H.half Sh.B.tells words.now (S.left source.old) result.status result.core }
    ensures usage { IsUsage words.now result.status (K.held sink.old) (K.held sink.new) (K.faults sink.old) (K.faults sink.new)
        (source.new ≡ source.old) }
    ensures refusal { IsScriptRefusal H.half words.now result.status (S.left source.old) (S.left source.new)
        (K.held sink.old) (K.held sink.new) (K.faults sink.old) (K.faults sink.new) result.core result.stopped }
    ensures cause { HasCause result.status (S.left source.old) (S.left source.new) (S.faults source.old) (S.faults source.new)
        (K.faults sink.old) (K.faults sink.new) result.core result.stopped (sink.new ≡ sink.old) }
    ensures opening { HasNotOpened result.status result.core result.stopped result.unopened
        (λ u. ((s : Sh) × (u ≡ Unopened.Shelf s) × Rose (Sh.faults shelf) (Sh.faults s))
        ⊎ ((t : Store) × (u ≡ Unopened.Store t) × Rose (Sh.faults shelf) t.faults))
        (λ u. u ≡ Unopened.Memory) (sink.new ≡ sink.old)
        ((w : Said) → Asks words.now w → WasRead w (S.left source.old) (S.left source.new)) }
    // A run on disks that stop, where the words ask for one: nothing that it retained is lost.
    ensures stopped { HasStopEnd H.half
        (λ pick c. AreLeft (⟦<MemRoom as Room>⟧) (⟦<MemDisk as Disk>⟧) H.half pick c.written c.archived)
        words.now (S.left source.old) (S.left source.new) (K.held sink.old) (K.held sink.new) (K.faults sink.old) (K.faults sink.new)
        result.status result.core result.stopped (sink.new ≡ sink.old) }
{
    let Some(asked) = asked_for(words) else {
        let _ = write_all(sink, USAGE_TEXT);
        return without_core(USAGE);
    };
    let script = match script_for::<R, H, S>(rt, alloc, &asked, source) {
        Ok(script) => script,
        Err(ScriptFault::Memory) => return without_core(NO_MEMORY),
        Err(ScriptFault::Fault) => return without_core(SOURCE_FAILED),
        Err(ScriptFault::Refused { line, cause }) => {
            return without_core(refuse(alloc, line, cause, sink));
        }
    };
    if let Some(stop) = stop_of(&asked) {
        let (status, ended) = run_stop(rt, alloc, hash, script, stop, sink, gate);
        return only_stopped(status, ended);
    }
    let core = match Core::open(alloc, hash, script, interval_of(&asked), shelf) {
        Ok(core) => core,
        Err(unopened) => return not_opened(unopened),
    };
    let mut core = run_actors(rt, alloc, core, gate);
    let (status, dump) = print_all(alloc, &mut core, sink, is_quiet(&asked), has_dump(&asked));
    // For its contract.
    let _ = core.journal();
    Ended {
        status,
        core: Some(core),
        unopened: None,
        dump,
        stopped: None,
    }
}

//! The core that is opened again over what a stop left, and what is whole in it.
ghost use Rattle.std.specs.Prelude.{◌≡◌, ◌<◌, IfOk};
ghost use Rattle.std.specs.List.{list_any};
ghost use Rattle.ledger_machine.specs.Records.{AreRecords};
ghost use Rattle.script_form.specs.Servable.{AreServable};
ghost use Rattle.store_core.specs.Journal.{IsNew};
ghost use Rattle.stop_run.specs.Leaving.{AreLeft};
ghost use Rattle.stop_run.specs.Looking.{is_unlucky_entry};
ghost use Rattle.stop_run.specs.Opening.{IsReopened, complete_in};

use crate::lines::looking_at;
use crate::recovered::recovered;
use actor_pool::{OpenGate, run_actors};
use half_hash::{Memory, NodeHash};
use ledger_machine::{Entry, Reply, Script};
use log_shelf::{Disk, LogShelf, MemDisk, MemRoom, Room};
use node_backend::MemShelf;
use std::alloc::Global;
use std::sync::Wait;
use std::thread::Threads;
use store_core::Core;

/// A core that was opened again, with what it was asked.
#[derive(Drop)]
pub struct Reopened<H: NodeHash> {
    /// How many ledgers the core before it retains.
    pub kept: u32,
    /// How many of them are complete.
    pub whole: u32,
    /// The core.
    pub core: Core<H, MemShelf>,
}

/// Opens a core over what a stop left of another one's store, by pick, and looks which of its retained ledgers are whole: each is wanted
/// and checked, in one thread. All of them are.
pub fn reopen<R: Threads + Wait + Sync, H: NodeHash>(
    rt: &R,
    alloc: Global,
    hash: H,
    core: &Core<H, LogShelf<MemRoom>>,
    pick: u8,
    interval: u32,
) -> Result<Reopened<H>, Memory>
    requires apart { 0 < interval }
    ensures reopened { IfOk result (λ r. IsReopened H.half (AreLeft (⟦<MemRoom as Room>⟧) (⟦<MemDisk as Disk>⟧) H.half pick core.now.written
        core.now.archived) interval core.now r.core) }
    ensures whole { IfOk result (λ r. (r.whole ≡ complete_in r.core) × (r.kept ≡ r.whole)) }
{
    // For its contract: the core's state is sound.
    let _ = core.journal();
    let hashes = core.retained(alloc)?;
    let lines = looking_at(alloc, &hashes)?;
    let records = recovered::<H>(alloc, core.store(), pick)?;
    let opened = opened(alloc, hash, Script { records, lines }, interval)?;
    let core = run_actors(rt, alloc, opened, &OpenGate);
    if is_refused(core.journal()) {
        return Err(Memory);
    }
    Ok(Reopened {
        kept: hashes.len() as u32,
        whole: core.totals().complete,
        core,
    })
}

// A core of the script over a shelf in memory.
fn opened<H: NodeHash>(
    alloc: Global,
    hash: H,
    script: Script,
    interval: u32,
) -> Result<Core<H, MemShelf>, Memory>
    requires apart { 0 < interval }
    requires lines { AreServable script.lines.items }
    requires records { AreRecords H.half script.records.items }
    ensures { IfOk result (λ c. IsNew script.records.items script.lines.items interval c) }
{
    let shelf = MemShelf::new(alloc, Vec::new(alloc), Vec::new(alloc));
    match Core::open(alloc, hash, script, interval, shelf) {
        Ok(core) => Ok(core),
        Err(_) => Err(Memory),
    }
}

// Whether an entry answers that memory was wanted, or that the store failed.
fn is_refused(journal: &[Entry]) -> bool
    ensures { result ≡ list_any is_unlucky_entry journal.now }
{
    journal.iter().any(|entry| is_unlucky_one(entry))
}

fn is_unlucky_one(entry: &Entry) -> bool
    ensures { result ≡ is_unlucky_entry entry.now }
{
    match &entry.reply {
        Reply::Memory => true,
        Reply::Fault => true,
        _ => false,
    }
}

//! How a run over a log shelf ended whose disks stop.
ghost use Rattle.std.specs.Prelude.{◌≡◌, ◌<◌, IfOk, IfErr};
ghost use Rattle.ledger_machine.specs.Records.{AreRecords};
ghost use Rattle.ledger_machine.specs.Runs.{opening_of};
ghost use Rattle.script_form.specs.Servable.{AreServable};
ghost use Rattle.store_core.specs.Journal.{IsNew};
ghost use Rattle.stop_run.specs.Ending.{IsExplained};

use half_hash::NodeHash;
use ledger_machine::Script;
use log_shelf::{LogShelf, MemRoom, Unmade};
use node_backend::MemShelf;
use rotating_store::Unopened;
use std::alloc::Global;
use store_core::Core;

/// How it ended, with what it left.
#[derive(Drop)]
pub enum StopEnd<H: NodeHash> {
    /// There was a run: its core, and the one that was opened again over what a stop left. There is no such one where memory was wanted.
    Ran(Core<H, LogShelf<MemRoom>>, Option<Core<H, MemShelf>>),
    /// The store wasn't opened.
    Unopened(Unopened<LogShelf<MemRoom>>),
    /// The shelf wasn't made.
    Unmade(Unmade<MemRoom>),
}

/// A core of the script over a log shelf in a room whose disks stop after so many changing calls. It has answered nothing.
pub fn open_stopped<H: NodeHash>(
    alloc: Global,
    hash: H,
    script: Script,
    interval: u32,
    at: u64,
) -> Result<Core<H, LogShelf<MemRoom>>, StopEnd<H>>
    requires apart { 0 < interval }
    requires lines { AreServable script.lines.items }
    requires records { AreRecords H.half script.records.items }
    ensures script { IfOk result (λ c. IsNew script.records.items script.lines.items interval c) }
    ensures opened { IfOk result (λ c. c.opened ≡ c.faults) }
    ensures state { IfOk result (λ c. c.state ≡ opening_of script.records.items interval) }
    // Else what is left failed, or is nothing since memory was wanted.
    ensures ended { IfErr result IsExplained }
{
    let Ok(room) = MemRoom::new(alloc, Some(at)) else {
        return Err(StopEnd::Unmade(Unmade::Memory));
    };
    let shelf = match LogShelf::new(alloc, room) {
        Ok(shelf) => shelf,
        Err(unmade) => return Err(StopEnd::Unmade(unmade)),
    };
    match Core::open(alloc, hash, script, interval, shelf) {
        Ok(core) => Ok(core),
        Err(unopened) => Err(StopEnd::Unopened(unopened)),
    }
}

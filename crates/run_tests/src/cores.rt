//! Calls of a core that several tests make: each stands once, in a function of its own, so that its contract is looked at once.
ghost use Rattle.std.specs.Prelude.{◌<◌};
ghost use Rattle.ledger_machine.specs.Records.{AreRecords};
ghost use Rattle.script_form.specs.Servable.{AreServable};

use actor_pool::{Gate, run_actors};
use half_hash::NodeHash;
use ledger_machine::{Entry, Script};
use node_backend::{MemShelf, Shelf};
use run_io::MemSource;
use script_form::read_script;
use std::alloc::Global;
use std::sync::Wait;
use std::thread::Threads;
use store_core::{Core, Stepped};

/// A core of this script, where one can be opened over the shelf. Nothing is known of that here, which keeps the proof small.
fn core_on<H: NodeHash, Sh: Shelf>(
    alloc: Global,
    hash: H,
    script: Script,
    interval: u32,
    shelf: Sh,
) -> Option<Core<H, Sh>>
    requires apart { 0 < interval }
    requires lines { AreServable script.lines.items }
    requires records { AreRecords H.half script.records.items }
{
    Core::open(alloc, hash, script, interval, shelf).ok()
}

/// A core of this script, over a shelf that never fails, where one can be opened.
pub(crate) fn core_of<H: NodeHash>(
    alloc: Global,
    hash: H,
    script: Script,
    interval: u32,
) -> Option<Core<H, MemShelf>>
    requires apart { 0 < interval }
    requires lines { AreServable script.lines.items }
    requires records { AreRecords H.half script.records.items }
{
    core_on(
        alloc,
        hash,
        script,
        interval,
        MemShelf::new(alloc, Vec::new(alloc), Vec::new(alloc)),
    )
}

/// A core of the script that is read, where there is one.
pub(crate) fn core_over<H: NodeHash>(
    alloc: Global,
    hash: H,
    source: MemSource,
    interval: u32,
) -> Option<Core<H, MemShelf>>
    requires apart { 0 < interval }
{
    let mut source = source;
    match read_script::<H, MemSource>(alloc, &mut source) {
        Ok(script) => core_of(alloc, hash, script, interval),
        Err(_) => None,
    }
}

/// The core behind the run of its actors.
pub(crate) fn acted<R: Threads + Wait + Sync, H: NodeHash, G: Gate>(
    rt: &R,
    alloc: Global,
    core: Core<H, MemShelf>,
    gate: &G,
) -> Core<H, MemShelf> {
    run_actors(rt, alloc, core, gate)
}

/// One section of the actor's next line.
pub(crate) fn stepped<H: NodeHash>(
    alloc: Global,
    core: &mut Core<H, MemShelf>,
    actor: u8,
) -> Stepped {
    core.step(alloc, actor)
}

/// What was answered.
pub(crate) fn entries<H: NodeHash>(core: &Core<H, MemShelf>) -> &[Entry] {
    core.journal()
}

/// How many rotations have ended.
pub(crate) fn epoch<H: NodeHash>(core: &Core<H, MemShelf>) -> u64 {
    core.totals().epoch
}

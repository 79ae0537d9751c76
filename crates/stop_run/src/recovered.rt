//! What is recovered of a store whose disks stopped.
ghost use Rattle.std.specs.Prelude.{IfOk};
ghost use Rattle.ledger_machine.specs.Records.{AreRecords};
ghost use Rattle.rotating_store.specs.Stores.{nodes_of};
ghost use Rattle.stop_run.specs.Leaving.{AreLeft, HoldsForms};

use half_hash::{Memory, NodeHash};
use ledger_machine::Record;
use log_recovery::{a_stop_loses_no_form, images, recover};
use log_shelf::{Disk, LogShelf, MemDisk, MemRoom, RecoverFault, Room};
use rotating_store::RotStore;
use std::alloc::Global;

/// The records that are found on the images of a store's disks, by pick. Their room has no stop, so nothing fails.
pub(crate) fn recovered<H: NodeHash>(
    alloc: Global,
    store: &RotStore<LogShelf<MemRoom>>,
    pick: u8,
) -> Result<Vec<Record>, Memory>
    ensures left { IfOk result (λ records. AreLeft (⟦<MemRoom as Room>⟧) (⟦<MemDisk as Disk>⟧) H.half pick store.now.writable
        store.now.archive records.items) }
    ensures fit { IfOk result (λ records. AreRecords H.half records.items) }
    ensures holds { IfOk result (λ records. HoldsForms H.half (nodes_of store.now) records.items) }
{
    let parts = a_stop_loses_no_form::<H, MemRoom>(store);
    let mut room = images(alloc, &parts, pick)?;
    match recover::<H, MemRoom>(alloc, &mut room) {
        Ok(records) => Ok(records),
        Err(RecoverFault::Memory) => Err(Memory),
        Err(_) => unreachable!(),
    }
}

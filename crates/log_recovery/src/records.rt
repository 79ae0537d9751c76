//! The records of the live logs that are found on the disks of a room.
ghost use Rattle.std.specs.Prelude.{◌≡◌, IsTrue, IfOk};
ghost use Rattle.log_shelf.specs.Reading.{ReadsRoom};
ghost use Rattle.ledger_machine.specs.Records.{AreRecords};
ghost use Rattle.log_recovery.specs.Records.{records_of, AreRecovered};

use crate::StoredForms;
use half_hash::{Memory, NodeHash, known_half};
use ledger_machine::Record;
use log_shelf::{Disk, Found, RecoverFault, Room, recover_where};
use std::alloc::Global;

/// The records of the live logs, hashes rising, each hash once: the last in the greatest log that has it. A live log that has no disk has
/// no entries, and an entry that is no record is left out.
pub fn recover<H: NodeHash, R: Room>(
    alloc: Global,
    room: &mut R,
) -> Result<Vec<Record>, RecoverFault<R::D>>
    ensures records { IsTrue R.tells → IfOk result (λ records. AreRecovered H.half (R.files room.old) records.items) }
    ensures fit { IsTrue R.tells → IfOk result (λ records. AreRecords H.half records.items) }
    ensures read { ReadsRoom R.tells R.files R.is_calm R.faults R.D.faults room.old room.new result }
{
    known_half::<H>();
    let found = recover_where::<R, StoredForms<H>>(alloc, room)?;
    match records_in(alloc, found) {
        Ok(records) => Ok(records),
        Err(Memory) => Err(RecoverFault::Memory),
    }
}

// The pairs that were found, as records.
fn records_in(alloc: Global, found: Found) -> Result<Vec<Record>, Memory>
    ensures { IfOk result (λ records. records.items ≡ records_of found) }
{
    let mut found = found;
    let mut records = Vec::new(alloc);
    while let Some((hash, form)) = found.pop_first() {
        records.push(Record { hash, form })?;
    }
    Ok(records)
}

//! A room of disks in memory, which all stop after so many changing calls on them.
ghost use Rattle.std.specs.Prelude.{◌≡◌, ◌≢◌, ◌≤◌, ℕ, [], true, is_none, IsTrue, IfOk, IfSome};
ghost use Rattle.std.specs.FinMap as map;
ghost use Rattle.std.specs.Option.{option_map};
ghost use Rattle.run_io.specs.Bytes.{Rose};
ghost use Rattle.log_shelf.specs.Rooms.{Files, file_in, files_of};

use crate::memory::has_stopped;
use crate::{MemDisk, Room};
use half_hash::{Blob, Memory};
use node_backend::BackFault;
use std::alloc::Global;
use std::collections::BTreeMap;
use std::sync::Arc;
use std::sync::atomic::AtomicU64;

/// A room in memory. It tells the bytes that its disks had when it was made.
#[derive(Drop)]
pub struct MemRoom {
    pub(crate) images: BTreeMap<u64, Blob>,
    spent: Arc<AtomicU64, Global>,
    pub(crate) stop: Option<u64>,
    faults: u64,
}

impl MemRoom {
    /// A room without disks, whose disks stop after so many changing calls.
    pub fn new(alloc: Global, stop: Option<u64>) -> Result<MemRoom, Memory>
        ensures empty { IfOk result (λ r. files_of r.images.entries ≡ map.empty) }
        ensures stop { IfOk result (λ r. (r.stop ≡ stop) × (r.faults ≡ 0)) }
    {
        Ok(MemRoom {
            images: BTreeMap::new(alloc),
            spent: Arc::new(alloc, AtomicU64::new(0))?,
            stop,
            faults: 0,
        })
    }
}

impl Room for MemRoom {
    type D = MemDisk;

    ghost tells = { true };

    ghost files = { λ r. files_of r.images.entries };

    ghost faults = { λ r. r.faults };

    ghost is_calm = { λ r. is_none r.stop };

    fn make(&mut self, alloc: Global, number: u64) -> Result<MemDisk, BackFault> {
        if has_stopped(&self.spent, self.stop, true) {
            self.faults = self.faults.saturating_add(1);
            return Err(BackFault::Fault);
        }
        let spent = Arc::try_clone(&self.spent)?;
        let _ = self.images.remove(&number);
        Ok(MemDisk::new(alloc, number, spent, self.stop))
    }

    fn attach(&mut self, alloc: Global, number: u64) -> Result<Option<MemDisk>, BackFault> {
        if has_stopped(&self.spent, self.stop, false) {
            self.faults = self.faults.saturating_add(1);
            return Err(BackFault::Fault);
        }
        match self.images.get(&number) {
            None => Ok(None),
            Some(image) => {
                let spent = Arc::try_clone(&self.spent)?;
                Ok(Some(MemDisk::of(alloc, number, image.bytes(), spent, self.stop)?))
            }
        }
    }
}

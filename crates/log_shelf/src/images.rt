//! What a stop leaves of disks in memory, as a room in which it is recovered: of all that it may leave, three images by which a test picks.
ghost use Rattle.std.specs.Prelude.{◌≡◌, ◌≤◌, ◌+◌, None, map as map_list, length, IfOk, OnOk};
ghost use Rattle.std.specs.FinMap as map;
ghost use Rattle.log_shelf.specs.MemDisks.{IsOutcome};
ghost use Rattle.log_shelf.specs.Shelves.{WasStopped};
ghost use Rattle.log_shelf.specs.Images.{filled, image_of, files_in, with_images, images_of as images_in, AreOnShelf};

use crate::memory::{reserve_to, write_into};
use crate::{LogBackend, LogShelf, MemDisk, MemRoom};
use half_hash::{Blob, Memory};
use std::alloc::{AllocError, Global};

impl MemDisk {
    /// The disk without the writes since its last sync (0), with all of them (1), or with their ranges filled by FF (any other pick).
    /// A stop may leave each of these.
    pub fn image(&self, alloc: Global, pick: u8) -> Result<Vec<u8>, AllocError>
        ensures image { IfOk result (λ file. file.items ≡ image_of pick self.now) }
        ensures left { IfOk result (λ file. IsOutcome self.now.pending.items self.now.synced.items file.items) }
    {
        match pick {
            0 => Vec::from_slice(alloc, &self.synced),
            1 => Vec::from_slice(alloc, &self.shown),
            _ => self.filled(alloc),
        }
    }

    // What was synced, with FF in the ranges of the writes since then.
    fn filled(&self, alloc: Global) -> Result<Vec<u8>, AllocError>
        ensures { IfOk result (λ file. file.items ≡ filled self.now.pending.items self.now.synced.items) }
    {
        let mut file = Vec::from_slice(alloc, &self.synced)?;
        reserve_to(&mut file, self.shown.len())?;
        for span in &self.pending {
            let bytes = vec![in alloc; 0xFF; span.bytes.len()]?;
            write_into(&mut file, span.at as usize, &bytes);
        }
        Ok(file)
    }
}

impl MemRoom {
    // Adds what is left of a disk by a pick, in place of what there is of this number.
    fn keep_image(
        &mut self,
        alloc: Global,
        number: u64,
        disk: &MemDisk,
        pick: u8,
    ) -> Result<(), Memory>
        ensures kept { OnOk result (files_in self.new ≡ map.insert (files_in self.old) number (image_of pick disk.now)) }
        ensures stop { self.new.stop ≡ self.old.stop }
    {
        let image = disk.image(alloc, pick)?;
        self.images.insert(number, Blob::new(image))?;
        Ok(())
    }

    // Adds what is left of the logs whose discard failed.
    fn keep_spent(
        &mut self,
        alloc: Global,
        spent: &[LogBackend<MemDisk>],
        pick: u8,
    ) -> Result<(), Memory>
        ensures kept { OnOk result (files_in self.new ≡ with_images pick (files_in self.old) spent.now) }
        ensures stop { self.new.stop ≡ self.old.stop }
    {
        for log in spent {
            self.keep_image(alloc, log.number, &log.log.disk, pick)?;
        }
        Ok(())
    }

    // Adds what is left of these logs.
    fn keep_logs(
        &mut self,
        alloc: Global,
        logs: &[&LogBackend<MemDisk>],
        pick: u8,
    ) -> Result<(), Memory>
        ensures kept { OnOk result (files_in self.new ≡ with_images pick (files_in self.old) (map_list (λ b. b.now) logs.now)) }
        ensures stop { self.new.stop ≡ self.old.stop }
    {
        for log in logs {
            self.keep_image(alloc, log.number, &log.log.disk, pick)?;
        }
        Ok(())
    }
}

/// A room without a stop that has the images of a shelf's disks and of these backends'. What broke while it was made is left out.
pub fn images_of(
    alloc: Global,
    shelf: &LogShelf<MemRoom>,
    logs: &[&LogBackend<MemDisk>],
    pick: u8,
) -> Result<MemRoom, Memory>
    ensures files { IfOk result (λ room. files_in room ≡ images_in pick shelf.now (map_list (λ b. b.now) logs.now)) }
    ensures stop { IfOk result (λ room. room.stop ≡ None) }
    ensures stopped { AreOnShelf shelf.now (map_list (λ b. b.now) logs.now)
        → IfOk result (λ room. WasStopped shelf.now (map_list (λ b. b.now) logs.now) (files_in room)) }
{
    let mut room = MemRoom::new(alloc, None)?;
    room.keep_spent(alloc, &shelf.spent, pick)?;
    room.keep_logs(alloc, logs, pick)?;
    room.keep_image(alloc, 0, &shelf.manifest.disk, pick)?;
    Ok(room)
}

//! The swap, which drops the archive, and the fresh backend that has to be ready for it.
ghost use Rattle.std.specs.Prelude.{◌≡◌, ◌<◌, ◌^◌, ◌-◌, IsTrue, true};
ghost use Rattle.rotating_store.specs.Stores.{SamePast};
ghost use Rattle.rotating_store.specs.Turning.{HasReady, CountsShelf, FailsPlainly, MovesDown, Turns, TurnsNotes};

use crate::outcome::StoreFault;
use crate::store::RotStore;
use node_backend::{Backend, Shelf};
use std::alloc::Global;

impl<Sh: Shelf> RotStore<Sh> {
    /// Has a fresh backend ready for the next swap. After an error the store is as it was, but for the count
    /// of faults.
    pub fn prepare(&mut self, alloc: Global) -> Result<(), StoreFault>
        ensures same { IsTrue Sh.B.tells → (self.new.writable ≡ self.old.writable) × (self.new.archive ≡ self.old.archive) }
        ensures ready { HasReady self.old self.new result }
        ensures rest { SamePast self.old self.new × (self.new.gets ≡ self.old.gets) × (self.new.noted ≡ self.old.noted) }
        ensures counts { CountsShelf self.old self.new }
        ensures fails { FailsPlainly self.old self.new result }
    {
        if self.ready.is_some() {
            return Ok(());
        }
        let fresh = self.shelf.fresh(alloc)?;
        self.ready = Some(fresh);
        Ok(())
    }

    /// Drops the archive. The writable backend is the archive from now on, and the one that is ready
    /// the writable one. It is never refused: where the shelf can't discard the old one, its count tells.
    pub fn swap(&mut self)
        requires ready { self.old.ready ≡ true }
        requires room { self.old.epoch < 2 ^ 64 - 1 }
        ensures maps { MovesDown Sh.B.tells self.old self.new }
        ensures turns { Turns self.old self.new }
        ensures notes { TurnsNotes Sh.B.tells self.old self.new }
    {
        let Some(fresh) = self.ready.take() else {
            return;
        };
        let full = std::mem::replace(&mut self.writable, fresh);
        let old = std::mem::replace(&mut self.archive, full);
        self.past_faults = self.past_faults.saturating_add(old.faults());
        self.past_gets = self.past_gets.saturating_add(old.gets());
        let _ = self.shelf.discard(old);
        self.epoch += 1;
        self.unchecked.turn();
    }
}

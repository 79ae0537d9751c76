//! The walk. The next hash to be taken is the last grey one, so that what one root reaches is copied before the next: few are grey at a
//! time. A hash leaves the grey list only as it becomes black, or isn't stored: after a refusal it is still there.
ghost use Rattle.std.specs.Prelude.{◌≡◌, ◌≢◌, ◌↔◌, ◌<◌, [], IsTrue, Some, IfOk, IfErr, OnOk, OnErr};
ghost use Rattle.std.specs.List.{slice_get};
ghost use Rattle.ledger_spec.specs.Reach.{kids};
ghost use Rattle.rotating_store.specs.Puts.{IsPlain};
ghost use Rattle.rotating_store.specs.Stores.{LeavesStore};
ghost use Rattle.copy_walk.specs.Slices.{LeftBy};
ghost use Rattle.copy_walk.specs.Calls.{GoesBlack, TakesOne, AnswersSlice, DrainsBy};

use crate::blacks::Blacks;
use crate::copy::copy_one;
use half_hash::{Hash32, Memory};
use node_backend::Shelf;
use rotating_store::{RotStore, StoreFault};
use std::alloc::Global;
use std::marker::Model;

/// Whether a slice left something to copy.
#[derive(Clone, Copy, Debug, PartialEq, Eq)]
pub enum Left {
    /// Some hashes are still to be taken.
    More,
    /// Nothing is left.
    Done,
}

/// A walk. Contracts see its grey hashes, the next one last, and its black ones.
#[derive(Drop)]
pub struct CopyWalk {
    grey: Vec<Hash32>,
    black: Blacks,
    room: Vec<u8>,
}

impl Model for CopyWalk {
    ghost use Rattle.copy_walk.specs.Walks.{Walk};

    ghost Value = { Walk };

    ghost view = { λ w. record { grey = w.grey.items; black = w.black } };
}

impl CopyWalk {
    ghost use Rattle.copy_walk.specs.Walks.{Walk, Shades};

    /// A walk that begins at these hashes.
    pub fn start(alloc: Global, roots: &[Hash32]) -> Result<CopyWalk, Memory>
        ensures { IfOk result (λ w. w ≡ record { grey = roots.now; black = [] }) }
    {
        let grey = Vec::from_slice(alloc, roots)?;
        Ok(CopyWalk {
            grey,
            black: Blacks::new(alloc),
            room: Vec::new(alloc),
        })
    }

    /// Has a hash taken, unless it is black. It needn't be stored. Where memory is refused nothing changes.
    pub fn shade(&mut self, h: &Hash32) -> Result<(), Memory>
        ensures ok { OnOk result (Shades self.old h.now self.new) }
        ensures err { OnErr result (self.new ≡ self.old) }
    {
        if self.black.contains(h) {
            return Ok(());
        }
        self.grey.push(*h)?;
        Ok(())
    }

    /// Takes up to n grey hashes: each form is copied to the writable backend, and what it names is shaded. One that isn't stored is let
    /// go, so that it can be shaded again once it is written. The store's one map stays. After a refusal no grey hash is lost.
    pub fn slice<Sh: Shelf>(
        &mut self,
        alloc: Global,
        store: &mut RotStore<Sh>,
        n: usize,
    ) -> Result<Left, StoreFault>
        requires { 0 < n }
        ensures slices { AnswersSlice Sh.B.tells n self.old store.old result self.new store.new }
        ensures store { LeavesStore StoreFault.Fault store.old store.new result }
    {
        for _ in 0..n {
            if self.is_done() {
                return Ok(Left::Done);
            }
            self.take(alloc, store)?;
        }
        Ok(self.left())
    }

    /// Takes grey hashes until none is left. The store's one map stays. After a refusal no grey hash is lost.
    pub fn drain<Sh: Shelf>(
        &mut self,
        alloc: Global,
        store: &mut RotStore<Sh>,
    ) -> Result<(), StoreFault>
        ensures drains { DrainsBy Sh.B.tells self.old store.old self.new store.new }
        ensures ok { OnOk result (self.new.grey ≡ []) }

        // where nothing is grey, nothing is done
        ensures none { self.old.grey ≡ [] → store.new ≡ store.old }
        ensures store { LeavesStore StoreFault.Fault store.old store.new result }
        ensures kind { IfErr result IsPlain }
    {
        while !self.is_done() {
            self.take(alloc, store)?;
        }
        Ok(())
    }

    // Whether something is grey.
    fn left(&self) -> Left
        ensures { LeftBy result self.now }
    {
        if self.is_done() {
            Left::Done
        } else {
            Left::More
        }
    }

    /// Whether nothing is grey.
    pub fn is_done(&self) -> bool
        ensures { IsTrue result ↔ (self.now.grey ≡ []) }
    {
        self.grey.is_empty()
    }

    // The grey hash at a place becomes black: all that its form names is shaded first.
    fn blacken(&mut self, place: usize, hash: &Hash32, form: &[u8]) -> Result<(), Memory>
        requires { slice_get self.old.grey place ≡ Some hash.now }
        ensures { GoesBlack self.old hash.now (kids form.now) result self.new }
    {
        self.shade_kids(form)?;
        self.black.push(hash)?;
        self.grey.swap_remove(place);
        Ok(())
    }

    // Takes the grey hash at a place. Its form is written into a room.
    fn take_at<Sh: Shelf>(
        &mut self,
        alloc: Global,
        store: &mut RotStore<Sh>,
        place: usize,
        hash: &Hash32,
        room: &mut Vec<u8>,
    ) -> Result<(), StoreFault>
        requires { slice_get self.old.grey place ≡ Some hash.now }
        ensures takes { TakesOne Sh.B.tells self.old store.old result self.new store.new }
        ensures store { LeavesStore StoreFault.Fault store.old store.new result }
        ensures kind { IfErr result IsPlain }
    {
        let there = copy_one(alloc, store, hash, room)?;
        if !there {
            self.grey.swap_remove(place);
            return Ok(());
        }
        self.blacken(place, hash, room)?;
        Ok(())
    }

    // Takes the last grey hash.
    fn take<Sh: Shelf>(&mut self, alloc: Global, store: &mut RotStore<Sh>) -> Result<(), StoreFault>
        requires { self.old.grey ≢ [] }
        ensures takes { TakesOne Sh.B.tells self.old store.old result self.new store.new }
        ensures store { LeavesStore StoreFault.Fault store.old store.new result }
        ensures kind { IfErr result IsPlain }
    {
        let place = self.grey.len() - 1;
        let hash = self.grey[place];
        if self.black.contains(&hash) {
            self.grey.swap_remove(place);
            return Ok(());
        }
        let mut room = std::mem::replace(&mut self.room, Vec::new(alloc));
        let taken = self.take_at(alloc, store, place, &hash, &mut room);
        self.room = room;
        taken
    }
}

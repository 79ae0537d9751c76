//! The places of a search, one after the other: each is taken from the top of the stack and looked at, and the search goes on by what is
//! seen there.
ghost use Rattle.std.specs.Prelude.{◌≡◌, ◌+◌, ◌*◌, ◌<◌, ◌≤◌, ◌++◌, ◌∷◌, [], false, None, IfOk, OnOk, IsOk, ℕ, List, length};
ghost use Rattle.std.specs.Prelude.{vec_len};
ghost use Rattle.ledger_spec.specs.Bytes.{Half, Lookup};
ghost use Rattle.missing_walk.specs.Pending.{Pending};
ghost use Rattle.missing_walk.specs.Views.{HasLevels};
ghost use Rattle.missing_walk.specs.Searching.{Kept};
ghost use Rattle.missing_walk.specs.Passes.{IsIdle, PassesOne, PassesSome, AnswersTrue, StaysPut};
ghost use Rattle.missing_walk.specs.Moves.{has_ended};
ghost use Rattle.missing_walk.specs.Rests.{left_in};
ghost use Rattle.missing_walk.specs.Leaving.{LeavesUsed, KeepsOpen};
ghost use Rattle.missing_walk.specs.Runs.{Lightens, GoesOnBy, NotesOne, RunsOn, StaysWhole};

use crate::search::{MOST_MISSING, Search};
use crate::sight::View;
use crate::stack::{go_below, note, put_back, settle, skip};
use crate::todo::Todo;
use crate::view::{keep_all, see};
use full_below::Marks;
use half_hash::{Memory, NodeHash};
use ledger_spec::Place;
use node_backend::{BackFault, Shelf};
use rotating_store::RotStore;
use std::alloc::Global;
use tree_cache::TreeCache;

impl Search {
    /// Puts the noted places back on the stack, before all others. Where memory is refused they stay noted.
    pub(crate) fn take_up(&mut self) -> Result<(), Memory>
        ensures kept { (half : Half) (nodes : Lookup) → Kept half nodes self.old → Kept half nodes self.new }
        ensures idle { self.old.missing.items ≡ [] → IsOk result × StaysPut self.old self.new }
        ensures loads { (f g : Pending → ℕ) → ((p : Pending) → f p ≤ g p + 1)
            → OnOk result (left_in f g self.new ≤ left_in f g self.old + length self.old.missing.items) }
        ensures none { OnOk result (self.new.missing.items ≡ []) }
        ensures stays { StaysWhole self.old self.new }
    {
        self.broken = None;
        if self.missing.is_empty() {
            return Ok(());
        }
        self.opened.clear();
        Ok(put_back(&mut self.stack, &mut self.missing)?)
    }

    /// Goes on as far as so many places, and then as many more, and answers whether there is nothing more to look at. The forms that it
    /// looks at are written into a room, one after the other.
    pub(crate) fn run_both<H: NodeHash, Sh: Shelf>(
        &mut self,
        alloc: Global,
        store: &mut RotStore<Sh>,
        cache: &mut TreeCache,
        marks: &mut Marks,
        first: usize,
        more: usize,
        room: &mut Vec<u8>,
    ) -> Result<bool, BackFault>
        ensures passes { IsIdle self.old marks.old → length self.old.stack.items ≤ more
            → AnswersTrue result × (store.new.gets ≡ store.old.gets) }
        ensures lighter { Lightens Sh.B.tells H.half store.old (first + more) self.old self.new cache.old cache.new marks.old marks.new
            (λ P. IfOk result (λ b. b ≡ false → P)) }
        ensures runs { RunsOn self.old self.new result }
        ensures leaves { LeavesUsed Sh.B.tells H.half BackFault.Fault (store.old.gets + 2 * (first + more))
            store.old store.new cache.old cache.new marks.old marks.new result }
    {
        let over = self.run::<H, Sh>(alloc, store, cache, marks, first, room)?;
        if over {
            return Ok(over);
        }
        self.run::<H, Sh>(alloc, store, cache, marks, more, room)
    }

    /// Whether there is nothing to look at.
    pub(crate) fn is_over(&self) -> bool
        ensures { result ≡ has_ended self.now }
    {
        self.broken.is_some() || self.missing.len() >= MOST_MISSING || self.stack.is_empty()
    }

    // Goes on as far as so many places, and answers whether there is nothing more to look at.
    fn run<H: NodeHash, Sh: Shelf>(
        &mut self,
        alloc: Global,
        store: &mut RotStore<Sh>,
        cache: &mut TreeCache,
        marks: &mut Marks,
        most: usize,
        room: &mut Vec<u8>,
    ) -> Result<bool, BackFault>
        ensures passes { IsIdle self.old marks.old → IsOk result × PassesSome self.old self.new marks.new store.old.gets store.new.gets }
        ensures all { IsIdle self.old marks.old → length self.old.stack.items ≤ most → AnswersTrue result }
        ensures lighter { Lightens Sh.B.tells H.half store.old most self.old self.new cache.old cache.new marks.old marks.new
            (λ P. IfOk result (λ b. b ≡ false → P)) }
        ensures runs { RunsOn self.old self.new result }
        ensures leaves { LeavesUsed Sh.B.tells H.half BackFault.Fault (store.old.gets + 2 * most)
            store.old store.new cache.old cache.new marks.old marks.new result }
    {
        for _ in 0..most {
            if self.is_over() {
                return Ok(true);
            }
            self.turn::<H, Sh>(alloc, store, cache, marks, room)?;
        }
        Ok(self.is_over())
    }

    // Looks at the place on top of the stack.
    fn turn<H: NodeHash, Sh: Shelf>(
        &mut self,
        alloc: Global,
        store: &mut RotStore<Sh>,
        cache: &mut TreeCache,
        marks: &mut Marks,
        room: &mut Vec<u8>,
    ) -> Result<(), BackFault>
        requires { has_ended self.old ≡ false }
        ensures passes { IsIdle self.old marks.old
            → IsOk result × PassesOne self.old self.new marks.new × (store.new.gets ≡ store.old.gets) }
        ensures lighter { Lightens Sh.B.tells H.half store.old 1 self.old self.new cache.old cache.new marks.old marks.new
            (λ P. OnOk result P) }
        ensures notes { NotesOne None self.old self.new result }
        ensures leaves { LeavesUsed Sh.B.tells H.half BackFault.Fault (store.old.gets + 2)
            store.old store.new cache.old cache.new marks.old marks.new result }
    {
        settle(&mut self.opened, self.stack.len(), marks);
        let Some(top) = self.stack.last() else {
            return Ok(());
        };
        let place = top.place();
        let view = see::<H, Sh>(alloc, store, cache, marks, top, room)?;
        Ok(self.heed(cache, view, place)?)
    }

    // Goes on by what was seen at the place on top of the stack. Where the place is missing, the inner nodes on the way to it are cached.
    fn heed(&mut self, cache: &mut TreeCache, view: View, place: Place) -> Result<(), Memory>
        requires some { 0 < vec_len self.old.stack }
        requires top { (rest : List Todo) (top : Todo) → self.old.stack.items ≡ rest ++ top ∷ []
            → HasLevels (length top.at.id) view × (length top.at.id ≤ 64) }
        ensures goes { GoesOnBy self.old self.new view place result }
        ensures notes { NotesOne self.old.broken self.old self.new result }
        ensures cached { KeepsOpen self.old cache.old cache.new }
    {
        match view {
            View::Missing => {
                keep_all(cache, &self.opened);
                self.opened.clear();
                Ok(note(&mut self.stack, &mut self.missing)?)
            }
            View::Broken(fault) => {
                self.broken = Some((place, fault));
                Ok(())
            }
            View::Below(node) => Ok(go_below(&mut self.stack, &mut self.opened, node)?),
            View::Nothing => {
                skip(&mut self.stack);
                Ok(())
            }
        }
    }
}

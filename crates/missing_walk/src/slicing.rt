//! The search of a ledger in slices. Between two of them the store may grow, while the generation stands; where that has turned, the
//! search starts anew.
ghost use Rattle.std.specs.Prelude.{◌≡◌, ◌+◌, ◌*◌, ◌<◌, ◌≤◌, true, None, IfOk, is_some};
ghost use Rattle.ledger_spec.specs.Bytes.{Half, Lookup};
ghost use Rattle.missing_walk.specs.Pending.{IsCachedTrue};
ghost use Rattle.missing_walk.specs.Views.{KeepsCache, Tells};
ghost use Rattle.missing_walk.specs.Searching.{Rule, Holding, stale_in};
ghost use Rattle.missing_walk.specs.Searching.{Renews};
ghost use Rattle.missing_walk.specs.Passes.{IsReady, IsDone, HasMarkedRoots};
ghost use Rattle.missing_walk.specs.Rests.{weight, stored_weight, most_from, most_again, left_in, rest_by, bound_by, bound, GoesOn};
ghost use Rattle.missing_walk.specs.Leaving.{LeavesUsed};
ghost use Rattle.missing_walk.specs.Runs.{StaysWhole};
ghost use Rattle.missing_walk.specs.Answering.{Answers, KeepsRule, KeepsHolding, EntersFrom, StaysUnbroken};

use crate::search::{MOST_MISSING, Search, Slice};
use crate::{Found, SearchFault};
use full_below::Marks;
use half_hash::NodeHash;
use node_backend::{BackFault, Shelf};
use rotating_store::RotStore;
use std::alloc::Global;
use tree_cache::TreeCache;

impl Search {
    /// Goes on as far as so many places. `Done` gives what is found of the ledger in the store as it is now; noted places are looked at
    /// again for that. `More` says that places are left, and n fewer at least, so a loop of slices ends. `Stale` says that the generation
    /// has turned since the first slice: the next one begins anew. A marked place is passed, and a cached node isn't asked of the store.
    /// A fault comes where a device failed, and where memory is wanted the search can go on later.
    pub fn slice<H: NodeHash, Sh: Shelf>(
        &mut self,
        alloc: Global,
        store: &mut RotStore<Sh>,
        cache: &mut TreeCache,
        marks: &mut Marks,
        n: usize,
    ) -> Result<Slice, SearchFault>
        requires some { 0 < n }
        requires one_generation { cache.old.generation ≡ marks.old.generation }
        ensures answers { Answers Sh.B.tells H.half store.old (λ nodes. Rule H.half nodes self.old cache.old marks.old)
            (λ nodes. GoesOn H.half nodes n self.old self.new) (bound self.new + n ≤ bound self.old) self.old self.new marks.new result }
        ensures keeps { KeepsRule Sh.B.tells H.half store.old self.old self.new cache.old cache.new marks.old marks.new result }
        ensures first { (nodes : Lookup) → Tells Sh.B.tells H.half store.old nodes → self.old.generation ≡ None
            → HasMarkedRoots nodes self.old.target marks.old → 3 ≤ n → IfOk result IsDone × (store.new.gets ≤ store.old.gets + 2) }
        ensures leaves { LeavesUsed Sh.B.tells H.half SearchFault.Fault (store.old.gets + 2 * n + 1024)
            store.old store.new cache.old cache.new marks.old marks.new result }
    {
        let now = marks.generation();
        if let Some(seen) = self.stale(now) {
            self.generation = None;
            return Ok(Slice::Stale { seen, now });
        }
        self.renew(now);
        Ok(self.go_on::<H, Sh>(alloc, store, cache, marks, n)?)
    }

    // The generation of the first slice, where it isn't this one.
    fn stale(&self, now: u64) -> Option<u64>
        ensures { result ≡ stale_in self.now.generation now }
    {
        match self.generation {
            Some(seen) if seen != now => Some(seen),
            _ => None,
        }
    }

    // The first slice is in this generation, unless there was one.
    fn renew(&mut self, now: u64)
        requires { stale_in self.old.generation now ≡ None }
        ensures { Renews now self.old self.new }
    {
        if self.generation.is_none() {
            self.generation = Some(now);
            self.header = None;
        }
    }

    // Goes on from the header as far as so many places.
    fn go_on<H: NodeHash, Sh: Shelf>(
        &mut self,
        alloc: Global,
        store: &mut RotStore<Sh>,
        cache: &mut TreeCache,
        marks: &mut Marks,
        n: usize,
    ) -> Result<Slice, BackFault>
        ensures answers { Answers Sh.B.tells H.half store.old (λ nodes. Holding H.half nodes self.old cache.old marks.old)
            (λ nodes. rest_by (is_some self.new.header) H.half nodes self.new + n
            ≤ rest_by (is_some self.old.header) H.half nodes self.old)
            (bound_by (is_some self.new.header) self.new + n ≤ bound_by (is_some self.old.header) self.old)
            self.old self.new marks.new result }
        ensures enters { EntersFrom Sh.B.tells H.half store.old store.new marks.old n self.old self.new result }
        ensures holds { KeepsHolding Sh.B.tells H.half store.old self.old self.new cache.old cache.new marks.old marks.new result }
        ensures stays { StaysUnbroken self.old self.new }
        ensures leaves { LeavesUsed Sh.B.tells H.half BackFault.Fault (store.old.gets + 2 * n + 514)
            store.old store.new cache.old cache.new marks.old marks.new result }
    {
        match self.enter::<H, Sh>(alloc, store)? {
            Some(found) => Ok(Slice::Done(found)),
            None => Ok(self.explore::<H, Sh>(alloc, store, cache, marks, n)?),
        }
    }

    // Goes on below the header as far as so many places.
    fn explore<H: NodeHash, Sh: Shelf>(
        &mut self,
        alloc: Global,
        store: &mut RotStore<Sh>,
        cache: &mut TreeCache,
        marks: &mut Marks,
        n: usize,
    ) -> Result<Slice, BackFault>
        requires { is_some self.old.header ≡ true }
        ensures answers { Answers Sh.B.tells H.half store.old (λ nodes. Holding H.half nodes self.old cache.old marks.old)
            (λ nodes. left_in (weight H.half nodes) (stored_weight H.half nodes) self.new + n
            ≤ left_in (weight H.half nodes) (stored_weight H.half nodes) self.old)
            (left_in most_from most_again self.new + n ≤ left_in most_from most_again self.old)
            self.old self.new marks.new result }
        ensures holds { KeepsHolding Sh.B.tells H.half store.old self.old self.new cache.old cache.new marks.old marks.new result }
        ensures passes { IsReady self.old marks.old → 2 ≤ n → IfOk result IsDone × (store.new.gets ≡ store.old.gets) }
        ensures stays { StaysWhole self.old self.new }
        ensures leaves { LeavesUsed Sh.B.tells H.half BackFault.Fault (store.old.gets + 2 * n + 512)
            store.old store.new cache.old cache.new marks.old marks.new result }
    {
        let again = self.missing.len().min(MOST_MISSING);
        self.take_up()?;
        let mut room = Vec::new(alloc);
        let over = self.run_both::<H, Sh>(alloc, store, cache, marks, again, n, &mut room)?;
        if !over {
            return Ok(Slice::More);
        }
        let found = self.finish(alloc, marks)?;
        let_go(cache, &found);
        Ok(Slice::Done(found))
    }
}

// Of a ledger that was found whole each inner node is marked, so that none is looked at again: what is cached goes.
fn let_go(cache: &mut TreeCache, found: &Found)
    ensures stays { (half : Half) (nodes : Lookup) → KeepsCache (IsCachedTrue half nodes) cache.old cache.new }
    ensures generation { cache.new.generation ≡ cache.old.generation }
{
    if found.missing.is_empty() && found.broken.is_none() {
        cache.clear();
    }
}

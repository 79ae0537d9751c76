//! The marks, the cache and the begun searches that checks share.
ghost use Rattle.std.specs.Prelude.{◌≡◌, ◌+◌, ◌<◌, ◌≤◌, ◌^◌, IfOk, IfSome, OnErr, ℕ, length, None};
ghost use Rattle.std.specs.Prelude.{slice_set, vec_len};
ghost use Rattle.ledger_machine.specs.Limits.{actors};
ghost use Rattle.ledger_spec.specs.Bytes.{Lookup};
ghost use Rattle.missing_walk.specs.Passes.{HasMarkedRoots};
ghost use Rattle.missing_walk.specs.Searching.{IsNew as IsNewSearch};
ghost use Rattle.missing_walk.specs.Views.{Tells};
ghost use Rattle.ledger_searches.specs.Hunting.{IsTakenUp, IsUnbegun, hunt_of};
ghost use Rattle.ledger_searches.specs.Sharing.{IsPaired, IsEmpty, IsTurned, Forgets, most_cached};
ghost use Rattle.ledger_searches.specs.Answering.{FindsLedger, LeavesHunt, AsksFew, LeavesShared};

use crate::hunt::Hunt;
use crate::hunting::MOST_STALES;
use full_below::Marks;
use half_hash::{Hash32, Memory, NodeHash};
use ledger_machine::ACTORS;
use missing_walk::{Found, Search, SearchFault, Slice};
use node_backend::Shelf;
use rotating_store::RotStore;
use std::alloc::Global;
use tree_cache::TreeCache;

/// The most marks.
const MOST_MARKS: usize = 65_536;

/// The most nodes that are kept.
const MOST_CACHED: usize = 16_384;

/// How many places a slice looks at.
const SLICE: usize = 256;

/// The marks of what was found whole and the nodes that were read before, of one generation, and of each actor the search that its check
/// has begun.
#[derive(Drop)]
pub struct Searches {
    cache: TreeCache,
    marks: Marks,
    hunts: Vec<Option<Hunt>>,
}

impl Searches {
    /// Nothing is marked or cached, no search was begun, and the generation is 0.
    pub fn new(alloc: Global) -> Result<Searches, Memory>
        ensures paired { IfOk result IsPaired }
        ensures empty { IfOk result IsEmpty }
        ensures generation { IfOk result (λ x. x.marks.generation ≡ 0) }
        ensures room { IfOk result (λ x. x.cache.entries.cap ≡ most_cached) }
    {
        let cache = TreeCache::new(alloc, MOST_CACHED)?;
        let marks = Marks::new(alloc, MOST_MARKS)?;
        let hunts = none_begun(alloc)?;
        Ok(Searches {
            cache,
            marks,
            hunts,
        })
    }

    /// Goes on with the search that the actor's check of the ledger has begun, or begins one, as far as 256 places; none where something is
    /// left, for which the search is kept. With an answer no search of the actor is. One that was begun before the generation turned begins
    /// anew, at most twice: the third time it is run to its end. What is found is as `look` finds it. `Fault` and `Memory` leave marks,
    /// cached nodes and begun searches true.
    pub fn slice<H: NodeHash, Sh: Shelf>(
        &mut self,
        alloc: Global,
        store: &mut RotStore<Sh>,
        actor: u8,
        target: &Hash32,
    ) -> Result<Option<Found>, SearchFault>
        requires paired { IsPaired self.old }
        requires known_actor { actor < actors }
        ensures finds { FindsLedger Sh.B.tells H.half store.old target.now self.old self.new (λ P. IfOk result (λ o. IfSome o P)) }
        ensures hunts { LeavesHunt Sh.B.tells H.half store.old actor target.now self.old self.new result }
        ensures asks { AsksFew Sh.B.tells H.half store.old store.new actor target.now self.old result }
        ensures leaves { LeavesShared Sh.B.tells H.half store.old store.new self.old self.new result }
    {
        let mut hunt = self.take_up(alloc, actor, target)?;
        if hunt.stales >= MOST_STALES {
            return Ok(Some(self.look::<H, Sh>(alloc, store, target)?));
        }
        let (cache, marks) = (&mut self.cache, &mut self.marks);
        match hunt
            .search
            .slice::<H, Sh>(alloc, store, cache, marks, SLICE)?
        {
            Slice::Done(found) => Ok(Some(found)),
            Slice::More => {
                self.keep(actor, hunt);
                Ok(None)
            }
            Slice::Stale { .. } => {
                hunt.stales += 1;
                if hunt.stales >= MOST_STALES {
                    return Ok(Some(self.look::<H, Sh>(alloc, store, target)?));
                }
                self.keep(actor, hunt);
                Ok(None)
            }
        }
    }

    // The search of this ledger that the actor's check has begun, or a new one, which alone takes memory. No search of the actor is kept
    // meanwhile.
    fn take_up(&mut self, alloc: Global, actor: u8, target: &Hash32) -> Result<Hunt, Memory>
        requires known { actor < vec_len self.old.hunts }
        ensures taken { IfOk result (IsTakenUp (hunt_of self.old.hunts.items actor) target.now) }
        ensures memory { OnErr result (IsUnbegun (hunt_of self.old.hunts.items actor) target.now) }
        ensures forgets { Forgets actor self.old self.new }
    {
        let kept = self.hunts[actor as usize].take();
        match kept {
            Some(hunt) if hunt.is_of(target) => Ok(hunt),
            _ => Hunt::start(alloc, target),
        }
    }

    // Keeps the actor's search for another slice.
    fn keep(&mut self, actor: u8, hunt: Hunt)
        requires known { actor < vec_len self.old.hunts }
        ensures hunts { self.new.hunts.items ≡ slice_set self.old.hunts.items actor (Some hunt) }
        ensures marks { self.new.marks ≡ self.old.marks }
        ensures cache { self.new.cache ≡ self.old.cache }
    {
        self.hunts[actor as usize] = Some(hunt);
    }

    /// The actor's check has its answer, so that no search of it is kept.
    pub fn forget(&mut self, actor: u8)
        requires known { actor < vec_len self.old.hunts }
        ensures { Forgets actor self.old self.new }
    {
        self.hunts[actor as usize] = None;
    }

    /// Searches for what is missing or broken of the ledger under the target, from its header to the end of the search. A subtree that was
    /// found whole is marked, as are the roots of a ledger without findings, and what is marked isn't looked at. So a search of a ledger
    /// whose roots are marked asks each backend at most once. `Fault` says that a device failed, `Memory` that memory was refused; both
    /// leave marks and cached nodes true.
    pub fn look<H: NodeHash, Sh: Shelf>(
        &mut self,
        alloc: Global,
        store: &mut RotStore<Sh>,
        target: &Hash32,
    ) -> Result<Found, SearchFault>
        requires paired { IsPaired self.old }
        ensures finds { FindsLedger Sh.B.tells H.half store.old target.now self.old self.new (λ P. IfOk result P) }
        ensures few { (nodes : Lookup) → Tells Sh.B.tells H.half store.old nodes → HasMarkedRoots nodes target.now self.old.marks
            → store.new.gets ≤ store.old.gets + 2 }
        ensures hunts { self.new.hunts.items ≡ self.old.hunts.items }
        ensures leaves { LeavesShared Sh.B.tells H.half store.old store.new self.old self.new result }
    {
        let search = Search::start(alloc, target)?;
        self.run::<H, Sh>(alloc, store, search)
    }

    // Runs a search that nobody has begun to its end. One slice does it, but for a ledger of more places than a `usize` counts.
    fn run<H: NodeHash, Sh: Shelf>(
        &mut self,
        alloc: Global,
        store: &mut RotStore<Sh>,
        search: Search,
    ) -> Result<Found, SearchFault>
        requires paired { IsPaired self.old }
        requires new { IsNewSearch search }
        ensures finds { FindsLedger Sh.B.tells H.half store.old search.target self.old self.new (λ P. IfOk result P) }
        ensures few { (nodes : Lookup) → Tells Sh.B.tells H.half store.old nodes → HasMarkedRoots nodes search.target self.old.marks
            → store.new.gets ≤ store.old.gets + 2 }
        ensures hunts { self.new.hunts.items ≡ self.old.hunts.items }
        ensures leaves { LeavesShared Sh.B.tells H.half store.old store.new self.old self.new result }
    {
        let mut search = search;
        loop {
            let (cache, marks) = (&mut self.cache, &mut self.marks);
            match search.slice::<H, Sh>(alloc, store, cache, marks, usize::MAX)? {
                Slice::Done(found) => return Ok(found),
                Slice::More => {}
                Slice::Stale { .. } => unreachable!(),
            }
        }
    }

    /// How often the generation has turned.
    pub fn generation(&self) -> u64
        ensures { result ≡ self.now.marks.generation }
    {
        self.marks.generation()
    }

    /// The next generation begins, and nothing is marked or cached. Begun searches stay, and begin anew. It takes no memory.
    pub fn turn(&mut self)
        requires paired { IsPaired self.old }
        requires room { self.old.marks.generation + 1 < 2 ^ 64 }
        ensures { IsTurned self.old self.new }
    {
        self.cache.turn();
        self.marks.turn();
    }
}

// No actor's check has begun a search.
fn none_begun(alloc: Global) -> Result<Vec<Option<Hunt>>, Memory>
    ensures slots { IfOk result (λ hunts. length hunts.items ≡ actors) }
    ensures none { IfOk result (λ hunts. (a : ℕ) → hunt_of hunts.items a ≡ None) }
{
    let mut hunts = Vec::with_capacity(alloc, ACTORS)?;
    for _actor in 0..ACTORS {
        hunts.push(None)?;
    }
    Ok(hunts)
}

//! The marks of one generation, in a table of bounded size that drops the one that was used last longest ago.
ghost use Rattle.std.specs.Prelude.{◌≡◌, ◌+◌, ◌^◌, ◌<◌, ◌==◌, [], IfOk, OnErr, OnOk, if◌then◌else◌};
ghost use Rattle.lru.specs.LruCache.{lru_cache};
ghost use Rattle.full_below.specs.Marking.{is_marked, after_use, after_mark};

use crate::MarkKey;
use half_hash::Memory;
use lru::LruCache;
use std::alloc::Global;
use std::num::NonZeroUsize;

/// The marks, the most recently used first.
#[derive(Drop)]
pub struct Marks {
    /// Each key with the generation in which it was marked, the present one.
    entries: LruCache<MarkKey, u64>,
    generation: u64,
}

impl Marks {
    /// Nothing is marked, and the generation is 0.
    pub fn new(alloc: Global, capacity: usize) -> Result<Marks, Memory>
        requires { 0 < capacity }
        ensures { IfOk result (λ m. (m.entries ≡ lru_cache [] capacity) × (m.generation ≡ 0)) }
    {
        let Some(most) = NonZeroUsize::new(capacity) else {
            unreachable!();
        };
        match LruCache::sparse(alloc, most) {
            Ok(entries) => Ok(Marks {
                entries,
                generation: 0,
            }),
            Err(_) => Err(Memory),
        }
    }

    /// Whether this hash, kind and path are marked. A key that is marked becomes the most recently used. It takes no memory.
    pub fn is_full(&mut self, key: &MarkKey) -> bool
        ensures full { result ≡ is_marked self.old key.now }
        ensures used { self.new ≡ after_use self.old key.now }
    {
        self.entries.promote(key)
    }

    /// Marks a key, where the generation is the present one, and else changes nothing and answers false.
    pub fn mark(&mut self, key: MarkKey, generation: u64) -> Result<bool, Memory>
        ensures present { IfOk result (λ b. b ≡ (generation == self.old.generation)) }
        ensures ok { OnOk result (self.new ≡ (if generation == self.old.generation then after_mark self.old key else self.old)) }
        ensures err { OnErr result (self.new ≡ self.old) }
    {
        if generation != self.generation {
            return Ok(false);
        }
        match self.entries.put(key, generation) {
            Ok(_) => Ok(true),
            Err(_) => Err(Memory),
        }
    }

    /// The generation.
    pub fn generation(&self) -> u64
        ensures { result ≡ self.now.generation }
    {
        self.generation
    }

    /// The next generation begins, and nothing is marked. It takes no memory.
    pub fn turn(&mut self)
        requires { self.old.generation + 1 < 2 ^ 64 }
        ensures generation { self.new.generation ≡ self.old.generation + 1 }
        ensures empty { self.new.entries ≡ lru_cache [] self.old.entries.cap }
    {
        self.entries.clear();
        self.generation += 1;
    }
}

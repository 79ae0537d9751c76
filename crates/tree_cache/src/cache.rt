//! The cache of nodes by their hashes, for one generation and of bounded size.
ghost use Rattle.std.specs.Prelude.{◌≡◌, ◌+◌, ◌^◌, ◌<◌, ◌==◌, [], IfOk, OnErr, OnOk, Some, if◌then◌else◌};
ghost use Rattle.lru.specs.LruCache.{lru_cache};
ghost use Rattle.ledger_spec.specs.Forms.{hash_of as form_hash};
ghost use Rattle.shamap_node.specs.Nodes.{held};
ghost use Rattle.tree_cache.specs.Caching.{after_get, after_put, shown, cached};

use half_hash::{Hash32, Memory, NodeHash};
use lru::LruCache;
use shamap_node::{Node, hash_of};
use std::alloc::Global;
use std::num::NonZeroUsize;
use std::sync::Arc;

/// Nodes under their hashes, the most recently used first.
#[derive(Drop)]
pub struct TreeCache {
    entries: LruCache<Hash32, Arc<Node>>,
    generation: u64,
}

impl TreeCache {
    /// The cache is empty, and the generation is 0.
    pub fn new(alloc: Global, capacity: usize) -> Result<TreeCache, Memory>
        requires { 0 < capacity }
        ensures { IfOk result (λ c. (c.entries ≡ lru_cache [] capacity) × (c.generation ≡ 0)) }
    {
        let Some(most) = NonZeroUsize::new(capacity) else {
            unreachable!();
        };
        match LruCache::sparse(alloc, most) {
            Ok(entries) => Ok(TreeCache {
                entries,
                generation: 0,
            }),
            Err(_) => Err(Memory),
        }
    }

    /// The node under the hash, where the generation is the present one and there is an entry. It becomes the most recently used. Where
    /// memory for another owner of it is refused, nothing changes.
    pub fn get(&mut self, h: &Hash32, generation: u64) -> Result<Option<Arc<Node>>, Memory>
        ensures value { IfOk result (λ o. shown o ≡ cached self.old h.now generation) }
        ensures used { OnOk result (self.new ≡ after_get self.old h.now generation) }
        ensures err { OnErr result (self.new ≡ self.old) }
    {
        if generation != self.generation {
            return Ok(None);
        }
        let Some(node) = self.entries.peek(h) else {
            return Ok(None);
        };
        let again = another(node)?;
        self.entries.promote(h);
        Ok(Some(again))
    }

    /// Puts a node under its hash, where the generation is the present one, and else changes nothing and answers false.
    pub fn put<H: NodeHash>(&mut self, node: Arc<Node>, generation: u64) -> Result<bool, Memory>
        ensures present { IfOk result (λ b. b ≡ (generation == self.old.generation)) }
        ensures ok { OnOk result (self.new ≡ (if generation == self.old.generation
            then after_put self.old (form_hash H.half (held node.value)) node else self.old)) }
        ensures err { OnErr result (self.new ≡ self.old) }
    {
        let h = hash_of::<H>(&node);
        self.put_hashed(&h, node, generation)
    }

    /// The same under a hash that the caller knows as the node's, so that nothing is hashed: a node of another hash would stand there too.
    pub fn put_hashed(
        &mut self,
        h: &Hash32,
        node: Arc<Node>,
        generation: u64,
    ) -> Result<bool, Memory>
        ensures present { IfOk result (λ b. b ≡ (generation == self.old.generation)) }
        ensures ok { OnOk result (self.new ≡ (if generation == self.old.generation then after_put self.old h.now node else self.old)) }
        ensures err { OnErr result (self.new ≡ self.old) }
    {
        if generation != self.generation {
            return Ok(false);
        }
        match self.entries.put(*h, node) {
            Ok(_) => Ok(true),
            Err(_) => Err(Memory),
        }
    }

    /// The generation.
    pub fn generation(&self) -> u64
        ensures { result ≡ self.now.generation }
    {
        self.generation
    }

    /// The cache is empty, in the same generation. It takes no memory.
    pub fn clear(&mut self)
        ensures generation { self.new.generation ≡ self.old.generation }
        ensures empty { self.new.entries ≡ lru_cache [] self.old.entries.cap }
    {
        self.entries.clear();
    }

    /// The next generation begins, and the cache is empty. It takes no memory.
    pub fn turn(&mut self)
        requires { self.old.generation + 1 < 2 ^ 64 }
        ensures generation { self.new.generation ≡ self.old.generation + 1 }
        ensures empty { self.new.entries ≡ lru_cache [] self.old.entries.cap }
    {
        self.clear();
        self.generation += 1;
    }
}

// Another owner of the same node.
fn another(node: &Arc<Node>) -> Result<Arc<Node>, Memory>
    ensures { IfOk result (λ again. again.value ≡ node.now.value) }
{
    match Arc::try_clone(node) {
        Ok(again) => Ok(again),
        Err(_) => Err(Memory),
    }
}

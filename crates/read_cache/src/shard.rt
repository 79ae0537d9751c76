//! One shard: the nodes that were used last, each under its own hash.
ghost use Rattle.std.specs.Prelude.{◌≡◌, [], IfOk, IfSome, OnOk, OnErr};
ghost use Rattle.std.specs.Option.{option_map};
ghost use Rattle.std.specs.Map.{lookup};
ghost use Rattle.ledger_spec.specs.Bytes.{same_bytes};
ghost use Rattle.ledger_spec.specs.Forms.{hash_of as form_hash};
ghost use Rattle.shamap_node.specs.Nodes.{held};
ghost use Rattle.lru.specs.LruCache.{promoted};
ghost use Rattle.read_cache.specs.Shards.{with_node};

use half_hash::{Hash32, Memory, NodeHash};
use lru::LruCache;
use shamap_node::{Node, hash_of};
use std::alloc::Global;
use std::marker::Model;
use std::num::NonZeroUsize;
use std::sync::Arc;

/// How many entries a shard has at most.
const CAPACITY: usize = 1024;

/// Nodes under their own hashes. Contracts see the entries, the most recently used first, each as its hash and its node.
#[derive(Drop)]
pub struct Shard<H: NodeHash> {
    hash: H,
    entries: LruCache<Hash32, Arc<Node>>,
}

impl<H: NodeHash> Model for Shard<H> {
    ghost use Rattle.std.specs.Prelude.{◌≡◌};
    ghost use Rattle.std.specs.Coded.{codes};
    ghost use Rattle.read_cache.specs.Shards.{Kept, kept_in, AreOwn, capacity};

    ghost Value = { Kept };

    ghost coded = { Prim.hlevel codes };

    ghost view = { λ s. kept_in s.entries.entries };

    ghost invariant = { λ s. (s.entries.cap ≡ capacity) × AreOwn H.half (kept_in s.entries.entries) };
}

impl<H: NodeHash> Shard<H> {
    /// A shard without entries.
    pub fn new(alloc: Global, hash: H) -> Result<Shard<H>, Memory>
        ensures { IfOk result (λ s. s ≡ []) }
    {
        let capacity = NonZeroUsize::new(CAPACITY).unwrap();
        let entries = LruCache::sparse(alloc, capacity)?;
        Ok(Shard { hash, entries })
    }

    /// The node of the entry under the hash, if there is one. It becomes the most recently used. Where memory for another owner of it is
    /// refused, nothing changes.
    pub fn find(&mut self, h: &Hash32) -> Result<Option<Arc<Node>>, Memory>
        ensures found { IfOk result (λ o. option_map (λ a. a.value) o ≡ lookup (same_bytes h.now) self.old) }
        // The node has the hash that was asked for.
        ensures own { IfOk result (λ o. IfSome o (λ a. form_hash H.half (held a.value) ≡ h.now)) }
        ensures front { OnOk result (self.new ≡ promoted (same_bytes h.now) self.old) }
        ensures err { OnErr result (self.new ≡ self.old) }
    {
        let Some(node) = self.entries.peek(h) else {
            return Ok(None);
        };
        let node = another(node)?;
        self.entries.promote(h);
        Ok(Some(node))
    }

    /// Puts a node under its own hash, as the most recently used one. Where there would be more than the capacity, the one that was used
    /// last longest ago goes. Where memory is refused, nothing changes.
    pub fn keep(&mut self, node: Arc<Node>) -> Result<(), Memory>
        ensures ok { OnOk result (self.new ≡ with_node H.half node.value self.old) }
        ensures err { OnErr result (self.new ≡ self.old) }
    {
        let h = hash_of::<H>(&node);
        self.keep_hashed(&h, node)
    }

    /// The same under a hash that is known as the node's, which isn't hashed again.
    pub fn keep_hashed(&mut self, h: &Hash32, node: Arc<Node>) -> Result<(), Memory>
        requires { form_hash H.half (held node.value) ≡ h.now }
        ensures ok { OnOk result (self.new ≡ with_node H.half node.value self.old) }
        ensures err { OnErr result (self.new ≡ self.old) }
    {
        self.entries.put(*h, node)?;
        Ok(())
    }
}

// Another owner of the same node.
fn another(node: &Arc<Node>) -> Result<Arc<Node>, Memory>
    ensures { IfOk result (λ again. again.value ≡ node.now.value) }
{
    match Arc::try_clone(node) {
        Ok(again) => Ok(again),
        Err(_) => Err(Memory),
    }
}

//! The shards, each under its lock: a hash's top three bits say in which of them it is kept.
ghost use Rattle.std.specs.Prelude.{◌≡◌, ◌<◌, ◌/◌, IfOk, IfSome, vec_len, slice_index};
ghost use Rattle.ledger_spec.specs.Forms.{hash_of as form_hash};
ghost use Rattle.shamap_node.specs.Nodes.{held};

use crate::Shard;
use crate::taking::take_lock;
use half_hash::{Hash32, Memory, NodeHash};
use shamap_node::{Node, hash_of};
use std::alloc::Global;
use std::sync::{Arc, Mutex, Wait};

/// How many shards there are, one for each number that the top three bits of a hash give.
const SHARDS: usize = 8;

/// Nodes that readers on many threads have read.
#[derive(Drop)]
pub struct ReadCache<H: NodeHash> {
    hash: H,
    shards: Vec<Mutex<Shard<H>>>,
    ghost eight: { vec_len shards ≡ 8 },
}

impl<H: NodeHash> ReadCache<H> {
    /// A cache without entries.
    pub fn new(alloc: Global, hash: H) -> Result<ReadCache<H>, Memory> {
        let mut shards = Vec::with_capacity(alloc, SHARDS)?;
        for _ in 0..SHARDS {
            shards.push(Mutex::new(Shard::new(alloc, hash)?))?;
        }
        Ok(ReadCache { hash, shards })
    }

    /// The node that is kept under a hash, if there is one. It waits for a lock.
    pub fn get<R: Wait>(&self, rt: &R, h: &Hash32) -> Result<Option<Arc<Node>>, Memory>
        ensures { IfOk result (λ o. IfSome o (λ a. form_hash H.half (held a.value) ≡ h.now)) }
    {
        take_lock(rt, &self.shards[shard_of(h)]).find(h)
    }

    /// Keeps a node under its own hash. It waits for a lock.
    pub fn put<R: Wait>(&self, rt: &R, node: Arc<Node>) -> Result<(), Memory> {
        let h = hash_of::<H>(&node);
        self.put_hashed(rt, &h, node)
    }

    /// The same of a node whose hash the caller knows, which isn't hashed again.
    pub fn put_hashed<R: Wait>(&self, rt: &R, h: &Hash32, node: Arc<Node>) -> Result<(), Memory>
        requires own { form_hash H.half (held node.value) ≡ h.now }
    {
        take_lock(rt, &self.shards[shard_of(h)]).keep_hashed(h, node)
    }
}

// The number of the shard of a hash: its top three bits.
fn shard_of(h: &Hash32) -> usize
    ensures number { result ≡ slice_index h.now 0 / 32 }
    ensures within { result < 8 }
{
    (h.bytes[0] / 32) as usize
}

use crate::{ReadCache, Shard};
use half_hash::{Blob, Hash32, Memory, NodeHash, TinyHash};
use shamap_node::{Item, Kind, Leaf, Node};
use std::alloc::Global;
use std::sync::{Arc, Wait};
use std::test::Fail;
use std::thread::{Threads, join};

/// This byte and 31 zeros.
fn hash(first: u8) -> Hash32 {
    let mut bytes = [0; 32];
    bytes[0] = first;
    Hash32 { bytes }
}

/// The leaf of the key 10 and zeros, with the data 01 02. Its hash is FA and zeros.
fn leaf(alloc: Global) -> Result<Arc<Node>, Fail> {
    let value = Blob::from_slice(alloc, &[1, 2])?;
    let item = Item::new(hash(0x10), value).ok().ok_or("item")?;
    let kind = Kind::State;
    Ok(Arc::new(alloc, Node::Leaf(Leaf { kind, item }))?)
}

#[test]
fn an_entry_of_a_shard_is_found_under_its_hash(rt: HostRuntime) -> Result<(), Fail> {
    let alloc = rt.alloc();
    let mut shard = Shard::new(alloc, TinyHash)?;
    shard.keep(leaf(alloc)?)?;
    assert!(rt; shard.find(&hash(0xFA))?.is_some());
    assert!(rt; shard.find(&hash(0xFD))?.is_none());
    Ok(())
}

/// One thread puts a node while another one looks for it.
fn put_and_get<R: Threads + Wait + Sync, H: NodeHash>(
    rt: &R,
    cache: &ReadCache<H>,
    node: Arc<Node>,
    h: &Hash32,
) -> Result<(), Memory> {
    let (kept, _) = join(rt, || cache.put(rt, node), || cache.get(rt, h));
    kept
}

#[test]
fn two_threads_share_a_cache(rt: HostRuntime) -> Result<(), Fail> {
    let alloc = rt.alloc();
    let cache = ReadCache::new(alloc, TinyHash)?;
    assert!(rt; cache.get(&rt, &hash(0xFA))?.is_none());
    put_and_get(&rt, &cache, leaf(alloc)?, &hash(0xFA))?;
    assert!(rt; cache.get(&rt, &hash(0xFA))?.is_some());
    assert!(rt; cache.get(&rt, &hash(0xFD))?.is_none());
    Ok(())
}

use super::*;
use half_hash::{Hash32, NodeHash, TinyHash};
use shamap_node::{Inner, Node, hash_of};
use std::sync::Arc;
use std::test::Fail;

#[test]
fn an_entry_stands_under_its_hash_until_the_turn(rt: HostRuntime) -> Result<(), Fail> {
    let alloc = rt.alloc();
    let mut hashes = [Hash32::zero(); 16];
    let mut bytes = [0; 32];
    bytes[0] = 0xFA;
    hashes[1] = Hash32 { bytes };
    let inner = Inner::new(hashes).ok_or("inner")?;
    let node = Arc::new(alloc, Node::Inner(inner))?;
    let h = hash_of::<TinyHash>(&node);
    let mut cache = TreeCache::new(alloc, 2)?;
    assert!(rt; cache.get(&h, 0)?.is_none());
    assert!(rt; cache.put::<TinyHash>(node, 0)?);
    assert!(rt; cache.get(&h, 0)?.is_some());
    assert!(rt; cache.get(&h, 1)?.is_none());
    cache.turn();
    assert!(rt; cache.get(&h, 0)?.is_none() && cache.get(&h, 1)?.is_none());
    let node = Arc::new(alloc, Node::Inner(inner))?;
    assert!(rt; !cache.put::<TinyHash>(node, 0)?);
    assert!(rt; cache.generation() == 1);
    Ok(())
}

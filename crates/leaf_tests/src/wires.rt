//! Wire forms of inner nodes: up to eleven branches are sent as chunks, more as all sixteen hashes, and either form is read.
use half_hash::{Half512, Hash32};
use node_wire::{decode_wire, encode_wire};
use shamap_node::{Inner, Node, hash_of};
use std::alloc::Global;
use std::test::Fail;

/// How many branches, and how many bytes its wire form and the other one have.
const SIZES: [(usize, usize, usize); 2] = [(11, 364, 513), (12, 513, 397)];

#[test]
fn either_form_is_read(rt: HostRuntime) -> Result<(), Fail> {
    let alloc = rt.alloc();
    for (branches, size, other_size) in &SIZES {
        let node = inner(*branches)?;
        let wire = encode_wire(alloc, &node)?;
        let other = wire_of(alloc, &node, *branches < 12)?;
        assert_eq!(rt; wire.bytes().len(), *size);
        assert_eq!(rt; other.len(), *other_size);
        assert!(rt; is_of(alloc, wire.bytes(), &node), "{branches}");
        assert!(rt; is_of(alloc, other.as_slice(), &node), "{branches}");
    }
    Ok(())
}

/// The inner node with the last so many branches, of which each has another hash.
fn inner(branches: usize) -> Result<Node, Fail> {
    let mut hashes = [Hash32::zero(); 16];
    for b in 0..16usize {
        if 16 - b <= branches {
            let mut bytes = [0; 32];
            bytes[b] = 7;
            hashes[b] = Hash32 { bytes };
        }
    }
    Ok(Node::Inner(Inner::new(hashes).ok_or("no branch")?))
}

/// Its sixteen hashes, or each that isn't zero with its branch.
fn wire_of(alloc: Global, node: &Node, is_whole: bool) -> Result<Vec<u8>, Fail> {
    let mut wire = Vec::new(alloc);
    if let Node::Inner(inner) = node {
        for b in 0..16u8 {
            let hash = inner.branch(b);
            if is_whole {
                wire.extend_from_slice(&hash.bytes)?;
            } else if !hash.is_zero() {
                wire.extend_from_slice(&hash.bytes)?;
                wire.push(b)?;
            }
        }
    }
    wire.push(if is_whole { 2 } else { 3 })?;
    Ok(wire)
}

/// Whether this is a wire form of the node.
fn is_of(alloc: Global, wire: &[u8], node: &Node) -> bool {
    match decode_wire::<Half512>(alloc, wire) {
        Ok(read) => hash_of::<Half512>(&read).equals(&hash_of::<Half512>(node)),
        Err(_) => false,
    }
}

//! Wire forms, written. An inner node is written compressed where fewer than twelve of its branches aren't empty, else in full; this
//! threshold is the project's own.
ghost use Rattle.std.specs.Prelude.{◌≡◌, ◌++◌, ◌∷◌, [], IfOk, OnOk};
ghost use Rattle.std.specs.List.{concat, flat_map, filter};
ghost use Rattle.ledger_spec.specs.Bytes.{is_nonzero};
ghost use Rattle.ledger_spec.specs.Forms.{leaf};
ghost use Rattle.ledger_spec.specs.Wire.{wire_of, chunk_bytes, chunks_of};
ghost use Rattle.shamap_node.specs.Nodes.{held};

use half_hash::{Blob, Hash32, Memory};
use shamap_node::{Inner, Item, Kind, Node};
use std::alloc::Global;

/// The fewest branches that aren't empty of an inner node that is written in full.
const FULL_FROM: u8 = 12;

/// How many bytes a chunk has: a hash and its position.
const CHUNK: usize = 33;

/// How many bytes the wire form of an inner node has that is written in full: sixteen hashes and the type byte.
const FULL_WIRE: usize = 513;

/// The wire form of a node: data, and the key behind it unless it is a bare transaction, of a leaf; the chunks of an inner node
/// with fewer than twelve branches that aren't empty, positions rising, or else its sixteen hashes; and last the type byte.
pub fn encode_wire(alloc: Global, node: &Node) -> Result<Blob, Memory>
    ensures { IfOk result (λ blob. blob ≡ wire_of (held node.now)) }
{
    match node {
        Node::Leaf(leaf) => Ok(leaf_wire(alloc, leaf.kind, &leaf.item)?),
        Node::Inner(inner) => Ok(inner_wire(alloc, inner)?),
    }
}

/// The wire form of a leaf: its data, its key unless it is a bare transaction, and the type byte.
pub fn leaf_wire(alloc: Global, kind: Kind, item: &Item) -> Result<Blob, Memory>
    ensures { IfOk result (λ blob. blob ≡ wire_of (leaf kind item.now.key item.now.value)) }
{
    let data = item.data();
    let key = &item.key().bytes;
    match kind {
        Kind::Set => Ok(joined(alloc, data, &[], 0)?),
        Kind::State => Ok(joined(alloc, data, key, 1)?),
        Kind::Tx => Ok(joined(alloc, data, key, 4)?),
    }
}

// Data, a key or none, and the type byte, in room for all of them.
fn joined(alloc: Global, front: &[u8], key: &[u8], type_byte: u8) -> Result<Blob, Memory>
    ensures { IfOk result (λ blob. blob ≡ front.now ++ key.now ++ type_byte ∷ []) }
{
    let room = front.len().saturating_add(key.len()).saturating_add(1);
    let mut bytes = Vec::with_capacity(alloc, room)?;
    bytes.extend_from_slice(front)?;
    bytes.extend_from_slice(key)?;
    bytes.push(type_byte)?;
    Ok(Blob::new(bytes))
}

// The wire form of an inner node.
fn inner_wire(alloc: Global, inner: &Inner) -> Result<Blob, Memory>
    ensures { IfOk result (λ blob. blob ≡ wire_of (held (Node.Inner inner.now))) }
{
    if inner.count() < FULL_FROM {
        Ok(compressed(alloc, inner)?)
    } else {
        Ok(full(alloc, inner)?)
    }
}

// The chunks of the branches that aren't empty.
fn compressed(alloc: Global, inner: &Inner) -> Result<Blob, Memory>
    ensures { IfOk result (λ blob. blob ≡ flat_map chunk_bytes (chunks_of inner.now.hashes) ++ 3 ∷ []) }
{
    let mut bytes = Vec::with_capacity(alloc, CHUNK * inner.count() as usize + 1)?;
    for b in 0..16u8 {
        add_chunk(&mut bytes, &inner.branch(b), b)?;
    }
    bytes.push(3)?;
    Ok(Blob::new(bytes))
}

// Adds a branch, unless it is empty.
fn add_chunk(bytes: &mut Vec<u8>, hash: &Hash32, position: u8) -> Result<(), Memory>
    ensures { OnOk result (bytes.new.items ≡ bytes.old.items
        ++ flat_map chunk_bytes (filter (λ c. is_nonzero c.hash) (record { hash = hash.now; position = position } ∷ []))) }
{
    if hash.is_zero() {
        return Ok(());
    }
    bytes.extend_from_slice(&hash.bytes)?;
    bytes.push(position)?;
    Ok(())
}

// The sixteen hashes.
fn full(alloc: Global, inner: &Inner) -> Result<Blob, Memory>
    ensures { IfOk result (λ blob. blob ≡ concat inner.now.hashes ++ 2 ∷ []) }
{
    let mut bytes = Vec::with_capacity(alloc, FULL_WIRE)?;
    for b in 0..16u8 {
        bytes.extend_from_slice(&inner.branch(b).bytes)?;
    }
    bytes.push(2)?;
    Ok(Blob::new(bytes))
}

//! Wire forms, read: the type byte, which is the last one, tells how the others are taken.
ghost use Rattle.std.specs.Prelude.{◌≡◌, ◌≢◌, length, replicate, IfErr, IfOk, MatchResult, OnOk, Ok, Err};
ghost use Rattle.ledger_spec.specs.Forms.{Held, leaf_form};
ghost use Rattle.ledger_spec.specs.Bytes.{zero_hash};
ghost use Rattle.ledger_spec.specs.Wire.{Wire, read_wire, read_typed, checked_inner, full};
ghost use Rattle.ledger_spec.specs.Wire.{checked_leaf, keyed_leaf as keyed_leaf_of};
ghost use Rattle.shamap_node.specs.Nodes.{held, held_leaf};
ghost use Rattle.node_wire.specs.Chunks.{leaf_or_inner};
ghost use Rattle.node_wire.specs.Faults.{code, Tells, TellsData, TellsFront, TellsKeyed};
ghost use Rattle.node_wire.specs.declared.fault.WireFault.TheVariants as faults;

use crate::WireFault;
use crate::chunks::take_chunks;
use half_hash::{Blob, Hash32, NodeHash, Prefix, known_half};
use shamap_node::{DATA_LIMIT, Inner, Item, Kind, Leaf, Node};
use std::alloc::Global;

/// The node of a wire form, or the first cause for which the bytes are none: that there are none; their type; then a full inner
/// node's length, or the length of chunks and chunk by chunk a position of 16 or more, a position that an earlier chunk had and a
/// zero hash; that an inner node has a branch; or a leaf's length, that its data is not too long, and that its key is not zero.
pub fn decode_wire<H: NodeHash>(alloc: Global, bytes: &[u8]) -> Result<Node, WireFault>
    ensures node { IfOk result (λ n. read_wire H.half bytes.now ≡ Ok (held n)) }
    ensures cause { IfErr result (λ f. f ≢ faults.Memory → read_wire H.half bytes.now ≡ Err (code f)) }

    // what the cause tells of the bytes
    ensures tells { IfErr result (Tells bytes.now) }

    // a node's wire form is read as that node, if there is memory
    ensures form { IfOk result (λ n. Wire H.half (held n) bytes.now) }
    ensures back { (n : Held) → Wire H.half n bytes.now → MatchResult result (λ node. held node ≡ n) (λ f. f ≡ faults.Memory) }
{
    known_half::<H>();
    if bytes.is_empty() {
        return Err(WireFault::Empty);
    }
    let (front, last) = bytes.split_at(bytes.len() - 1);
    let mut hashes = [Hash32::zero(); 16];
    match typed_leaf::<H>(alloc, front, last[0], &mut hashes)? {
        Some(leaf) => Ok(Node::Leaf(leaf)),
        None => match Inner::new(hashes) {
            Some(inner) => Ok(Node::Inner(inner)),
            None => Err(WireFault::EmptyInner),
        },
    }
}

// The leaf of what stands before the type byte; of an inner node none, and its branches, where all sixteen are empty before.
fn typed_leaf<H: NodeHash>(
    alloc: Global,
    front: &[u8],
    type_byte: u8,
    hashes: &mut [Hash32; 16],
) -> Result<Option<Leaf>, WireFault>
    requires { hashes.old ≡ replicate 16 zero_hash }
    ensures read { IfOk result (λ leaf. read_typed H.half front.now type_byte ≡ leaf_or_inner leaf hashes.new) }
    ensures cause { IfErr result (λ f. f ≢ faults.Memory → read_typed H.half front.now type_byte ≡ Err (code f)) }
    ensures tells { IfErr result (TellsFront type_byte front.now) }
{
    match type_byte {
        0 => Ok(Some(bare_leaf::<H>(alloc, front)?)),
        1 => Ok(Some(keyed_leaf(alloc, Kind::State, front)?)),
        2 => {
            take_full(front, hashes)?;
            Ok(None)
        }
        3 => {
            take_chunks(front, hashes)?;
            Ok(None)
        }
        4 => Ok(Some(keyed_leaf(alloc, Kind::Tx, front)?)),
        other => Err(WireFault::TypeByte(other)),
    }
}

// The branches of sixteen hashes.
fn take_full(front: &[u8], hashes: &mut [Hash32; 16]) -> Result<(), WireFault>
    ensures read { OnOk result (full front.now ≡ checked_inner hashes.new) }
    ensures cause { IfErr result (λ f. (full front.now ≡ Err (code f)) × (f ≢ faults.Memory)) }
    ensures tells { IfErr result (TellsFront 2 front.now) }
{
    if front.len() != 512 {
        return Err(WireFault::FullLength(front.len()));
    }
    let mut rest = front;
    for b in 0..16usize {
        let (hash, after) = rest.split_at(32);
        hashes[b] = Hash32::from_slice(hash);
        rest = after;
    }
    Ok(())
}

// The leaf of a bare transaction: its key is its hash.
fn bare_leaf<H: NodeHash>(alloc: Global, front: &[u8]) -> Result<Leaf, WireFault>
    ensures leaf { IfOk result (λ leaf.
        checked_leaf Kind.Set (H.half (leaf_form Kind.Set zero_hash front.now)) front.now ≡ Ok (held_leaf leaf)) }
    ensures cause { IfErr result (λ f. f ≢ faults.Memory →
        checked_leaf Kind.Set (H.half (leaf_form Kind.Set zero_hash front.now)) front.now ≡ Err (code f)) }
    ensures tells { IfErr result (TellsData (length front.now)) }
{
    let key = H::half_parts(&Prefix::Txn.bytes(), front, &[]);
    Ok(leaf_from(alloc, Kind::Set, key, front)?)
}

// The leaf of data and then a key.
fn keyed_leaf(alloc: Global, kind: Kind, front: &[u8]) -> Result<Leaf, WireFault>
    ensures leaf { IfOk result (λ leaf. keyed_leaf_of kind front.now ≡ Ok (held_leaf leaf)) }
    ensures cause { IfErr result (λ f. f ≢ faults.Memory → keyed_leaf_of kind front.now ≡ Err (code f)) }
    ensures tells { IfErr result (TellsKeyed (length front.now)) }
{
    if front.len() < 32 {
        return Err(WireFault::LeafShort(front.len()));
    }
    let (data, key) = front.split_at(front.len() - 32);
    Ok(leaf_from(alloc, kind, Hash32::from_slice(key), data)?)
}

// The leaf of a key and data, or why they are none.
fn leaf_from(alloc: Global, kind: Kind, key: Hash32, bytes: &[u8]) -> Result<Leaf, WireFault>
    ensures leaf { IfOk result (λ leaf. checked_leaf kind key bytes.now ≡ Ok (held_leaf leaf)) }
    ensures cause { IfErr result (λ f. f ≢ faults.Memory → checked_leaf kind key bytes.now ≡ Err (code f)) }
    ensures tells { IfErr result (TellsData (length bytes.now)) }
{
    if bytes.len() > DATA_LIMIT {
        return Err(WireFault::TooLong(bytes.len()));
    }
    if key.is_zero() {
        return Err(WireFault::ZeroKey);
    }
    let value = Blob::from_slice(alloc, bytes)?;
    match Item::new(key, value) {
        Ok(item) => Ok(Leaf { kind, item }),
        Err(_) => unreachable!(),
    }
}

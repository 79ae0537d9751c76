//! The chunks of a compressed inner node, read into the sixteen branches. A branch that has a hash was in an earlier chunk, since
//! no chunk with a zero hash is taken.
ghost use Rattle.std.specs.Prelude.{◌≡◌, ◌≢◌, length, replicate, set, IfErr, OnOk, Err};
ghost use Rattle.ledger_spec.specs.Bytes.{zero_hash};
ghost use Rattle.ledger_spec.specs.Wire.{checked_inner, compressed};
ghost use Rattle.node_wire.specs.Chunks.{chunk_in, slot_cause};
ghost use Rattle.node_wire.specs.Faults.{code, TellsFront, TellsChunk};
ghost use Rattle.node_wire.specs.declared.fault.WireFault.TheVariants as faults;

use crate::WireFault;
use half_hash::Hash32;

/// How many bytes a chunk has: a hash and its position.
const CHUNK: usize = 33;

/// The branches that the chunks make, where all sixteen are empty before.
pub(crate) fn take_chunks(front: &[u8], hashes: &mut [Hash32; 16]) -> Result<(), WireFault>
    requires { hashes.old ≡ replicate 16 zero_hash }
    ensures read { OnOk result (compressed front.now ≡ checked_inner hashes.new) }
    ensures cause { IfErr result (λ f. (compressed front.now ≡ Err (code f)) × (f ≢ faults.Memory)) }
    ensures tells { IfErr result (TellsFront 3 front.now) }
{
    if front.len() % CHUNK != 0 {
        return Err(WireFault::ChunkLength(front.len()));
    }
    let mut rest = front;
    while !rest.is_empty() {
        let (chunk, after) = rest.split_at(CHUNK);
        take_chunk(chunk, hashes)?;
        rest = after;
    }
    Ok(())
}

// Takes a chunk into its branch, or says why it is refused.
fn take_chunk(chunk: &[u8], hashes: &mut [Hash32; 16]) -> Result<(), WireFault>
    requires { length chunk.now ≡ 33 }
    ensures taken { OnOk result (hashes.new ≡ set hashes.old (chunk_in chunk.now).position (chunk_in chunk.now).hash) }
    ensures fits { OnOk result (slot_cause hashes.old (chunk_in chunk.now) ≡ 0) }
    ensures cause { IfErr result (λ f. (slot_cause hashes.old (chunk_in chunk.now) ≡ code f) × (f ≢ faults.Memory)) }
    ensures tells { IfErr result (TellsChunk (chunk_in chunk.now).position) }
{
    let position = chunk[32];
    if position >= 16 {
        return Err(WireFault::Position(position));
    }
    let at = position as usize;
    if !hashes[at].is_zero() {
        return Err(WireFault::Repeated(position));
    }
    let hash = Hash32::from_slice(&chunk[..32]);
    if hash.is_zero() {
        return Err(WireFault::ZeroChunk(position));
    }
    hashes[at] = hash;
    Ok(())
}

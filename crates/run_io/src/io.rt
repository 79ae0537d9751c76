//! What gives bytes and what takes them, and how all of them are read or written.
ghost use Rattle.std.specs.Prelude.{◌≡◌, ◌≤◌, ◌++◌, ◌+◌, ℕ, List, Option, Some, IfOk, IfErr, OnErr, OnOk, IfSome, length, take, vec_len};
ghost use Rattle.run_io.specs.Bytes.{CountsFaults, Reads, Took, TookPart, Writes, Wrote, WrotePart};

use std::alloc::{AllocError, Global};

/// A handed-in object failed, and its count rose.
#[derive(Clone, Copy, Debug, PartialEq, Eq)]
pub struct Fault;

/// What gives bytes.
pub trait Source {
    /// The bytes that are left, where the source tells them.
    ghost left: { Self → Option (List ℕ) };

    /// How often it has failed, held at the last value of a u64.
    ghost faults: { Self → ℕ };

    /// Reads some bytes; none into a buffer that isn't empty is the end of input. A read that fails
    /// moves none.
    fn read(&mut self, buf: &mut [u8]) -> Result<usize, Fault>
        ensures read { Reads (left self.old) (left self.new) buf.old buf.new result }
        ensures kept { OnErr result (IfSome (left self.old) (λ bytes. left self.new ≡ Some bytes)) }
        ensures counts { CountsFaults (OnErr result) (faults self.old) (faults self.new) };
}

/// What takes bytes.
pub trait Sink {
    /// The bytes that it holds, where it tells them.
    ghost held: { Self → Option (List ℕ) };

    /// How often it has failed, held at the last value of a u64.
    ghost faults: { Self → ℕ };

    /// Takes a front of the piece; of a piece that isn't empty at least one byte.
    fn write(&mut self, piece: &[u8]) -> Result<usize, Fault>
        ensures written { Writes (held self.old) (held self.new) piece.now result }
        ensures counts { CountsFaults (OnErr result) (faults self.old) (faults self.new) };
}

/// Why not all was read.
#[derive(Clone, Copy, Debug, PartialEq, Eq)]
pub enum AllFault {
    /// The source failed, and its count rose.
    Fault,
    /// Memory was refused.
    Memory,
}

impl From<Fault> for AllFault {
    ghost use Rattle.std.specs.Prelude.{◌≡◌};
    ghost use Rattle.run_io.specs.declared.io.AllFault.TheVariants as all;

    ghost from_gives = { λ _ e. e ≡ all.Fault };

    fn from(_: Fault) -> Self {
        AllFault::Fault
    }
}

impl From<AllocError> for AllFault {
    ghost use Rattle.std.specs.Prelude.{◌≡◌};
    ghost use Rattle.run_io.specs.declared.io.AllFault.TheVariants as all;

    ghost from_gives = { λ _ e. e ≡ all.Memory };

    fn from(_: AllocError) -> Self {
        AllFault::Memory
    }
}

/// How many bytes are asked for at once.
const PIECE: usize = 65536;

/// Reads to the end of input or to `most` bytes. What a refused call has taken is lost: a front of
/// the input.
pub fn read_all<S: Source>(alloc: Global, source: &mut S, most: usize) -> Result<Vec<u8>, AllFault>
    ensures read { IfOk result (λ v. IfSome (S.left source.old) (λ bytes. v.items ≡ take most bytes)) }
    ensures rest { OnOk result (Took (S.left source.old) (S.left source.new) most) }
    ensures most { IfOk result (λ v. vec_len v ≤ most) }

    ensures part { OnErr result (TookPart (S.left source.old) (S.left source.new) most) }
    ensures counts { CountsFaults (λ rose. IfErr result (λ e. e ≡ AllFault.Fault → rose)) (S.faults source.old) (S.faults source.new) }
{
    let mut held = Vec::new(alloc);
    let mut buf = vec![in alloc; 0; PIECE]?;
    while held.len() < most {
        let room = PIECE.min(most - held.len());
        let n = read_piece(source, &mut buf[..room], &mut held)?;
        if n == 0 {
            return Ok(held);
        }
    }
    Ok(held)
}

/// One read, whose bytes go behind those that are held.
fn read_piece<S: Source>(
    source: &mut S,
    buf: &mut [u8],
    held: &mut Vec<u8>,
) -> Result<usize, AllFault>
    ensures read { Reads (S.left source.old) (S.left source.new) buf.old buf.new result }
    ensures held { IfOk result (λ n. held.new.items ≡ held.old.items ++ take n buf.new) }
    ensures len { IfOk result (λ n. vec_len held.new ≡ vec_len held.old + n) }

    ensures part { OnErr result (TookPart (S.left source.old) (S.left source.new) (length buf.old)) }
    ensures counts { CountsFaults (λ rose. IfErr result (λ e. e ≡ AllFault.Fault → rose)) (S.faults source.old) (S.faults source.new) }
{
    let n = source.read(buf)?;
    held.extend_from_slice(&buf[..n])?;
    Ok(n)
}

/// Writes all of the bytes, or a front of them where the sink fails. It takes no memory of its own.
pub fn write_all<K: Sink>(sink: &mut K, bytes: &[u8]) -> Result<(), Fault>
    ensures wrote { OnOk result (Wrote (K.held sink.old) (K.held sink.new) bytes.now) }
    ensures part { OnErr result (WrotePart (K.held sink.old) (K.held sink.new) bytes.now) }
    ensures counts { CountsFaults (OnErr result) (K.faults sink.old) (K.faults sink.new) }
{
    let mut rest = bytes;
    while !rest.is_empty() {
        let n = sink.write(rest)?;
        rest = &rest[n..];
    }
    Ok(())
}

//! Why bytes are no wire form of a node.
ghost use Rattle.std.specs.Prelude.{◌≡◌};
ghost use Rattle.node_wire.specs.Faults.{code};
ghost use Rattle.node_wire.specs.declared.fault.WireFault.TheVariants as faults;

use half_hash::Memory;

/// Why bytes are no wire form of a node.
#[derive(Clone, Copy, Debug, PartialEq, Eq)]
pub enum WireFault {
    /// There is no byte at all.
    Empty,
    /// The last byte, which is none of the types.
    TypeByte(u8),
    /// A full inner node with this many bytes before its type, not 512.
    FullLength(usize),
    /// A compressed inner node with this many bytes before its type, no multiple of 33.
    ChunkLength(usize),
    /// The position of a chunk, 16 or more.
    Position(u8),
    /// The position of a chunk, which an earlier chunk has.
    Repeated(u8),
    /// The position of a chunk whose hash is zero.
    ZeroChunk(u8),
    /// An inner node with no branch that isn't empty.
    EmptyInner,
    /// A leaf with this many bytes before its type, fewer than its key has.
    LeafShort(usize),
    /// A leaf whose key is zero.
    ZeroKey,
    /// A leaf with this many bytes of data, more than the limit.
    TooLong(usize),
    /// Memory was refused.
    Memory,
}

impl From<Memory> for WireFault {
    ghost from_gives = { λ _ fault. fault ≡ faults.Memory };

    fn from(_: Memory) -> WireFault {
        WireFault::Memory
    }
}

/// The number of the cause: 1 for no byte, 2 for the type, 3 for a full inner node's length, 4 for the length of chunks, 5 for a
/// chunk's position, 6 for a repeated one, 7 for a zero hash, 8 for an inner node without branches, 9 for a leaf's length, 10 for
/// a zero key, 11 for too much data. Want of memory says nothing of the bytes, and has 0.
pub fn wire_code(fault: &WireFault) -> u8
    ensures { result ≡ code fault.now }
{
    match fault {
        WireFault::Empty => 1,
        WireFault::TypeByte(_) => 2,
        WireFault::FullLength(_) => 3,
        WireFault::ChunkLength(_) => 4,
        WireFault::Position(_) => 5,
        WireFault::Repeated(_) => 6,
        WireFault::ZeroChunk(_) => 7,
        WireFault::EmptyInner => 8,
        WireFault::LeafShort(_) => 9,
        WireFault::ZeroKey => 10,
        WireFault::TooLong(_) => 11,
        WireFault::Memory => 0,
    }
}

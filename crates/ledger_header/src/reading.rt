//! Numbers and hashes at their places in a header's bytes.
ghost use Rattle.std.specs.Prelude.{◌≡◌, ◌+◌, ◌≤◌, length, take, drop};
ghost use Rattle.std.specs.Int.{w32, w64, from_be_bytes};

use byteorder::{BigEndian, ByteOrder};
use half_hash::Hash32;

// So many bytes from a place on.
fn part(bytes: &[u8], at: usize, size: usize) -> &[u8]
    requires { at + size ≤ length bytes.now }
    ensures part { result.now ≡ take size (drop at bytes.now) }
    ensures size { length result.now ≡ size }
{
    let (_before, from) = bytes.split_at(at);
    let (part, _after) = from.split_at(size);
    part
}

/// The number in the four bytes at a place.
pub(crate) fn u32_at(bytes: &[u8], at: usize) -> u32
    requires { at + 4 ≤ length bytes.now }
    ensures { result ≡ from_be_bytes w32 (take 4 (drop at bytes.now)) }
{
    BigEndian::read_u32(part(bytes, at, 4))
}

/// The number in the eight bytes at a place.
pub(crate) fn u64_at(bytes: &[u8], at: usize) -> u64
    requires { at + 8 ≤ length bytes.now }
    ensures { result ≡ from_be_bytes w64 (take 8 (drop at bytes.now)) }
{
    BigEndian::read_u64(part(bytes, at, 8))
}

/// The hash at a place.
pub(crate) fn hash_at(bytes: &[u8], at: usize) -> Hash32
    requires { at + 32 ≤ length bytes.now }
    ensures { result ≡ take 32 (drop at bytes.now) }
{
    Hash32::from_slice(part(bytes, at, 32))
}

//! Fields put in their places, from the left.
ghost use Rattle.std.specs.Prelude.{◌≡◌, ◌+◌, ◌++◌, ◌≤◌, length, take};
ghost use Rattle.std.specs.Int.{w32, w64, to_be_bytes};

use byteorder::{BigEndian, ByteOrder};

/// Puts the part at a place. What stands before it stays.
pub(crate) fn put(bytes: &mut [u8], at: usize, part: &[u8])
    requires { at + length part.now ≤ length bytes.old }
    ensures { take (at + length part.now) bytes.new ≡ take at bytes.old ++ part.now }
{
    bytes[at..at + part.len()].copy_from_slice(part);
}

/// Puts a number at a place, in four bytes.
pub(crate) fn put_u32(bytes: &mut [u8], at: usize, number: u32)
    requires { at + 4 ≤ length bytes.old }
    ensures { take (at + 4) bytes.new ≡ take at bytes.old ++ to_be_bytes w32 number }
{
    let mut part = [0; 4];
    BigEndian::write_u32(&mut part, number);
    put(bytes, at, &part);
}

/// Puts a number at a place, in eight bytes.
pub(crate) fn put_u64(bytes: &mut [u8], at: usize, number: u64)
    requires { at + 8 ≤ length bytes.old }
    ensures { take (at + 8) bytes.new ≡ take at bytes.old ++ to_be_bytes w64 number }
{
    let mut part = [0; 8];
    BigEndian::write_u64(&mut part, number);
    put(bytes, at, &part);
}

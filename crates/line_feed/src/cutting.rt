//! Parts of bytes, and their newlines: what `Feed` needs of a piece of its input.
ghost use Rattle.std.specs.Prelude.{◌≡◌, ◌≢◌, ◌<◌, ◌≤◌, ◌-◌, ℕ, length, take, drop, slice_index};

use memchr::memchr;

/// The bytes from one place to another.
pub(crate) fn part(bytes: &[u8], from: usize, to: usize) -> &[u8]
    requires order { from ≤ to }
    requires within { to ≤ length bytes.now }
    ensures part { result.now ≡ take (to - from) (drop from bytes.now) }
    ensures size { length result.now ≡ to - from }
{
    let (_before, from_there) = bytes.split_at(from);
    let (part, _after) = from_there.split_at(to - from);
    part
}

/// Where the first newline stands, or the end.
pub(crate) fn line_end(bytes: &[u8]) -> usize
    ensures within { result ≤ length bytes.now }
    ensures before { (k : ℕ) → k < result → slice_index bytes.now k ≢ 10 }
    ensures at { result < length bytes.now → slice_index bytes.now result ≡ 10 }
{
    match memchr(b'\n', bytes) {
        Some(at) => at,
        None => bytes.len(),
    }
}

//! Hashes of 32 bytes, the functions that make them, and the prefixes of what is hashed. Crates above are generic in `NodeHash`: `Half512`
//! is the ledger's hash, `TinyHash` a small one for tests and worked rows, which has collisions.
#![tactic(auto)]

ghost use Rattle.std.specs.Prelude.{◌≡◌, ◌+◌, ◌%◌, ◌∷◌, ◌++◌, List, ℕ, replicate, take, sum};
ghost use Rattle.half_hash.specs.Half.{IsHalf, sha512_half, byte_sum_half};
ghost use Rattle.half_hash.specs.Halves.{sha512_is, byte_sum_is};
ghost use Rattle.half_hash.specs.Zero.{zero_hash, is_zero as all_zero};

mod bytes;
mod hash32;
mod prefix;

pub use bytes::{Blob, Memory};
pub use hash32::{Hash32, HexFault};
pub use prefix::Prefix;
use sha2::{Digest, Sha512};

/// A function from bytes to hashes: the half of SHA-512 in the shipped program.
pub trait NodeHash: Copy + Send + Sync {
    /// The function that it is.
    ghost half: { List ℕ → List ℕ };

    /// The hash of the bytes.
    fn half(bytes: &[u8]) -> Hash32
        ensures { result ≡ half bytes.now };

    /// The hash of the three parts joined.
    fn half_parts(a: &[u8], b: &[u8], c: &[u8]) -> Hash32
        ensures { result ≡ half (a.now ++ b.now ++ c.now) };

    /// A hash is 32 bytes.
    ghost is_half: { IsHalf half };
}

/// SHA-512Half: the first 32 bytes of the SHA-512 digest (FIPS 180-4), as the XRP Ledger hashes.
#[derive(Clone, Copy, Debug)]
pub struct Half512;

impl NodeHash for Half512 {
    ghost half = { sha512_half };

    ghost is_half = { sha512_is };

    fn half(bytes: &[u8]) -> Hash32 {
        first_half(&Sha512::digest(bytes))
    }

    fn half_parts(a: &[u8], b: &[u8], c: &[u8]) -> Hash32 {
        let mut hasher = Sha512::new();
        hasher.update(a);
        hasher.update(b);
        hasher.update(c);
        first_half(&hasher.finalize())
    }
}

/// For proofs: a hash is 32 bytes. It does nothing.
pub fn known_half<H: NodeHash>()
    ensures { IsHalf H.half }
{}

fn first_half(digest: &[u8; 64]) -> Hash32
    ensures { result ≡ take 32 digest.now }
{
    let mut bytes = [0; 32];
    bytes.copy_from_slice(&digest[..32]);
    Hash32 { bytes }
}

/// A hash for tests, whose values can be worked out by hand: the sum of the bytes modulo 256, then
/// zeros.
#[derive(Clone, Copy, Debug)]
pub struct TinyHash;

impl NodeHash for TinyHash {
    ghost half = { byte_sum_half };

    ghost is_half = { byte_sum_is };

    fn half(bytes: &[u8]) -> Hash32 {
        of_sum(added(0, bytes))
    }

    fn half_parts(a: &[u8], b: &[u8], c: &[u8]) -> Hash32 {
        of_sum(added(added(added(0, a), b), c))
    }
}

fn added(start: u8, bytes: &[u8]) -> u8
    ensures { result ≡ (start + sum bytes.now) % 256 }
{
    let mut total = start;
    for byte in bytes {
        total = total.wrapping_add(*byte);
    }
    total
}

fn of_sum(sum: u8) -> Hash32
    ensures { result ≡ sum ∷ replicate 31 0 }
{
    let mut bytes = [0; 32];
    bytes[0] = sum;
    Hash32 { bytes }
}

#[cfg(test)]
mod tests {
    use super::*;
    use std::test::Fail;

    /// The digests of FIPS 180-4 for the empty text and for `abc`.
    const EMPTY: &[u8; 64] = b"CF83E1357EEFB8BDF1542850D66D8007D620E4050B5715DC83F4A921D36CE9CE";

    const ABC: &[u8; 64] = b"DDAF35A193617ABACC417349AE20413112E6FA4E89A97EA20A9EEEE64B55D39A";

    #[test]
    fn the_half_of_known_texts(rt: HostRuntime) -> Result<(), Fail> {
        let alloc = rt.alloc();
        let of_empty = Half512::half(b"").to_hex(alloc)?;
        assert_eq!(rt; of_empty.bytes(), EMPTY.as_slice());
        let of_abc = Half512::half_parts(b"a", b"", b"bc").to_hex(alloc)?;
        assert_eq!(rt; of_abc.bytes(), ABC.as_slice());
        let copy = Blob::from_slice(alloc, ABC)?;
        assert_eq!(rt; Hash32::from_hex(copy.bytes()), Ok(Half512::half(b"abc")));
        assert!(rt; TinyHash::half(&[250, 10]).bytes[0] == 4);
        Ok(())
    }

    /// The leaf, the root and the header of rippled's genesis ledger: what stands behind the
    /// prefix, and the hash.
    const GENESIS: [(Prefix, &[u8], &[u8; 64]); 3] = [
        (
            Prefix::Mln,
            LEAF,
            b"C30E11C83C5ADFB63E9540266E12A6BCEB90E562331DCBE84CECAC0205C51D0F",
        ),
        (
            Prefix::Min,
            ROOT,
            b"A21ED30C04C88046FC61DB9DC19375EEDBD365FD8C17286F27127DF804E9CAA6",
        ),
        (
            Prefix::Lwr,
            HEADER,
            b"AB868A6CFEEC779C2FF845C0AF00A642259986AF40C01976A7F842B6918936C7",
        ),
    ];

    const LEAF: &[u8] =
        b"1100612200000000240000000125000000002D00000000550000000000000000000000000000000000000000000000000000000000000000624163\
          45785D8A00008114B5F762798A53D543A014CAF8B297CFF8F2F937E82B6AC232AA4C4BE41BF49D2459FA4A0347E1B543A4C92FCEE0821C0201E2E9\
          A8";

    const ROOT: &[u8] =
        b"0000000000000000000000000000000000000000000000000000000000000000000000000000000000000000000000000000000000000000000000\
          0000000000C30E11C83C5ADFB63E9540266E12A6BCEB90E562331DCBE84CECAC0205C51D0F00000000000000000000000000000000000000000000\
          0000000000000000000000000000000000000000000000000000000000000000000000000000000000000000000000000000000000000000000000\
          0000000000000000000000000000000000000000000000000000000000000000000000000000000000000000000000000000000000000000000000\
          0000000000000000000000000000000000000000000000000000000000000000000000000000000000000000000000000000000000000000000000\
          0000000000000000000000000000000000000000000000000000000000000000000000000000000000000000000000000000000000000000000000\
          0000000000000000000000000000000000000000000000000000000000000000000000000000000000000000000000000000000000000000000000\
          0000000000000000000000000000000000000000000000000000000000000000000000000000000000000000000000000000000000000000000000\
          00000000000000000000000000000000000000000000000000000000000000000000000000000000";

    const HEADER: &[u8] =
        b"00000001016345785D8A00000000000000000000000000000000000000000000000000000000000000000000000000000000000000000000000000\
          0000000000000000000000000000000000A21ED30C04C88046FC61DB9DC19375EEDBD365FD8C17286F27127DF804E9CAA600000000000000001E00";

    #[test]
    fn the_genesis_ledger(rt: HostRuntime) -> Result<(), Fail> {
        let alloc = rt.alloc();
        for (prefix, digits, hash) in &GENESIS {
            let bytes = hex::decode(alloc, *digits)?;
            let found = Half512::half_parts(&prefix.bytes(), &bytes, b"").to_hex(alloc)?;
            assert_eq!(rt; found.bytes(), hash.as_slice());
        }
        Ok(())
    }

    #[test]
    fn texts_that_are_no_hash(rt: HostRuntime) -> Result<(), Fail> {
        let alloc = rt.alloc();
        let mut text = *ABC;
        text[41] = b'g';
        text[63] = b' ';
        let digit = Hash32::from_hex(&text).err().ok_or("digit")?;
        assert_eq!(rt; digit, HexFault::Digit(41));
        let length = Hash32::from_hex(b"g").err().ok_or("length")?;
        assert_eq!(rt; length, HexFault::Length(1));
        assert_eq!(rt;
            format!(in alloc; "{digit}, {length}")?.as_str(),
            "not a hexadecimal digit, not 64 bytes long"
        );
        Ok(())
    }
}

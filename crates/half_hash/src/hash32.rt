//! Hashes of 32 bytes, and their hexadecimal text.
ghost use Rattle.std.specs.Prelude.{List, ℕ, OnErr, ◌≡◌, ◌≢◌, length, IfOk, MatchBool, MatchResult};
ghost use Rattle.std.specs.Prelude.{◌≤◌, take, drop};
ghost use Rattle.std.specs.Cmp.Lexicographic.{pointwise, slice_cmp};
ghost use Rattle.std.specs.Ordering.{nat_cmp};
ghost use Rattle.std.specs.Prelude.{nat_eq};
ghost use Rattle.std.specs.Int.{w64, from_be_bytes};
ghost use Rattle.hex.specs.Hex.{encode_upper, decode_sized};
ghost use Rattle.half_hash.specs.Zero.{zero_hash, is_zero as all_zero};
ghost use Rattle.half_hash.specs.Hex.{IsHexOf, HasCause};

use crate::{Blob, Memory};
use hex::FromHexError;
use std::alloc::Global;
use std::cmp::Ordering;
use std::hash::{Hash, Hasher};
use std::marker::Model;
use thiserror::Error;

/// A hash, or a key. Contracts see its list of bytes, whose order is that of the hashes.
#[derive(Clone, Copy, Debug)]
pub struct Hash32 {
    pub bytes: [u8; 32],
}

impl Model for Hash32 {
    ghost use Rattle.std.specs.Prelude.{ℕ, List};

    ghost Value = { List ℕ };

    ghost view = { λ a. a.bytes };

    ghost inverse = { λ bytes. record { bytes = bytes } };
}

impl PartialEq for Hash32 {
    ghost use Rattle.std.specs.Cmp.{partial_equiv_from_equiv};
    ghost use Rattle.std.specs.Cmp.Lexicographic.{nat_list_eq_equiv};
    ghost use Rattle.std.specs.Prelude.{nat_eq};
    ghost use Rattle.std.specs.Cmp.Lexicographic.{pointwise};

    ghost eq = { pointwise nat_eq };

    ghost laws = { partial_equiv_from_equiv nat_list_eq_equiv };

    fn eq(&self, other: &Hash32) -> bool {
        are_alike(&self.bytes, &other.bytes)
    }
}

impl Eq for Hash32 {
    ghost use Rattle.std.specs.Cmp.Lexicographic.{nat_list_eq_equiv};

    ghost laws = { nat_list_eq_equiv };
}

impl PartialOrd for Hash32 {
    ghost use Rattle.std.specs.Prelude.{Some};
    ghost use Rattle.std.specs.Cmp.Lexicographic.{slice_cmp, texts_po};
    ghost use Rattle.std.specs.Ordering.{nat_cmp};

    ghost partial_cmp = { λ x y. Some (slice_cmp nat_cmp x y) };

    ghost laws = { texts_po };

    fn partial_cmp(&self, other: &Hash32) -> Option<Ordering> {
        Some(self.cmp(other))
    }
}

// The order of the lists of bytes.
impl Ord for Hash32 {
    ghost use Rattle.std.specs.Prelude.{refl};
    ghost use Rattle.std.specs.Cmp.Lexicographic.{slice_cmp, nat_list_cmp_total, texts_ties};
    ghost use Rattle.std.specs.Ordering.{nat_cmp};

    ghost cmp = { slice_cmp nat_cmp };

    ghost total = { nat_list_cmp_total };

    ghost matches_partial_cmp = { λ x y. refl };

    ghost matches_eq = { texts_ties };

    fn cmp(&self, other: &Hash32) -> Ordering {
        order_of(&self.bytes, &other.bytes)
    }
}

// What a hash table asks: the first eight bytes, which are as good as random.
impl Hash for Hash32 {
    ghost use Rattle.std.specs.Prelude.{◌∷◌, [], take};
    ghost use Rattle.std.specs.Cmp.Rules.{hashing};
    ghost use Rattle.std.proofs.Common.{rules};

    ghost hash_input = { λ hash. take 8 hash ∷ [] };

    ghost respects_eq = { Prim.search (hashing, rules) };

    fn hash<H: Hasher>(&self, state: &mut H) {
        state.write(&self.bytes[..8]);
    }
}

/// Why a text is no hash.
#[derive(Clone, Copy, Debug, PartialEq, Eq, Error)]
pub enum HexFault {
    /// The text has this many bytes, and not 64.
    #[error("not 64 bytes long")]
    Length(usize),
    /// The byte at this place, the first such, is no hexadecimal digit.
    #[error("not a hexadecimal digit")]
    Digit(usize),
}

impl Hash32 {
    /// The hash of an empty branch, and the root of an empty map: 32 zero bytes.
    pub fn zero() -> Hash32
        ensures { result ≡ zero_hash }
    {
        Hash32 { bytes: [0; 32] }
    }

    /// The hash of 32 bytes.
    pub fn from_slice(piece: &[u8]) -> Hash32
        requires { length piece.now ≡ 32 }
        ensures { result ≡ piece.now }
    {
        let mut bytes = [0; 32];
        bytes.copy_from_slice(piece);
        Hash32 { bytes }
    }

    /// Whether all bytes are zero.
    pub fn is_zero(&self) -> bool
        ensures { result ≡ all_zero self.now }
    {
        self.bytes == [0; 32]
    }

    /// Whether the two hashes are one.
    pub fn equals(&self, other: &Hash32) -> bool
        ensures { MatchBool result (self.now ≡ other.now) (self.now ≢ other.now) }
    {
        are_alike(&self.bytes, &other.bytes)
    }

    /// Tells a proof that a hash has 32 bytes.
    pub fn known(&self)
        ensures { length self.now ≡ 32 }
    {
        let _bytes = &self.bytes;
    }

    /// The hash as 64 upper-case digits.
    pub fn to_hex(&self, alloc: Global) -> Result<Blob, Memory>
        ensures digits { IfOk result (λ text. text ≡ encode_upper self.now) }
        // `from_hex` reads them back.
        ensures back { IfOk result (λ text. IsHexOf text self.now) }
    {
        digits_of(alloc, &self.bytes)
    }

    /// The hash of 64 digits of either case. A text of another length is refused for that, and
    /// else a byte that is no digit, the first of them.
    pub fn from_hex(text: &[u8]) -> Result<Hash32, HexFault>
        ensures exact { MatchResult result (IsHexOf text.now) (HasCause text.now) }
        // What is refused is the text of no hash.
        ensures refused { OnErr result ((hash : List ℕ) → IsHexOf text.now hash → ⊥) }
    {
        if text.len() != 64 {
            return Err(HexFault::Length(text.len()));
        }
        let mut bytes = [0; 32];
        match hex::decode_to_slice(text, &mut bytes) {
            Ok(()) => Ok(Hash32 { bytes }),
            Err(fault) => Err(cause_of(fault, text)),
        }
    }
}

// The order of 32 bytes, eight at a time.
fn order_of(one: &[u8; 32], other: &[u8; 32]) -> Ordering
    ensures { result ≡ slice_cmp nat_cmp one.now other.now }
{
    for i in 0..4usize {
        let (a, b) = (word(one, 8 * i), word(other, 8 * i));
        if a != b {
            return a.cmp(&b);
        }
    }
    Ordering::Equal
}

// Whether the bytes are the same, eight at a time.
fn are_alike(one: &[u8; 32], other: &[u8; 32]) -> bool
    ensures { result ≡ pointwise nat_eq one.now other.now }
{
    order_of(one, other).is_eq()
}

// The eight bytes from this place on, as a number with the high byte first.
fn word(bytes: &[u8; 32], at: usize) -> u64
    requires { at ≤ 24 }
    ensures { result ≡ from_be_bytes w64 (take 8 (drop at bytes.now)) }
{
    u64::from_be_bytes([
        bytes[at],
        bytes[at + 1],
        bytes[at + 2],
        bytes[at + 3],
        bytes[at + 4],
        bytes[at + 5],
        bytes[at + 6],
        bytes[at + 7],
    ])
}

/// The digits of 32 bytes.
fn digits_of(alloc: Global, bytes: &[u8]) -> Result<Blob, Memory>
    requires { length bytes.now ≡ 32 }
    ensures digits { IfOk result (λ text. text ≡ encode_upper bytes.now) }
    ensures back { IfOk result (λ text. IsHexOf text bytes.now) }
{
    let text = hex::encode_upper(alloc, bytes)?;
    Ok(Blob::new(text.into_bytes()))
}

/// Why 64 bytes do not decode.
fn cause_of(fault: FromHexError, text: &[u8]) -> HexFault
    requires digits { length text.now ≡ 64 }
    requires fails { decode_sized text.now 32 ≡ Err fault }
    ensures { HasCause text.now result }
{
    match fault {
        FromHexError::InvalidHexCharacter { index, .. } => HexFault::Digit(index),
        _ => unreachable!(),
    }
}

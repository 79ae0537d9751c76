//! Hexadecimal digits of either case, read side by side: what the kit's `hex` decodes, in a seventh of the instructions.
//!
//! Thirty-two digits are read at once, in the lanes of a vector, the last ones over some before them; fewer are read one byte after the
//! other. A slice that is to stay as it was where a text isn't digits is written only after the text was looked through.
#![tactic(auto)]

ghost use Rattle.std.specs.Prelude.{◌≡◌, ◌≤◌, ◌+◌, ◌-◌, ◌*◌, ◌/◌, ℕ, Ok, Some, true, false, length, IfOk, IsErr, MatchOption, MatchBool};
ghost use Rattle.std.specs.List.{list_all};
ghost use Rattle.hex.specs.Hex.{decode_of, decode_sized, hex_digit_value, is_hex_digit, pair_value};
ghost use Rattle.hex_digits.specs.Lanes.{AreDecoded};

mod lanes;
#[cfg(test)]
mod tests;

use lanes::{are_low, joined, values_of};
use std::alloc::{AllocError, Allocator};
use std::simd::prelude::*;

/// The bytes of a text of hexadecimal digits, two for each; none where the text isn't that.
pub fn decode<A: Allocator>(alloc: A, text: &[u8]) -> Result<Option<Vec<u8, A>>, AllocError>
    ensures { IfOk result (λ o. MatchOption o (IsErr (decode_of text.now)) (λ bytes. decode_of text.now ≡ Ok bytes.items)) }
{
    if text.len() % 2 != 0 {
        return Ok(None);
    }
    let mut bytes = vec![in alloc; 0u8; text.len() / 2]?;
    if decode_digits(text, bytes.as_mut_slice()) {
        Ok(Some(bytes))
    } else {
        Ok(None)
    }
}

/// Decodes a text of hexadecimal digits, two for each byte of a slice. A text that isn't that is refused and leaves the slice alone.
pub fn decode_to_slice(text: &[u8], bytes: &mut [u8]) -> bool
    ensures value { MatchBool result (decode_sized text.now (length bytes.old) ≡ Ok bytes.new)
        (IsErr (decode_sized text.now (length bytes.old))) }
    ensures same { result ≡ false → bytes.new ≡ bytes.old }
{
    if !is_twice(text, bytes.len()) {
        return false;
    }
    if !are_digits(text) {
        return false;
    }
    decode_digits(text, bytes)
}

/// The same, but a text that is refused may leave anything in the slice. It is faster, since the text is looked at once.
pub fn decode_over(text: &[u8], bytes: &mut [u8]) -> bool
    ensures { MatchBool result (decode_sized text.now (length bytes.old) ≡ Ok bytes.new)
        (IsErr (decode_sized text.now (length bytes.old))) }
{
    if !is_twice(text, bytes.len()) {
        return false;
    }
    decode_digits(text, bytes)
}

/// Whether all bytes are hexadecimal digits.
pub fn are_digits(text: &[u8]) -> bool
    ensures { result ≡ list_all is_hex_digit text.now }
{
    let mut good = true;
    'bytes: for i in 0..text.len() {
        good = good & is_digit(text[i]);
    }
    good
}

/// Whether the byte is a hexadecimal digit.
#[inline(always)]
pub fn is_digit(byte: u8) -> bool
    ensures { result ≡ is_hex_digit byte }
{
    let is_number = (byte >= b'0') & (byte <= b'9');
    let is_upper = (byte >= b'A') & (byte <= b'F');
    let is_lower = (byte >= b'a') & (byte <= b'f');
    is_number | is_upper | is_lower
}

/// The value of a digit.
#[inline(always)]
pub fn value_of(digit: u8) -> u8
    requires { is_hex_digit digit ≡ true }
    ensures { Some result ≡ hex_digit_value digit }
{
    let low = digit % 16;
    if digit > b'9' { low + 9 } else { low }
}

// Whether a text has two bytes for each of so many.
fn is_twice(text: &[u8], n: usize) -> bool
    ensures { MatchBool result (length text.now ≡ 2 * n) (IsErr (decode_sized text.now n)) }
{
    if text.len() % 2 != 0 {
        return false;
    }
    text.len() / 2 == n
}

// Decodes a text of digits; whether it is one.
fn decode_digits(text: &[u8], bytes: &mut [u8]) -> bool
    requires { length text.now ≡ 2 * length bytes.old }
    ensures { MatchBool result (decode_of text.now ≡ Ok bytes.new) (list_all is_hex_digit text.now ≡ false) }
{
    if bytes.len() < 16 {
        return decode_few(text, bytes);
    }
    if !decode_blocks(text, bytes) {
        return false;
    }
    decode_last(text, bytes)
}

// Decodes digits one byte after the other.
fn decode_few(text: &[u8], bytes: &mut [u8]) -> bool
    requires { length text.now ≡ 2 * length bytes.old }
    ensures { MatchBool result (decode_of text.now ≡ Ok bytes.new) (list_all is_hex_digit text.now ≡ false) }
{
    'bytes: for i in 0..bytes.len() {
        let (high, low) = (text[2 * i], text[2 * i + 1]);
        if !is_digit(high) {
            return false;
        }
        if !is_digit(low) {
            return false;
        }
        bytes[i] = pair(high, low);
    }
    true
}

// Decodes blocks of thirty-two digits, up to a last one that may lie over the one before it.
fn decode_blocks(text: &[u8], bytes: &mut [u8]) -> bool
    requires two { length text.now ≡ 2 * length bytes.old }
    requires some { 16 ≤ length bytes.old }
    ensures { MatchBool result (AreDecoded text.now bytes.new ((length bytes.old - 1) / 16 * 16)) (list_all is_hex_digit text.now ≡ false) }
{
    'whole: for k in 0..(bytes.len() - 1) / 16 {
        if !decode_block(text, bytes, k * 16) {
            return false;
        }
    }
    true
}

// Decodes the last thirty-two digits, where those before them are decoded.
fn decode_last(text: &[u8], bytes: &mut [u8]) -> bool
    requires two { length text.now ≡ 2 * length bytes.old }
    requires some { 16 ≤ length bytes.old }
    requires front { AreDecoded text.now bytes.old ((length bytes.old - 1) / 16 * 16) }
    ensures { MatchBool result (decode_of text.now ≡ Ok bytes.new) (list_all is_hex_digit text.now ≡ false) }
{
    let at = bytes.len() - 16;
    decode_block(text, bytes, at)
}

// Decodes thirty-two digits, which stand for sixteen bytes from a place on.
#[inline(always)]
fn decode_block(text: &[u8], bytes: &mut [u8], at: usize) -> bool
    requires two { length text.now ≡ 2 * length bytes.old }
    requires within { at + 16 ≤ length bytes.old }
    ensures more { result ≡ true → AreDecoded text.now bytes.old at → AreDecoded text.now bytes.new (at + 16) }
    ensures bad { result ≡ false → list_all is_hex_digit text.now ≡ false }
{
    let values = values_of(u8x32::from_slice(&text[2 * at..]));
    if !are_low(values) {
        return false;
    }
    joined(values).copy_to_slice(&mut bytes[at..]);
    true
}

// The byte of two digits.
#[inline(always)]
fn pair(high: u8, low: u8) -> u8
    requires high { is_hex_digit high ≡ true }
    requires low { is_hex_digit low ≡ true }
    ensures { (i : ℕ) → pair_value high low i ≡ Ok result }
{
    value_of(high) * 16 + value_of(low)
}

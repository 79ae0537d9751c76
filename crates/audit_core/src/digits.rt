//! Hexadecimal digits, and the item of a key and its data.
ghost use Rattle.std.specs.Prelude.{◌≡◌, Ok, Err, length, IfOk, IfErr};
ghost use Rattle.std.specs.Option.{option_map};
ghost use Rattle.audit_core.specs.Said.{digits_of, keyed};

use crate::Cause;
use half_hash::{Hash32, Memory};
use std::alloc::Global;

/// The most bytes of an item's data.
const DATA_LIMIT: usize = 1_048_576;

/// The bytes of hexadecimal digits.
pub fn bytes_of(alloc: Global, text: &[u8]) -> Result<Option<Vec<u8>>, Memory>
    ensures { IfOk result (λ o. option_map (λ v. v.items) o ≡ digits_of text.now) }
{
    Ok(hex_digits::decode(alloc, text)?)
}

/// The key of 64 hexadecimal digits.
pub fn key_of(text: &[u8]) -> Option<Hash32>
    requires { length text.now ≡ 64 }
    ensures { result ≡ digits_of text.now }
{
    let mut bytes = [0; 32];
    if hex_digits::decode_to_slice(text, &mut bytes) {
        Some(Hash32 { bytes })
    } else {
        None
    }
}

/// The item of a key and its data.
pub fn checked(key: Option<Hash32>, bytes: Option<Vec<u8>>) -> Result<(Hash32, Vec<u8>), Cause>
    ensures ok { IfOk result (λ item. keyed key (option_map (λ v. v.items) bytes) ≡ Ok (item.0, item.1.items)) }
    ensures cause { IfErr result (λ cause. keyed key (option_map (λ v. v.items) bytes) ≡ Err cause) }
{
    let Some(key) = key else {
        return Err(Cause::Key);
    };
    let Some(bytes) = bytes else {
        return Err(Cause::Data);
    };
    if key.is_zero() {
        return Err(Cause::ZeroKey);
    }
    if bytes.len() > DATA_LIMIT {
        return Err(Cause::TooMuch);
    }
    Ok((key, bytes))
}

//! Hashes, bytes, IDs and places.
ghost use Rattle.std.specs.Prelude.{◌≡◌, ◌≤◌, ◌++◌, OnOk, codes, length};
ghost use Rattle.std.specs.Fmt.{decimal};
ghost use Rattle.std.specs.String.{string_bytes};
ghost use Rattle.hex.specs.Hex.{encode_upper};
ghost use Rattle.journal_text.specs.Text.{hash_text, bytes_text, id_text, kind_text, place_text};

use crate::digits::write_digits;
use half_hash::Hash32;
use nib_path::NodeId;
use shamap_node::{Kind, Place};
use std::alloc::AllocError;
use std::fmt::Write;
use std::str;

fn push_digits(text: &mut String, bytes: &[u8]) -> Result<(), AllocError>
    ensures { OnOk result (string_bytes text.new ≡ string_bytes text.old ++ encode_upper bytes.now) }
{
    let mut rest = bytes;
    while !rest.is_empty() {
        let (piece, after) = rest.split_at(rest.len().min(32));
        push_piece(text, piece)?;
        rest = after;
    }
    Ok(())
}

// Appends the digits of at most 32 bytes.
#[inline(always)]
fn push_piece(text: &mut String, piece: &[u8]) -> Result<(), AllocError>
    requires { length piece.now ≤ 32 }
    ensures { OnOk result (string_bytes text.new ≡ string_bytes text.old ++ encode_upper piece.now) }
{
    let mut room = [0; 64];
    let (digits, _rest) = room.split_at_mut(2 * piece.len());
    write_digits(piece, digits);
    text.push_str(unsafe { str::from_utf8_unchecked(digits) })
}

/// Appends a hash.
pub(crate) fn push_hash(text: &mut String, hash: &Hash32) -> Result<(), AllocError>
    ensures { OnOk result (string_bytes text.new ≡ string_bytes text.old ++ hash_text hash.now) }
{
    push_piece(text, &hash.bytes)
}

/// Appends a space, a key and `=`, in one piece.
pub(crate) fn push_key(text: &mut String, key: &Hash32) -> Result<(), AllocError>
    ensures { OnOk result (string_bytes text.new ≡ string_bytes text.old ++ (codes " " ++ hash_text key.now ++ codes "=")) }
{
    let mut room = [b' '; 66];
    let (_space, after) = room.split_at_mut(1);
    let (digits, sign) = after.split_at_mut(64);
    write_digits(&key.bytes, digits);
    sign[0] = b'=';
    text.push_str(unsafe { str::from_utf8_unchecked(&room) })
}

/// Appends bytes, or `-` where there are none.
pub(crate) fn push_bytes(text: &mut String, bytes: &[u8]) -> Result<(), AllocError>
    ensures { OnOk result (string_bytes text.new ≡ string_bytes text.old ++ bytes_text bytes.now) }
{
    if bytes.is_empty() {
        text.push_str("-")
    } else {
        push_digits(text, bytes)
    }
}

/// Appends the ID of a place in a map.
pub(crate) fn push_id(text: &mut String, id: &NodeId) -> Result<(), AllocError>
    ensures { OnOk result (string_bytes text.new ≡ string_bytes text.old ++ id_text id.now) }
{
    push_digits(text, &id.to_wire())
}

fn kind_word(kind: Kind) -> &'static str
    ensures { result.now ≡ kind_text kind }
{
    match kind {
        Kind::State => "state",
        Kind::Tx => "tx",
        Kind::Set => "set",
    }
}

/// Appends a place.
pub(crate) fn push_place(text: &mut String, place: &Place) -> Result<(), AllocError>
    ensures { OnOk result (string_bytes text.new ≡ string_bytes text.old ++ place_text place.now) }
{
    match place {
        Place::Header => text.push_str("header"),
        Place::Node { kind, id } => {
            text.push_str(kind_word(*kind))?;
            text.push_str(":")?;
            push_id(text, id)
        }
    }
}

/// Appends that a sequence is below the floor.
pub(crate) fn push_below_floor(text: &mut String, floor: u32) -> Result<(), AllocError>
    ensures { OnOk result (string_bytes text.new ≡ string_bytes text.old ++ (codes "below floor " ++ decimal floor)) }
{
    write!(text, "below floor {floor}")
}

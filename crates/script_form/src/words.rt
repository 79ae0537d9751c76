//! The words of a line, and what single words say.
ghost use Rattle.std.specs.Prelude.{◌≡◌, ◌≢◌, ◌≤◌, ◌<◌, ◌∷◌, ◌^◌, ℕ, List, Ok, codes, length, map, slice_index};
ghost use Rattle.std.specs.Prelude.{IfOk, OnOk, MatchBool, MatchOption};
ghost use Rattle.half_hash.specs.Hex.{IsHexOf};
ghost use Rattle.ledger_spec.specs.declared.Kind.{Kind};
ghost use Rattle.script_form.specs.Words.{words_of as text_words, IsNumber, IsCount, IsTarget, IsKind, IsBlob, IsData, IsId, IsIdText};
ghost use Rattle.script_form.specs.Words.{decimal_behind};
ghost use Rattle.script_form.specs.Commands.{SaysNothing};

use crate::forms::Argument;
use half_hash::{Blob, Hash32, Memory};
use memchr::memchr;
use nib_path::NodeId;
use shamap_node::{DATA_LIMIT, Kind};
use std::alloc::Global;

/// Where the first separator stands, or the end.
pub(crate) fn piece_end(bytes: &[u8], separator: u8) -> usize
    ensures within { result ≤ length bytes.now }
    ensures before { (k : ℕ) → k < result → slice_index bytes.now k ≢ separator }
    ensures at { result < length bytes.now → slice_index bytes.now result ≡ separator }
{
    match memchr(separator, bytes) {
        Some(at) => at,
        None => bytes.len(),
    }
}

/// Where the first space stands, or the end. A word is short mostly, so its first bytes are looked at one by one.
fn word_end(text: &[u8]) -> usize
    ensures within { result ≤ length text.now }
    ensures before { (k : ℕ) → k < result → slice_index text.now k ≢ 32 }
    ensures at { result < length text.now → slice_index text.now result ≡ 32 }
{
    let mut at = 0;
    while at < 8 && at < text.len() {
        if text[at] == b' ' {
            return at;
        }
        at += 1;
    }
    at + piece_end(text.split_at(at).1, b' ')
}

/// The words of a text: what stands between its spaces. There is room for those of most lines at once.
pub fn words_of(alloc: Global, text: &[u8]) -> Result<Vec<&[u8]>, Memory>
    ensures { IfOk result (λ words. map (λ w. w.now) words.items ≡ text_words text.now) }
{
    let mut words = Vec::with_capacity(alloc, 8)?;
    put_words(&mut words, text)?;
    Ok(words)
}

/// The same, in the place of the words that a list held, whose room serves again.
pub(crate) fn put_words<'a>(words: &mut Vec<&'a [u8]>, text: &'a [u8]) -> Result<(), Memory>
    ensures { OnOk result (map (λ w. w.now) words.new.items ≡ text_words text.now) }
{
    words.clear();
    let mut rest = text;
    loop {
        let end = word_end(rest);
        let (word, behind) = rest.split_at(end);
        if !word.is_empty() {
            words.push(word)?;
        }
        if behind.is_empty() {
            return Ok(());
        }
        rest = behind.split_at(1).1;
    }
}

/// Whether two texts are one.
pub(crate) fn is_text(word: &[u8], text: &[u8]) -> bool
    ensures { MatchBool result (word.now ≡ text.now) (word.now ≢ text.now) }
{
    word == text
}

/// Whether a word is `state`.
fn is_state(word: &[u8]) -> bool
    ensures { MatchBool result (word.now ≡ codes "state") (word.now ≢ codes "state") }
{
    matches!(word, b"state")
}

/// The number of 1 to 20 decimal digits that a word is, where it is at most `most`.
pub fn number(word: &[u8], most: u64) -> Option<u64>
    ensures { MatchOption result ((n : ℕ) → IsNumber word.now most n → ⊥) (IsNumber word.now most) }
{
    if word.is_empty() || word.len() > 20 {
        return None;
    }
    let mut value: u64 = 0;
    for digit in word {
        if !digit.is_ascii_digit() {
            return None;
        }
        let next = u128::from(value) * 10 + u128::from(*digit - b'0');
        if next > u128::from(most) {
            return None;
        }
        value = next as u64;
    }
    Some(value)
}

/// The number from 1 to `most` that a word is.
pub(crate) fn count(word: &[u8], most: u64) -> Option<u64>
    ensures { MatchOption result ((n : ℕ) → IsCount word.now most n → ⊥) (IsCount word.now most) }
{
    let n = number(word, most)?;
    if n == 0 { None } else { Some(n) }
}

/// The hash of 64 hexadecimal digits.
pub fn hash_word(word: &[u8]) -> Option<Hash32>
    ensures { MatchOption result ((hash : List ℕ) → IsHexOf word.now hash → ⊥) (IsHexOf word.now) }
{
    if word.len() != 64 {
        return None;
    }
    let mut bytes = [0; 32];
    if hex_digits::decode_over(word, &mut bytes) {
        Some(Hash32 { bytes })
    } else {
        None
    }
}

/// The target that a word names: a hash that isn't zero.
pub(crate) fn target_word(word: &[u8]) -> Option<Hash32>
    ensures { MatchOption result ((hash : List ℕ) → IsTarget word.now hash → ⊥) (IsTarget word.now) }
{
    let hash = hash_word(word)?;
    if hash.is_zero() { None } else { Some(hash) }
}

/// The 33 bytes of 66 hexadecimal digits.
pub(crate) fn id_text(word: &[u8]) -> Option<[u8; 33]>
    ensures { MatchOption result ((bytes : List ℕ) → IsIdText word.now bytes → ⊥) (IsIdText word.now) }
{
    if word.len() != 66 {
        return None;
    }
    let mut bytes = [0; 33];
    if hex_digits::decode_over(word, &mut bytes) {
        Some(bytes)
    } else {
        None
    }
}

/// The kind of a ledger's map.
pub fn kind_word(word: &[u8]) -> Option<Kind>
    ensures { MatchOption result ((kind : Kind) → IsKind word.now kind → ⊥) (IsKind word.now) }
{
    if is_state(word) {
        return Some(Kind::State);
    }
    if is_text(word, b"tx") {
        return Some(Kind::Tx);
    }
    None
}

/// The node ID of 66 hexadecimal digits, its wire form.
pub fn id_word(word: &[u8]) -> Option<NodeId>
    ensures { MatchOption result ((path : List ℕ) → IsId word.now path → ⊥) (IsId word.now) }
{
    let bytes = id_text(word)?;
    let Ok(id) = NodeId::from_wire(&bytes) else {
        return None;
    };
    id.known();
    Some(id)
}

/// The bytes of hexadecimal digits, two for each, or of `-` for none.
pub fn blob_word(alloc: Global, word: &[u8]) -> Result<Option<Blob>, Memory>
    ensures { IfOk result (λ found. MatchOption found ((bytes : List ℕ) → IsBlob word.now bytes → ⊥) (IsBlob word.now)) }
{
    if is_text(word, b"-") {
        return Ok(Some(Blob::new(Vec::new(alloc))));
    }
    if word.is_empty() {
        return Ok(None);
    }
    match hex_digits::decode(alloc, word)? {
        Some(bytes) => Ok(Some(Blob::new(bytes))),
        None => Ok(None),
    }
}

/// The same of an item's data, where it isn't too long.
pub(crate) fn data_word(alloc: Global, word: &[u8]) -> Result<Option<Blob>, Memory>
    ensures { IfOk result (λ found. MatchOption found ((bytes : List ℕ) → IsData word.now bytes → ⊥) (IsData word.now)) }
{
    let Some(blob) = blob_word(alloc, word)? else {
        return Ok(None);
    };
    if blob.bytes().len() > DATA_LIMIT {
        return Ok(None);
    }
    Ok(Some(blob))
}

/// Whether a word says nothing in the place of an argument.
pub(crate) fn says_nothing(alloc: Global, argument: Argument, word: &[u8]) -> Result<bool, Memory>
    ensures { IfOk result (λ found. MatchBool found (SaysNothing argument word.now) (SaysNothing argument word.now → ⊥)) }
{
    match argument {
        Argument::Number(most) => Ok(says_no_number(word, most)),
        Argument::Count(most) => Ok(says_no_count(word, most)),
        Argument::Target => Ok(says_no_target(word)),
        Argument::Key => Ok(says_no_key(word)),
        Argument::Kind => Ok(says_no_kind(word)),
        Argument::Id => Ok(says_no_id(word)),
        Argument::Blob => says_no_blob(alloc, word),
        Argument::Data => says_no_data(alloc, word),
    }
}

fn says_no_number(word: &[u8], most: u64) -> bool
    ensures { MatchBool result (SaysNothing (Argument.Number most) word.now) (SaysNothing (Argument.Number most) word.now → ⊥) }
{
    number(word, most).is_none()
}

fn says_no_count(word: &[u8], most: u64) -> bool
    ensures { MatchBool result (SaysNothing (Argument.Count most) word.now) (SaysNothing (Argument.Count most) word.now → ⊥) }
{
    count(word, most).is_none()
}

fn says_no_target(word: &[u8]) -> bool
    ensures { MatchBool result (SaysNothing Argument.Target word.now) (SaysNothing Argument.Target word.now → ⊥) }
{
    target_word(word).is_none()
}

fn says_no_key(word: &[u8]) -> bool
    ensures { MatchBool result (SaysNothing Argument.Key word.now) (SaysNothing Argument.Key word.now → ⊥) }
{
    hash_word(word).is_none()
}

fn says_no_kind(word: &[u8]) -> bool
    ensures { MatchBool result (SaysNothing Argument.Kind word.now) (SaysNothing Argument.Kind word.now → ⊥) }
{
    kind_word(word).is_none()
}

fn says_no_id(word: &[u8]) -> bool
    ensures { MatchBool result (SaysNothing Argument.Id word.now) (SaysNothing Argument.Id word.now → ⊥) }
{
    id_word(word).is_none()
}

fn says_no_blob(alloc: Global, word: &[u8]) -> Result<bool, Memory>
    ensures { IfOk result (λ found. MatchBool found (SaysNothing Argument.Blob word.now) (SaysNothing Argument.Blob word.now → ⊥)) }
{
    let bytes = blob_word(alloc, word)?;
    Ok(bytes.is_none())
}

fn says_no_data(alloc: Global, word: &[u8]) -> Result<bool, Memory>
    ensures { IfOk result (λ found. MatchBool found (SaysNothing Argument.Data word.now) (SaysNothing Argument.Data word.now → ⊥)) }
{
    let bytes = data_word(alloc, word)?;
    Ok(bytes.is_none())
}

//! What a document says: the fields of a parsed JSON value, each where it stands with a text of the right form.
ghost use Rattle.std.specs.Prelude.{◌≡◌, Ok, Err, IfOk, IfErr};
ghost use Rattle.std.specs.List.{list_all};
ghost use Rattle.std.specs.Option.{option_map};
ghost use Rattle.json.specs.Value.{value_view as view, items_view};
ghost use Rattle.audit_core.specs.declared.cause.Cause.{Cause as AnyCause};
ghost use Rattle.audit_core.specs.declared.cause.LineFault.TheVariants as faults;
ghost use Rattle.page_audit.specs.Documents.{document, inside, text_at as text_said, hash_of_text as hash_said, hash_in, header_in};
ghost use Rattle.page_audit.specs.Documents.{list_in, number_in, item_in, is_number as number_said, is_digits_of as digits_said};
ghost use Rattle.page_audit.specs.Documents.{is_digit, is_decimal as decimal_said};
ghost use Rattle.json.specs.Find.{as_number, as_str, as_array};

use audit_core::{Cause, LineFault, bytes_of, checked, key_of};
use half_hash::{Hash32, Memory};
use json::{Error, Scratch, Value};
use std::alloc::{AllocError, Global};

/// The document of a line, where it is one. Its texts are the line's, or stand in the room where they have escapes.
pub(crate) fn document_of<'a>(
    alloc: Global,
    room: &'a mut Scratch,
    line: &'a [u8],
) -> Result<Option<Value<'a>>, Memory>
    ensures { IfOk result (λ o. option_map view o ≡ document line.now) }
{
    match Value::from_slice(alloc, line, room) {
        Ok(value) => Ok(Some(value)),
        Err(Error::Invalid) => Ok(None),
        Err(Error::OutOfMemory) => Err(Memory),
        Err(Error::TooLong) => unreachable!(),
        Err(Error::DuplicateKey) => unreachable!(),
    }
}

/// The answer's result, or the document itself where it is bare.
pub(crate) fn result_of<'v, 'a>(document: &'v Value<'a>) -> &'v Value<'a>
    ensures { view result.now ≡ inside (view document.now) }
{
    document.get("result").unwrap_or(document)
}

/// The text under a name.
fn text_at<'a>(object: &Value<'a>, name: &str) -> Option<&'a str>
    ensures { option_map (λ t. t.now) result ≡ text_said name.now (view object.now) }
{
    match object.get(name) {
        Some(value) => value.as_str(),
        None => None,
    }
}

/// The hash of 64 digits.
fn hash_of_text(text: &[u8]) -> Option<Hash32>
    ensures { result ≡ hash_said text.now }
{
    if text.len() != 64 {
        return None;
    }
    key_of(text)
}

/// The hash that a document names.
pub(crate) fn hash_of(object: &Value<'_>) -> Option<Hash32>
    ensures { result ≡ hash_in (view object.now) }
{
    match text_at(object, "ledger_hash") {
        Some(text) => hash_of_text(text.as_bytes()),
        None => None,
    }
}

/// The header's digits.
pub(crate) fn header_of<'a>(object: &Value<'a>) -> Option<&'a str>
    ensures { option_map (λ t. t.now) result ≡ header_in (view object.now) }
{
    match object.get("ledger") {
        Some(ledger) => text_at(ledger, "ledger_data"),
        None => None,
    }
}

/// Whether the document names this ledger's number, as a number or in digits; nothing where it names none.
pub(crate) fn has_number(
    alloc: Global,
    object: &Value<'_>,
    seq: u32,
) -> Result<Option<bool>, AllocError>
    ensures { IfOk result (λ o. o ≡ number_in seq (view object.now)) }
{
    match object.get("ledger_index") {
        Some(value) => is_number(alloc, value, seq),
        None => Ok(None),
    }
}

/// The list of items.
pub(crate) fn list_of<'v, 'a>(object: &'v Value<'a>) -> Option<&'v Vec<Value<'a>>>
    ensures { option_map (λ v. items_view v.now.items) result ≡ list_in (view object.now) }
{
    match object.get("state") {
        Some(value) => array_of(value),
        None => None,
    }
}

// The list that a value is.
fn array_of<'v, 'a>(value: &'v Value<'a>) -> Option<&'v Vec<Value<'a>>>
    ensures { option_map (λ v. items_view v.now.items) result ≡ as_array (view value.now) }
{
    if let Value::Array(list) = value {
        Some(list)
    } else {
        None
    }
}

/// The item that an element of the list says.
pub(crate) fn item_of(alloc: Global, element: &Value<'_>) -> Result<(Hash32, Vec<u8>), LineFault>
    ensures ok { IfOk result (λ item. item_in (view element.now) ≡ Ok (item.0, item.1.items)) }
    ensures cause { IfErr result (λ fault. (cause : AnyCause) → fault ≡ faults.Cause cause → item_in (view element.now) ≡ Err cause) }
{
    let Some(key) = text_at(element, "index") else {
        return Err(LineFault::Cause(Cause::Item));
    };
    let Some(text) = text_at(element, "data") else {
        return Err(LineFault::Cause(Cause::Item));
    };
    let key = hash_of_text(key.as_bytes());
    let bytes = bytes_of(alloc, text.as_bytes())?;
    match checked(key, bytes) {
        Ok(item) => Ok(item),
        Err(cause) => Err(LineFault::Cause(cause)),
    }
}

// Whether the value is this number, or its digits; nothing where it is neither a number nor digits.
fn is_number(alloc: Global, value: &Value<'_>, seq: u32) -> Result<Option<bool>, AllocError>
    ensures { IfOk result (λ o. o ≡ number_said seq (as_number (view value.now)) (as_str (view value.now))) }
{
    if let Some(digits) = value.as_number() {
        return is_digits_of(alloc, digits, seq);
    }
    match value.as_str() {
        Some(text) => is_digits_of(alloc, text, seq),
        None => Ok(None),
    }
}

// Whether the digits are this number's; nothing where they are none.
fn is_digits_of(alloc: Global, text: &str, seq: u32) -> Result<Option<bool>, AllocError>
    ensures { IfOk result (λ o. o ≡ digits_said seq text.now) }
{
    if !is_decimal(text.as_bytes()) {
        return Ok(None);
    }
    let digits = format!(in alloc; "{seq}")?;
    Ok(Some(text == digits.as_str()))
}

// Whether the text is decimal digits with no 0 before another.
#[tactic(auto, unfolding(crate::specs::Documents::is_decimal))]
fn is_decimal(text: &[u8]) -> bool
    ensures { result ≡ decimal_said text.now }
{
    if !are_digits(text) {
        return false;
    }
    text.len() == 1 || (text.len() > 1 && text[0] != b'0')
}

// Whether the bytes are decimal digits.
fn are_digits(text: &[u8]) -> bool
    ensures { result ≡ list_all is_digit text.now }
{
    for byte in text {
        if !(*byte >= b'0' && *byte <= b'9') {
            return false;
        }
    }
    true
}

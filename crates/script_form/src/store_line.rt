//! What a `store` line says: a record, which a store may begin with.
ghost use Rattle.std.specs.Prelude.{◌≡◌, ◌≢◌, ℕ, List, map, length, IfOk, IfErr, MatchBool, MatchOption};
ghost use Rattle.ledger_spec.specs.Own.{IsStoredAt};
ghost use Rattle.ledger_machine.specs.declared.commands.Record.{Record};
ghost use Rattle.script_form.specs.declared.cause.Cause.{Cause};
ghost use Rattle.script_form.specs.Words.{words_of as text_words};
ghost use Rattle.script_form.specs.Records.{earlier_in, SaysRecord, IsForm, IsFit, IsUnfit, AreBadWords, StoreHas};
ghost use Rattle.script_form.specs.Causes.{RestHas};
ghost use Rattle.script_form.specs.Faults.{IsFirstCause, HasRestCause};

use crate::cause::{Cause, TextFault};
use crate::limits::MOST_BYTES;
use crate::records::Records;
use crate::words::{blob_word, hash_word, words_of};
use half_hash::{Memory, NodeHash, known_half};
use ledger_header::Header;
use ledger_machine::Record;
use shamap_node::{FormFault, decode_form, one_form};
use std::alloc::Global;

/// Why what follows the word `store` is no record.
#[derive(Clone, Copy, Debug, PartialEq, Eq)]
pub enum LineFault {
    /// The number of the first cause that shows in this line alone: 12, 6, 8 or 11.
    Cause(u8),
    /// Memory was refused.
    Memory,
}

/// The record of a line, whose bytes behind the word `store` these are. The causes are those that show
/// in this line alone: it passes the limit of a script (12), the number of arguments is wrong (6), a
/// digit or a length is (8), the form is none, or the hash isn't that of the form or is zero (11).
pub fn record_of<H: NodeHash>(alloc: Global, rest: &[u8]) -> Result<Record, LineFault>
    ensures says { IfOk result (SaysRecord (text_words rest.now)) }
    ensures own { IfOk result (λ r. IsStoredAt H.half r.hash r.form) }
    ensures fine { IfOk result (λ _. (c : Cause) → RestHas H.half rest.now c → ⊥) }
    ensures cause { IfErr result (HasRestCause H.half rest.now) }
{
    if rest.len() > MOST_BYTES - b"store".len() {
        return Err(LineFault::Cause(Cause::ScriptTooLong.number()));
    }
    let Ok(words) = words_of(alloc, rest) else {
        return Err(LineFault::Memory);
    };
    match stored::<H>(alloc, &words, &[], &Records::new(alloc)) {
        Ok(record) => Ok(record),
        Err(TextFault::Cause(cause)) => Err(LineFault::Cause(cause.number())),
        Err(TextFault::Memory) => Err(LineFault::Memory),
    }
}

/// The record that the words behind `store` say, or the first cause of theirs; command lines of these
/// numbers stand before it, and these records.
pub(crate) fn stored<H: NodeHash>(
    alloc: Global,
    args: &[&[u8]],
    commands: &[u32],
    records: &Records,
) -> Result<Record, TextFault>
    ensures says { IfOk result (SaysRecord (map (λ w. w.now) args.now)) }
    ensures own { IfOk result (λ r. IsStoredAt H.half r.hash r.form) }
    ensures fine { IfOk result (λ _.
        (c : Cause) → StoreHas H.half (earlier_in commands.now records.now) (map (λ w. w.now) args.now) c → ⊥) }
    ensures cause { IfErr result
        (IsFirstCause (StoreHas H.half (earlier_in commands.now records.now) (map (λ w. w.now) args.now))) }
{
    if args.len() != 2 {
        return Err(TextFault::Cause(Cause::ArgumentCount));
    }
    let Some(record) = record_in(alloc, args)? else {
        return Err(TextFault::Cause(Cause::BadHex));
    };
    if !commands.is_empty() || !is_fit::<H>(alloc, &record)? || records.has(&record.hash) {
        return Err(TextFault::Cause(Cause::BadRecord));
    }
    Ok(record)
}

/// The record that two words behind `store` say.
fn record_in(alloc: Global, args: &[&[u8]]) -> Result<Option<Record>, Memory>
    requires { length args.now ≡ 2 }
    ensures { IfOk result (λ found. MatchOption found (AreBadWords (map (λ w. w.now) args.now))
        (SaysRecord (map (λ w. w.now) args.now))) }
{
    let Some(hash) = hash_word(args[0]) else {
        return Ok(None);
    };
    let Some(form) = blob_word(alloc, args[1])? else {
        return Ok(None);
    };
    Ok(Some(Record { hash, form }))
}

/// Whether a store may begin with the record.
fn is_fit<H: NodeHash>(alloc: Global, one: &Record) -> Result<bool, Memory>
    ensures { IfOk result (λ fits. MatchBool fits (IsFit H.half one.now) (IsUnfit H.half one.now)) }
{
    let form = one.form.bytes();
    if one.hash.is_zero() || !one.hash.equals(&H::half(form)) {
        return Ok(false);
    }
    is_form::<H>(alloc, form)
}

/// Whether the bytes are the form of a header or a node.
fn is_form<H: NodeHash>(alloc: Global, form: &[u8]) -> Result<bool, Memory>
    ensures { IfOk result (λ found. MatchBool found (IsForm H.half form.now) (IsForm H.half form.now → ⊥)) }
{
    known_half::<H>();
    one_form();
    if Header::from_form(form).is_some() {
        return Ok(true);
    }
    match decode_form::<H>(alloc, form) {
        Ok(_) => Ok(true),
        Err(fault) => match fault {
            FormFault::Memory => Err(Memory),
            _ => Ok(false),
        },
    }
}

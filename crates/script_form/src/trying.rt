//! The causes that a line's text may have, tried one after the other, and what a line is by its first word.
ghost use Rattle.std.specs.Prelude.{◌≡◌, ◌≢◌, codes, map, IfOk, MatchBool};
ghost use Rattle.std.specs.List.{list_all};
ghost use Rattle.std.specs.List.Sorted.{IsNonDecreasing};
ghost use Rattle.script_form.specs.Words.{words_of as text_words};
ghost use Rattle.script_form.specs.Records.{is_store as word_is_store};
ghost use Rattle.script_form.specs.Causes.{is_printable as byte_is_printable, is_skipped as are_skipped, is_command as are_command};
ghost use Rattle.script_form.specs.Causes.{TextHas, CommandHas, IsFirstOf};
ghost use Rattle.script_form.specs.Commands.{CallHas};
ghost use Rattle.script_form.specs.Judging.{IsFineText};

use crate::cause::Cause;
use crate::forms::{form_of, is_command};
use crate::limits::{MOST_COMMANDS, MOST_TEXT};
use crate::line::{call_of, names_no_line};
use crate::words::number;
use crate::wrong::has_wrong;
use half_hash::Memory;
use std::alloc::Global;

/// The causes that a line's text may have, in the order in which they are tried.
const ORDER: [Cause; 13] = [
    Cause::NotPrintable,
    Cause::LineTooLong,
    Cause::NoActor,
    Cause::BadAfter,
    Cause::UnknownCommand,
    Cause::ArgumentCount,
    Cause::BadNumber,
    Cause::BadHex,
    Cause::BadKindOrId,
    Cause::ZeroTarget,
    Cause::BadRecord,
    Cause::DataTooLong,
    Cause::TooManyCommands,
];

/// Whether all bytes are printable. No byte waits for the one before it.
pub(crate) fn is_printable(text: &[u8]) -> bool
    ensures { result ≡ list_all byte_is_printable text.now }
{
    let mut all = true;
    for byte in text {
        all = all & ((*byte >= 32) & (*byte <= 126));
    }
    all
}

/// Whether the words are skipped: there are none, or the first begins with `#`.
pub(crate) fn is_skipped(words: &[&[u8]]) -> bool
    ensures { result ≡ are_skipped (map (λ w. w.now) words.now) }
{
    match words {
        [[first, ..], ..] => *first == b'#',
        [] => true,
        _ => false,
    }
}

/// Whether a word is `store`.
fn is_store_word(word: &[u8]) -> bool
    ensures { MatchBool result (word.now ≡ codes "store") (word.now ≢ codes "store") }
{
    matches!(word, b"store")
}

/// Whether the words are a record's: the first is `store`.
pub(crate) fn is_store(words: &[&[u8]]) -> bool
    ensures { result ≡ word_is_store (map (λ w. w.now) words.now) }
{
    match words {
        [word, ..] => is_store_word(word),
        [] => false,
    }
}

/// Whether the words are a command line's: it isn't skipped, and is no record.
fn is_command_line(words: &[&[u8]]) -> bool
    ensures { result ≡ are_command (map (λ w. w.now) words.now) }
{
    !is_skipped(words) && !is_store(words)
}

/// The first cause of a text that has one.
pub(crate) fn first_cause(
    alloc: Global,
    text: &[u8],
    words: &[&[u8]],
    earlier: &[u32],
) -> Result<Cause, Memory>
    requires rises { IsNonDecreasing earlier.now }
    requires words { map (λ w. w.now) words.now ≡ text_words text.now }
    requires bad { IsFineText earlier.now text.now → ⊥ }
    ensures { IfOk result (IsFirstOf (TextHas earlier.now text.now)) }
{
    for cause in &ORDER {
        if text_has(alloc, *cause, text, words, earlier)? {
            return Ok(*cause);
        }
    }
    unreachable!()
}

/// Whether a text has this cause.
fn text_has(
    alloc: Global,
    cause: Cause,
    text: &[u8],
    words: &[&[u8]],
    earlier: &[u32],
) -> Result<bool, Memory>
    requires rises { IsNonDecreasing earlier.now }
    requires words { map (λ w. w.now) words.now ≡ text_words text.now }
    ensures { IfOk result (λ found. MatchBool found (TextHas earlier.now text.now cause) (TextHas earlier.now text.now cause → ⊥)) }
{
    match cause {
        Cause::ScriptTooLong => Ok(false),
        Cause::NotPrintable => Ok(!is_printable(text)),
        Cause::LineTooLong => Ok(text.len() > MOST_TEXT),
        _ => command_has(alloc, cause, words, earlier),
    }
}

/// Whether these words are those of a command line that has this cause.
fn command_has(
    alloc: Global,
    cause: Cause,
    words: &[&[u8]],
    earlier: &[u32],
) -> Result<bool, Memory>
    requires { IsNonDecreasing earlier.now }
    ensures { IfOk result (λ found. MatchBool found (CommandHas earlier.now (map (λ w. w.now) words.now) cause)
        (CommandHas earlier.now (map (λ w. w.now) words.now) cause → ⊥)) }
{
    if !is_command_line(words) {
        return Ok(false);
    }
    let [actor, behind @ ..] = words else {
        return Ok(false);
    };
    match cause {
        Cause::NoActor => Ok(number(actor, 63).is_none()),
        Cause::BadAfter => Ok(names_no_line(behind, earlier)),
        Cause::TooManyCommands => Ok(earlier.len() >= MOST_COMMANDS),
        _ => call_has(alloc, cause, call_of(behind)),
    }
}

/// Whether a command's word and its arguments have this cause.
fn call_has(alloc: Global, cause: Cause, call: &[&[u8]]) -> Result<bool, Memory>
    ensures { IfOk result (λ found. MatchBool found (CallHas (map (λ w. w.now) call.now) cause)
        (CallHas (map (λ w. w.now) call.now) cause → ⊥)) }
{
    let [word, arguments @ ..] = call else {
        return Ok(cause == Cause::UnknownCommand);
    };
    match cause {
        Cause::UnknownCommand => Ok(!is_command(word)),
        Cause::ArgumentCount => Ok(form_of(word, arguments.len()).is_none()),
        _ => match form_of(word, arguments.len()) {
            Some(form) => has_wrong(alloc, cause, form.arguments(), arguments),
            None => Ok(false),
        },
    }
}

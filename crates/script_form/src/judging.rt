//! A line judged: it is skipped, says a record or a command, or has a first cause.
ghost use Rattle.std.specs.Prelude.{◌≡◌, ◌≤◌, ℕ, List, map, true, IfOk, IfErr};
ghost use Rattle.std.specs.List.Sorted.{IsNonDecreasing};
ghost use Rattle.script_form.specs.Words.{words_of as text_words};
ghost use Rattle.script_form.specs.Records.{is_store as word_is_store, earlier_in};
ghost use Rattle.script_form.specs.Causes.{TextHas, LineHas};
ghost use Rattle.script_form.specs.Judging.{pages_with as named_with, IsFineText, IsFineLine, IsNoRecord, IsSaid, IsVerdict};
ghost use Rattle.script_form.specs.Faults.{IsFirstCause};

use crate::cause::{Cause, TextFault};
use crate::limits::{MOST_COMMANDS, MOST_TEXT};
use crate::line::line_of;
use crate::records::Records;
use crate::store_line::stored;
use crate::trying::{first_cause, is_printable, is_skipped, is_store};
use crate::words::put_words;
use half_hash::{Memory, NodeHash};
use ledger_machine::{Command, Line, Record};
use std::alloc::Global;

/// What a line says.
#[derive(Drop)]
pub(crate) enum Content {
    /// It is skipped.
    Nothing,
    Record(Record),
    Line(Line),
}

/// How many pages are named, with what one line more says.
pub(crate) fn pages_with(pages: usize, content: &Content) -> usize
    requires { pages ≤ 4000 }
    ensures { result ≡ named_with pages content.now }
{
    match content {
        Content::Line(line) => {
            if matches!(line.command, Command::Page { .. }) {
                pages + 1
            } else {
                pages
            }
        }
        _ => pages,
    }
}

/// What the text of line `n` says, or the first cause for which it is refused; command lines of these
/// numbers stand before it, and these records. Its words are put into the list.
pub(crate) fn judge<'a, H: NodeHash>(
    alloc: Global,
    n: u32,
    text: &'a [u8],
    words: &mut Vec<&'a [u8]>,
    earlier: &[u32],
    records: &Records,
) -> Result<Content, TextFault>
    requires { IsNonDecreasing earlier.now }
    ensures said { IfOk result (IsSaid H.half earlier.now n text.now) }
    ensures fine { IfOk result (λ _. IsFineLine H.half (earlier_in earlier.now records.now) text.now) }
    ensures cause { IfErr result (IsFirstCause (LineHas H.half (earlier_in earlier.now records.now) text.now)) }
{
    put_words(words, text)?;
    if is_store(words) {
        judge_record::<H>(alloc, text, words, earlier, records)
    } else {
        judge_command(alloc, n, text, words, earlier)
    }
}

/// The same of a record, whose words these are.
fn judge_record<H: NodeHash>(
    alloc: Global,
    text: &[u8],
    words: &[&[u8]],
    earlier: &[u32],
    records: &Records,
) -> Result<Content, TextFault>
    requires words { map (λ w. w.now) words.now ≡ text_words text.now }
    requires store { word_is_store (text_words text.now) ≡ true }
    ensures said { IfOk result (λ s. (n : ℕ) → IsSaid H.half earlier.now n text.now s) }
    ensures fine { IfOk result (λ _. IsFineLine H.half (earlier_in earlier.now records.now) text.now) }
    ensures cause { IfErr result (IsFirstCause (LineHas H.half (earlier_in earlier.now records.now) text.now)) }
{
    if !is_printable(text) {
        return Err(TextFault::Cause(Cause::NotPrintable));
    }
    if text.len() > MOST_TEXT {
        return Err(TextFault::Cause(Cause::LineTooLong));
    }
    let record = stored::<H>(alloc, &words[1..], earlier, records)?;
    Ok(Content::Record(record))
}

/// The same of a line that is no record.
fn judge_command(
    alloc: Global,
    n: u32,
    text: &[u8],
    words: &[&[u8]],
    earlier: &[u32],
) -> Result<Content, TextFault>
    requires { IsNoRecord earlier.now (map (λ w. w.now) words.now) text.now }
    ensures said { IfOk result (λ s. (half : List ℕ → List ℕ) → IsSaid half earlier.now n text.now s) }
    ensures fine { IfOk result (λ _. IsFineText earlier.now text.now) }
    ensures cause { IfErr result (IsFirstCause (TextHas earlier.now text.now)) }
{
    match said(alloc, n, text, words, earlier)? {
        Verdict::Skipped => Ok(Content::Nothing),
        Verdict::Line(line) => Ok(Content::Line(line)),
        Verdict::Refused => Err(TextFault::Cause(first_cause(alloc, text, words, earlier)?)),
    }
}

/// What becomes of a line.
#[derive(Drop)]
enum Verdict {
    Skipped,
    Line(Line),
    Refused,
}

/// What becomes of a line that is no record, whose words these are.
fn said(
    alloc: Global,
    n: u32,
    text: &[u8],
    words: &[&[u8]],
    earlier: &[u32],
) -> Result<Verdict, Memory>
    requires { IsNoRecord earlier.now (map (λ w. w.now) words.now) text.now }
    ensures { IfOk result (IsVerdict earlier.now n text.now) }
{
    if !is_printable(text) || text.len() > MOST_TEXT {
        return Ok(Verdict::Refused);
    }
    if is_skipped(words) {
        return Ok(Verdict::Skipped);
    }
    if earlier.len() >= MOST_COMMANDS {
        return Ok(Verdict::Refused);
    }
    match line_of(alloc, n, words, earlier)? {
        Some(line) => Ok(Verdict::Line(line)),
        None => Ok(Verdict::Refused),
    }
}

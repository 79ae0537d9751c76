//! The lines of the printed text.
ghost use Rattle.std.specs.Prelude.{◌≡◌, ◌++◌, IfOk, OnOk};
ghost use Rattle.std.specs.String.{string_bytes};
ghost use Rattle.journal_text.specs.Text.{entry_text, record_text, summary_text, optional_text};

use crate::replies::{push_reply, word};
use crate::words::{push_bytes, push_hash};
use half_hash::{Blob, Memory};
use ledger_machine::{Command, Entry, Record, Totals};
use std::alloc::{AllocError, Global};
use std::fmt::Write;

/// The line of an entry that answers the command: its number, its actor, the command's word and
/// the reply. Only memory may be wanting.
pub fn line(alloc: Global, command: &Command, entry: &Entry) -> Result<Blob, Memory>
    ensures { IfOk result (λ text. text ≡ entry_text command.now entry.now) }
{
    let number = entry.line;
    let actor = entry.actor;
    let word = word(command);
    let mut text = format!(in alloc; "{number} {actor} {word} ")?;
    push_reply(&mut text, &entry.reply)?;
    text.push_str("\n")?;
    Ok(Blob::new(text.into_bytes()))
}

/// The last line, of a run's numbers. Only memory may be wanting.
pub fn summary(alloc: Global, totals: &Totals) -> Result<Blob, Memory>
    ensures { IfOk result (λ text. text ≡ summary_text totals.now) }
{
    let Totals {
        complete,
        closed,
        listed,
        floor,
        last,
        epoch,
    } = *totals;
    let mut text = format!(in alloc; "end complete {complete} closed {closed} listed {listed}")?;
    write!(text, " floor {floor} last ")?;
    push_optional(&mut text, last)?;
    writeln!(text, " epoch {epoch}")?;
    Ok(Blob::new(text.into_bytes()))
}

/// The line of a record: its hash and its form. Only memory may be wanting.
pub fn stored(alloc: Global, one: &Record) -> Result<Blob, Memory>
    ensures { IfOk result (λ text. text ≡ record_text one.now) }
{
    let mut text = String::new(alloc);
    text.push_str("store ")?;
    push_hash(&mut text, &one.hash)?;
    text.push_str(" ")?;
    push_bytes(&mut text, one.form.bytes())?;
    text.push('\n')?;
    Ok(Blob::new(text.into_bytes()))
}

fn push_optional(text: &mut String, number: Option<u32>) -> Result<(), AllocError>
    ensures { OnOk result (string_bytes text.new ≡ string_bytes text.old ++ optional_text number) }
{
    match number {
        None => text.push_str("-"),
        Some(n) => write!(text, "{n}"),
    }
}

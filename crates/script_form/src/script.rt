//! The call of this crate, `read_script`: the lines of a source are judged one after the other, into a script or its first refused line.
ghost use Rattle.std.specs.Prelude.{◌≡◌, ◌<◌, ◌≤◌, ◌+◌, Some, [], length, take, drop, ◌∷◌, OnOk, IfOk, IfErr, IfSome};
ghost use Rattle.ledger_machine.specs.Records.{AreRecords};
ghost use Rattle.script_form.specs.Servable.{AreServable};
ghost use Rattle.script_form.specs.Grammar.{most_read, IsScript};
ghost use Rattle.script_form.specs.Words.{text_of, lines_of};
ghost use Rattle.script_form.specs.Causes.{most_bytes, number_of};
ghost use Rattle.script_form.specs.Faults.{HasLineCause, HasScriptCause};
ghost use Rattle.script_form.specs.Reading.{LeavesInput};

use crate::cause::{Cause, TextFault};
use crate::judging::{Content, judge, pages_with};
use crate::limits::{MOST_BYTES, MOST_PAGES};
use crate::records::Records;
use crate::words::piece_end;
use half_hash::{Memory, NodeHash};
use ledger_machine::Script;
use run_io::{AllFault, Source, read_all};
use std::alloc::{AllocFailed, Global};

/// Why there is no script.
#[derive(Clone, Copy, Debug, PartialEq, Eq)]
pub enum ScriptFault {
    /// The source failed.
    Fault,
    /// The line of this number is the first that has a cause, and its first cause has this number.
    Refused { line: u32, cause: u8 },
    /// Memory was refused.
    Memory,
}

impl From<Memory> for ScriptFault {
    ghost use Rattle.std.specs.Prelude.{◌≡◌};
    ghost use Rattle.script_form.specs.declared.script.ScriptFault.TheVariants as fault;

    ghost from_gives = { λ _ e. e ≡ fault.Memory };

    fn from(_: Memory) -> Self {
        ScriptFault::Memory
    }
}

impl<T: Drop> From<AllocFailed<T>> for ScriptFault {
    ghost use Rattle.std.specs.Prelude.{◌≡◌};
    ghost use Rattle.script_form.specs.declared.script.ScriptFault.TheVariants as fault;

    ghost from_gives = { λ _ e. e ≡ fault.Memory };

    fn from(_: AllocFailed<T>) -> Self {
        ScriptFault::Memory
    }
}

/// The script of bytes, or the first line that has a cause.
fn read_lines<H: NodeHash>(alloc: Global, bytes: &[u8]) -> Result<Script, ScriptFault>
    requires { length bytes.now ≤ most_read }
    ensures script { IfOk result (λ s. IsScript H.half bytes.now s.records.items s.lines.items) }
    ensures servable { IfOk result (λ s. AreServable s.lines.items × AreRecords H.half s.records.items) }
    ensures few { OnOk result (length bytes.now ≤ most_bytes) }
    ensures refused { IfErr result (HasLineCause H.half bytes.now) }
{
    let mut records = Records::new(alloc);
    let mut lines = Vec::new(alloc);
    let mut earlier: Vec<u32> = Vec::new(alloc);
    let mut words: Vec<&[u8]> = Vec::new(alloc);
    let mut rest = bytes;
    let mut n: u32 = 1;
    let mut pages = 0;
    while !rest.is_empty() {
        let (text, size) = first_line(rest);
        if bytes.len() - rest.len() + size > MOST_BYTES {
            return Err(refused(n, Cause::ScriptTooLong));
        }
        let content = match judge::<H>(alloc, n, text, &mut words, &earlier, &records) {
            Ok(content) => content,
            Err(TextFault::Cause(cause)) => return Err(refused(n, cause)),
            Err(TextFault::Memory) => return Err(ScriptFault::Memory),
        };
        let named = pages_with(pages, &content);
        if named > MOST_PAGES {
            return Err(refused(n, Cause::TooManyCommands));
        }
        match content {
            Content::Nothing => {}
            Content::Record(record) => records.push(record)?,
            Content::Line(line) => {
                earlier.push(n)?;
                lines.push(line)?;
            }
        }
        rest = rest.split_at(size).1;
        n += 1;
        pages = named;
    }
    Ok(Script {
        records: records.into_records(),
        lines,
    })
}

/// The text of the first line, and how many bytes the line has with its newline.
fn first_line(bytes: &[u8]) -> (&[u8], usize)
    requires { 0 < length bytes.now }
    ensures some { 0 < result.1 }
    ensures within { result.1 ≤ length bytes.now }
    ensures text { result.0.now ≡ text_of (take result.1 bytes.now) }
    ensures cut { lines_of bytes.now ≡ take result.1 bytes.now ∷ lines_of (drop result.1 bytes.now) }
{
    let end = piece_end(bytes, b'\n');
    if end == bytes.len() {
        return (bytes, end);
    }
    (bytes.split_at(end).0, end + 1)
}

fn refused(line: u32, cause: Cause) -> ScriptFault
    ensures { result ≡ ScriptFault.Refused line (number_of cause) }
{
    ScriptFault::Refused {
        line,
        cause: cause.number(),
    }
}

/// The script of a source, which is read to its end, or to the byte after the last that a script
/// may have.
pub fn read_script<H: NodeHash, S: Source>(
    alloc: Global,
    source: &mut S,
) -> Result<Script, ScriptFault>
    ensures script { IfOk result (λ s.
        IfSome (S.left source.old) (λ bytes. IsScript H.half (take most_read bytes) s.records.items s.lines.items)) }
    // These are lines that a core takes, and records that a store may begin with.
    ensures servable { IfOk result (λ s. AreServable s.lines.items × AreRecords H.half s.records.items) }
    // The source was read to its end.
    ensures ended { OnOk result (IfSome (S.left source.old) (λ _. S.left source.new ≡ Some [])) }
    ensures cause { IfErr result
        (HasScriptCause H.half (S.left source.old) (S.left source.new) (S.faults source.old) (S.faults source.new)) }
    // A front of the input is gone, and no more than is read at most.
    ensures left { LeavesInput (S.left source.old) (S.left source.new) (S.faults source.old) (S.faults source.new) }
{
    let bytes = match read_all(alloc, source, MOST_BYTES + 1) {
        Ok(bytes) => bytes,
        Err(AllFault::Fault) => return Err(ScriptFault::Fault),
        Err(AllFault::Memory) => return Err(ScriptFault::Memory),
    };
    let script = read_lines::<H>(alloc, &bytes)?;
    Ok(script)
}

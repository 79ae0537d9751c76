//! The text of a run: the lines of its entries, the summary and the dump, or a refusal.
ghost use Rattle.std.specs.Prelude.{◌≡◌, ◌≤◌, ◌∷◌, [], IfErr, OnOk, OnErr};
ghost use Rattle.std.specs.Prelude.{if◌then◌else◌};
ghost use Rattle.run_io.specs.Bytes.{Rose, Wrote, WrotePart};
ghost use Rattle.top_call.specs.declared.status.TheConstants.{REFUSED, NO_MEMORY};
ghost use Rattle.top_call.specs.Dump.{LeavesCore};
ghost use Rattle.top_call.specs.Output.{entry_line, entry_lines, refused_text};
ghost use Rattle.top_call.specs.Top.{IsOneOf, WroteOrFailed, text_of, HasPrinted, HasDumped};
ghost use Rattle.top_call.specs.Top.{HasSaid, PrintsMore};

use crate::dump::{DumpEnd, DumpFault, print_records};
use crate::ends::own_status;
use crate::status::{NO_MEMORY, REFUSED, SINK_FAILED};
use half_hash::NodeHash;
use journal_text::{line, summary};
use ledger_machine::Entry;
use node_backend::Shelf;
use run_io::{AllFault, Sink, write_all};
use std::alloc::Global;
use store_core::Core;

/// Prints the line of an entry.
fn print_entry<H: NodeHash, Sh: Shelf, K: Sink>(
    alloc: Global,
    core: &Core<H, Sh>,
    entry: &Entry,
    sink: &mut K,
) -> Result<(), AllFault>
    ensures wrote { OnOk result (Wrote (K.held sink.old) (K.held sink.new) (entry_line core.now.lines entry.now)) }
    ensures part { OnErr result (WrotePart (K.held sink.old) (K.held sink.new) (entry_line core.now.lines entry.now)) }
    ensures later { K.faults sink.old ≤ K.faults sink.new }
    ensures cause { IfErr result (λ e. e ≡ AllFault.Fault → Rose (K.faults sink.old) (K.faults sink.new)) }
{
    let Some(asked) = core.line(entry.line) else {
        return Ok(());
    };
    let Ok(text) = line(alloc, &asked.command, entry) else {
        return Err(AllFault::Memory);
    };
    write_all(sink, text.bytes())?;
    Ok(())
}

/// Prints the lines of the journal's entries, but not in a quiet run.
fn print_entries<H: NodeHash, Sh: Shelf, K: Sink>(
    alloc: Global,
    core: &Core<H, Sh>,
    sink: &mut K,
    quiet: bool,
) -> Result<(), AllFault>
    ensures wrote { OnOk result (Wrote (K.held sink.old) (K.held sink.new) (entry_lines quiet core.now.lines core.now.journal)) }
    ensures part { OnErr result (WrotePart (K.held sink.old) (K.held sink.new) (entry_lines quiet core.now.lines core.now.journal)) }
    ensures later { K.faults sink.old ≤ K.faults sink.new }
    ensures cause { IfErr result (λ e. e ≡ AllFault.Fault → Rose (K.faults sink.old) (K.faults sink.new)) }
{
    if quiet {
        return Ok(());
    }
    for entry in core.journal() {
        print_entry(alloc, core, entry, sink)?;
    }
    Ok(())
}

/// Prints the journal, but not in a quiet run, and the summary.
pub(crate) fn print<H: NodeHash, Sh: Shelf, K: Sink>(
    alloc: Global,
    core: &Core<H, Sh>,
    sink: &mut K,
    quiet: bool,
) -> Result<(), AllFault>
    ensures wrote { OnOk result (Wrote (K.held sink.old) (K.held sink.new) (text_of quiet core.now)) }
    ensures part { OnErr result (WrotePart (K.held sink.old) (K.held sink.new) (text_of quiet core.now)) }
    ensures later { K.faults sink.old ≤ K.faults sink.new }
    ensures cause { IfErr result (λ e. e ≡ AllFault.Fault → Rose (K.faults sink.old) (K.faults sink.new)) }
{
    print_entries(alloc, core, sink, quiet)?;
    let Ok(end) = summary(alloc, &core.totals()) else {
        return Err(AllFault::Memory);
    };
    write_all(sink, end.bytes())?;
    Ok(())
}

/// Prints the journal, the summary and the dump, as far as they are asked for: the status, and how the dump ended.
pub(crate) fn print_all<H: NodeHash, Sh: Shelf, K: Sink>(
    alloc: Global,
    core: &mut Core<H, Sh>,
    sink: &mut K,
    quiet: bool,
    asked: bool,
) -> (u8, DumpEnd)
    requires { core.old.missed ≡ 0 }
    ensures lists { LeavesCore Sh.B.tells core.old core.new }
    ensures printed { HasPrinted Sh.B.tells quiet asked (K.held sink.old) (K.held sink.new) result.0 result.1 core.new }
    ensures said { HasSaid result.0 core.new (K.faults sink.old) (K.faults sink.new) }
    ensures later { K.faults sink.old ≤ K.faults sink.new }
{
    match print(alloc, core, sink, quiet) {
        Ok(()) => print_dump(alloc, core, sink, asked),
        Err(AllFault::Fault) => (SINK_FAILED, unprinted(asked)),
        Err(AllFault::Memory) => (NO_MEMORY, unprinted(asked)),
    }
}

/// The same behind the summary.
fn print_dump<H: NodeHash, Sh: Shelf, K: Sink>(
    alloc: Global,
    core: &mut Core<H, Sh>,
    sink: &mut K,
    asked: bool,
) -> (u8, DumpEnd)
    requires { core.old.missed ≡ 0 }
    ensures lists { LeavesCore Sh.B.tells core.old core.new }
    ensures printed { PrintsMore Sh.B.tells core.old.state.nodes (K.held sink.old) (K.held sink.new) result.0 result.1 }
    ensures dumped { HasDumped asked result.0 result.1 core.new }
    ensures said { HasSaid result.0 core.new (K.faults sink.old) (K.faults sink.new) }
    ensures later { K.faults sink.old ≤ K.faults sink.new }
{
    if !asked {
        return (own_status(core), DumpEnd::NotAsked);
    }
    match print_records(alloc, core, sink) {
        Ok(()) => (own_status(core), DumpEnd::Whole),
        Err(DumpFault::Store) => (own_status(core), DumpEnd::Faulted),
        Err(DumpFault::Sink) => (SINK_FAILED, DumpEnd::Cut),
        Err(DumpFault::Memory) => (NO_MEMORY, DumpEnd::Cut),
    }
}

/// How the dump ended that none was printed of.
fn unprinted(asked: bool) -> DumpEnd
    ensures { result ≡ (if asked then DumpEnd.Cut else DumpEnd.NotAsked) }
{
    if asked {
        DumpEnd::Cut
    } else {
        DumpEnd::NotAsked
    }
}

/// Prints the line of a refusal, as far as the sink takes it.
pub(crate) fn refuse<K: Sink>(alloc: Global, line: u32, cause: u8, sink: &mut K) -> u8
    ensures status { IsOneOf result (REFUSED ∷ NO_MEMORY ∷ []) }
    ensures silent { result ≡ NO_MEMORY → sink.new ≡ sink.old }
    ensures later { K.faults sink.old ≤ K.faults sink.new }
    ensures text { result ≡ REFUSED
        → WroteOrFailed (K.held sink.old) (K.held sink.new) (K.faults sink.old) (K.faults sink.new) (refused_text line cause) }
{
    let Ok(text) = format!(in alloc; "refused {line} {cause}\n") else {
        return NO_MEMORY;
    };
    match write_all(sink, text.as_bytes()) {
        Ok(()) => REFUSED,
        Err(_) => REFUSED,
    }
}

//! The dump: the stored records, a line each, printed as the hashes rise.
ghost use Rattle.std.specs.Prelude.{◌≡◌, ◌≤◌, IfErr, OnOk, OnErr};
ghost use Rattle.run_io.specs.Bytes.{Rose, Wrote, WrotePart};
ghost use Rattle.journal_text.specs.Text.{record_text};
ghost use Rattle.top_call.specs.Dump.{Dumps, LeavesCore, missed_by};

use half_hash::{Hash32, NodeHash};
use journal_text::stored;
use ledger_machine::Record;
use node_backend::Shelf;
use run_io::{AllFault, Sink, write_all};
use std::alloc::Global;
use store_core::{Core, OpenFault};

/// How the dump ended.
#[derive(Clone, Copy, Debug, PartialEq, Eq)]
pub enum DumpEnd {
    /// None was asked for, or there was no run.
    NotAsked,
    /// All records were printed.
    Whole,
    /// The store failed.
    Faulted,
    /// The sink failed, or memory was wanted in printing.
    Cut,
}

/// Why the dump ended before its end.
#[derive(Clone, Copy, Debug, PartialEq, Eq)]
pub(crate) enum DumpFault {
    /// The store failed.
    Store,
    /// The sink failed.
    Sink,
    /// Memory was wanted.
    Memory,
}

impl From<OpenFault> for DumpFault {
    ghost use Rattle.std.specs.Prelude.{◌≡◌};
    ghost use Rattle.top_call.specs.Dump.{of_open};

    ghost from_gives = { λ f e. e ≡ of_open f };

    fn from(fault: OpenFault) -> DumpFault {
        match fault {
            OpenFault::Fault => DumpFault::Store,
            OpenFault::Memory => DumpFault::Memory,
        }
    }
}

impl From<AllFault> for DumpFault {
    ghost use Rattle.std.specs.Prelude.{◌≡◌};
    ghost use Rattle.top_call.specs.Dump.{of_sink};

    ghost from_gives = { λ f e. e ≡ of_sink f };

    fn from(fault: AllFault) -> DumpFault {
        match fault {
            AllFault::Fault => DumpFault::Sink,
            AllFault::Memory => DumpFault::Memory,
        }
    }
}

/// Prints the line of a record.
fn print_record<K: Sink>(alloc: Global, one: &Record, sink: &mut K) -> Result<(), AllFault>
    ensures wrote { OnOk result (Wrote (K.held sink.old) (K.held sink.new) (record_text one.now)) }
    ensures part { OnErr result (WrotePart (K.held sink.old) (K.held sink.new) (record_text one.now)) }
    ensures later { K.faults sink.old ≤ K.faults sink.new }
    ensures cause { IfErr result (λ e. e ≡ AllFault.Fault → Rose (K.faults sink.old) (K.faults sink.new)) }
{
    let Ok(text) = stored(alloc, one) else {
        return Err(AllFault::Memory);
    };
    write_all(sink, text.bytes())?;
    Ok(())
}

/// Prints all that is stored.
pub(crate) fn print_records<H: NodeHash, Sh: Shelf, K: Sink>(
    alloc: Global,
    core: &mut Core<H, Sh>,
    sink: &mut K,
) -> Result<(), DumpFault>
    ensures dumps { Dumps Sh.B.tells core.old.state.nodes (K.held sink.old) (K.held sink.new) result }
    ensures lists { LeavesCore Sh.B.tells core.old core.new }
    ensures missed { core.new.missed ≡ missed_by result core.old.missed }
    ensures later { K.faults sink.old ≤ K.faults sink.new }
    ensures cause { IfErr result (λ e. e ≡ DumpFault.Sink → Rose (K.faults sink.old) (K.faults sink.new)) }
{
    let mut last: Option<Hash32> = None;
    while let Some(one) = core.next_stored(alloc, last.as_ref())? {
        print_record(alloc, &one, sink)?;
        last = Some(one.hash);
    }
    Ok(())
}

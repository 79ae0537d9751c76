//! The status of a journal that was printed whole.
ghost use Rattle.std.specs.Prelude.{◌≡◌};
ghost use Rattle.std.specs.List.{list_any};
ghost use Rattle.top_call.specs.Output.{status_of, shows_clash as clash_shown};
ghost use Rattle.top_call.specs.Output.{met_fault as fault_met, wanted_memory as memory_wanted};

use crate::status::{CLASHED, FINE, NO_MEMORY, STORE_FAILED};
use half_hash::NodeHash;
use ledger_machine::{Entry, Reply};
use node_backend::Shelf;
use store_core::Core;

/// The status of a core whose journal was printed.
pub(crate) fn own_status<H: NodeHash, Sh: Shelf>(core: &Core<H, Sh>) -> u8
    ensures { result ≡ status_of core.now.journal core.now.missed }
{
    journal_status(core.journal(), core.missed())
}

/// The status of a journal that was printed whole, and of so many missed calls.
fn journal_status(journal: &[Entry], missed: u64) -> u8
    ensures { result ≡ status_of journal.now missed }
{
    if has_clash(journal) {
        CLASHED
    } else if has_fault(journal) || missed > 0 {
        STORE_FAILED
    } else if has_memory(journal) {
        NO_MEMORY
    } else {
        FINE
    }
}

fn has_clash(journal: &[Entry]) -> bool
    ensures { result ≡ list_any clash_shown journal.now }
{
    journal.iter().any(|e| shows_clash(e))
}

fn has_fault(journal: &[Entry]) -> bool
    ensures { result ≡ list_any fault_met journal.now }
{
    journal.iter().any(|e| met_fault(e))
}

fn has_memory(journal: &[Entry]) -> bool
    ensures { result ≡ list_any memory_wanted journal.now }
{
    journal.iter().any(|e| wanted_memory(e))
}

fn shows_clash(entry: &Entry) -> bool
    ensures { result ≡ clash_shown entry.now }
{
    match &entry.reply {
        Reply::Clash { .. } => true,
        Reply::ZeroHash(_) => true,
        _ => false,
    }
}

fn met_fault(entry: &Entry) -> bool
    ensures { result ≡ fault_met entry.now }
{
    match &entry.reply {
        Reply::Fault => true,
        _ => false,
    }
}

fn wanted_memory(entry: &Entry) -> bool
    ensures { result ≡ memory_wanted entry.now }
{
    match &entry.reply {
        Reply::Memory => true,
        _ => false,
    }
}

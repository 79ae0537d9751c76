//! The top call: an audit over a source, whose answer goes to a sink.
ghost use Rattle.std.specs.Prelude.{◌≡◌, ◌≢◌, ◌⊎◌, ◌↔◌, ◌≤◌, ◌++◌, ◌∷◌, [], Option, IfOk, IfErr, IfSome, map};
ghost use Rattle.run_io.specs.Bytes.{Rose};
ghost use Rattle.ledger_audit.specs.declared.words.Asked.{Asked as AnyAsked};
ghost use Rattle.ledger_audit.specs.Words.{Asks, AreCommand};
ghost use Rattle.ledger_audit.specs.Text.{usage_text};
ghost use Rattle.ledger_audit.specs.Top.{Answered, IsSaid, Prints, IsSilent, WroteOrFailed, status_of, path_status, said_status};

use crate::text::{Said, line_of};
use crate::words::{Asked, asked_for};
use audit_core::Answer;
use half_hash::NodeHash;
use page_audit::audit_pages;
use path_audit::{PathAnswer, audit_path};
use plain_audit::audit_plain;
use run_io::{AllFault, Sink, Source, write_all};
use std::alloc::Global;

/// The ledger is whole, or the path says what the map has.
pub const FINE: u8 = 0;

/// Something differs from what is expected or what the header names, or the nodes are no path.
pub const DIFFERS: u8 = 1;

/// The words aren't those of the command.
pub const USAGE: u8 = 2;

/// A line was refused.
pub const REFUSED: u8 = 3;

/// The source failed.
pub const SOURCE_FAILED: u8 = 4;

/// The sink failed.
pub const SINK_FAILED: u8 = 5;

/// Memory was wanted.
pub const NO_MEMORY: u8 = 8;

const USAGE_TEXT: &[u8; 64] = b"usage: ledger_audit [--plain] [--expect HASH] | --path ROOT KEY\n";

/// Does what the words ask for on what the source gives, and prints the answer: the exit status.
pub fn ledger_audit<H: NodeHash, S: Source, K: Sink>(
    alloc: Global,
    words: &[&str],
    source: &mut S,
    sink: &mut K,
) -> u8
    ensures answered { (asked : AnyAsked) → Asks (map (λ w. w.now) words.now) asked
        → Answered H.half asked (S.left source.old) (K.held sink.old) (K.held sink.new) result ⊎ IsSilent result }
    // Where nothing was answered, nothing is written.
    ensures silent { IsSilent result → sink.new ≡ sink.old }
    ensures source { result ≡ SOURCE_FAILED → Rose (S.faults source.old) (S.faults source.new) }
    ensures sink { result ≡ SINK_FAILED → Rose (K.faults sink.old) (K.faults sink.new) }
    // Other words, and these alone, give the usage, and nothing is read.
    ensures usage { (result ≡ USAGE) ↔ (AreCommand (map (λ w. w.now) words.now) → ⊥) }
    ensures shown { result ≡ USAGE
        → WroteOrFailed (K.held sink.old) (K.held sink.new) (K.faults sink.old) (K.faults sink.new) usage_text }
    ensures unread { result ≡ USAGE → source.new ≡ source.old }
{
    let Some(asked) = asked_for(words) else {
        let _ = write_all(sink, USAGE_TEXT);
        return USAGE;
    };
    match said::<H, S>(alloc, &asked, source) {
        Ok(said) => printed(alloc, &said, sink),
        Err(AllFault::Fault) => SOURCE_FAILED,
        Err(AllFault::Memory) => NO_MEMORY,
    }
}

// What is asked for, said of what the source gives.
fn said<H: NodeHash, S: Source>(
    alloc: Global,
    asked: &Asked,
    source: &mut S,
) -> Result<Said, AllFault>
    ensures said { IfOk result (λ said. IfSome (S.left source.old) (λ bytes. IsSaid H.half asked.now bytes said)) }
    ensures cause { IfErr result (λ e. e ≡ AllFault.Fault → Rose (S.faults source.old) (S.faults source.new)) }
{
    match asked {
        Asked::Pages(expect) => match audit_pages::<H, S>(alloc, source, *expect) {
            Ok(answer) => Ok(Said::OfLedger(answer)),
            Err(fault) => Err(fault),
        },
        Asked::Plain(expect) => match audit_plain::<H, S>(alloc, source, *expect) {
            Ok(answer) => Ok(Said::OfLedger(answer)),
            Err(fault) => Err(fault),
        },
        Asked::Path { root, key } => match audit_path::<H, S>(alloc, source, root, key) {
            Ok(answer) => Ok(Said::OfPath(answer)),
            Err(fault) => Err(fault),
        },
    }
}

// Prints what is said: the status.
fn printed<K: Sink>(alloc: Global, said: &Said, sink: &mut K) -> u8
    ensures printed { Prints said.now (K.held sink.old) (K.held sink.new) result ⊎ (result ≡ NO_MEMORY) }
    ensures silent { result ≡ NO_MEMORY → sink.new ≡ sink.old }
    ensures others { (result ≢ SOURCE_FAILED) × (result ≢ USAGE) }
    ensures sink { result ≡ SINK_FAILED → Rose (K.faults sink.old) (K.faults sink.new) }
{
    let Ok(line) = line_of(alloc, said) else {
        return NO_MEMORY;
    };
    match write_all(sink, line.as_bytes()) {
        Ok(()) => status_said(said),
        Err(_) => SINK_FAILED,
    }
}

// The status of what is said.
fn status_said(said: &Said) -> u8
    ensures own { result ≡ said_status said.now }
    ensures low { (result ≤ REFUSED) × (result ≢ USAGE) }
{
    match said {
        Said::OfLedger(answer) => status_ledger(answer),
        Said::OfPath(answer) => status_path(answer),
    }
}

// The status of a ledger's answer.
fn status_ledger(answer: &Answer) -> u8
    ensures own { result ≡ status_of answer.now }
    ensures low { (result ≤ REFUSED) × (result ≢ USAGE) }
{
    match answer {
        Answer::Whole(_) => FINE,
        Answer::OtherHash { .. } | Answer::OtherState { .. } | Answer::OtherTx { .. } => DIFFERS,
        Answer::Refused { .. } => REFUSED,
    }
}

// The status of a path's answer.
fn status_path(answer: &PathAnswer) -> u8
    ensures own { result ≡ path_status answer.now }
    ensures low { (result ≤ REFUSED) × (result ≢ USAGE) }
{
    match answer {
        PathAnswer::Value(_) | PathAnswer::Nothing => FINE,
        PathAnswer::NoPath => DIFFERS,
        PathAnswer::Refused { .. } => REFUSED,
    }
}

//! The call of this crate, `audit_plain`: a loop over the lines of a source, each of which is taken as it comes.
ghost use Rattle.std.specs.Prelude.{◌≡◌, ◌≤◌, ℕ, Ok, Err, Option, Some, length, IfOk, IfErr, IfSome, OnOk};
ghost use Rattle.run_io.specs.Bytes.{Rose};
ghost use Rattle.ledger_spec.specs.Bytes.{Half};
ghost use Rattle.audit_core.specs.declared.cause.Cause.{Cause as AnyCause};
ghost use Rattle.audit_core.specs.declared.cause.LineFault.TheVariants as faults;
ghost use Rattle.audit_core.specs.Said.{Said};
ghost use Rattle.audit_core.specs.Runs.{Both, Ends};
ghost use Rattle.audit_core.specs.Keeping.{Keeps};
ghost use Rattle.plain_audit.specs.Lines.{line_most, after_line as said_after};
ghost use Rattle.plain_audit.specs.Answers.{IsAnswer, Comes};

use crate::lines::{add, first};
use audit_core::{Answer, Audit, Cause, LineFault};
use half_hash::{Hash32, NodeHash};
use line_feed::{Fed, Feed};
use run_io::{AllFault, Source};
use std::alloc::Global;

/// The most bytes of a line: a transaction's word, its key, a space, and its data, two digits a byte.
const LINE_MOST: usize = 2_097_220;

/// Audits the ledger in plain lines that a source gives, line by line. A hash that is expected is the ledger's.
pub fn audit_plain<H: NodeHash, S: Source>(
    alloc: Global,
    source: &mut S,
    expect: Option<Hash32>,
) -> Result<Answer, AllFault>
    ensures answer { IfOk result (λ answer. IfSome (S.left source.old) (λ bytes. IsAnswer H.half expect bytes answer)) }
    ensures later { S.faults source.old ≤ S.faults source.new }
    ensures cause { IfErr result (λ e. e ≡ AllFault.Fault → Rose (S.faults source.old) (S.faults source.new)) }
{
    let Ok(mut feed) = Feed::new(alloc) else {
        return Err(AllFault::Memory);
    };
    let mut line = Vec::new(alloc);
    let mut audit = None;
    for n in 1..u64::MAX {
        match feed.next_line(source, LINE_MOST, &mut line)? {
            Fed::Line => {}
            Fed::End => return Ok(ended::<H>(audit, n, &line, expect)),
            Fed::TooLong => return Ok(refused(n, Cause::TooLong)),
        }
        match take_line::<H>(&mut audit, alloc, &line) {
            Ok(()) => {}
            Err(LineFault::Cause(cause)) => return Ok(refused(n, cause)),
            Err(LineFault::Memory) => return Err(AllFault::Memory),
        }
    }
    // So many lines are more than any input has.
    Err(AllFault::Memory)
}

// The refusal of a line.
fn refused(line: u64, cause: Cause) -> Answer
    ensures { result ≡ Answer.Refused line cause }
{
    Answer::Refused { line, cause }
}

// One line more is taken.
fn take_line<H: NodeHash>(
    audit: &mut Option<Audit>,
    alloc: Global,
    line: &[u8],
) -> Result<(), LineFault>
    ensures ok { OnOk result ((s : Option Said) → Both (Keeps H.half) audit.old s
        → (t : Said) × (said_after s line.now ≡ Ok t) × Both (Keeps H.half) audit.new (Some t)) }
    ensures cause { IfErr result (λ fault. (cause : AnyCause) (s : Option Said) → fault ≡ faults.Cause cause
        → Both (Keeps H.half) audit.old s → said_after s line.now ≡ Err cause) }
{
    match audit {
        Some(taken) => add::<H>(taken, alloc, line),
        None => {
            *audit = Some(first(alloc, line)?);
            Ok(())
        }
    }
}

// The answer where no line is left, behind which these bytes stand.
fn ended<H: NodeHash>(audit: Option<Audit>, n: u64, rest: &[u8], expect: Option<Hash32>) -> Answer
    ensures { length rest.now ≤ 2097220 → (s : Option Said) → Both (Keeps H.half) audit s
        → Ends Answer.Refused line_most said_after (Comes H.half expect) n s rest.now result }
{
    if !rest.is_empty() {
        return refused(n, Cause::Unended);
    }
    match audit {
        None => refused(n, Cause::NoHeader),
        Some(audit) => audit.verdict::<H>(expect),
    }
}

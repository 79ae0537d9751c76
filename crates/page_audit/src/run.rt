//! The call of this crate, `audit_pages`: a loop over the lines of a source, each of which is parsed and taken.
ghost use Rattle.std.specs.Prelude.{◌≡◌, ◌≤◌, ℕ, Ok, Err, Option, length, IfOk, IfErr, IfSome};
ghost use Rattle.run_io.specs.Bytes.{Rose};
ghost use Rattle.audit_core.specs.declared.cause.Cause.{Cause as AnyCause};
ghost use Rattle.audit_core.specs.declared.cause.LineFault.TheVariants as faults;
ghost use Rattle.audit_core.specs.Runs.{Both, Ends};
ghost use Rattle.page_audit.specs.Pages.{Paged, page_most, after_page as said_after, Comes, IsPagesAnswer};
ghost use Rattle.page_audit.specs.Keeping.{KeepsPages};

use crate::documents::{document_of, result_of};
use crate::pages::PageAudit;
use audit_core::{Answer, Cause, LineFault};
use half_hash::{Hash32, NodeHash};
use json::Scratch;
use line_feed::{Fed, Feed};
use run_io::{AllFault, Source};
use std::alloc::Global;

/// The most bytes of a line: 64 MiB.
const PAGE_MOST: usize = 67_108_864;

/// Audits the ledger whose pages a source gives, document by document. A hash that is expected is the ledger's.
pub fn audit_pages<H: NodeHash, S: Source>(
    alloc: Global,
    source: &mut S,
    expect: Option<Hash32>,
) -> Result<Answer, AllFault>
    ensures answer { IfOk result (λ answer. IfSome (S.left source.old) (λ bytes. IsPagesAnswer H.half expect bytes answer)) }
    ensures later { S.faults source.old ≤ S.faults source.new }
    ensures cause { IfErr result (λ e. e ≡ AllFault.Fault → Rose (S.faults source.old) (S.faults source.new)) }
{
    let Ok(mut feed) = Feed::new(alloc) else {
        return Err(AllFault::Memory);
    };
    let mut line = Vec::new(alloc);
    let mut room = Scratch::new(alloc);
    let mut pages = None;
    for n in 1..u64::MAX {
        match feed.next_line(source, PAGE_MOST, &mut line)? {
            Fed::Line => {}
            Fed::End => return Ok(ended::<H>(pages, n, &line, expect)),
            Fed::TooLong => return Ok(refused(n, Cause::TooLong)),
        }
        match after_line::<H>(alloc, &mut room, pages, &line) {
            Ok(after) => pages = Some(after),
            Err(LineFault::Cause(cause)) => return Ok(refused(n, cause)),
            Err(LineFault::Memory) => return Err(AllFault::Memory),
        }
    }
    // So many lines are more than any input has.
    Err(AllFault::Memory)
}

// The refusal of a line.
fn refused(line: u64, cause: Cause) -> Answer
    ensures { result ≡ Answer.Refused line cause }
{
    Answer::Refused { line, cause }
}

// The pages after one line more.
fn after_line<H: NodeHash>(
    alloc: Global,
    room: &mut Scratch,
    pages: Option<PageAudit>,
    line: &[u8],
) -> Result<PageAudit, LineFault>
    ensures ok { IfOk result (λ after. (p : Option Paged) → Both (KeepsPages H.half) pages p
        → (q : Paged) × (said_after p line.now ≡ Ok q) × KeepsPages H.half after q) }
    ensures cause { IfErr result (λ fault. (cause : AnyCause) (p : Option Paged) → fault ≡ faults.Cause cause
        → Both (KeepsPages H.half) pages p → said_after p line.now ≡ Err cause) }
{
    let Some(document) = document_of(alloc, room, line)? else {
        return Err(LineFault::Cause(Cause::NoJson));
    };
    let object = result_of(&document);
    match pages {
        None => PageAudit::first::<H>(alloc, object),
        Some(pages) => pages.next::<H>(alloc, object),
    }
}

// The answer where no line is left, behind which these bytes stand.
fn ended<H: NodeHash>(
    pages: Option<PageAudit>,
    n: u64,
    rest: &[u8],
    expect: Option<Hash32>,
) -> Answer
    ensures { length rest.now ≤ 67108864 → (p : Option Paged) → Both (KeepsPages H.half) pages p
        → Ends Answer.Refused page_most said_after (Comes H.half expect) n p rest.now result }
{
    if !rest.is_empty() {
        return refused(n, Cause::Unended);
    }
    match pages {
        None => refused(n, Cause::NoHeader),
        Some(pages) => last_page::<H>(pages, n, expect),
    }
}

// The answer behind the last page that came.
fn last_page<H: NodeHash>(pages: PageAudit, n: u64, expect: Option<Hash32>) -> Answer
    ensures { (p : Paged) → KeepsPages H.half pages p → Comes H.half expect n (Option.Some p) result }
{
    if pages.has_more() {
        return refused(n, Cause::Unfinished);
    }
    pages.verdict::<H>(expect)
}

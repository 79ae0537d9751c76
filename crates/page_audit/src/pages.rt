//! The pages so far: the first document brings the header, each names the same ledger, and their items go into one audit.
ghost use Rattle.std.specs.Prelude.{◌≡◌, ◌≢◌, Ok, Err, Option, IfOk, IfErr, OnOk, MatchBool};
ghost use Rattle.ledger_spec.specs.Bytes.{Half};
ghost use Rattle.json.specs.Value.{value_view as view, items_view};
ghost use Rattle.audit_core.specs.declared.cause.Cause.{Cause as AnyCause};
ghost use Rattle.audit_core.specs.declared.cause.LineFault.TheVariants as faults;
ghost use Rattle.audit_core.specs.Said.{Said, with_state};
ghost use Rattle.audit_core.specs.Keeping.{Keeps};
ghost use Rattle.page_audit.specs.Pages.{Paged, with_items, with_page as page_said, opened as opened_said, first_page, next_page};
ghost use Rattle.page_audit.specs.Pages.{same_ledger, numbered, wanted};
ghost use Rattle.page_audit.specs.Documents.{hash_in, number_in, item_in};
ghost use Rattle.audit_core.specs.Verdicts.{IsVerdict};

use crate::documents::{has_number, hash_of, header_of, item_of, list_of};
use audit_core::{Answer, Audit, Cause, LineFault, bytes_of, fault_of};
use half_hash::{Hash32, NodeHash};
use json::Value;
use std::alloc::Global;

/// The audit of the pages so far, the hash that they name, and whether more of them are to come.
#[derive(Drop)]
pub struct PageAudit {
    audit: Audit,
    hash: Hash32,
    more: bool,
}

impl PageAudit {
    ghost use Rattle.page_audit.specs.Keeping.{KeepsPages};

    /// The first document is taken, which may have the header alone.
    pub(crate) fn first<H: NodeHash>(
        alloc: Global,
        object: &Value<'_>,
    ) -> Result<PageAudit, LineFault>
        ensures ok { IfOk result (λ pages. (p : Paged) × (first_page (view object.now) ≡ Ok p) × KeepsPages H.half pages p) }
        ensures cause { IfErr result (λ fault. (cause : AnyCause) → fault ≡ faults.Cause cause → first_page (view object.now) ≡ Err cause) }
    {
        let pages = PageAudit::opened(alloc, object)?;
        if object.get("state").is_none() {
            return Ok(pages);
        }
        pages.with_page::<H>(alloc, object)
    }

    /// A document behind the first one is taken.
    pub(crate) fn next<H: NodeHash>(
        self,
        alloc: Global,
        object: &Value<'_>,
    ) -> Result<PageAudit, LineFault>
        ensures ok { IfOk result (λ pages. (p : Paged) → KeepsPages H.half self p
            → (q : Paged) × (next_page p (view object.now) ≡ Ok q) × KeepsPages H.half pages q) }
        ensures cause { IfErr result (λ fault. (cause : AnyCause) (p : Paged) → fault ≡ faults.Cause cause → KeepsPages H.half self p
            → next_page p (view object.now) ≡ Err cause) }
    {
        if !self.more {
            return Err(LineFault::Cause(Cause::Extra));
        }
        self.known(alloc, object)?;
        self.with_page::<H>(alloc, object)
    }

    /// The verdict, where the last page came.
    pub(crate) fn verdict<H: NodeHash>(self, expect: Option<Hash32>) -> Answer
        ensures { (p : Paged) → KeepsPages H.half self p → IsVerdict H.half (wanted H.half expect p) p.said result }
    {
        let PageAudit {
            audit,
            hash,
            more: _,
        } = self;
        let looked_for = if hash.equals(&audit.hash::<H>()) {
            expect
        } else {
            Some(hash)
        };
        audit.verdict::<H>(looked_for)
    }

    /// Whether more pages are to come.
    pub(crate) fn has_more(&self) -> bool
        ensures { result ≡ self.now.more }
    {
        self.more
    }

    // A ledger with the header and the hash of its first document.
    fn opened(alloc: Global, object: &Value<'_>) -> Result<PageAudit, LineFault>
        ensures ok { IfOk result (λ pages. (p : Paged) × (opened_said (view object.now) ≡ Ok p)
            × ((half : Half) → KeepsPages half pages p)) }
        ensures cause { IfErr result (λ fault. (cause : AnyCause) → fault ≡ faults.Cause cause
            → opened_said (view object.now) ≡ Err cause) }
    {
        let Some(hash) = hash_of(object) else {
            return Err(LineFault::Cause(Cause::Hash));
        };
        let Some(text) = header_of(object) else {
            return Err(LineFault::Cause(Cause::NoHeader));
        };
        let Some(bytes) = bytes_of(alloc, text.as_bytes())? else {
            return Err(LineFault::Cause(Cause::Header));
        };
        let audit = Audit::of_header(alloc, &bytes)?;
        named(alloc, object, audit.seq())?;
        Ok(PageAudit {
            audit,
            hash,
            more: true,
        })
    }

    // The document is of this ledger.
    fn known(&self, alloc: Global, object: &Value<'_>) -> Result<(), LineFault>
        ensures ok { OnOk result ((half : Half) (p : Paged) → KeepsPages half self.now p
            → same_ledger p (view object.now) (hash_in (view object.now)) ≡ Ok p) }
        ensures cause { IfErr result (λ fault. (cause : AnyCause) (half : Half) (p : Paged) → fault ≡ faults.Cause cause
            → KeepsPages half self.now p → same_ledger p (view object.now) (hash_in (view object.now)) ≡ Err cause) }
    {
        let Some(hash) = hash_of(object) else {
            return Err(LineFault::Cause(Cause::Hash));
        };
        if !hash.equals(&self.hash) {
            return Err(LineFault::Cause(Cause::OtherLedger));
        }
        named(alloc, object, self.audit.seq())
    }

    // The items of a page are taken.
    fn with_page<H: NodeHash>(
        self,
        alloc: Global,
        object: &Value<'_>,
    ) -> Result<PageAudit, LineFault>
        ensures ok { IfOk result (λ pages. (p : Paged) → KeepsPages H.half self p
            → (q : Paged) × (page_said p (view object.now) ≡ Ok q) × KeepsPages H.half pages q) }
        ensures cause { IfErr result (λ fault. (cause : AnyCause) (p : Paged) → fault ≡ faults.Cause cause → KeepsPages H.half self p
            → page_said p (view object.now) ≡ Err cause) }
    {
        let PageAudit {
            mut audit,
            hash,
            more: _,
        } = self;
        let Some(list) = list_of(object) else {
            return Err(LineFault::Cause(Cause::State));
        };
        add_items::<H>(&mut audit, alloc, list)?;
        Ok(PageAudit {
            audit,
            hash,
            more: object.get("marker").is_some(),
        })
    }
}

// The items of a list are taken, one after the other.
fn add_items<H: NodeHash>(
    audit: &mut Audit,
    alloc: Global,
    list: &[Value<'_>],
) -> Result<(), LineFault>
    ensures ok { OnOk result ((s : Said) → Keeps H.half audit.old s
        → (t : Said) × (with_items s (items_view list.now) ≡ Ok t) × Keeps H.half audit.new t) }
    ensures cause { IfErr result (λ fault. (cause : AnyCause) (s : Said) → fault ≡ faults.Cause cause → Keeps H.half audit.old s
        → with_items s (items_view list.now) ≡ Err cause) }
{
    for element in list {
        add_item::<H>(audit, alloc, element)?;
    }
    Ok(())
}

// The item of an element is taken.
fn add_item<H: NodeHash>(
    audit: &mut Audit,
    alloc: Global,
    element: &Value<'_>,
) -> Result<(), LineFault>
    ensures ok { OnOk result ((s : Said) → Keeps H.half audit.old s
        → (t : Said) × (with_state s (item_in (view element.now)) ≡ Ok t) × Keeps H.half audit.new t) }
    ensures cause { IfErr result (λ fault. (cause : AnyCause) (s : Said) → fault ≡ faults.Cause cause → Keeps H.half audit.old s
        → with_state s (item_in (view element.now)) ≡ Err cause) }
{
    let (key, bytes) = item_of(alloc, element)?;
    fault_of(audit.add_state::<H>(&key, &bytes))
}

// The document names this number.
fn named(alloc: Global, object: &Value<'_>, seq: u32) -> Result<(), LineFault>
    ensures ok { OnOk result ((p : Paged) → numbered p (number_in seq (view object.now)) ≡ Ok p) }
    ensures cause { IfErr result (λ fault. (cause : AnyCause) (p : Paged) → fault ≡ faults.Cause cause
        → numbered p (number_in seq (view object.now)) ≡ Err cause) }
{
    match has_number(alloc, object, seq) {
        Ok(Some(true)) => Ok(()),
        Ok(Some(false)) => Err(LineFault::Cause(Cause::OtherLedger)),
        Ok(None) => Err(LineFault::Cause(Cause::Index)),
        Err(_) => Err(LineFault::Memory),
    }
}

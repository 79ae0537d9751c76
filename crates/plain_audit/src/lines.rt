//! What single lines say: the header's, an item of the state, an item of the transactions.
ghost use Rattle.std.specs.Prelude.{◌≡◌, Ok, Err, Some, IfOk, IfErr, OnOk};
ghost use Rattle.ledger_spec.specs.Bytes.{Half};
ghost use Rattle.audit_core.specs.declared.cause.Cause.{Cause as AnyCause};
ghost use Rattle.audit_core.specs.declared.cause.LineFault.TheVariants as faults;
ghost use Rattle.audit_core.specs.Said.{Said};
ghost use Rattle.audit_core.specs.Keeping.{Keeps};
ghost use Rattle.plain_audit.specs.Lines.{first_of, after_line, item_of as item_said};

use audit_core::{Audit, Cause, LineFault, bytes_of, checked, fault_of, key_of};
use half_hash::{Hash32, NodeHash};
use std::alloc::Global;

/// The header's line is taken.
#[tactic(auto, unfolding(crate::specs::Lines::first_of))]
pub(crate) fn first(alloc: Global, line: &[u8]) -> Result<Audit, LineFault>
    ensures ok { IfOk result (λ audit. (s : Said) × (first_of line.now ≡ Ok s) × ((half : Half) → Keeps half audit s)) }
    ensures cause { IfErr result (λ fault. (cause : AnyCause) → fault ≡ faults.Cause cause → first_of line.now ≡ Err cause) }
{
    if !line.starts_with(b"header ") {
        return Err(LineFault::Cause(Cause::NoHeader));
    }
    let (_word, text) = line.split_at(7);
    match bytes_of(alloc, text)? {
        Some(bytes) => Audit::of_header(alloc, &bytes),
        None => Err(LineFault::Cause(Cause::Header)),
    }
}

/// A line behind the header's is taken.
pub(crate) fn add<H: NodeHash>(
    audit: &mut Audit,
    alloc: Global,
    line: &[u8],
) -> Result<(), LineFault>
    ensures ok { OnOk result ((s : Said) → Keeps H.half audit.old s
        → (after : Said) × (after_line (Some s) line.now ≡ Ok after) × Keeps H.half audit.new after) }
    ensures cause { IfErr result (λ fault. (cause : AnyCause) (s : Said) → fault ≡ faults.Cause cause → Keeps H.half audit.old s
        → after_line (Some s) line.now ≡ Err cause) }
{
    if line.starts_with(b"tx ") {
        let (_word, text) = line.split_at(3);
        let (key, bytes) = item_of(alloc, text)?;
        fault_of(audit.add_tx::<H>(&key, &bytes))
    } else {
        let (key, bytes) = item_of(alloc, line)?;
        fault_of(audit.add_state::<H>(&key, &bytes))
    }
}

/// The item that a line says.
#[tactic(auto, unfolding(crate::specs::Lines::item_of))]
fn item_of(alloc: Global, line: &[u8]) -> Result<(Hash32, Vec<u8>), LineFault>
    ensures ok { IfOk result (λ item. item_said line.now ≡ Ok (item.0, item.1.items)) }
    ensures cause { IfErr result (λ fault. (cause : AnyCause) → fault ≡ faults.Cause cause → item_said line.now ≡ Err cause) }
{
    if line.len() <= 64 || line[64] != b' ' {
        return Err(LineFault::Cause(Cause::Form));
    }
    let (key_text, rest) = line.split_at(64);
    let (_space, data_text) = rest.split_at(1);
    let key = key_of(key_text);
    let bytes = bytes_of(alloc, data_text)?;
    match checked(key, bytes) {
        Ok(item) => Ok(item),
        Err(cause) => Err(LineFault::Cause(cause)),
    }
}

//! The nodes of lines: each is read of its hexadecimal form and added to those above it.
ghost use Rattle.std.specs.Prelude.{◌≡◌, ◌++◌, ◌∷◌, [], Ok, Err, Option, Some, IfOk, IfErr, OnOk};
ghost use Rattle.std.specs.Option.{option_map};
ghost use Rattle.ledger_spec.specs.Forms.{Held};
ghost use Rattle.shamap_node.specs.Nodes.{held};
ghost use Rattle.path_proof.specs.Paths.{held_nodes};
ghost use Rattle.audit_core.specs.declared.cause.Cause.{Cause as AnyCause};
ghost use Rattle.audit_core.specs.declared.cause.LineFault.TheVariants as faults;
ghost use Rattle.audit_core.specs.Said.{digits_of};
ghost use Rattle.path_audit.specs.Paths.{node_of, with_node};

use audit_core::{Cause, LineFault, bytes_of};
use half_hash::NodeHash;
use shamap_node::{FormFault, Node, decode_form};
use std::alloc::Global;
use std::sync::Arc;

/// The most nodes of a path: those of depths 0 to 64.
const MOST_NODES: usize = 65;

/// The nodes so far, and the node of a line more.
pub(crate) fn push_node<H: NodeHash>(
    alloc: Global,
    nodes: &mut Vec<Arc<Node>>,
    line: &[u8],
) -> Result<(), LineFault>
    ensures ok { OnOk result (with_node H.half (held_nodes nodes.old.items) line.now ≡ Ok (held_nodes nodes.new.items)) }
    ensures cause { IfErr result (λ fault. (cause : AnyCause) → fault ≡ faults.Cause cause
        → with_node H.half (held_nodes nodes.old.items) line.now ≡ Err cause) }
{
    if nodes.len() >= MOST_NODES {
        return Err(LineFault::Cause(Cause::Extra));
    }
    let node = node_in::<H>(alloc, line)?;
    let Ok(shared) = Arc::new(alloc, node) else {
        return Err(LineFault::Memory);
    };
    match nodes.push(shared) {
        Ok(()) => Ok(()),
        Err(_) => Err(LineFault::Memory),
    }
}

// The node of a line.
fn node_in<H: NodeHash>(alloc: Global, line: &[u8]) -> Result<Node, LineFault>
    ensures ok { IfOk result (λ node. node_of H.half (digits_of line.now) ≡ Ok (held node)) }
    ensures cause { IfErr result (λ fault. (cause : AnyCause) → fault ≡ faults.Cause cause
        → node_of H.half (digits_of line.now) ≡ Err cause) }
{
    let Some(form) = bytes_of(alloc, line)? else {
        return Err(LineFault::Cause(Cause::Data));
    };
    match decode_form::<H>(alloc, &form) {
        Ok(node) => Ok(node),
        Err(FormFault::Memory) => Err(LineFault::Memory),
        Err(_) => Err(LineFault::Cause(Cause::Form)),
    }
}

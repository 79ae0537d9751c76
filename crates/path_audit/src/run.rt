//! The call of this crate, `audit_path`: the nodes that a source gives, a line each, and at its end what they say of the key.
ghost use Rattle.std.specs.Prelude.{◌≡◌, ◌≤◌, ◌∷◌, [], ℕ, List, Ok, Err, Option, Some, length, IfOk, IfErr, IfSome};
ghost use Rattle.run_io.specs.Bytes.{Rose};
ghost use Rattle.ledger_spec.specs.Forms.{Held};
ghost use Rattle.shamap_node.specs.Nodes.{held};
ghost use Rattle.path_proof.specs.Paths.{held_nodes, last_data};
ghost use Rattle.ledger_spec.specs.declared.Kind.TheVariants as kinds;
ghost use Rattle.ledger_spec.specs.Reads as reads;
ghost use Rattle.audit_core.specs.declared.cause.Cause.{Cause as AnyCause};
ghost use Rattle.audit_core.specs.declared.cause.LineFault.TheVariants as faults;
ghost use Rattle.audit_core.specs.Runs.{Both, Ends};
ghost use Rattle.path_audit.specs.Paths.{path_most, after_node, nodes_in, Comes, PathSays, IsPathAnswer};
ghost use Rattle.path_audit.specs.Keeping.{KeepsNodes};

use crate::PathAnswer;
use crate::nodes::push_node;
use audit_core::{Cause, LineFault};
use half_hash::{Blob, Hash32, Memory, NodeHash};
use line_feed::{Fed, Feed};
use path_proof::{Outcome, follow};
use run_io::{AllFault, Source};
use shamap_node::{Kind, Node};
use std::alloc::Global;
use std::sync::Arc;

/// The most bytes of a line: those of the longest leaf's form, two digits a byte.
const PATH_MOST: usize = 2_097_224;

/// What the nodes that a source gives, from the root down, say of a key.
pub fn audit_path<H: NodeHash, S: Source>(
    alloc: Global,
    source: &mut S,
    root: &Hash32,
    key: &Hash32,
) -> Result<PathAnswer, AllFault>
    ensures answer { IfOk result (λ answer. IfSome (S.left source.old) (λ bytes. IsPathAnswer H.half root.now key.now bytes answer)) }
    ensures later { S.faults source.old ≤ S.faults source.new }
    ensures cause { IfErr result (λ e. e ≡ AllFault.Fault → Rose (S.faults source.old) (S.faults source.new)) }
{
    let Ok(mut feed) = Feed::new(alloc) else {
        return Err(AllFault::Memory);
    };
    let mut line = Vec::new(alloc);
    let mut nodes = None;
    for n in 1..u64::MAX {
        match feed.next_line(source, PATH_MOST, &mut line)? {
            Fed::Line => {}
            Fed::End => return ended::<H>(alloc, nodes, n, &line, root, key),
            Fed::TooLong => return Ok(refused(n, Cause::TooLong)),
        }
        match after_line::<H>(alloc, nodes, &line) {
            Ok(after) => nodes = Some(after),
            Err(LineFault::Cause(cause)) => return Ok(refused(n, cause)),
            Err(LineFault::Memory) => return Err(AllFault::Memory),
        }
    }
    // So many lines are more than any input has.
    Err(AllFault::Memory)
}

// The refusal of a line.
fn refused(line: u64, cause: Cause) -> PathAnswer
    ensures { result ≡ PathAnswer.Refused line cause }
{
    PathAnswer::Refused { line, cause }
}

// The nodes after one line more.
fn after_line<H: NodeHash>(
    alloc: Global,
    nodes: Option<Vec<Arc<Node>>>,
    line: &[u8],
) -> Result<Vec<Arc<Node>>, LineFault>
    ensures ok { IfOk result (λ after. (used : Option (List Held)) → Both KeepsNodes nodes used
        → (more : List Held) × (after_node H.half used line.now ≡ Ok more) × KeepsNodes after more) }
    ensures cause { IfErr result (λ fault. (cause : AnyCause) (used : Option (List Held)) → fault ≡ faults.Cause cause
        → Both KeepsNodes nodes used → after_node H.half used line.now ≡ Err cause) }
{
    let mut nodes = nodes_or_none(alloc, nodes);
    push_node::<H>(alloc, &mut nodes, line)?;
    Ok(nodes)
}

// The nodes, where there are any.
fn nodes_or_none(alloc: Global, nodes: Option<Vec<Arc<Node>>>) -> Vec<Arc<Node>>
    ensures { (used : Option (List Held)) → Both KeepsNodes nodes used → held_nodes result.items ≡ nodes_in used }
{
    match nodes {
        Some(nodes) => nodes,
        None => Vec::new(alloc),
    }
}

// The answer where no line is left, behind which these bytes stand.
fn ended<H: NodeHash>(
    alloc: Global,
    nodes: Option<Vec<Arc<Node>>>,
    n: u64,
    rest: &[u8],
    root: &Hash32,
    key: &Hash32,
) -> Result<PathAnswer, AllFault>
    ensures ends { IfOk result (λ answer. length rest.now ≤ 2097224 → (used : Option (List Held)) → Both KeepsNodes nodes used
        → Ends PathAnswer.Refused path_most (after_node H.half) (Comes H.half root.now key.now) n used rest.now answer) }
    ensures memory { IfErr result (λ e. e ≡ AllFault.Memory) }
{
    if !rest.is_empty() {
        return Ok(refused(n, Cause::Unended));
    }
    let nodes = nodes_or_none(alloc, nodes);
    match said::<H>(alloc, &nodes, root, key) {
        Ok(answer) => Ok(answer),
        Err(Memory) => Err(AllFault::Memory),
    }
}

// What the nodes say of the key.
fn said<H: NodeHash>(
    alloc: Global,
    nodes: &[Arc<Node>],
    root: &Hash32,
    key: &Hash32,
) -> Result<PathAnswer, Memory>
    ensures { IfOk result (λ answer. PathSays (reads.follow H.half kinds.State root.now key.now (held_nodes nodes.now)) answer) }
{
    match follow::<H>(root, Kind::State, key, nodes) {
        None => Ok(PathAnswer::NoPath),
        Some(Outcome::Nothing) => Ok(PathAnswer::Nothing),
        Some(Outcome::Value) => Ok(PathAnswer::Value(data_of(alloc, nodes)?)),
    }
}

// The data of the last node, where it is a leaf.
fn data_of(alloc: Global, nodes: &[Arc<Node>]) -> Result<Blob, Memory>
    ensures { IfOk result (λ bytes. bytes ≡ last_data (held_nodes nodes.now)) }
{
    match nodes.last() {
        Some(node) => data_in(alloc, node),
        None => Blob::from_slice(alloc, &[]),
    }
}

// The data of a leaf; none of an inner node.
fn data_in(alloc: Global, node: &Node) -> Result<Blob, Memory>
    ensures { IfOk result (λ bytes. bytes ≡ last_data (held node.now ∷ [])) }
{
    match node {
        Node::Leaf(leaf) => Blob::from_slice(alloc, leaf.item.data()),
        Node::Inner(_) => Blob::from_slice(alloc, &[]),
    }
}

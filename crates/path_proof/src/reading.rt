//! Reads of a key in the map below a root, over a source that gives nodes by their hashes.
ghost use Rattle.std.specs.Prelude.{◌≡◌, ◌≢◌, IfErr, IfOk, IsTrue, Some};
ghost use Rattle.std.specs.FinMap as map;
ghost use Rattle.ledger_spec.specs.Reads as spec;
ghost use Rattle.ledger_spec.specs.Reads.{AreNodes, AnswersOrShows};
ghost use Rattle.shamap_node.specs.Nodes.{held, hashes_above};
ghost use Rattle.path_proof.specs.Paths.{held_nodes, outcome_by};
ghost use Rattle.path_proof.specs.Sources.{AreHeld, Holds, LeavesSource, RoseIf};
ghost use Rattle.path_proof.specs.Ways.{Ends, Fits, HasCause};

use crate::answer::{Answer, ReadFault};
use crate::following::known_key;
use crate::way::{Progress, Reading, judged};
use crate::{NodeSource, Outcome};
use half_hash::{Hash32, NodeHash, known_half};
use nib_path::NodeId;
use shamap_node::{Inner, Kind, Node};
use std::alloc::Global;
use std::sync::Arc;

/// What is at the key in the map below the root: nothing or the data of the key's leaf, with the path
/// that says so. The first place on the way that can't be passed is the answer else: nothing is held
/// for it, or what is held breaks a rule there.
pub fn read<H: NodeHash, S: NodeSource<H>>(
    alloc: Global,
    source: &mut S,
    root: &Hash32,
    kind: Kind,
    key: &Hash32,
) -> Result<Answer, ReadFault>
    ensures path { IfOk result (λ a.
        spec.follow H.half kind root.now key.now (held_nodes a.used.items) ≡ Some (outcome_by (held_nodes a.used.items) a.outcome)) }

    // what is used is held, where the source tells what it holds
    ensures held { IfOk result (λ a. AreHeld H.half S.tells (map.get (S.stored source.old)) (held_nodes a.used.items)) }

    // the answer is that of each map of states or transactions with this root, or the nodes show two with one hash
    ensures law { IfOk result (λ a. kind ≢ Kind.Set →
        AnswersOrShows H.half kind root.now key.now (held_nodes a.used.items) (outcome_by (held_nodes a.used.items) a.outcome)) }

    // so it is for maps of sets, where each leaf that was read has its hash as its key
    ensures sets { IfOk result (λ a. AreNodes H.half kind (held_nodes a.used.items) →
        AnswersOrShows H.half kind root.now key.now (held_nodes a.used.items) (outcome_by (held_nodes a.used.items) a.outcome)) }
    ensures cause { IfErr result (HasCause H.half kind root.now key.now S.tells (map.get (S.stored source.old))) }
    ensures source { LeavesSource S.tells S.stored S.rest S.faults (RoseIf ReadFault.Fault) source.old source.new result }
{
    known_key(key);
    known_half::<H>();
    read_path::<H, S>(alloc, source, root, kind, key)
}

// The same as `read`.
fn read_path<H: NodeHash, S: NodeSource<H>>(
    alloc: Global,
    source: &mut S,
    root: &Hash32,
    kind: Kind,
    key: &Hash32,
) -> Result<Answer, ReadFault>
    ensures path { IfOk result (λ a.
        spec.follow H.half kind root.now key.now (held_nodes a.used.items) ≡ Some (outcome_by (held_nodes a.used.items) a.outcome)) }
    ensures held { IfOk result (λ a. AreHeld H.half S.tells (map.get (S.stored source.old)) (held_nodes a.used.items)) }
    ensures cause { IfErr result (HasCause H.half kind root.now key.now S.tells (map.get (S.stored source.old))) }
    ensures source { LeavesSource S.tells S.stored S.rest S.faults (RoseIf ReadFault.Fault) source.old source.new result }
{
    if root.is_zero() {
        return Ok(Answer {
            outcome: Outcome::Nothing,
            used: Vec::new(alloc),
        });
    }
    let mut reading = Reading::at_root(alloc, root);
    loop {
        let fetched = source.fetch(alloc, reading.wanted());
        match reading.go_on::<H>(fetched, kind, key)? {
            Progress::More(next) => reading = next,
            Progress::Done(answer) => return Ok(answer),
        }
    }
}

/// The node that the source gives for a place of a map: the one with this hash, below this inner node
/// (none at the root), if it may stand there.
pub fn node_at<H: NodeHash, S: NodeSource<H>>(
    alloc: Global,
    source: &mut S,
    kind: Kind,
    parent: Option<&Inner>,
    id: &NodeId,
    wanted: &Hash32,
) -> Result<Arc<Node>, ReadFault>
    ensures fits { IfOk result (λ a. Fits H.half kind (hashes_above parent.entry) id.now wanted.now (held a.value)) }
    ensures held { IfOk result (λ a. IsTrue S.tells → Holds H.half (map.get (S.stored source.old) wanted.now) (held a.value)) }
    ensures ends { IfErr result (Ends H.half kind S.tells (map.get (S.stored source.old)) (hashes_above parent.entry) id.now wanted.now) }
    ensures source { LeavesSource S.tells S.stored S.rest S.faults (RoseIf ReadFault.Fault) source.old source.new result }
{
    let fetched = source.fetch(alloc, wanted);
    judged::<H>(fetched, kind, parent, id, wanted)
}

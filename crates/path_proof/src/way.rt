//! A read on its way. It asks no source itself: it says which hash it wants, and goes on by what was given for it.
ghost use Rattle.std.specs.Prelude.{◌≡◌, ◌<◌, false, Err, None, IfErr, IfOk, ℕ, Bool, List, Option, take};
ghost use Rattle.nib_path.specs.Paths.{nibbles};
ghost use Rattle.ledger_spec.specs.Bytes.{Lookup, is_zero};
ghost use Rattle.ledger_spec.specs.declared.Kind.{Kind};
ghost use Rattle.ledger_spec.specs.Reads.{inner_hashes};
ghost use Rattle.ledger_spec.specs.Rules.{fault_of};
ghost use Rattle.shamap_node.specs.Nodes.{held, hashes_above};
ghost use Rattle.path_proof.specs.Paths.{held_nodes, last_branches, IsAbove};
ghost use Rattle.path_proof.specs.Sources.{Gives, Holds, HasHash};
ghost use Rattle.path_proof.specs.Ways.{Ends, Fits};
ghost use Rattle.path_proof.specs.Progressing.{Comes, IsFetched, IsOnWay, wanted_by, StaysBelow};

use crate::FetchFault;
use crate::answer::{Answer, ReadFault};
use crate::waypoints::Waypoint;
use half_hash::{Hash32, NodeHash};
use nib_path::NodeId;
use shamap_node::{Inner, Kind, Node, ShapeFault, shape};
use std::alloc::Global;
use std::sync::Arc;

/// A read on its way: the place to which it came, and the nodes that lead there, root first.
#[derive(Drop)]
pub struct Reading {
    pub(crate) place: Waypoint,
    pub(crate) used: Vec<Arc<Node>>,
}

/// What a read comes to with one node more.
#[derive(Drop)]
pub enum Progress {
    /// It goes on below that node.
    More(Reading),
    /// It ends with it.
    Done(Answer),
}

impl Reading {
    /// A read that is at a root, whose hash isn't zero.
    pub fn at_root(alloc: Global, root: &Hash32) -> Reading
        ensures { (half : List ℕ → List ℕ) (kind : Kind) (key : List ℕ) (tells : Bool) (nodes : Lookup) → is_zero root.now ≡ false
            → IsOnWay half kind root.now key tells nodes result }
    {
        Reading {
            place: Waypoint::root(root),
            used: Vec::new(alloc),
        }
    }

    /// The hash of the node that it wants.
    pub fn wanted(&self) -> &Hash32
        ensures { result.now ≡ wanted_by self.now }
    {
        &self.place.wanted
    }

    /// Goes on by what a source gave for the hash that was wanted.
    pub fn go_on<H: NodeHash>(
        self,
        fetched: Result<Option<Arc<Node>>, FetchFault>,
        kind: Kind,
        key: &Hash32,
    ) -> Result<Progress, ReadFault>
        ensures comes { (root : List ℕ) (tells : Bool) (nodes : Lookup) → is_zero root ≡ false
            → IsOnWay H.half kind root key.now tells nodes self → IsFetched H.half tells nodes (wanted_by self) fetched
            → Comes H.half kind root key.now tells nodes result }
        ensures below { IfOk result (StaysBelow self) }
        ensures fault { IfErr result (λ why. why ≡ ReadFault.Fault → fetched ≡ Err FetchFault.Fault) }
    {
        let Reading { place, mut used } = self;
        let node = node_for::<H>(&place, last_inner(&used), fetched, kind, key)?;
        let next = place.after(&node, key);
        used.push(node)?;
        match next {
            Ok(place) => Ok(Progress::More(Reading { place, used })),
            Err(outcome) => Ok(Progress::Done(Answer { outcome, used })),
        }
    }
}

// The last node of a path, where it is an inner one: the path goes on below it.
fn last_inner(used: &[Arc<Node>]) -> Option<&Inner>
    ensures { hashes_above result ≡ last_branches (held_nodes used.now) }
{
    match used.last() {
        Some(node) => inner_in(node),
        None => None,
    }
}

// A node, where it is an inner one.
fn inner_in(node: &Node) -> Option<&Inner>
    ensures { hashes_above result ≡ inner_hashes (held node.now) }
{
    match node {
        Node::Inner(inner) => Some(inner),
        Node::Leaf(_) => None,
    }
}

// The node that was given for a place on the way, if it may stand there, below this inner node (none at the root).
fn node_for<H: NodeHash>(
    place: &Waypoint,
    parent: Option<&Inner>,
    fetched: Result<Option<Arc<Node>>, FetchFault>,
    kind: Kind,
    key: &Hash32,
) -> Result<Arc<Node>, ReadFault>
    ensures fits { HasHash H.half place.now.wanted fetched → IfOk result (λ a.
        Fits H.half kind (hashes_above parent.entry) (take place.now.depth (nibbles key.now)) place.now.wanted (held a.value)) }
    ensures above { IfOk result (λ a. IsAbove (held a.value) place.now.depth) }
    ensures held { (there : Option (List ℕ)) → Gives H.half there fetched → IfOk result (λ a. Holds H.half there (held a.value)) }
    ensures ends { (tells : Bool) (nodes : Lookup) → IsFetched H.half tells nodes place.now.wanted fetched
        → IfErr result (Ends H.half kind tells nodes (hashes_above parent.entry) (take place.now.depth (nibbles key.now))
        place.now.wanted) }
    ensures fault { IfErr result (λ why. why ≡ ReadFault.Fault → fetched ≡ Err FetchFault.Fault) }
{
    key.known();
    let id = NodeId::of_key(&key.bytes, place.depth);
    judged::<H>(fetched, kind, parent, &id, &place.wanted)
}

/// The node that was given for a place of a map, below this inner node (none at the root), if it may stand there.
pub(crate) fn judged<H: NodeHash>(
    fetched: Result<Option<Arc<Node>>, FetchFault>,
    kind: Kind,
    parent: Option<&Inner>,
    id: &NodeId,
    wanted: &Hash32,
) -> Result<Arc<Node>, ReadFault>
    ensures rules { IfOk result (λ a. fault_of (held a.value) (hashes_above parent.entry) kind id.now ≡ None) }
    ensures fits { HasHash H.half wanted.now fetched
        → IfOk result (λ a. Fits H.half kind (hashes_above parent.entry) id.now wanted.now (held a.value)) }
    ensures held { (there : Option (List ℕ)) → Gives H.half there fetched → IfOk result (λ a. Holds H.half there (held a.value)) }
    ensures ends { (tells : Bool) (nodes : Lookup) → IsFetched H.half tells nodes wanted.now fetched
        → IfErr result (Ends H.half kind tells nodes (hashes_above parent.entry) id.now wanted.now) }
    ensures fault { IfErr result (λ why. why ≡ ReadFault.Fault → fetched ≡ Err FetchFault.Fault) }
{
    match fetched {
        Ok(Some(node)) => match shape(&node, parent, kind, id) {
            Ok(()) => Ok(node),
            Err(rule) => Err(ReadFault::Shape { place: *id, rule }),
        },
        Ok(None) => Err(ReadFault::Absent(*wanted)),
        Err(FetchFault::Foreign) => Err(ReadFault::Shape {
            place: *id,
            rule: ShapeFault::Foreign,
        }),
        Err(FetchFault::Fault) => Err(ReadFault::Fault),
        Err(FetchFault::Memory) => Err(ReadFault::Memory),
    }
}

//! What a reader keeps for itself: the inner nodes at a map's upper places. Each read passes them, so readers that looked for them in the
//! cache of all would wait for the same few locks, and count the owners of the same few nodes, at each of their reads.
ghost use Rattle.std.specs.Prelude.{◌≡◌, IfSome};
ghost use Rattle.ledger_spec.specs.Forms.{hash_of};
ghost use Rattle.shamap_node.specs.Nodes.{held};

use half_hash::{Hash32, NodeHash};
use nib_path::nibble;
use shamap_node::{Inner, Node};
use std::alloc::Global;
use std::marker::PhantomData;
use std::sync::Arc;

/// At how many places a node is kept: those of four levels, of 1, 16, 256 and 4,096.
const PLACES: usize = 4369;

/// At how many of them, the first ones, that node is a copy: those of three levels, which all readers pass again and again. Of the others
/// each has so many that readers seldom meet at one.
const COPIED: usize = 273;

/// How many levels a key has.
const LEVELS: u8 = 64;

/// A node with its hash.
#[derive(Drop)]
struct Kept<H: NodeHash> {
    hash: Hash32,
    node: Arc<Node>,
    of: PhantomData<H>,
    ghost own: { hash_of H.half (held node.value) ≡ hash },
}

/// One node for each place, the last that stood there, round which no lock is.
#[derive(Drop)]
pub(crate) struct Near<H: NodeHash> {
    is_alone: bool,
    kept: Vec<Option<Kept<H>>>,
}

impl<H: NodeHash> Near<H> {
    /// Without nodes, for a reader beside others.
    pub(crate) fn new(alloc: Global) -> Near<H> {
        Near {
            is_alone: false,
            kept: Vec::new(alloc),
        }
    }

    /// For a reader that is alone: it finds in the cache of all readers what it would keep here, and keeps nothing.
    pub(crate) fn alone(alloc: Global) -> Near<H> {
        Near {
            is_alone: true,
            kept: Vec::new(alloc),
        }
    }

    /// Whether its reader is alone.
    pub(crate) fn is_alone(&self) -> bool {
        self.is_alone
    }

    /// The node that is kept at a place, if it has this hash; want of memory is passed over.
    pub(crate) fn find(&self, place: usize, h: &Hash32) -> Option<Arc<Node>>
        ensures { IfSome result (λ a. hash_of H.half (held a.value) ≡ h.now) }
    {
        self.kept.get(place)?.as_ref()?.node_of(h)
    }

    // Makes places, without nodes. Where memory is refused there are fewer.
    fn make_places(&mut self) {
        let _ = self.kept.reserve(PLACES);
        for _ in 0..PLACES {
            if self.kept.push(None).is_err() {
                break;
            }
        }
    }

    /// Keeps an inner node with this hash at a place; want of memory is passed over. Places are made as the first node is kept.
    pub(crate) fn keep(&mut self, alloc: Global, place: usize, h: &Hash32, node: &Arc<Node>)
        requires { hash_of H.half (held node.now.value) ≡ h.now }
    {
        if self.kept.is_empty() && !self.is_alone {
            self.make_places();
        }
        let Some(slot) = self.kept.get_mut(place) else {
            return;
        };
        if let Some(own) = own_of(alloc, place, node) {
            *slot = Some(Kept {
                hash: *h,
                node: own,
                of: PhantomData,
            });
        }
    }
}

impl<H: NodeHash> Kept<H> {
    // The node, where this is its hash; want of memory is passed over.
    fn node_of(&self, h: &Hash32) -> Option<Arc<Node>>
        ensures { IfSome result (λ a. hash_of H.half (held a.value) ≡ h.now) }
    {
        if !self.hash.equals(h) {
            return None;
        }
        Arc::try_clone(&self.node).ok()
    }
}

/// The number of the place below this one on the way to a key. The root's is 0, and those of the sixteen below number p are 16 p + 1 to
/// 16 p + 16. Below the last level nothing stands: there the place stays, and no node is looked for at it.
pub(crate) fn place_below(place: usize, depth: u8, key: &Hash32) -> usize {
    if depth >= LEVELS {
        return place;
    }
    let branch = nibble(&key.bytes, depth) as usize;
    place.saturating_mul(16).saturating_add(branch + 1)
}

// An inner node to keep: a copy at the upper places, and itself below them.
fn own_of(alloc: Global, place: usize, node: &Arc<Node>) -> Option<Arc<Node>>
    ensures { IfSome result (λ a. held a.value ≡ held node.now.value) }
{
    let inner = inner_in(node)?;
    if place < COPIED {
        Arc::new(alloc, Node::Inner(*inner)).ok()
    } else {
        Arc::try_clone(node).ok()
    }
}

// A node, where it is an inner one.
fn inner_in(node: &Node) -> Option<&Inner>
    ensures { IfSome result (λ inner. node.now ≡ Node.Inner inner.now) }
{
    match node {
        Node::Inner(inner) => Some(inner),
        Node::Leaf(_) => None,
    }
}

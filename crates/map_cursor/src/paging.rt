//! A page as it grows: the nodes that were visited, and which of their items come behind the key.
ghost use Rattle.std.specs.Prelude.{◌≡◌, [], OnOk};
ghost use Rattle.ledger_spec.specs.Pages.{is_behind};
ghost use Rattle.ledger_spec.specs.Reads.{inner_hashes};
ghost use Rattle.shamap_node.specs.Nodes.{held, held_leaf, hashes_above};
ghost use Rattle.map_cursor.specs.Shown.{shown, entry_of, HasFurther, Takes};

use half_hash::Hash32;
use shamap_node::{Inner, Leaf, Node};
use std::alloc::{AllocError, Global};
use std::sync::Arc;

/// Items of a map in the order of their keys, with the nodes that say so, each before those below it.
#[derive(Drop)]
pub struct Page {
    pub leaves: Vec<Arc<Node>>,
    pub used: Vec<Arc<Node>>,
}

impl Page {
    // Nothing yet.
    pub(crate) fn new(alloc: Global) -> Page
        ensures leaves { result.leaves.items ≡ [] }
        ensures used { result.used.items ≡ [] }
    {
        Page {
            leaves: Vec::new(alloc),
            used: Vec::new(alloc),
        }
    }

    // Adds a node, which is a further leaf of the page where its key is behind this one.
    pub(crate) fn take(&mut self, node: Arc<Node>, after: &Hash32) -> Result<(), AllocError>
        ensures taken { OnOk result (Takes after.now (held node.value) (shown self.old) (shown self.new)
            (inner_hashes (held node.value))) }
        ensures further { OnOk result (HasFurther after.now self.old → HasFurther after.now self.new) }
    {
        if let Node::Leaf(leaf) = &*node {
            if comes_behind(leaf, after) {
                self.leaves.push(Arc::try_clone(&node)?)?;
            }
        }
        self.used.push(node)?;
        Ok(())
    }

    // The same for a node that is still needed.
    pub(crate) fn take_shared(&mut self, node: &Arc<Node>, after: &Hash32) -> Result<(), AllocError>
        ensures taken { OnOk result (Takes after.now (held node.now.value) (shown self.old) (shown self.new)
            (inner_hashes (held node.now.value))) }
        ensures further { OnOk result (HasFurther after.now self.old → HasFurther after.now self.new) }
    {
        self.take(Arc::try_clone(node)?, after)
    }
}

// The inner node that it is, if it is one.
pub(crate) fn inner_in(node: &Arc<Node>) -> Option<&Inner>
    ensures { hashes_above result ≡ inner_hashes (held node.now.value) }
{
    match &**node {
        Node::Inner(inner) => Some(inner),
        Node::Leaf(_) => None,
    }
}

// Whether the leaf's key is greater.
fn comes_behind(leaf: &Leaf, after: &Hash32) -> bool
    ensures { result ≡ is_behind after.now (entry_of (held_leaf leaf.now)) }
{
    leaf.item.key().cmp(after).is_gt()
}

//! What a search keeps of places: those that it has yet to look at, and those that it has gone below.
ghost use Rattle.std.specs.Prelude.{◌≡◌};
ghost use Rattle.missing_walk.specs.Places.{place_at};

use full_below::MarkKey;
use ledger_spec::Place;
use shamap_node::Node;
use std::sync::Arc;

/// A place to look at, with its hash and the inner node above it, none at a root.
#[derive(Drop)]
pub struct Todo {
    pub(crate) at: MarkKey,
    pub(crate) parent: Option<Arc<Node>>,
}

impl Todo {
    /// The place.
    pub(crate) fn place(&self) -> Place
        ensures { result ≡ place_at self.now.at }
    {
        Place::Node {
            kind: self.at.kind,
            id: self.at.id,
        }
    }
}

/// An inner node whose places below stand in the stack from this height on.
#[derive(Drop)]
pub struct Open {
    pub(crate) at: MarkKey,
    pub(crate) height: usize,
    pub(crate) node: Arc<Node>,
}

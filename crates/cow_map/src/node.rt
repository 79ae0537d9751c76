//! The nodes that a map makes. Unlike a stored node an inner one has links, and no hash before it is sealed.
use crate::Links;
use shamap_node::Item;

/// A node that a map has made: a leaf with its item, or an inner node with its links.
#[derive(Drop)]
pub enum Cow {
    Leaf(Item),
    Inner(Links),
}

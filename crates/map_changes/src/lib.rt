//! Maps of items of which versions are kept: the nodes that a version has and the one before it hasn't, and its root.
#![tactic(auto)]

mod ahead;
mod hashing;
mod laws;
mod nodes;
mod tracked;
mod versions;
mod walk;

pub use laws::{
    a_maps_nodes_have_its_forms, shared_nodes_are_the_maps, the_nodes_of_links_stand_for_their_map,
};
pub use tracked::{PlacedNode, Root};
pub use versions::Versions;

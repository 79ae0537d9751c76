//! Finite maps of items that are edited by copying: a change appends the new nodes of its path, and
//! nodes are shared between a map and its snapshots.
#![tactic(auto)]

mod arena;
mod fault;
mod gathering;
mod get;
mod laws;
mod link;
mod look;
mod map;
mod node;
mod put;
mod remove;
mod seal;
mod sorted;
mod step;
mod table;

pub use fault::MapFault;
pub use laws::{
    a_map_stands_for_items, a_map_stays_over_what_it_reaches,
    a_map_without_a_source_stands_anywhere, nothing_is_in_the_way, the_forms_made_are_the_trees,
    the_top_is_the_root, what_is_left_is_whole,
};
pub use link::{Link, Links};
pub use map::CowMap;
pub use node::Cow;
pub use seal::{FormOf, Sealed};

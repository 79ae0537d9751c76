//! Reads of one key along a path of nodes, and the judgement of such a path.
#![tactic(auto)]

mod answer;
mod following;
mod forms;
mod laws;
mod reading;
mod source;
mod way;
mod waypoints;

pub use answer::{Answer, ReadFault};
pub use following::{follow, known_key};
pub use forms::node_of_form;
pub use laws::a_whole_map_is_read;
pub use reading::{node_at, read};
pub use source::{FetchFault, NoSource, NodeSource};
pub use way::{Progress, Reading};

/// What a path says of its key.
#[derive(Clone, Copy, Debug, PartialEq, Eq)]
pub enum Outcome {
    /// The map has nothing at the key.
    Nothing,
    /// The path ends at the key's leaf, whose data is the value.
    Value,
}

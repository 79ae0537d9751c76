//! Marks of subtrees that were found whole. A mark names an inner node by its hash and by the kind of map and the path at which it stands,
//! since a subtree that is whole at one place can break a rule of shape at another. All marks are of one generation, and a turn to the
//! next one takes them away. Where there would be more than the capacity, the one that was used last longest ago goes.
#![tactic(auto)]

mod key;
mod marks;

pub use key::MarkKey;
pub use marks::Marks;

#[cfg(test)]
mod tests;

//! The lines of an input, one after the other, in the memory of the longest of them.
#![tactic(auto)]

mod cutting;
mod feed;
#[cfg(test)]
mod tests;

pub use feed::{Fed, Feed};

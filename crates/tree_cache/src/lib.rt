//! Nodes of the store that were read before, each under its hash. All entries are of one generation, and a turn to the next one empties
//! the cache. Where there would be more than the capacity, the one that was used last longest ago goes.
#![tactic(auto)]

mod cache;

pub use cache::TreeCache;

#[cfg(test)]
mod tests;

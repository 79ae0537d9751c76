//! Nodes under their own hashes, for readers on many threads: eight shards, each under a lock of its own, so that two readers seldom wait
//! for each other. Of what lies under a lock nothing is known but its type, so a shard's type keeps that each entry stands under the hash
//! of its node. An entry is true of its node alone and says nothing of what a store holds, so it never grows stale.
#![tactic(auto)]

mod cache;
mod shard;
mod taking;

pub use cache::ReadCache;
pub use shard::Shard;
pub use taking::take_lock;

#[cfg(test)]
mod tests;

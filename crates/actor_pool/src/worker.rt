//! What a worker has at hand.

use crate::shared::{Pinned, Shared, Stride};
use half_hash::NodeHash;
use node_backend::Shelf;
use read_cache::ReadCache;
use std::alloc::Global;
use std::sync::Mutex;

/// An actor's worker: what all of them share, its actor, and how far it goes in one section.
#[derive(Drop)]
pub(crate) struct Worker<'a, R, H: NodeHash, Sh: Shelf, G, J: Pinned> {
    pub(crate) rt: &'a R,
    pub(crate) alloc: Global,
    pub(crate) shared: &'a Mutex<Shared<H, Sh, J>>,
    pub(crate) cache: &'a ReadCache<H>,
    pub(crate) gate: &'a G,
    pub(crate) actor: u8,
    pub(crate) stride: Stride,
}

impl<'a, R, H: NodeHash, Sh: Shelf, G, J: Pinned> Worker<'a, R, H, Sh, G, J> {
    /// The same for another actor.
    pub(crate) fn of(&self, actor: u8) -> Worker<'a, R, H, Sh, G, J> {
        Worker {
            rt: self.rt,
            alloc: self.alloc,
            shared: self.shared,
            cache: self.cache,
            gate: self.gate,
            actor,
            stride: self.stride,
        }
    }
}

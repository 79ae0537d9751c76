//! What a read of a key answers, with the path that says so, or why it has none.

use crate::Outcome;
use half_hash::Hash32;
use nib_path::NodeId;
use shamap_node::{Node, ShapeFault};
use std::alloc::AllocFailed;
use std::sync::Arc;

/// What was read at a key, with the path of nodes that says so, root first.
#[derive(Drop)]
pub struct Answer {
    pub outcome: Outcome,
    pub used: Vec<Arc<Node>>,
}

/// Why a read gives no answer.
#[derive(Clone, Copy, Debug)]
pub enum ReadFault {
    /// The source holds nothing under this hash, which is the first such on the way.
    Absent(Hash32),
    /// The source failed, and its count rose.
    Fault,
    /// What is held for this place, the first such on the way, breaks this rule there.
    Shape { place: NodeId, rule: ShapeFault },
    /// Memory was refused.
    Memory,
}

impl<T: Drop> From<AllocFailed<T>> for ReadFault {
    ghost use Rattle.std.specs.Prelude.{◌≡◌};
    ghost use Rattle.path_proof.specs.declared.answer.ReadFault.TheVariants as faults;

    ghost from_gives = { λ _ e. e ≡ faults.Memory };

    fn from(_: AllocFailed<T>) -> Self {
        ReadFault::Memory
    }
}

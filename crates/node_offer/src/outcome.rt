//! What became of a node that a peer sent, and the same with causes and rules by their numbers, as the definitions have it.
ghost use Rattle.std.specs.Prelude.{◌≡◌};
ghost use Rattle.node_offer.specs.Outcomes.{numbered};

use half_hash::Hash32;
use ledger_spec::{Offered as Numbered, ShapeFault};
use nib_path::NodeId;
use node_wire::{WireFault, wire_code};

/// What became of a node that a peer sent.
#[derive(Debug, Drop)]
pub enum Offered {
    /// It is stored.
    Good,
    /// It was stored before.
    Duplicate,
    /// The bytes are no wire form, for this cause.
    BadWire(WireFault),
    /// It has another hash than the wanted one.
    BadHash { wanted: Hash32, found: Hash32 },
    /// The ledger's header is not stored.
    NoBase,
    /// No node is stored at this place, which lies on the way.
    NoParent(NodeId),
    /// The map has nothing at this place, on the way or at its end.
    EmptyBranch(NodeId),
    /// What is stored at this place, which lies on the way, is no inner node.
    UnderLeaf(NodeId),
    /// It is stored, and breaks this rule at its place.
    Malformed(ShapeFault),
}

impl Offered {
    /// The same outcome, with the cause of bad bytes and a broken rule by their numbers.
    pub fn numbered(self) -> Numbered
        ensures { result ≡ numbered self }
    {
        match self {
            Offered::Good => Numbered::Good,
            Offered::Duplicate => Numbered::Duplicate,
            Offered::BadWire(fault) => Numbered::BadWire(wire_code(&fault)),
            Offered::BadHash { wanted, found } => Numbered::BadHash { wanted, found },
            Offered::NoBase => Numbered::NoBase,
            Offered::NoParent(id) => Numbered::NoParent(id),
            Offered::EmptyBranch(id) => Numbered::EmptyBranch(id),
            Offered::UnderLeaf(id) => Numbered::UnderLeaf(id),
            Offered::Malformed(fault) => Numbered::Malformed(fault.number()),
        }
    }
}

//! Why a map can't be read or changed.
use half_hash::{Blob, Hash32, Memory};
use ledger_spec::ShapeFault;
use nib_path::NodeId;
use std::alloc::AllocError;

/// Why a map can't be read or changed. It is then as it was.
#[derive(Debug, Drop)]
pub enum MapFault {
    /// The source doesn't hold the node of this hash, the first such on the way.
    Absent(Hash32),
    /// The source failed, and its count rose.
    Fault,
    /// The node at this place, the first such on the way, breaks a rule of shape.
    Shape { place: NodeId, rule: ShapeFault },
    /// A form that was made here has the zero hash.
    ZeroHash(Blob),
    /// Memory was refused.
    Memory,
}

impl From<Memory> for MapFault {
    ghost use Rattle.std.specs.Prelude.{◌≡◌};
    ghost use Rattle.cow_map.specs.declared.fault.MapFault.TheVariants as causes;

    ghost from_gives = { λ _ fault. fault ≡ causes.Memory };

    fn from(_: Memory) -> MapFault {
        MapFault::Memory
    }
}

impl From<AllocError> for MapFault {
    ghost use Rattle.std.specs.Prelude.{◌≡◌};
    ghost use Rattle.cow_map.specs.declared.fault.MapFault.TheVariants as causes;

    ghost from_gives = { λ _ fault. fault ≡ causes.Memory };

    fn from(_: AllocError) -> MapFault {
        MapFault::Memory
    }
}

//! Why a search has no answer.
ghost use Rattle.std.specs.Prelude.{◌≡◌};
ghost use Rattle.missing_walk.specs.declared.fault.SearchFault.TheVariants as faults;
ghost use Rattle.missing_walk.specs.Faults.{search_fault};

use half_hash::Memory;
use node_backend::BackFault;

/// Why a search has no answer.
#[derive(Clone, Copy, Debug, PartialEq, Eq)]
pub enum SearchFault {
    /// A device failed, and the store's count rose.
    Fault,
    /// Memory was refused.
    Memory,
}

impl From<BackFault> for SearchFault {
    ghost from_gives = { λ b e. e ≡ search_fault b };

    fn from(fault: BackFault) -> SearchFault {
        match fault {
            BackFault::Fault => SearchFault::Fault,
            BackFault::Memory => SearchFault::Memory,
        }
    }
}

impl From<Memory> for SearchFault {
    ghost from_gives = { λ _ e. e ≡ faults.Memory };

    fn from(_: Memory) -> SearchFault {
        SearchFault::Memory
    }
}

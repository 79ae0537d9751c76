//! Why an offer was not judged.
ghost use Rattle.std.specs.Prelude.{◌≡◌};
ghost use Rattle.node_offer.specs.declared.fault.OfferFault.TheVariants as faults;
ghost use Rattle.node_offer.specs.Faults.{offer_fault};

use half_hash::{Blob, Hash32, Memory};
use node_backend::BackFault;

/// Why an offer was not judged.
#[derive(Debug, Drop)]
pub enum OfferFault {
    /// A device failed, and the store's count rose.
    Fault,
    /// Another form is stored under the hash.
    Clash {
        hash: Hash32,
        /// The form that is stored.
        old: Blob,
        /// The form that was offered.
        new: Blob,
    },
    /// Memory was refused.
    Memory,
}

impl From<BackFault> for OfferFault {
    ghost from_gives = { λ b e. e ≡ offer_fault b };

    fn from(fault: BackFault) -> OfferFault {
        match fault {
            BackFault::Fault => OfferFault::Fault,
            BackFault::Memory => OfferFault::Memory,
        }
    }
}

impl From<Memory> for OfferFault {
    ghost from_gives = { λ _ e. e ≡ faults.Memory };

    fn from(_: Memory) -> OfferFault {
        OfferFault::Memory
    }
}

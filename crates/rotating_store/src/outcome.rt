//! What a put came to, and why a store could not do as asked.
ghost use Rattle.std.specs.Prelude.{◌≡◌};

use half_hash::{Blob, Hash32, Memory};
use node_backend::BackFault;

/// What a put came to.
#[derive(Clone, Copy, Debug, PartialEq, Eq)]
pub enum Put {
    /// The pair was stored.
    New,
    /// It was stored before.
    Same,
}

/// Why a store could not do as asked.
#[derive(Debug, Drop)]
pub enum StoreFault {
    /// A device failed.
    Fault,
    /// Another form has this hash.
    Clash { hash: Hash32, old: Blob, new: Blob },
    /// The form has another hash.
    WrongHash { hash: Hash32, found: Hash32 },
    /// Memory was refused.
    Memory,
}

impl StoreFault {
    ghost use Rattle.rotating_store.specs.Puts.{IsPlain, store_fault};

    /// The fault of a backend for which it stands, where it is neither a clash nor a wrong hash.
    pub fn plain(self) -> BackFault
        requires { IsPlain self }
        ensures { store_fault result ≡ self }
    {
        match self {
            StoreFault::Fault => BackFault::Fault,
            StoreFault::Memory => BackFault::Memory,
            StoreFault::Clash { .. } | StoreFault::WrongHash { .. } => unreachable!(),
        }
    }
}

impl From<BackFault> for StoreFault {
    ghost use Rattle.rotating_store.specs.Puts.{store_fault};

    ghost from_gives = { λ b e. e ≡ store_fault b };

    fn from(fault: BackFault) -> StoreFault {
        match fault {
            BackFault::Fault => StoreFault::Fault,
            BackFault::Memory => StoreFault::Memory,
        }
    }
}

impl From<Memory> for StoreFault {
    ghost use Rattle.rotating_store.specs.declared.outcome.StoreFault.TheVariants as fault;

    ghost from_gives = { λ _ e. e ≡ fault.Memory };

    fn from(_: Memory) -> StoreFault {
        StoreFault::Memory
    }
}

//! The replies, and the causes, that faults of the store, of an offer, a search, a session or a rotation come to.
ghost use Rattle.std.specs.Prelude.{◌≡◌, IfErr};
ghost use Rattle.cow_map.specs.Sealing.{IsSealFault};
ghost use Rattle.open_sessions.specs.Changed.{unedited as no_edit};
ghost use Rattle.rotating_store.specs.Puts.{IsPlain};
ghost use Rattle.core_machine.specs.Closing.{IsUnderOwn, kept_by, unkept_by, unsealed_by};
ghost use Rattle.core_machine.specs.Refusals.{read_refusal, refusal_of, search_refusal};
ghost use Rattle.core_machine.specs.Telling as turns;

use cow_map::MapFault;
use ledger_machine::Reply;
use missing_walk::SearchFault;
use node_backend::BackFault;
use node_offer::OfferFault;
use rotating_store::{Put, StoreFault};

/// The reply where nothing was read.
pub fn unread(fault: BackFault) -> Reply
    ensures { result ≡ read_refusal fault }
{
    match fault {
        BackFault::Fault => Reply::Fault,
        BackFault::Memory => Reply::Memory,
    }
}

/// The reply where an offer was not judged, or a form not stored.
pub(crate) fn refusal(fault: OfferFault) -> Reply
    ensures { result ≡ refusal_of fault }
{
    match fault {
        OfferFault::Fault => Reply::Fault,
        OfferFault::Clash { hash, old, new } => Reply::Clash { hash, old, new },
        OfferFault::Memory => Reply::Memory,
    }
}

/// The reply where a search has no answer.
pub(crate) fn unsearched(fault: SearchFault) -> Reply
    ensures { result ≡ search_refusal fault }
{
    match fault {
        SearchFault::Fault => Reply::Fault,
        SearchFault::Memory => Reply::Memory,
    }
}

/// Why a rotation goes on.
pub(crate) fn unended(fault: StoreFault) -> BackFault
    requires { IsPlain fault }
    ensures { result ≡ turns.unended fault }
{
    fault.plain()
}

/// The reply where a ledger wasn't made: a form of it has the zero hash, or memory was wanted.
pub(crate) fn unsealed(fault: MapFault) -> Reply
    requires { IsSealFault fault }
    ensures { result ≡ unsealed_by fault }
{
    match fault {
        MapFault::ZeroHash(form) => Reply::ZeroHash(form),
        MapFault::Memory => Reply::Memory,
        MapFault::Fault | MapFault::Absent(_) | MapFault::Shape { .. } => unreachable!(),
    }
}

/// Whether a form is stored now. A form that is put under its own hash isn't found under a wrong one.
pub(crate) fn kept(put: Result<Put, StoreFault>) -> Result<(), OfferFault>
    requires { IfErr put IsUnderOwn }
    ensures { result ≡ kept_by put }
{
    match put {
        Ok(_) => Ok(()),
        Err(fault) => Err(unkept(fault)),
    }
}

// Why a form isn't stored.
fn unkept(fault: StoreFault) -> OfferFault
    requires { IsUnderOwn fault }
    ensures { result ≡ unkept_by fault }
{
    match fault {
        StoreFault::Clash { hash, old, new } => OfferFault::Clash { hash, old, new },
        StoreFault::Fault => OfferFault::Fault,
        StoreFault::Memory => OfferFault::Memory,
        StoreFault::WrongHash { .. } => unreachable!(),
    }
}

/// Why a session's map wasn't changed: what the store holds is whole, so that only memory was wanted where it didn't fail.
pub(crate) fn unedited(fault: MapFault) -> BackFault
    ensures { result ≡ no_edit fault }
{
    match fault {
        MapFault::Fault => BackFault::Fault,
        _ => BackFault::Memory,
    }
}

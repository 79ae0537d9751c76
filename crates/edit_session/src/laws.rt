//! Laws of sessions, for proofs: each is the contract of a function that does nothing.
ghost use Rattle.edit_session.specs.Drafts.{StaysOverParent};

use cow_map::{a_map_stays_over_what_it_reaches, what_is_left_is_whole};

/// A session has the same maps over any source that has the same under all that the edited ledger's state root reaches.
pub fn a_session_stays_over_its_ledger()
    ensures { StaysOverParent }
{
    a_map_stays_over_what_it_reaches();
    what_is_left_is_whole();
}

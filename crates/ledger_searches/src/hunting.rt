//! How a check begins a search, and goes on with it.
ghost use Rattle.std.specs.Prelude.{◌≡◌, ◌≢◌, IfOk, MatchBool};
ghost use Rattle.ledger_searches.specs.Hunting.{IsNewHunt};

use crate::hunt::Hunt;
use half_hash::{Hash32, Memory};
use missing_walk::Search;
use std::alloc::Global;

/// How often a search begins anew before it is run whole.
pub(crate) const MOST_STALES: u8 = 3;

impl Hunt {
    /// The search of the ledger under this hash. Nothing was looked at yet.
    pub(crate) fn start(alloc: Global, target: &Hash32) -> Result<Hunt, Memory>
        ensures { IfOk result (IsNewHunt target.now) }
    {
        let search = Search::start(alloc, target)?;
        Ok(Hunt {
            target: *target,
            search,
            stales: 0,
        })
    }

    /// Whether it is of the ledger under this hash.
    pub(crate) fn is_of(&self, target: &Hash32) -> bool
        ensures { MatchBool result (self.now.target ≡ target.now) (self.now.target ≢ target.now) }
    {
        self.target.equals(target)
    }
}

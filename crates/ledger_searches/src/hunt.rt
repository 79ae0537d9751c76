//! The search that an actor's check has begun, with its target and how often it began anew.
ghost use Rattle.std.specs.Prelude.{◌≡◌};

use half_hash::Hash32;
use missing_walk::Search;

/// The search of a ledger that an actor's check has begun and goes on with in slices.
#[derive(Drop)]
pub struct Hunt {
    /// The ledger.
    pub(crate) target: Hash32,
    pub(crate) search: Search,
    /// How often the generation had turned since its first slice, so that it began anew.
    pub(crate) stales: u8,
    ghost of: { search.target ≡ target },
}

//! The search of a ledger for what is missing, in slices.
//!
//! From the header under the target it goes through the state map and then the transaction map, each
//! place before what is below it and branches rising. It goes below no place that is missing, that
//! holds a leaf, that breaks a rule of shape, or that is marked, and ends at the first broken place or
//! at the 256th missing one. Bytes that are no form, or that stand under another hash than their own,
//! are missing.
#![tactic(auto)]

ghost use Rattle.std.specs.Prelude.{◌≡◌, OnOk, None};
ghost use Rattle.ledger_spec.specs.Findings.{lacks, breaks};
ghost use Rattle.missing_walk.specs.Sees.{shown, nothing_seen, noted};

mod ending;
mod entering;
mod fault;
mod laws;
mod running;
mod search;
mod sight;
mod slicing;
mod stack;
mod todo;
mod view;

pub use fault::SearchFault;
use half_hash::Memory;
pub use laws::{a_new_search_keeps_the_rule, a_turn_keeps_the_rule, growth_keeps_the_rule};
use ledger_header::Header;
use ledger_spec::{Place, Places, ShapeFault};
pub use search::{Search, Slice};
use std::alloc::Global;
pub use todo::{Open, Todo};

/// What a search found.
#[derive(Drop)]
pub struct Found {
    /// The stored header.
    pub header: Option<Header>,
    /// The place that ended the search, with the first rule that it breaks.
    pub broken: Option<(Place, ShapeFault)>,
    /// The places whose hash isn't stored, at most 256, in the order of the walk.
    pub missing: Places,
}

impl Found {
    // Nothing is found yet.
    fn new(alloc: Global) -> Found
        ensures seen { shown result ≡ nothing_seen }
        ensures header { result.header ≡ None }
    {
        Found {
            header: None,
            broken: None,
            missing: Places::new(Vec::new(alloc)),
        }
    }

    // Notes a missing place.
    fn add_missing(&mut self, place: Place) -> Result<(), Memory>
        ensures seen { OnOk result (shown self.new ≡ noted (shown self.old) (lacks place)) }
        ensures header { self.new.header ≡ self.old.header }
    {
        self.missing.push(place)?;
        Ok(())
    }

    // Notes a broken place.
    fn add_broken(&mut self, place: Place, fault: ShapeFault)
        ensures seen { shown self.new ≡ noted (shown self.old) (breaks place fault) }
        ensures header { self.new.header ≡ self.old.header }
    {
        self.broken = Some((place, fault));
    }
}

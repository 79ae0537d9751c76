//! The search of a ledger, as it is kept between two slices: the places that it has yet to look at, and what it noted.
ghost use Rattle.std.specs.Prelude.{◌≡◌, IfOk};
ghost use Rattle.missing_walk.specs.Searching.{IsNew};

use crate::Found;
use crate::todo::{Open, Todo};
use half_hash::{Hash32, Memory};
use ledger_header::Header;
use ledger_spec::{Place, ShapeFault};
use std::alloc::Global;

/// The most missing places that a search notes.
pub(crate) const MOST_MISSING: usize = 256;

/// The search of a ledger.
#[derive(Drop)]
pub struct Search {
    pub(crate) target: Hash32,
    /// The generation of the first slice.
    pub(crate) generation: Option<u64>,
    /// The stored header, once it was read. Until then nothing else is kept.
    pub(crate) header: Option<Header>,
    /// The places to look at, the next one last.
    pub(crate) stack: Vec<Todo>,
    /// The inner nodes that are whole as far as the search has come below them, the last one last.
    pub(crate) opened: Vec<Open>,
    /// The missing places, in the order of the walk.
    pub(crate) missing: Vec<Todo>,
    /// The place that ended the search, with the first rule that it breaks. It is still on top of the stack.
    pub(crate) broken: Option<(Place, ShapeFault)>,
}

/// How a slice ended.
#[derive(Drop)]
pub enum Slice {
    /// The search has ended, with what was found.
    Done(Found),
    /// The search is left for another slice.
    More,
    /// The generation of the first slice isn't the present one.
    Stale { seen: u64, now: u64 },
}

impl Search {
    /// The search of the ledger under this hash. Nothing was looked at yet.
    pub fn start(alloc: Global, target: &Hash32) -> Result<Search, Memory>
        ensures target { IfOk result (λ s. s.target ≡ target.now) }
        ensures new { IfOk result IsNew }
    {
        Ok(Search {
            target: *target,
            generation: None,
            header: None,
            stack: Vec::new(alloc),
            opened: Vec::new(alloc),
            missing: Vec::new(alloc),
            broken: None,
        })
    }
}

//! The actors whose fetch failed since their last entry.
ghost use Rattle.std.specs.Prelude.{◌≡◌, [], IfOk, OnErr, OnOk};
ghost use Rattle.store_core.specs.Failing.{is_among, with_failed, without};

use half_hash::Memory;
use std::alloc::Global;
use std::marker::Model;

/// For how many actors there is room from the start.
const ROOM: usize = 256;

/// Actors whose fetch failed since their last entry, each once. Contracts see the list of them.
#[derive(Drop)]
pub(crate) struct Failed {
    actors: Vec<u8>,
}

impl Model for Failed {
    ghost use Rattle.std.specs.Prelude.{ℕ, List, nat_eq};
    ghost use Rattle.std.specs.List.{IsDistinct};

    ghost Value = { List ℕ };

    ghost view = { λ f. f.actors.items };

    ghost invariant = { λ f. IsDistinct nat_eq f.actors.items };
}

impl Failed {
    /// None, with room for all.
    pub(crate) fn new(alloc: Global) -> Result<Failed, Memory>
        ensures { IfOk result (λ f. f ≡ []) }
    {
        let actors = Vec::with_capacity(alloc, ROOM)?;
        Ok(Failed { actors })
    }

    /// Whether the actor is one of them.
    pub(crate) fn has(&self, actor: u8) -> bool
        ensures { result ≡ is_among actor self.now }
    {
        self.actors.iter().any(|other| *other == actor)
    }

    /// Adds an actor, unless it is one of them.
    pub(crate) fn add(&mut self, actor: u8) -> Result<(), Memory>
        ensures ok { OnOk result (self.new ≡ with_failed actor self.old) }
        ensures err { OnErr result (self.new ≡ self.old) }
    {
        if self.has(actor) {
            return Ok(());
        }
        self.actors.push(actor)?;
        Ok(())
    }

    /// Takes an actor out.
    pub(crate) fn forget(&mut self, actor: u8)
        ensures { self.new ≡ without actor self.old }
    {
        self.actors.retain(|other| *other != actor);
    }
}

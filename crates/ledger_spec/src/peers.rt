//! What a set of peers answers: to one that joins, to a charge, to places that are missing, and to a tick.
ghost use Rattle.std.specs.Prelude.{◌≡◌, ◌≢◌, ◌++◌, ◌∷◌, [], length, MatchBool, OnOk, OnErr};

use crate::Place;
use half_hash::Memory;
use std::marker::Model;

/// Places in order. Contracts see the list of them.
#[derive(Drop)]
pub struct Places {
    places: Vec<Place>,
}

impl Model for Places {
    ghost use Rattle.std.specs.Prelude.{List};
    ghost use Rattle.ledger_spec.specs.declared.Place.{Place};

    ghost Value = { List Place };

    ghost view = { λ a. a.places.items };
}

impl Places {
    /// These places.
    pub fn new(places: Vec<Place>) -> Places
        ensures { result ≡ places.items }
    {
        Places { places }
    }

    /// How many places there are.
    pub fn len(&self) -> usize
        ensures { result ≡ length self.now }
    {
        self.places.len()
    }

    /// Whether there is none.
    pub fn is_empty(&self) -> bool
        ensures { MatchBool result (self.now ≡ []) (self.now ≢ []) }
    {
        self.places.is_empty()
    }

    /// Adds a place behind the others; where memory is wanted there is none more.
    pub fn push(&mut self, place: Place) -> Result<(), Memory>
        ensures ok { OnOk result (self.new ≡ self.old ++ place ∷ []) }
        ensures err { OnErr result (self.new ≡ self.old) }
    {
        self.places.push(place)?;
        Ok(())
    }

    /// The places.
    pub fn as_slice(&self) -> &[Place]
        ensures { result.now ≡ self.now }
    {
        &self.places
    }
}

/// What became of a peer that joins.
#[derive(Clone, Copy, Debug, PartialEq, Eq)]
pub enum Added {
    Added,
    /// It was added before; perhaps it was dropped since.
    Known,
}

/// What became of a peer that is charged.
#[derive(Clone, Copy, Debug, PartialEq, Eq)]
pub enum Charge {
    /// It has been charged so often, and stays.
    Charged(u8),
    /// That was the fourth charge.
    Dropped,
}

/// Who is asked for missing places.
#[derive(Drop)]
pub enum Ask {
    /// This peer is asked for these places.
    Send { peer: u16, places: Places },
    /// All of so many places were asked since the last tick.
    Waiting(usize),
    /// No peer is present.
    NoPeer,
}

/// What comes of a tick: its number, from 1.
#[derive(Clone, Copy, Debug, PartialEq, Eq)]
pub enum Tick {
    Timeout(u8),
    GaveUp(u8),
}

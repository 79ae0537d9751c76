//! What was asked since the last tick, in order and with an index, so that no place is asked for twice.
ghost use Rattle.std.specs.Prelude.{◌≡◌, ◌≤◌, ◌++◌, [], OnOk, OnErr, IfOk, false, length, take};
ghost use Rattle.std.specs.List.{All, list_any};
ghost use Rattle.ledger_spec.specs.Bytes.{same_bytes};
ghost use Rattle.ledger_spec.specs.Peers.{same_place, unasked as not_asked, most_asked};
ghost use Rattle.peer_set.specs.Finding.{Finds};

use crate::key::PlaceKey;
use half_hash::Memory;
use nib_path::NodeId;
use shamap_node::Place;
use std::alloc::Global;
use std::collections::BTreeMap;
use std::marker::Model;

/// The most places that are asked for at a time.
const MOST_ASKED: usize = 128;

/// The places that were asked. Contracts see them in the order of asking.
#[derive(Drop)]
pub(crate) struct Asked {
    places: Vec<Place>,
    /// Where each of them stands in `places`. An entry whose place doesn't stand there says nothing.
    index: BTreeMap<PlaceKey, usize>,
}

impl Model for Asked {
    ghost use Rattle.std.specs.Prelude.{List};
    ghost use Rattle.ledger_spec.specs.declared.Place.{Place};
    ghost use Rattle.peer_set.specs.Finding.{Finds};

    ghost Value = { List Place };

    ghost view = { λ a. a.places.items };

    ghost invariant = { λ a. Finds a.index.entries a.places.items a.places.items };
}

impl Asked {
    /// Nothing was asked.
    pub(crate) fn new(alloc: Global) -> Asked
        ensures { result ≡ [] }
    {
        Asked {
            places: Vec::new(alloc),
            index: BTreeMap::new(alloc),
        }
    }

    /// Whether the place was asked.
    pub(crate) fn has(&self, place: &Place) -> bool
        ensures { result ≡ list_any (same_place place.now) self.now }
    {
        match self.index.get(&PlaceKey::of(place)) {
            Some(at) => *at < self.places.len() && same(place, &self.places[*at]),
            None => false,
        }
    }

    /// The first places that weren't asked, as many as are asked for at a time.
    pub(crate) fn unasked(&self, alloc: Global, missing: &[Place]) -> Result<Vec<Place>, Memory>
        ensures { IfOk result (λ places. places.items ≡ take most_asked (not_asked self.now missing.now)) }
    {
        let mut places = Vec::new(alloc);
        for place in missing {
            if places.len() < MOST_ASKED && !self.has(place) {
                places.push(*place)?;
            }
        }
        Ok(places)
    }

    /// Notes places that weren't asked before. Where memory is refused nothing changes.
    pub(crate) fn note(&mut self, places: &[Place]) -> Result<(), Memory>
        requires { All (λ p. list_any (same_place p) self.old ≡ false) places.now }
        ensures ok { OnOk result (self.new ≡ self.old ++ places.now) }
        ensures err { OnErr result (self.new ≡ self.old) }
    {
        let before = self.places.len();
        self.places.extend_from_slice(places)?;
        if index_from(&mut self.index, &self.places, before).is_err() {
            self.places.truncate(before);
            return Err(Memory);
        }
        Ok(())
    }

    /// Forgets what was asked.
    pub(crate) fn clear(&mut self)
        ensures { self.new ≡ [] }
    {
        self.places.clear();
        self.index.clear();
    }
}

/// Indexes the places from a position on. Where memory is refused those before it are still found.
fn index_from(
    index: &mut BTreeMap<PlaceKey, usize>,
    places: &[Place],
    first: usize,
) -> Result<(), Memory>
    requires within { first ≤ length places.now }
    requires found { Finds index.old.entries places.now (take first places.now) }
    ensures ok { OnOk result (Finds index.new.entries places.now places.now) }
    ensures err { OnErr result (Finds index.new.entries places.now (take first places.now)) }
{
    for at in first..places.len() {
        index.insert(PlaceKey::of(&places[at]), at)?;
    }
    Ok(())
}

fn same(place: &Place, other: &Place) -> bool
    ensures { result ≡ same_place place.now other.now }
{
    match (place, other) {
        (Place::Header, Place::Header) => true,
        (Place::Node { kind, id }, Place::Node { kind: k, id: i }) => kind == k && same_id(id, i),
        _ => false,
    }
}

fn same_id(id: &NodeId, other: &NodeId) -> bool
    ensures { result ≡ same_bytes id.now other.now }
{
    id.known();
    other.known();
    id == other
}

//! The set of peers: who is present and whose turn it is, what each was charged, and how many ticks passed.
ghost use Rattle.std.specs.Prelude.{◌≡◌, ◌+◌, ◌<◌, OnErr, IfOk, IsTrue, IsSomeAnd};
ghost use Rattle.std.specs.Ordering.{nat_cmp};
ghost use Rattle.std.specs.Option.{unwrap_or};
ghost use Rattle.ledger_spec.specs.Maps.{get_in, set_in};
ghost use Rattle.ledger_spec.specs.Peers.{no_peers, is_present, added, after_adding, charged, after_charging, without, most_charges};
ghost use Rattle.ledger_spec.specs.Peers.{ask_for, after_asking, ticked, after_tick, most_ticks};
ghost use Rattle.peer_set.specs.Keeping.{Keeps};

use crate::asked::Asked;
use crate::{Added, Ask, Charge, Places, Tick};
use half_hash::Memory;
use shamap_node::Place;
use std::alloc::Global;
use std::collections::BTreeMap;
use std::marker::Model;

/// How many charges drop a peer.
const MOST_CHARGES: u8 = 4;

/// How many ticks give an acquisition up.
const MOST_TICKS: u8 = 7;

/// The peers of an acquisition, numbered, and what they were asked. Contracts see these as a record.
#[derive(Drop)]
pub struct PeerSet {
    /// Those that are present, the next one to be asked first.
    turn: Vec<u16>,
    /// Of every peer that was ever added.
    charges: BTreeMap<u16, u8>,
    asked: Asked,
    ticks: u8,
}

impl Model for PeerSet {
    ghost use Rattle.ledger_spec.specs.Peers.{Peers};
    ghost use Rattle.peer_set.specs.Keeping.{Keeps};

    ghost Value = { Peers };

    ghost view = { λ a. record { present = a.turn.items; charges = a.charges.entries; asked = a.asked; ticks = a.ticks } };

    ghost invariant = { λ a. Keeps (record { present = a.turn.items; charges = a.charges.entries; asked = a.asked; ticks = a.ticks }) };
}

impl PeerSet {
    /// No peers, nothing asked, no ticks.
    pub fn new(alloc: Global) -> PeerSet
        ensures { result ≡ no_peers }
    {
        PeerSet {
            turn: Vec::new(alloc),
            charges: BTreeMap::new(alloc),
            asked: Asked::new(alloc),
            ticks: 0,
        }
    }

    /// Adds a peer behind the others, unless it was added before, perhaps dropped since. Where memory is refused nothing changes.
    pub fn add(&mut self, peer: u16) -> Result<Added, Memory>
        ensures answer { IfOk result (λ a. a ≡ added self.old peer) }
        ensures after { IfOk result (λ _. self.new ≡ after_adding self.old peer) }
        ensures err { OnErr result (self.new ≡ self.old) }
    {
        if self.charges.contains_key(&peer) {
            return Ok(Added::Known);
        }
        self.turn.push(peer)?;
        if self.charges.insert(peer, 0).is_err() {
            let _ = self.turn.pop();
            return Err(Memory);
        }
        Ok(Added::Added)
    }

    /// Whether the peer is present.
    pub fn has(&self, peer: u16) -> bool
        ensures { result ≡ is_present self.now peer }
    {
        self.turn.contains(&peer)
    }

    /// Charges a present peer. The fourth charge drops it.
    pub fn charge(&mut self, peer: u16) -> Charge
        requires { IsTrue (is_present self.old peer) }
        ensures answer { result ≡ charged self.old peer }
        ensures after { self.new ≡ after_charging self.old peer }
    {
        let charges = one_more(&mut self.charges, peer);
        if charges == MOST_CHARGES {
            drop_from(&mut self.turn, peer);
            Charge::Dropped
        } else {
            Charge::Charged(charges)
        }
    }

    /// Says whom to ask for missing places: the first peer, for the first at most 128 of them that weren't asked since the last
    /// tick. That peer moves to the end. Where memory is refused nothing changes.
    pub fn ask(&mut self, alloc: Global, missing: &[Place]) -> Result<Ask, Memory>
        ensures answer { IfOk result (λ a. a ≡ ask_for self.old missing.now) }
        ensures after { IfOk result (λ a. self.new ≡ after_asking self.old a) }
        ensures err { OnErr result (self.new ≡ self.old) }
    {
        if self.turn.is_empty() {
            return Ok(Ask::NoPeer);
        }
        let places = self.asked.unasked(alloc, missing)?;
        if places.is_empty() {
            return Ok(Ask::Waiting(missing.len()));
        }
        self.asked.note(&places)?;
        let peer = self.turn[0];
        self.turn.rotate_left(1);
        Ok(Ask::Send {
            peer,
            places: Places::new(places),
        })
    }

    /// Time has passed: what was asked may be asked again. The seventh tick gives up.
    pub fn tick(&mut self) -> Tick
        requires { self.old.ticks < most_ticks }
        ensures answer { result ≡ ticked self.old }
        ensures after { self.new ≡ after_tick self.old }
    {
        self.asked.clear();
        self.ticks += 1;
        if self.ticks == MOST_TICKS {
            Tick::GaveUp(self.ticks)
        } else {
            Tick::Timeout(self.ticks)
        }
    }

    /// For proofs: what each set keeps. The call changes nothing.
    pub fn known(&self)
        ensures { Keeps self.now }
    {
        let _ticks = &self.ticks;
    }
}

/// One charge more for a peer that has few; how many it has then.
fn one_more(charges: &mut BTreeMap<u16, u8>, peer: u16) -> u8
    requires { IsSomeAnd (get_in nat_cmp charges.old.entries peer) (λ n. n < most_charges) }
    ensures answer { result ≡ unwrap_or (get_in nat_cmp charges.old.entries peer) 0 + 1 }
    ensures after { charges.new.entries ≡ set_in nat_cmp charges.old.entries peer result }
{
    match charges.get_mut(&peer) {
        Some(count) => {
            *count += 1;
            *count
        }
        None => unreachable!(),
    }
}

/// Takes a peer out of the turn.
fn drop_from(turn: &mut Vec<u16>, peer: u16)
    ensures { turn.new.items ≡ without peer turn.old.items }
{
    turn.retain(|other| *other != peer);
}

//! Which ledgers are retained, and when a rotation is due. A ledger is retained where it is listed, with its sequence, or pinned; a
//! rotation sets the floor behind the last one, and lower ledgers are listed no more.
#![tactic(auto)]

ghost use Rattle.std.specs.Prelude.{◌≡◌, ◌+◌, ◌-◌, ◌^◌, ◌<◌, ◌≤◌, OnOk, OnErr, IfOk, IsTrue, IsSome, IsNone, length};
ghost use Rattle.ledger_spec.specs.Retaining.{none_retained, after_listing, is_listed as stands_listed, is_pinned};
ghost use Rattle.ledger_spec.specs.Retaining.{is_retained as stands_retained};
ghost use Rattle.ledger_spec.specs.Retaining.{pins_of, after_pinning, after_unpinning, greatest as greatest_of, due as due_in};
ghost use Rattle.ledger_spec.specs.Retaining.{after_begin, after_finish, listed_from, AreRootsFrom};
ghost use Rattle.ledger_spec.specs.Retaining.{pin_count, with_pin_less};
ghost use Rattle.ledger_spec.specs.Maps.{hash_cmp, has_in, IsMap};
ghost use Rattle.std.specs.List.{All};
ghost use Rattle.std.specs.Map.{keys_of, values_of};
ghost use Rattle.retain_book.specs.Keeping.{Keeps};

use half_hash::{Hash32, Memory};
use std::alloc::Global;
use std::collections::BTreeMap;
use std::marker::Model;

/// The retained ledgers, and the sequences of rotations. Contracts see these as a record.
#[derive(Drop)]
pub struct Book {
    listed: BTreeMap<Hash32, u32>,
    /// How often each pinned ledger is pinned.
    pins: BTreeMap<Hash32, u32>,
    floor: u32,
    last: Option<u32>,
    turning: Option<u32>,
    interval: u32,
}

impl Model for Book {
    ghost use Rattle.ledger_spec.specs.Retaining.{Retention};
    ghost use Rattle.retain_book.specs.Keeping.{Keeps};

    ghost Value = { Retention };

    ghost view = { λ a. record {
      listed = a.listed.entries;
      pins = a.pins.entries;
      floor = a.floor;
      last = a.last;
      turning = a.turning;
      interval = a.interval;
    } };

    ghost invariant = { λ a. Keeps (record {
      listed = a.listed.entries;
      pins = a.pins.entries;
      floor = a.floor;
      last = a.last;
      turning = a.turning;
      interval = a.interval;
    }) };
}

impl Book {
    /// Nothing is retained, and the floor is 0. A rotation is due where the greatest listed sequence is `interval` or more above
    /// the last rotation's.
    pub fn new(alloc: Global, interval: u32) -> Book
        requires { 0 < interval }
        ensures { result ≡ none_retained interval }
    {
        Book {
            listed: BTreeMap::new(alloc),
            pins: BTreeMap::new(alloc),
            floor: 0,
            last: None,
            turning: None,
            interval,
        }
    }

    /// Lists a ledger with its sequence. The first one counts as the last rotation. Where memory is refused nothing changes.
    pub fn list(&mut self, h: &Hash32, seq: u32) -> Result<(), Memory>
        requires { self.old.floor ≤ seq }
        ensures ok { OnOk result (self.new ≡ after_listing self.old h.now seq) }
        ensures err { OnErr result (self.new ≡ self.old) }
    {
        self.listed.insert(*h, seq)?;
        self.last = Some(self.last.unwrap_or(seq));
        Ok(())
    }

    /// Whether the ledger is listed.
    pub fn is_listed(&self, h: &Hash32) -> bool
        ensures { result ≡ stands_listed self.now h.now }
    {
        self.listed.contains_key(h)
    }

    /// Whether the ledger is listed or pinned.
    pub fn is_retained(&self, h: &Hash32) -> bool
        ensures { result ≡ stands_retained self.now h.now }
    {
        self.listed.contains_key(h) || self.pins.contains_key(h)
    }

    /// Pins a retained ledger once more. Where memory is refused nothing changes.
    pub fn pin(&mut self, h: &Hash32) -> Result<(), Memory>
        requires retained { IsTrue (stands_retained self.old h.now) }
        requires room { pins_of self.old h.now + 1 < 2 ^ 32 }
        ensures ok { OnOk result (self.new ≡ after_pinning self.old h.now) }
        ensures err { OnErr result (self.new ≡ self.old) }
    {
        let count = self.pins.get(h).copied().unwrap_or(0);
        self.pins.insert(*h, count + 1)?;
        Ok(())
    }

    /// Takes one pin of a pinned ledger away; with the last one it is pinned no more.
    pub fn unpin(&mut self, h: &Hash32)
        requires { IsTrue (is_pinned self.old h.now) }
        ensures { self.new ≡ after_unpinning self.old h.now }
    {
        unpin_in(&mut self.pins, h);
    }

    /// The least sequence that may be listed.
    pub fn floor(&self) -> u32
        ensures { result ≡ self.now.floor }
    {
        self.floor
    }

    /// The sequence of the last rotation, or of the first listed ledger where there was none; None where nothing was listed yet.
    pub fn last(&self) -> Option<u32>
        ensures { result ≡ self.now.last }
    {
        self.last
    }

    /// How many ledgers are listed.
    pub fn count(&self) -> usize
        ensures { result ≡ length self.now.listed }
    {
        self.listed.len()
    }

    /// The sequence at which a rotation is due, the greatest listed one; None where none is due.
    pub fn due(&self) -> Option<u32>
        ensures { result ≡ due_in self.now }
    {
        let last = self.last?;
        let greatest = greatest(&self.listed);
        if u64::from(greatest) >= u64::from(last) + u64::from(self.interval) {
            Some(greatest)
        } else {
            None
        }
    }

    /// Begins the rotation that is due: the floor goes behind the last rotation, and lower ledgers are listed no more.
    pub fn begin(&mut self)
        requires idle { IsNone self.old.turning }
        requires due { IsSome (due_in self.old) }
        ensures { self.new ≡ after_begin self.old }
    {
        if let (Some(last), Some(seq)) = (self.last, self.due()) {
            self.floor = last + 1;
            self.turning = Some(seq);
            drop_below(&mut self.listed, self.floor);
        }
    }

    /// Ends the rotation under way, which is then the last one.
    pub fn finish(&mut self)
        requires { IsSome self.old.turning }
        ensures { self.new ≡ after_finish self.old }
    {
        self.last = self.turning;
        self.turning = None;
    }

    /// The pinned ledgers and those that are listed with a sequence of at least `floor`, each once.
    pub fn roots(&self, alloc: Global, floor: u32) -> Result<Vec<Hash32>, Memory>
        ensures { IfOk result (λ hashes. AreRootsFrom self.now floor hashes.items) }
    {
        let mut hashes = keys(alloc, &self.pins)?;
        for (hash, seq) in &self.listed {
            if *seq >= floor && !self.pins.contains_key(hash) {
                hashes.push(*hash)?;
            }
        }
        Ok(hashes)
    }

    /// For proofs: what each book keeps. The call changes nothing.
    pub fn known(&self)
        ensures { Keeps self.now }
    {
        let _floor = &self.floor;
    }
}

/// The greatest sequence, or 0.
fn greatest(listed: &BTreeMap<Hash32, u32>) -> u32
    ensures { result ≡ greatest_of listed.now.entries }
{
    listed.values().fold(0, |most, seq| most.max(*seq))
}

/// Drops what is below the floor.
fn drop_below(listed: &mut BTreeMap<Hash32, u32>, floor: u32)
    ensures { listed.new.entries ≡ listed_from floor listed.old.entries }
{
    listed.retain(|_, seq| *seq >= floor);
}

/// Takes one pin away.
fn unpin_in(pins: &mut BTreeMap<Hash32, u32>, h: &Hash32)
    requires pinned { IsTrue (has_in hash_cmp pins.old.entries h.now) }
    requires counted { All (λ n. 0 < n) (values_of pins.old.entries) }
    ensures { pins.new.entries ≡ with_pin_less pins.old.entries h.now (pin_count pins.old.entries h.now) }
{
    if pins.get(h).copied() == Some(1) {
        let _ = pins.remove(h);
    } else if let Some(count) = pins.get_mut(h) {
        *count -= 1;
    }
}

/// The keys, rising.
fn keys(alloc: Global, pins: &BTreeMap<Hash32, u32>) -> Result<Vec<Hash32>, Memory>
    ensures keys { IfOk result (λ hashes. hashes.items ≡ keys_of pins.now.entries) }
    ensures rising { IsMap hash_cmp pins.now.entries }
{
    let hashes = pins.keys().copied().collect(alloc)?;
    Ok(hashes)
}

#[cfg(test)]
mod tests;

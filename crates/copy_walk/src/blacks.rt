//! The black hashes of a walk: a list of them, and a table by which one is found in it.
ghost use Rattle.std.specs.Prelude.{◌≡◌, ◌++◌, ◌∷◌, ◌<◌, ◌^◌, [], IsTrue, OnOk, OnErr, length};
ghost use Rattle.std.specs.List.{Contains};

use half_hash::{Hash32, Memory};
use std::alloc::Global;
use std::collections::HashMap;
use std::marker::Model;

// How many slots the first table has.
const FIRST: usize = 16384;

// How many slots are looked at before the map beside the table is.
const STEPS: usize = 16;

// What stands in a slot is less than this.
const LIMIT: usize = 4294967295;

/// The black hashes. Contracts see the list of them, the newest last. A slot of the table has one more than a place of the list, or zero
/// where it is free; its number is told by the first bytes of the hash. A hash that finds no free slot near by stands in a map beside the
/// table, so that hashes that were chosen to meet there make no long search. What is found is compared with the hash itself.
#[derive(Drop)]
pub(crate) struct Blacks {
    list: Vec<Hash32>,
    slots: Vec<u32>,
    beside: HashMap<Hash32, usize>,
}

impl Model for Blacks {
    ghost use Rattle.std.specs.Prelude.{List};
    ghost use Rattle.ledger_spec.specs.Bytes.{Hash};

    ghost Value = { List Hash };

    ghost view = { λ b. b.list.items };
}

impl Blacks {
    /// No hash.
    pub(crate) fn new(alloc: Global) -> Blacks
        ensures { result ≡ [] }
    {
        Blacks {
            list: Vec::new(alloc),
            slots: Vec::new(alloc),
            beside: HashMap::new(alloc),
        }
    }

    /// Whether the hash is found among them.
    pub(crate) fn contains(&self, h: &Hash32) -> bool
        ensures { IsTrue result → Contains self.now h.now }
    {
        let mask = self.slots.len().wrapping_sub(1);
        let first = first_bytes(h);
        for step in 0..STEPS {
            let slot = self.slot(first.wrapping_add(step) & mask);
            if slot == 0 {
                return false;
            }
            if self.is_at(slot as usize - 1, h) {
                return true;
            }
        }
        self.is_beside(h)
    }

    /// One hash more, the last. Where memory is refused nothing changes.
    pub(crate) fn push(&mut self, h: &Hash32) -> Result<(), Memory>
        ensures ok { OnOk result (self.new ≡ self.old ++ h.now ∷ []) }
        ensures err { OnErr result (self.new ≡ self.old) }
        ensures room { length self.old < 2 ^ 63 }
    {
        let place = self.list.len();
        if self.slots.len() / 2 <= place {
            self.widen()?;
        }
        self.enter(h, place)?;
        self.list.push(*h)?;
        Ok(())
    }

    // A table of twice as many slots.
    fn widen(&mut self) -> Result<(), Memory>
        ensures { self.new ≡ self.old }
    {
        let old = self.slots.len();
        self.slots.resize(old.saturating_mul(2).max(FIRST), 0)?;
        self.slots[..old].fill(0);
        self.enter_all();
        Ok(())
    }

    // Enters all places into an empty table. A hash whose place is lost as memory is refused needn't be found any more.
    fn enter_all(&mut self)
        ensures { self.new ≡ self.old }
    {
        for place in 0..self.list.len() {
            if let Some(hash) = self.list.get(place).copied() {
                let _ = self.enter(&hash, place);
            }
        }
    }

    // Enters a place of the hash.
    fn enter(&mut self, h: &Hash32, place: usize) -> Result<(), Memory>
        ensures { self.new ≡ self.old }
    {
        let at = self.free_slot(h);
        if at < self.slots.len() && place < LIMIT {
            self.slots[at] = place as u32 + 1;
            return Ok(());
        }
        self.enter_beside(h, place)
    }

    // Enters a place of the hash beside the table.
    #[inline(never)]
    fn enter_beside(&mut self, h: &Hash32, place: usize) -> Result<(), Memory>
        ensures { self.new ≡ self.old }
    {
        self.beside.insert(*h, place)?;
        Ok(())
    }

    // A free slot for the hash, or a number behind the last where none is near.
    fn free_slot(&self, h: &Hash32) -> usize {
        let mask = self.slots.len().wrapping_sub(1);
        let first = first_bytes(h);
        for step in 0..STEPS {
            let at = first.wrapping_add(step) & mask;
            if self.slot(at) == 0 {
                return at;
            }
        }
        self.slots.len()
    }

    // What a slot has, zero behind the last.
    fn slot(&self, at: usize) -> u32 {
        match self.slots.get(at) {
            Some(slot) => *slot,
            None => 0,
        }
    }

    // Whether the hash stands at this place.
    fn is_at(&self, place: usize, h: &Hash32) -> bool
        ensures { IsTrue result → Contains self.now h.now }
    {
        match self.list.get(place) {
            Some(hash) => hash.equals(h),
            None => false,
        }
    }

    // Whether the map beside the table has a place where the hash stands.
    #[inline(never)]
    fn is_beside(&self, h: &Hash32) -> bool
        ensures { IsTrue result → Contains self.now h.now }
    {
        match self.beside.get(h) {
            Some(place) => self.is_at(*place, h),
            None => false,
        }
    }
}

// The first eight bytes of a hash, which are as good as random where nobody chose them.
fn first_bytes(h: &Hash32) -> usize {
    let b = &h.bytes;
    u64::from_le_bytes([b[0], b[1], b[2], b[3], b[4], b[5], b[6], b[7]]) as usize
}

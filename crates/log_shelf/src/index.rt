//! Where the value of each hash stands in a log: an index in memory, so that a `get` reads one place.
ghost use Rattle.std.specs.Prelude.{◌≡◌, Option, None, Some, IfOk, OnOk, OnErr};
ghost use Rattle.std.specs.FinMap as map;
ghost use Rattle.std.specs.Option.{option_copied};
ghost use Rattle.node_backend.specs.Order.{IsNext};

use half_hash::{Hash32, Memory};
use std::alloc::Global;
use std::collections::BTreeMap;
use std::marker::Model;
use std::ops::Bound;

/// A place in a file, and how many bytes stand there.
#[derive(Clone, Copy, Debug, PartialEq, Eq)]
pub struct Place64 {
    /// The first of them.
    pub at: u64,
    /// How many they are.
    pub len: u64,
}

/// Places under hashes. Contracts see the finite map.
#[derive(Drop)]
pub(crate) struct Index {
    entries: BTreeMap<Hash32, Place64>,
}

impl Model for Index {
    ghost use Rattle.std.specs.Prelude.{ℕ, List};
    ghost use Rattle.std.specs.Ordering.{nat_cmp};
    ghost use Rattle.std.specs.Cmp.Lexicographic.{slice_cmp};
    ghost use Rattle.std.specs.FinMap as map;
    ghost use Rattle.std.specs.Coded.{coded_ℕ, coded_list};
    ghost use Rattle.log_shelf.specs.declared.index.Place64.{Place64};
    ghost use Rattle.log_shelf.specs.Places.{place_code};

    ghost Value = { map.FinMap (slice_cmp nat_cmp) Place64 };

    ghost coded = { map.code (coded_list coded_ℕ) place_code };

    ghost view = { λ a. map.from_entries a.entries.entries };
}

impl Index {
    ghost use Rattle.log_shelf.specs.Places.{Places};
    ghost use Rattle.log_shelf.specs.declared.index.Place64.{Place64};

    /// No place.
    pub(crate) fn new(alloc: Global) -> Self
        ensures { result ≡ map.empty }
    {
        Index {
            entries: BTreeMap::new(alloc),
        }
    }

    /// The place of a hash, where there is one.
    pub(crate) fn get(&self, key: &Hash32) -> Option<Place64>
        ensures { result ≡ map.get self.now key.now }
    {
        self.entries.get(key).copied()
    }

    /// The least hash that comes after another one, or the least of all; None where there is none.
    pub(crate) fn next(&self, after: Option<&Hash32>) -> Option<Hash32>
        ensures { IsNext self.now (option_copied after.entry) result }
    {
        match after {
            None => {
                let (hash, _) = self.entries.range(..).next()?;
                Some(*hash)
            }
            Some(last) => {
                let start = (Bound::Excluded(*last), Bound::Unbounded);
                let (hash, _) = self.entries.range(start).next()?;
                Some(*hash)
            }
        }
    }

    /// Sets the place of a hash, and answers the one before. Where memory is refused nothing changes.
    pub(crate) fn set(&mut self, key: Hash32, place: Place64) -> Result<Option<Place64>, Memory>
        ensures before { IfOk result (λ before. before ≡ map.get self.old key) }
        ensures ok { OnOk result (self.new ≡ map.insert self.old key place) }
        ensures err { OnErr result (self.new ≡ self.old) }
    {
        Ok(self.entries.insert(key, place)?)
    }

    /// Takes a place back that was set. It takes no memory.
    pub(crate) fn unset(&mut self, key: Hash32, before: Option<Place64>)
        ensures { (places : Places) (place : Place64) → map.get places key ≡ before → self.old ≡ map.insert places key place
            → self.new ≡ places }
    {
        match before {
            None => {
                let _ = self.entries.remove(&key);
            }
            Some(place) => {
                let _ = self.entries.insert(key, place);
            }
        }
    }
}

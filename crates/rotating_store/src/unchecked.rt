//! The hashes whose forms weren't checked yet, in two sets that go as the two backends go. They are few: who puts a form checked it mostly.
ghost use Rattle.std.specs.Prelude.{◌≡◌, IsTrue, OnOk, OnErr, List};
ghost use Rattle.std.specs.FinSet as set;
ghost use Rattle.ledger_spec.specs.Bytes.{Hash as Bytes32};
ghost use Rattle.ledger_spec.specs.Maps.{hash_cmp};
ghost use Rattle.rotating_store.specs.Unchecked.{unchecked_of, with_hash, without_hash};

use half_hash::{Hash32, Memory};
use std::alloc::Global;
use std::collections::HashSet;
use std::marker::Model;

/// The hashes. Contracts see two finite sets.
#[derive(Drop)]
pub(crate) struct Unchecked {
    fresh: HashSet<Hash32>,
    earlier: HashSet<Hash32>,
}

impl Model for Unchecked {
    ghost use Rattle.std.specs.FinSet as set;
    ghost use Rattle.std.specs.Coded.{codes};
    ghost use Rattle.ledger_spec.specs.Maps.{set_code};
    ghost use Rattle.rotating_store.specs.Unchecked.{Unchecked as Hashes};

    ghost Value = { Hashes };

    ghost coded = { Prim.hlevel (codes, set_code) };

    ghost view = { λ n. record { fresh = set.from_list n.fresh.keys; earlier = set.from_list n.earlier.keys } };
}

impl Unchecked {
    /// None.
    pub(crate) fn new(alloc: Global) -> Unchecked
        ensures { (result.fresh ≡ set.empty) × (result.earlier ≡ set.empty) }
    {
        Unchecked {
            fresh: HashSet::new(alloc),
            earlier: HashSet::new(alloc),
        }
    }

    /// Whether the hash is one of them.
    pub(crate) fn has(&self, h: &Hash32) -> bool
        ensures { result ≡ set.contains (unchecked_of self.now) h.now }
    {
        is_in(&self.fresh, h) || is_in(&self.earlier, h)
    }

    /// The hash is one of them from now on. Where memory is refused nothing changes.
    pub(crate) fn add(&mut self, h: &Hash32) -> Result<(), Memory>
        ensures added { OnOk result (self.new ≡ with_hash self.old h.now) }
        ensures err { OnErr result (self.new ≡ self.old) }
    {
        self.fresh.insert(*h)?;
        Ok(())
    }

    /// The hash is none of them any more.
    pub(crate) fn remove(&mut self, h: &Hash32)
        ensures { self.new ≡ without_hash self.old h.now }
    {
        let _ = self.fresh.remove(h);
        let _ = self.earlier.remove(h);
    }

    /// Has a hash from before stay one of them at the next turn. Where memory is refused nothing changes.
    pub(crate) fn carry(&mut self, h: &Hash32) -> Result<(), Memory>
        ensures carried { OnOk result (IsTrue (set.contains self.old.earlier h.now) → IsTrue (set.contains self.new.fresh h.now)) }
        ensures more { (q : Bytes32) → IsTrue (set.contains self.old.fresh q) → IsTrue (set.contains self.new.fresh q) }
        ensures earlier { self.new.earlier ≡ self.old.earlier }
        ensures same { unchecked_of self.new ≡ unchecked_of self.old }
    {
        if is_in(&self.earlier, h) {
            self.fresh.insert(*h)?;
        }
        Ok(())
    }

    /// The fresh ones are those from before from now on, and what were those from before are forgotten.
    pub(crate) fn turn(&mut self)
        ensures { self.new ≡ record { fresh = set.empty; earlier = self.old.fresh } }
    {
        std::mem::swap(&mut self.fresh, &mut self.earlier);
        self.fresh.clear();
    }
}

// Whether a set has the hash, which isn't looked for where there is none.
fn is_in(hashes: &HashSet<Hash32>, h: &Hash32) -> bool
    ensures { result ≡ set.contains (set.from_list {R = hash_cmp} hashes.now.keys) h.now }
{
    if hashes.is_empty() {
        return false;
    }
    hashes.contains(h)
}

//! The stored forms: a hash table in memory from hashes to forms. The rising order of the hashes, byte by byte, is made when it is asked
//! for, and kept until the next insertion.
ghost use Rattle.std.specs.Prelude.{◌≡◌, IfOk, OnOk, OnErr};
ghost use Rattle.std.specs.List.{slice_get};
ghost use Rattle.std.specs.FinMap as map;
ghost use Rattle.std.specs.Option.{option_copied};
ghost use Rattle.ledger_spec.specs.Bytes.{Nodes};
ghost use Rattle.node_backend.specs.Order.{IsNext};
ghost use Rattle.node_backend.specs.Rising.{IsRising};

use half_hash::{Blob, Hash32, Memory};
use std::alloc::Global;
use std::collections::HashMap;
use std::marker::Model;

/// Forms under their hashes. Contracts see the finite map.
#[derive(Drop)]
pub(crate) struct NodeTable {
    entries: HashMap<Hash32, Blob>,
    order: Option<Vec<Hash32>>,
}

impl Model for NodeTable {
    ghost use Rattle.std.specs.Prelude.{ℕ, List, IfSome};
    ghost use Rattle.std.specs.Ordering.{nat_cmp};
    ghost use Rattle.std.specs.Cmp.Lexicographic.{slice_cmp};
    ghost use Rattle.std.specs.FinMap as map;
    ghost use Rattle.std.specs.Coded.{coded_ℕ, coded_list};
    ghost use Rattle.node_backend.specs.Rising.{IsRising};

    ghost Value = { map.FinMap (slice_cmp nat_cmp) (List ℕ) };

    ghost coded = { map.code (coded_list coded_ℕ) (coded_list coded_ℕ) };

    ghost view = { λ a. map.from_entries a.entries.entries };

    ghost invariant = { λ a. IfSome a.order (λ order. IsRising order.items (map.from_entries a.entries.entries)) };
}

impl NodeTable {
    /// Nothing stored.
    pub(crate) fn new(alloc: Global) -> Self
        ensures { result ≡ map.empty }
    {
        NodeTable {
            entries: HashMap::new(alloc),
            order: None,
        }
    }

    /// The form of a hash, or None where none is stored.
    pub(crate) fn get(&self, key: &Hash32) -> Option<&Blob>
        ensures { option_copied result ≡ map.get self.now key.now }
    {
        self.entries.get(key)
    }

    /// The least hash that comes after another one, or the least of all; None where there is none. It takes memory where something was
    /// inserted since it was last asked.
    pub(crate) fn next(
        &mut self,
        alloc: Global,
        after: Option<&Hash32>,
    ) -> Result<Option<Hash32>, Memory>
        ensures same { self.new ≡ self.old }
        ensures next { IfOk result (IsNext self.old (option_copied after.entry)) }
    {
        let order = self.take_order(alloc)?;
        let next = next_in(&order, after);
        self.order = Some(order);
        Ok(next)
    }

    // Takes the rising order out, or makes it.
    fn take_order(&mut self, alloc: Global) -> Result<Vec<Hash32>, Memory>
        ensures same { self.new ≡ self.old }
        ensures rising { IfOk result (λ order. IsRising order.items self.old) }
    {
        match self.order.take() {
            Some(order) => Ok(order),
            None => rising(alloc, &self.entries),
        }
    }

    /// Sets the form of a hash. Where memory is refused nothing changes.
    pub(crate) fn insert(&mut self, key: Hash32, value: Blob) -> Result<(), Memory>
        ensures ok { OnOk result (self.new ≡ map.insert self.old key value) }
        ensures err { OnErr result (self.new ≡ self.old) }
    {
        self.order = None;
        self.entries.insert(key, value)?;
        Ok(())
    }
}

// The hashes, in their order.
fn rising(alloc: Global, entries: &HashMap<Hash32, Blob>) -> Result<Vec<Hash32>, Memory>
    ensures { IfOk result (λ order. IsRising order.items (map.from_entries entries.now.entries)) }
{
    let mut order: Vec<Hash32> = entries.keys().copied().collect(alloc)?;
    order.sort_unstable();
    Ok(order)
}

// The first of the hashes that comes after another one, or the first of all.
fn next_in(order: &[Hash32], after: Option<&Hash32>) -> Option<Hash32>
    ensures { (m : Nodes) → IsRising order.now m → IsNext m (option_copied after.entry) result }
{
    let place = match after {
        None => 0,
        Some(last) => order.partition_point(|h| h.cmp(last).is_le()),
    };
    hash_at(order, place)
}

// The hash at a place, or None behind the last.
fn hash_at(order: &[Hash32], place: usize) -> Option<Hash32>
    ensures { result ≡ slice_get order.now place }
{
    order.get(place).copied()
}

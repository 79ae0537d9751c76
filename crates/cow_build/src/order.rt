//! Items in the order of their keys, or why there is no such order: a key stands twice, or memory was refused.
ghost use Rattle.std.specs.Prelude.{◌≡◌, ◌≤◌, OnOk, IfErr};
ghost use Rattle.std.specs.List.Sorted.{IsPermutation, IsSortedByKey};
ghost use Rattle.ledger_spec.specs.Bytes.{Hash};
ghost use Rattle.ledger_spec.specs.Maps.{hash_cmp, IsMap};
ghost use Rattle.cow_map.specs.Gathered.{entries_of};
ghost use Rattle.cow_build.specs.Building.{times, IsLeastRepeated};
ghost use Rattle.cow_build.specs.declared.order.BuildFault.TheVariants.{Repeated as repeated_key};

use crate::repeated::least_repeated;
use half_hash::{Hash32, Memory};
use shamap_node::Item;
use std::alloc::Global;

/// Why no map is built.
#[derive(Clone, Copy, Debug, PartialEq, Eq)]
pub enum BuildFault {
    /// A key stands twice; it is the least such key.
    Repeated(Hash32),
    /// Memory was refused.
    Memory,
}

impl From<Memory> for BuildFault {
    ghost use Rattle.std.specs.Prelude.{◌≡◌};
    ghost use Rattle.cow_build.specs.declared.order.BuildFault.TheVariants as faults;

    ghost from_gives = { λ _ fault. fault ≡ faults.Memory };

    fn from(_: Memory) -> BuildFault {
        BuildFault::Memory
    }
}

// Puts items in the order of their keys.
fn sort(items: &mut Vec<Item>) -> Result<(), Memory>
    ensures permutation { IsPermutation items.old.items items.new.items }
    ensures sorted { OnOk result (IsSortedByKey (λ item. item.key) hash_cmp items.new.items) }
{
    items.sort_by_key(|item| *item.key())?;
    Ok(())
}

/// Puts items in the order of their keys, where no key stands twice.
pub(crate) fn order(alloc: Global, items: &mut Vec<Item>) -> Result<(), BuildFault>
    ensures permutation { IsPermutation items.old.items items.new.items }
    ensures rising { OnOk result (IsMap hash_cmp (entries_of items.new.items)) }
    ensures once { OnOk result ((key : Hash) → times key items.old.items ≤ 1) }
    ensures repeated { IfErr result (λ f. (key : Hash) → f ≡ repeated_key key → IsLeastRepeated items.old.items key) }
{
    sort(items)?;
    match least_repeated(alloc, items)? {
        Some(key) => Err(BuildFault::Repeated(key)),
        None => Ok(()),
    }
}

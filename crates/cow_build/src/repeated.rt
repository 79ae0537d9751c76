//! The least key that stands twice among items in any order, found with a set of the keys before.
ghost use Rattle.std.specs.Prelude.{◌≡◌, ◌≤◌, Option, Some, if◌then◌else◌, IfOk, OnOk, MatchOption};
ghost use Rattle.ledger_spec.specs.Bytes.{Hash};
ghost use Rattle.cow_build.specs.Building.{times, IsLeastRepeated, lesser as lesser_of};

use half_hash::{Hash32, Memory};
use shamap_node::Item;
use std::alloc::Global;
use std::cmp::Ordering;
use std::collections::BTreeMap;

// The lesser of a key and another one, where there is one.
fn lesser(least: Option<Hash32>, key: Hash32) -> Hash32
    ensures { result ≡ lesser_of least key }
{
    match least {
        Some(other) => match other.cmp(&key) {
            Ordering::Less => other,
            _ => key,
        },
        None => key,
    }
}

/// The least key that stands twice, if any does.
pub(crate) fn least_repeated(alloc: Global, items: &[Item]) -> Result<Option<Hash32>, Memory>
    ensures { IfOk result (λ least. MatchOption least ((key : Hash) → times key items.now ≤ 1) (IsLeastRepeated items.now)) }
{
    let mut keys = BTreeMap::new(alloc);
    let mut least = None;
    for item in items {
        let key = *item.key();
        let before = keys.insert(key, ())?;
        least = with_key(least, key, before.is_some());
    }
    Ok(least)
}

// The least repeated key, after one key more that was there or not.
fn with_key(least: Option<Hash32>, key: Hash32, was_there: bool) -> Option<Hash32>
    ensures { result ≡ (if was_there then Some (lesser_of least key) else least) }
{
    if was_there {
        Some(lesser(least, key))
    } else {
        least
    }
}

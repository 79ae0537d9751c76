//! The account state from ledger to ledger: the keys of a plan's items, the items that no later item has the key of, the state of ledger 1,
//! and what each next ledger sets.
ghost use Rattle.std.specs.Prelude.{◌==◌, ◌≡◌, ◌+◌, ◌-◌, ◌%◌, ◌≤◌, [], ◌∷◌, ◌++◌, if◌then◌else◌, length, IfOk, IsTrue, OnOk};
ghost use Rattle.std.specs.List.{All};
ghost use Rattle.ledger_spec.specs.Bytes.{is_zero, is_nonzero};
ghost use Rattle.ledger_spec.specs.Maps.{hash_cmp, insert_in, IsMap};
ghost use Rattle.ledger_spec.specs.Forms.{data_limit};
ghost use Rattle.cow_map.specs.Gathered.{entries_of};
ghost use Rattle.swarm_gen.specs.Plans.{IsPlan};
ghost use Rattle.swarm_gen.specs.Ledgers.{key as key_of, eight, owners_of, state_of};
ghost use Rattle.swarm_gen.specs.Swarm.{read_keys as keys_read};
ghost use Rattle.swarm_gen.specs.Standing.{IsState, AreStates, KeepsVersions};
ghost use Rattle.map_changes.specs.Tracking.{leaves_in, items_in, versions_in};

use crate::Plan;
use half_hash::{Blob, Hash32, Memory, NodeHash};
use map_changes::Versions;
use shamap_node::{Item, Kind};
use std::alloc::Global;
use std::collections::BTreeMap;

/// An item changes where its number and that of the ledger add up to a multiple of this.
const CHANGED: u64 = 97;

/// How many keys the reader asks for.
const READ: u64 = 20;

/// Key n of the plan.
pub(crate) fn key<H: NodeHash>(plan: &Plan, n: u64) -> Hash32
    ensures { result ≡ key_of H.half plan.now n }
{
    H::half_parts(&plan.number.to_be_bytes(), &n.to_be_bytes(), &[])
}

/// The keys that the reader asks for.
pub(crate) fn read_keys<H: NodeHash>(alloc: Global, plan: &Plan) -> Result<Vec<Hash32>, Memory>
    ensures keys { IfOk result (λ keys. keys.items ≡ keys_read H.half plan.now) }
    ensures nonzero { IfOk result (λ keys. All (λ k. IsTrue (is_nonzero k)) keys.items) }
{
    let mut keys = Vec::new(alloc);
    for i in 0..u64::from(plan.items).min(READ) {
        push_nonzero(&mut keys, key::<H>(plan, i + 1))?;
    }
    Ok(keys)
}

/// Puts a key behind the others, where it isn't zero.
fn push_nonzero(keys: &mut Vec<Hash32>, key: Hash32) -> Result<(), Memory>
    ensures { OnOk result (keys.new.items ≡ keys.old.items ++ (if is_nonzero key then key ∷ [] else [])) }
{
    if !key.is_zero() {
        keys.push(key)?;
    }
    Ok(())
}

/// Sets an item whose data is a number of eight bytes; a zero key is left out.
pub(crate) fn set_number<H: NodeHash>(
    alloc: Global,
    map: &mut Versions<H>,
    key: Hash32,
    n: u64,
) -> Result<(), Memory>
    ensures rest { OnOk result (KeepsVersions map.old map.new) }
    ensures items { OnOk result (items_in map.new
        ≡ (if is_zero key then items_in map.old else insert_in hash_cmp (items_in map.old) key (eight n))) }
{
    let data = Blob::from_slice(alloc, &n.to_be_bytes())?;
    match Item::new(key, data) {
        Ok(item) => {
            map.set(alloc, item)?;
            Ok(())
        }
        Err(_) => Ok(()),
    }
}

/// The items that no later item has the key of, by their keys.
pub(crate) fn owners<H: NodeHash>(
    alloc: Global,
    plan: &Plan,
) -> Result<BTreeMap<Hash32, u32>, Memory>
    requires { IsPlan plan.now }
    ensures { IfOk result (λ owners. owners.entries ≡ owners_of H.half plan.now) }
{
    let mut owners = BTreeMap::new(alloc);
    for i in 0..plan.items {
        add_owner(&mut owners, key::<H>(plan, u64::from(i) + 1), i + 1)?;
    }
    Ok(owners)
}

/// An item becomes the one of its key, unless the key is zero.
fn add_owner(owners: &mut BTreeMap<Hash32, u32>, key: Hash32, item: u32) -> Result<(), Memory>
    ensures { OnOk result (owners.new.entries
        ≡ (if is_zero key then owners.old.entries else insert_in hash_cmp owners.old.entries key item)) }
{
    if !key.is_zero() {
        let _ = owners.insert(key, item)?;
    }
    Ok(())
}

/// The account state of ledger 1.
pub(crate) fn first_state<H: NodeHash>(
    alloc: Global,
    plan: &Plan,
    owners: &BTreeMap<Hash32, u32>,
) -> Result<Versions<H>, Memory>
    requires { owners.now.entries ≡ owners_of H.half plan.now }
    ensures { IfOk result (λ state. IsState H.half plan.now 1 (leaves_in state) (items_in state) (versions_in state)) }
{
    let mut items = Vec::new(alloc);
    for (key, _) in owners {
        let data = Blob::from_slice(alloc, &1u64.to_be_bytes())?;
        push_item(&mut items, *key, data)?;
    }
    Versions::from_sorted(alloc, Kind::State, items)
}

/// Puts an item behind the others, where its key isn't zero.
fn push_item(items: &mut Vec<Item>, key: Hash32, value: Blob) -> Result<(), Memory>
    requires { length value ≤ data_limit }
    ensures { OnOk result (entries_of items.new.items
        ≡ entries_of items.old.items ++ (if is_nonzero key then (key, value) ∷ [] else [])) }
{
    if let Ok(item) = Item::new(key, value) {
        items.push(item)?;
    }
    Ok(())
}

/// The items with their keys, in the order of the keys, one behind the other: each ledger looks at all of them.
pub(crate) fn listed(
    alloc: Global,
    owners: &BTreeMap<Hash32, u32>,
) -> Result<Vec<(Hash32, u32)>, Memory>
    ensures items { IfOk result (λ listed. listed.items ≡ owners.now.entries) }
    ensures sorted { IfOk result (λ listed. IsMap hash_cmp listed.items) }
{
    let mut listed = Vec::new(alloc);
    for (key, item) in owners {
        listed.push((*key, *item))?;
    }
    Ok(listed)
}

/// The account state of the next ledger.
pub(crate) fn advance<H: NodeHash>(
    alloc: Global,
    plan: &Plan,
    owners: &[(Hash32, u32)],
    state: &mut Versions<H>,
    seq: u32,
) -> Result<(), Memory>
    requires owners { owners.now ≡ owners_of H.half plan.now }
    requires sorted { IsMap hash_cmp owners.now }
    requires seq { 2 ≤ seq }
    requires items { items_in state.old ≡ state_of H.half plan.now (seq - 1) }
    ensures rest { OnOk result (KeepsVersions state.old state.new) }
    ensures items { OnOk result (items_in state.new ≡ state_of H.half plan.now seq) }
{
    for (key, item) in owners {
        set_where_due::<H>(alloc, state, *key, *item, seq)?;
    }
    Ok(())
}

/// Sets the data of an item where the ledger changes it.
fn set_where_due<H: NodeHash>(
    alloc: Global,
    state: &mut Versions<H>,
    key: Hash32,
    item: u32,
    seq: u32,
) -> Result<(), Memory>
    ensures rest { OnOk result (KeepsVersions state.old state.new) }
    ensures items { OnOk result (items_in state.new ≡ (if (item + seq) % 97 == 0
        then (if is_zero key then items_in state.old else insert_in hash_cmp (items_in state.old) key (eight seq))
        else items_in state.old)) }
{
    if (u64::from(item) + u64::from(seq)) % CHANGED == 0 {
        set_number::<H>(alloc, state, key, u64::from(seq))?;
    }
    Ok(())
}

/// The account states of all ledgers, one version each.
pub(crate) fn all_states<H: NodeHash>(alloc: Global, plan: &Plan) -> Result<Versions<H>, Memory>
    requires { IsPlan plan.now }
    ensures { IfOk result (λ states. AreStates H.half plan.now plan.now.ledgers (leaves_in states) (versions_in states)) }
{
    let owners = owners::<H>(alloc, plan)?;
    let mut states = first_state::<H>(alloc, plan, &owners)?;
    let owners = listed(alloc, &owners)?;
    states.keep()?;
    for j in 1..plan.ledgers {
        advance::<H>(alloc, plan, &owners, &mut states, j + 1)?;
        states.keep()?;
    }
    Ok(states)
}

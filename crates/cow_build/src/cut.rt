//! Items in order are cut into sixteen parts, by the first nibbles of their keys.
ghost use Rattle.std.specs.Prelude.{◌≡◌, ◌≢◌, ◌≤◌, ◌<◌, ℕ, Some, length, vec_len, IfOk};
ghost use Rattle.std.specs.List.{slice_get};
ghost use Rattle.nib_path.specs.Paths.{nibble_of};
ghost use Rattle.ledger_spec.specs.Maps.{hash_cmp, IsMap};
ghost use Rattle.shamap_node.specs.declared.parts.Item.{Item as ItemOf};
ghost use Rattle.cow_map.specs.Gathered.{entries_of};
ghost use Rattle.cow_build.specs.Building.{IsCut};

use half_hash::Memory;
use nib_path::nibble;
use shamap_node::Item;
use std::alloc::Global;

/// The sixteen parts of items whose keys rise: one for each first nibble.
pub(crate) fn cut(alloc: Global, items: Vec<Item>) -> Result<Vec<Vec<Item>>, Memory>
    requires { IsMap hash_cmp (entries_of items.items) }
    ensures sixteen { IfOk result (λ parts. vec_len parts ≡ 16) }
    ensures cut { IfOk result (λ parts. IsCut items.items parts.items) }
{
    let mut parts = Vec::new(alloc);
    let mut rest = items;
    for b in 0..16u8 {
        let n = front_len(&rest, b);
        let behind = rest.split_off(n)?;
        parts.push(rest)?;
        rest = behind;
    }
    Ok(parts)
}

// How many items at the front have this first nibble.
fn front_len(items: &[Item], b: u8) -> usize
    ensures within { result ≤ length items.now }
    ensures front { (i : ℕ) (item : ItemOf) → i < result → slice_get items.now i ≡ Some item → nibble_of item.key 0 ≡ b }
    ensures next { (item : ItemOf) → slice_get items.now result ≡ Some item → nibble_of item.key 0 ≢ b }
    ensures small { (item : ItemOf) → slice_get items.now result ≡ Some item → nibble_of item.key 0 < 16 }
{
    for (at, item) in items.iter().enumerate() {
        if nibble(&item.key().bytes, 0) != b {
            return at;
        }
    }
    items.len()
}

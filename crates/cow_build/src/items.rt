//! The call of this crate, `build`: items are put in order, cut into sixteen parts, and gathered into one map.
ghost use Rattle.std.specs.Prelude.{◌≡◌, ◌≤◌, ◌<◌, IfOk, IfErr};
ghost use Rattle.ledger_spec.specs.Bytes.{Hash};
ghost use Rattle.cow_build.specs.Building.{times, IsLeastRepeated, IsMapOf};
ghost use Rattle.cow_build.specs.declared.order.BuildFault.TheVariants.{Repeated as repeated_key};

use crate::BuildFault;
use crate::cut::cut;
use crate::order::order;
use crate::threads::build_parts;
use cow_map::CowMap;
use ledger_spec::Kind;
use shamap_node::Item;
use std::alloc::Global;
use std::thread::Threads;

/// The map of the items: their parts by first nibbles are built in threads, at most `workers` at a time, and gathered. The same
/// is promised of the answer for any `workers`.
pub fn build<R: Threads + Sync>(
    rt: &R,
    alloc: Global,
    kind: Kind,
    items: Vec<Item>,
    workers: usize,
) -> Result<CowMap, BuildFault>
    requires { 0 < workers }
    ensures kind { IfOk result (λ m. m.kind ≡ kind) }
    ensures stands { IfOk result (IsMapOf items.items) }

    // no key stands twice, or the least that does is named
    ensures once { IfOk result (λ m. (key : Hash) → times key items.items ≤ 1) }
    ensures repeated { IfErr result (λ f. (key : Hash) → f ≡ repeated_key key → IsLeastRepeated items.items key) }
{
    let mut sorted = items;
    order(alloc, &mut sorted)?;
    let parts = cut(alloc, sorted)?;
    let maps = build_parts(rt, alloc, kind, parts, workers)?;
    Ok(CowMap::gather(alloc, kind, maps)?)
}

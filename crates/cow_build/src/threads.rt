//! Parts that are built in threads.
ghost use Rattle.std.specs.Prelude.{◌≡◌, ◌<◌, map, IfOk, Ok};
ghost use Rattle.std.specs.List.{All, AllByRecursion};
ghost use Rattle.ledger_spec.specs.Bytes.{Half, Lookup};
ghost use Rattle.ledger_spec.specs.Maps.{hash_cmp, IsMap};
ghost use Rattle.cow_map.specs.Gathered.{entries_of};
ghost use Rattle.cow_map.specs.Trees.{StandsFor};
ghost use Rattle.cow_build.specs.Building.{EachStands};

use cow_map::CowMap;
use half_hash::Memory;
use ledger_spec::Kind;
use shamap_node::Item;
use std::alloc::Global;
use std::thread;
use std::thread::Threads;

/// A map of each list of items whose keys rise. At most `workers` are built at a time, each in a thread of its own where one can be
/// made.
pub(crate) fn build_parts<R: Threads + Sync>(
    rt: &R,
    alloc: Global,
    kind: Kind,
    parts: Vec<Vec<Item>>,
    workers: usize,
) -> Result<Vec<CowMap>, Memory>
    requires some { 0 < workers }
    requires rising { AllByRecursion (λ part. IsMap hash_cmp (entries_of part.items)) parts.items }
    ensures kinds { IfOk result (λ maps. AllByRecursion (λ m. m.kind ≡ kind) maps.items) }
    ensures stands { IfOk result (λ maps. EachStands maps.items (map (λ part. entries_of part.items) parts.items)) }
{
    let mut maps = Vec::new(alloc);
    let mut rest = parts;
    while !rest.is_empty() {
        let n = workers.min(rest.len());
        let behind = rest.split_off(n)?;
        let mut built = build_side_by_side(rt, alloc, kind, rest)?;
        maps.append(&mut built)?;
        rest = behind;
    }
    Ok(maps)
}

// A map of each list, each in a thread of its own where one can be made.
fn build_side_by_side<R: Threads + Sync>(
    rt: &R,
    alloc: Global,
    kind: Kind,
    parts: Vec<Vec<Item>>,
) -> Result<Vec<CowMap>, Memory>
    requires { All (λ part. IsMap hash_cmp (entries_of part.items)) parts.items }
    ensures kinds { IfOk result (λ maps. AllByRecursion (λ m. m.kind ≡ kind) maps.items) }
    ensures stands { IfOk result (λ maps. EachStands maps.items (map (λ part. entries_of part.items) parts.items)) }
{
    let build = |part: Vec<Item>| -> Result<CowMap, Memory>
        requires { IsMap hash_cmp (entries_of part.items) }
        ensures kind { IfOk result (λ m. m.kind ≡ kind) }
        ensures stands { IfOk result (λ m. (half : Half) (stored : Lookup) → StandsFor half stored m (entries_of part.items)) }
    { CowMap::from_sorted(alloc, kind, part) };
    let built = thread::map_vec(rt, parts, &build)?;
    let maps = all_of(alloc, built)?;
    Ok(maps)
}

// All maps, where each was built.
fn all_of(alloc: Global, built: Vec<Result<CowMap, Memory>>) -> Result<Vec<CowMap>, Memory>
    ensures { IfOk result (λ maps. map Ok maps.items ≡ built.items) }
{
    let mut maps = Vec::new(alloc);
    for map in built {
        maps.push(map?)?;
    }
    Ok(maps)
}

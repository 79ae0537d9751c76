//! A map that is edited over a ledger's root.
use crate::records::{Records, key, known_records};
use cow_map::{CowMap, Sealed};
use half_hash::{Blob, Hash32, TinyHash};
use shamap_node::{Item, Kind};
use std::alloc::Global;
use std::process::Abort;
use std::test::Fail;

/// Steps over the root DE, with the first byte of a key as a number, and what is sealed then: the first byte of the root and of each form's
/// hash, in hex. `keep` takes a snapshot, and `old` goes back to it. What the ledger has is made by nobody.
const STEPS: &str = "keep => DE
del 32 => DE
put 17 => BF FD DB BF
del 17 => DE DE
put 17 => BF FD DB BF
del 16 => E1 FD E1
del 16 => E1 FD E1
del 17 => 00
old 0 => DE";

/// A map, and a snapshot of it.
#[derive(Drop)]
struct Maps {
    map: CowMap,
    kept: CowMap,
}

fn put(alloc: Global, map: &mut CowMap, source: &mut Records, at: &str) -> Result<(), Fail> {
    let value = Blob::from_slice(alloc, &[5])?;
    let item = Item::new(key(at)?, value).ok().ok_or("no item")?;
    let put = map.put::<TinyHash, Records>(alloc, source, item);
    put.ok().ok_or("no put")?;
    Ok(())
}

fn remove(alloc: Global, map: &mut CowMap, source: &mut Records, at: &str) -> Result<(), Fail> {
    let at = key(at)?;
    let removed = map.remove::<TinyHash, Records>(alloc, source, &at);
    removed.ok().ok_or("not removed")?;
    Ok(())
}

fn step(
    alloc: Global,
    maps: &mut Maps,
    source: &mut Records,
    word: &str,
    at: &str,
) -> Result<(), Fail> {
    match word {
        "put" => put(alloc, &mut maps.map, source, at),
        "del" => remove(alloc, &mut maps.map, source, at),
        "keep" => {
            maps.kept = maps.map.snapshot(alloc)?;
            Ok(())
        }
        _ => {
            maps.map = maps.kept.snapshot(alloc)?;
            Ok(())
        }
    }
}

/// Adds the first byte of the hash.
fn add_first(alloc: Global, said: &mut String, hash: &Hash32) -> Result<(), Fail> {
    let digits = hex::encode_upper(alloc, &[hash.bytes[0]])?;
    said.push_str(&digits)?;
    Ok(())
}

/// The first bytes of the root and of each form's hash.
fn firsts(alloc: Global, sealed: &Sealed) -> Result<String, Fail> {
    let mut said = String::new(alloc);
    add_first(alloc, &mut said, &sealed.root)?;
    for form in &sealed.forms {
        said.push(' ')?;
        add_first(alloc, &mut said, &form.hash)?;
    }
    Ok(said)
}

/// The same of what is sealed of a map.
fn sealed(alloc: Global, map: &CowMap) -> Result<String, Fail> {
    let sealed = map.seal::<TinyHash>(alloc).ok().ok_or("no seal")?;
    firsts(alloc, &sealed)
}

/// A line's step, and what is sealed then.
fn run_line(
    rt: &impl Abort,
    alloc: Global,
    maps: &mut Maps,
    source: &mut Records,
    line: &str,
) -> Result<(), Fail> {
    let (words, says) = line.split_once(" => ").ok_or("answer")?;
    let (word, at) = words.split_once(' ').unwrap_or((words, "0"));
    step(alloc, maps, source, word, at)?;
    let said = sealed(alloc, &maps.map)?;
    assert_eq!(rt; said.as_str(), says, "{line}");
    Ok(())
}

/// All steps.
fn run(rt: &impl Abort, alloc: Global, maps: &mut Maps, source: &mut Records) -> Result<(), Fail> {
    for line in STEPS.lines() {
        run_line(rt, alloc, maps, source, line)?;
    }
    Ok(())
}

/// A map over the root, and none kept.
fn begun(alloc: Global) -> Result<Maps, Fail> {
    let map = CowMap::over(alloc, Kind::State, &key("222")?);
    let kept = CowMap::new(alloc, Kind::State);
    Ok(Maps { map, kept })
}

#[test]
fn a_map_over_a_ledger(rt: HostRuntime) -> Result<(), Fail> {
    let alloc = rt.alloc();
    let mut source = known_records(alloc)?;
    let mut maps = begun(alloc)?;
    run(&rt, alloc, &mut maps, &mut source)
}

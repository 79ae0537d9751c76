//! Maps of two items whose keys differ in the last byte, so that an inner node stands at each depth: built of items at once, and gathered
//! of sixteen maps.
use cow_build::{BuildFault, build};
use cow_map::CowMap;
use half_hash::{Blob, Half512, Hash32};
use path_proof::NoSource;
use shamap_node::{Item, Kind};
use std::alloc::Global;
use std::test::Fail;

/// The root, which the tools' tree of dictionaries has too, how many forms there are, and how many of inner nodes.
const DEEP: &str = "C4F871D623DA149FC4FC6A69A567C163C084F0719B55C6BF4A3D96F9983010F1 66 64";

/// The item of this key's first and last byte, with the data 1 2.
fn item(alloc: Global, first: u8, last: u8) -> Result<Item, Fail> {
    let mut bytes = [0; 32];
    bytes[0] = first;
    bytes[31] = last;
    let value = Blob::from_slice(alloc, &[1, 2])?;
    Ok(Item::new(Hash32 { bytes }, value).ok().ok_or("no item")?)
}

/// What is sealed of a map.
fn sealed(alloc: Global, map: &CowMap) -> Result<String, Fail> {
    let sealed = map.seal::<Half512>(alloc).ok().ok_or("no seal")?;
    let mut inner: usize = 0;
    for form in &sealed.forms {
        if form.form.bytes().len() == 516 {
            inner = inner.saturating_add(1);
        }
    }
    let root = hex::encode_upper(alloc, &sealed.root.bytes)?;
    let forms = sealed.forms.len();
    Ok(format!(in alloc; "{root} {forms} {inner}")?)
}

/// Puts the item of this last byte.
fn put(alloc: Global, map: &mut CowMap, last: u8) -> Result<(), Fail> {
    let item = item(alloc, 0x10, last)?;
    let put = map.put::<Half512, NoSource>(alloc, &mut NoSource, item);
    put.ok().ok_or("no put")?;
    Ok(())
}

/// Both items where the first nibble is theirs, or none.
fn part(alloc: Global, b: u8) -> Result<CowMap, Fail> {
    let mut map = CowMap::new(alloc, Kind::State);
    if b == 1 {
        put(alloc, &mut map, 0)?;
        put(alloc, &mut map, 1)?;
    }
    Ok(map)
}

#[test]
fn a_deep_map_is_gathered(rt: HostRuntime) -> Result<(), Fail> {
    let alloc = rt.alloc();
    let mut parts = Vec::new(alloc);
    for b in 0..16u8 {
        parts.push(part(alloc, b)?)?;
    }
    if parts.len() != 16 {
        return Err("no sixteen parts".into());
    }
    let map = CowMap::gather(alloc, Kind::State, parts)?;
    assert_eq!(rt; sealed(alloc, &map)?.as_str(), DEEP);
    Ok(())
}

/// Items of these first and last bytes.
fn items(alloc: Global, keys: &[(u8, u8)]) -> Result<Vec<Item>, Fail> {
    let mut items = Vec::new(alloc);
    for (first, last) in keys {
        items.push(item(alloc, *first, *last)?)?;
    }
    Ok(items)
}

#[test]
fn a_deep_map_is_built(rt: HostRuntime) -> Result<(), Fail> {
    let alloc = rt.alloc();
    for workers in [1, 5, 16] {
        let items = items(alloc, &[(0x10, 1), (0x10, 0)])?;
        let map = build(&rt, alloc, Kind::State, items, workers);
        let map = map.ok().ok_or("not built")?;
        assert_eq!(rt; sealed(alloc, &map)?.as_str(), DEEP, "{workers}");
    }
    Ok(())
}

/// The first byte of the key that stands twice.
fn repeated(fault: BuildFault) -> u8 {
    match fault {
        BuildFault::Repeated(key) => key.bytes[0],
        BuildFault::Memory => 0,
    }
}

#[test]
fn the_least_key_that_stands_twice_is_named(rt: HostRuntime) -> Result<(), Fail> {
    let alloc = rt.alloc();
    let items = items(alloc, &[(3, 0), (2, 0), (1, 0), (3, 0), (2, 0)])?;
    let fault = build(&rt, alloc, Kind::State, items, 4).err();
    let named = repeated(fault.ok_or("built")?);
    assert_eq!(rt; named, 2);
    Ok(())
}

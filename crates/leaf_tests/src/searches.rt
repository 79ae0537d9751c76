//! A search in slices over a ledger of 600 accounts, in which the generation turns, and in which a leaf comes between two slices.
ghost use Rattle.std.specs.Prelude.{◌≡◌};

use crate::walks::empty;
use cow_build::build;
use cow_map::{FormOf, Sealed};
use full_below::Marks;
use half_hash::{Blob, Half512, Hash32};
use ledger_header::Header;
use missing_walk::{Search, Slice};
use node_backend::MemShelf;
use rotating_store::RotStore;
use shamap_node::{Item, Kind};
use std::alloc::Global;
use std::process::Abort;
use std::test::Fail;
use std::thread::Threads;
use tree_cache::TreeCache;

/// Accounts whose keys differ in their first two bytes.
fn accounts(alloc: Global) -> Result<Vec<Item>, Fail> {
    let mut items = Vec::new(alloc);
    for number in 1..=600u16 {
        let mut bytes = [0; 32];
        bytes[0] = number.to_be_bytes()[0];
        bytes[1] = number.to_be_bytes()[1];
        let value = Blob::from_slice(alloc, &[5])?;
        let item = Item::new(Hash32 { bytes }, value);
        items.push(item.ok().ok_or("no item")?)?;
    }
    Ok(items)
}

/// The header of a ledger with this account state and no transactions.
fn header_over(state_root: Hash32) -> Header {
    Header {
        seq: 9,
        drops: 1,
        parent: Hash32::zero(),
        tx_root: Hash32::zero(),
        state_root,
        parent_close: 0,
        close: 0,
        resolution: 10,
        flags: 0,
    }
}

/// A search of a ledger in a store, with marks and a cache of its own, and a form of the ledger under its hash that isn't stored yet.
#[derive(Drop)]
struct Bench {
    store: RotStore<MemShelf>,
    cache: TreeCache,
    marks: Marks,
    search: Search,
    late_hash: Hash32,
    late: Blob,
    ghost one_generation: { cache.generation ≡ marks.generation },
}

/// The forms of the accounts' map.
fn sealed<R: Threads + Sync>(rt: &R, alloc: Global) -> Result<Sealed, Fail> {
    let Ok(map) = build(rt, alloc, Kind::State, accounts(alloc)?, 1) else {
        return Err("no map".into());
    };
    Ok(map.seal::<Half512>(alloc).ok().ok_or("no seal")?)
}

impl Bench {
    /// A search of a ledger of which nothing is stored.
    fn begin(alloc: Global, target: Hash32) -> Result<Bench, Fail> {
        Ok(Bench {
            store: empty(alloc).ok_or("no store")?,
            cache: TreeCache::new(alloc, 1024)?,
            marks: Marks::new(alloc, 1024)?,
            search: Search::start(alloc, &target)?,
            late_hash: target,
            late: Blob::from_slice(alloc, &[])?,
        })
    }

    /// Stores a map's forms but for the one at a place of their list, where there is one, which is kept.
    fn fill(&mut self, alloc: Global, forms: &[FormOf], late: usize) -> Result<(), Fail> {
        for (at, new) in forms.iter().enumerate() {
            if at == late {
                self.keep(alloc, new)?;
            } else {
                self.put(alloc, &new.hash, new.form.bytes())?;
            }
        }
        Ok(())
    }

    fn keep(&mut self, alloc: Global, new: &FormOf) -> Result<(), Fail> {
        self.late = Blob::from_slice(alloc, new.form.bytes())?;
        self.late_hash = new.hash;
        Ok(())
    }

    fn put(&mut self, alloc: Global, hash: &Hash32, form: &[u8]) -> Result<(), Fail> {
        match self.store.put::<Half512>(alloc, hash, form) {
            Ok(_) => Ok(()),
            Err(_) => Err("not stored".into()),
        }
    }

    /// Stores the form that was left out.
    fn put_late(&mut self, alloc: Global) -> Result<(), Fail> {
        let hash = self.late_hash;
        let form = Blob::from_slice(alloc, self.late.bytes())?;
        self.put(alloc, &hash, form.bytes())
    }

    /// The next generation of the marks and the cache begins.
    fn turn(&mut self) {
        if self.marks.generation() < u64::MAX {
            self.cache.turn();
            self.marks.turn();
        }
    }

    /// A slice of 256 places, in a word or two.
    fn slice(&mut self, alloc: Global) -> Result<String, Fail> {
        let slice = self.search.slice::<Half512, MemShelf>(
            alloc,
            &mut self.store,
            &mut self.cache,
            &mut self.marks,
            256,
        );
        let text = match slice {
            Ok(Slice::More) => format!(in alloc; "more")?,
            Ok(Slice::Stale { seen, now }) => format!(in alloc; "stale {seen} {now}")?,
            Ok(Slice::Done(found)) => {
                let lacked = found.missing.len();
                format!(in alloc; "done {lacked}")?
            }
            Err(_) => format!(in alloc; "refused")?,
        };
        Ok(text)
    }
}

/// A search of the ledger whose forms are stored but for the one at a place of the list of its map's forms.
fn searching<R: Threads + Sync>(rt: &R, alloc: Global, late: usize) -> Result<Bench, Fail> {
    let sealed = sealed(rt, alloc)?;
    let header = header_over(sealed.root);
    let target = header.hash::<Half512>();
    let mut bench = Bench::begin(alloc, target)?;
    bench.put(alloc, &target, &header.form())?;
    bench.fill(alloc, &sealed.forms, late)?;
    Ok(bench)
}

/// Does each line: the generation turns, the form that was left out comes, or a slice is done and answers so.
fn run(rt: &impl Abort, alloc: Global, bench: &mut Bench, steps: &str) -> Result<(), Fail> {
    for step in steps.lines() {
        match step {
            "turn" => bench.turn(),
            "put" => bench.put_late(alloc)?,
            _ => assert_eq!(rt; bench.slice(alloc)?.as_str(), step),
        }
    }
    Ok(())
}

#[test]
fn a_search_begins_anew_where_the_generation_has_turned(rt: HostRuntime) -> Result<(), Fail> {
    let mut bench = searching(&rt, rt.alloc(), usize::MAX)?;
    run(
        &rt,
        rt.alloc(),
        &mut bench,
        "more\nturn\nstale 0 1\nmore\nmore\ndone 0",
    )
}

#[test]
fn a_leaf_that_comes_between_slices_is_found(rt: HostRuntime) -> Result<(), Fail> {
    let mut bench = searching(&rt, rt.alloc(), 3)?;
    run(&rt, rt.alloc(), &mut bench, "more\nmore\nput\ndone 0")
}

#[test]
fn a_leaf_that_does_not_come_is_missing(rt: HostRuntime) -> Result<(), Fail> {
    let mut bench = searching(&rt, rt.alloc(), 3)?;
    run(&rt, rt.alloc(), &mut bench, "more\nmore\ndone 1")
}

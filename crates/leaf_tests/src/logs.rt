//! A store over a log shelf whose disks stop after each number of changing calls, and what is recovered then.
use half_hash::{Hash32, NodeHash, TinyHash};
use ledger_machine::Record;
use log_recovery::{images, recover};
use log_shelf::{LogShelf, MemRoom};
use rotating_store::{Parts, RotStore};
use std::alloc::Global;
use std::test::Fail;

/// A run changes its disks so many times where nothing stops it.
const CALLS: u64 = 59;

/// The form of an account state's leaf whose key has this first byte.
fn form(alloc: Global, first: u8) -> Result<Vec<u8>, Fail> {
    let mut key = [0; 32];
    key[0] = first;
    let mut form = Vec::from_slice(alloc, "MLN\0data".as_bytes())?;
    form.extend_from_slice(&key)?;
    Ok(form)
}

/// Puts a form, which a stopped disk may refuse.
fn put(alloc: Global, store: &mut RotStore<LogShelf<MemRoom>>, first: u8) -> Result<(), Fail> {
    let form = form(alloc, first)?;
    let _ = store.put::<TinyHash>(alloc, &TinyHash::half(&form), &form);
    Ok(())
}

/// Drops the archive, where a fresh backend can be had.
fn turn(alloc: Global, store: &mut RotStore<LogShelf<MemRoom>>) {
    if store.prepare(alloc).is_ok() && store.epoch() < 9 {
        store.swap();
    }
}

/// Three forms, of which the first is kept by the second of two swaps, and one form more.
fn run(alloc: Global, store: &mut RotStore<LogShelf<MemRoom>>) -> Result<(), Fail> {
    for first in 1..4u8 {
        put(alloc, store, first)?;
    }
    turn(alloc, store);
    let _ = store.forward(alloc, &TinyHash::half(&form(alloc, 1)?));
    put(alloc, store, 4)?;
    turn(alloc, store);
    Ok(())
}

/// Whether one of the records has the hash.
fn is_found(records: &[Record], hash: &Hash32) -> bool {
    for one in records {
        if one.hash.equals(hash) {
            return true;
        }
    }
    false
}

/// How many hashes of the store no record has.
fn lost(
    alloc: Global,
    store: &mut RotStore<LogShelf<MemRoom>>,
    records: &[Record],
) -> Result<u64, Fail> {
    let mut lost: u64 = 0;
    let mut last = None;
    for _ in 0..9u8 {
        let next = store.next(alloc, last.as_ref());
        let Some(hash) = next.ok().ok_or("no next")? else {
            break;
        };
        if !is_found(records, &hash) {
            lost = lost.saturating_add(1);
        }
        last = Some(hash);
    }
    Ok(lost)
}

/// What a stop leaves of the store's disks, by pick.
fn left(alloc: Global, store: &RotStore<LogShelf<MemRoom>>, pick: u8) -> Result<MemRoom, Fail> {
    let parts = store.parts();
    let room = images(alloc, &parts, pick);
    let Parts {
        shelf: _shelf,
        writable: _writable,
        archive: _archive,
        ready: _ready,
    } = parts;
    Ok(room?)
}

/// What is recovered of a room.
fn recovered(alloc: Global, room: &mut MemRoom) -> Result<Vec<Record>, Fail> {
    let records = recover::<TinyHash, MemRoom>(alloc, room);
    Ok(records.ok().ok_or("not recovered")?)
}

/// What is recovered of what a stop leaves of the store's disks, by pick.
fn found(
    alloc: Global,
    store: &RotStore<LogShelf<MemRoom>>,
    pick: u8,
) -> Result<Vec<Record>, Fail> {
    let mut room = left(alloc, store, pick)?;
    recovered(alloc, &mut room)
}

/// How many records are found behind a run over the store, and how many are lost.
fn counted(
    alloc: Global,
    store: &mut RotStore<LogShelf<MemRoom>>,
    pick: u8,
) -> Result<String, Fail> {
    run(alloc, store)?;
    let records = found(alloc, store, pick)?;
    let lost = lost(alloc, store, &records)?;
    let found = records.len();
    Ok(format!(in alloc; "{found} {lost}")?)
}

/// A store over this room, where one can be opened.
fn opened(alloc: Global, room: MemRoom) -> Option<RotStore<LogShelf<MemRoom>>> {
    match LogShelf::new(alloc, room) {
        Ok(shelf) => RotStore::open(alloc, shelf).ok(),
        Err(_) => None,
    }
}

/// A run that stops after so many calls: how many records are found, and how many are lost. `- -` where no store was opened.
fn stopped(alloc: Global, at: u64, pick: u8) -> Result<String, Fail> {
    let room = MemRoom::new(alloc, Some(at))?;
    match opened(alloc, room) {
        Some(store) => {
            let mut store = store;
            counted(alloc, &mut store, pick)
        }
        None => Ok(String::from_str(alloc, "- -")?),
    }
}

#[test]
fn a_stop_at_any_call_loses_no_form(rt: HostRuntime) -> Result<(), Fail> {
    let alloc = rt.alloc();
    for at in 0..CALLS {
        for pick in 0..3u8 {
            let said = stopped(alloc, at, pick)?;
            assert!(rt;
                said.ends_with(" 0") || said.as_str() == "- -",
                "{at} {pick}: {said}"
            );
        }
    }
    Ok(())
}

/// A stop and a pick, and what is told of it. One call less, and the log that the last swap dropped is still live.
const KEPT: [(u64, u8, &str); 4] = [
    (59, 0, "2 0"),
    (59, 1, "2 0"),
    (59, 2, "2 0"),
    (58, 0, "4 0"),
];

#[test]
fn what_was_kept_is_found_where_nothing_stops(rt: HostRuntime) -> Result<(), Fail> {
    for (at, pick, says) in &KEPT {
        let said = stopped(rt.alloc(), *at, *pick)?;
        assert_eq!(rt; said.as_str(), *says, "{at} {pick}");
    }
    Ok(())
}

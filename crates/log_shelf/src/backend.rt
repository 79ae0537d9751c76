//! A backend whose pairs are entries of a log, with the place of each value in memory.
ghost use Rattle.std.specs.Prelude.{◌≡◌, ◌≢◌, ◌≤◌, ◌+◌, ◌++◌, true, false, None, take, IfOk, OnOk};
ghost use Rattle.std.specs.Prelude.{OnErr};
ghost use Rattle.std.specs.FinMap as map;
ghost use Rattle.std.specs.Option.{option_copied};
ghost use Rattle.node_backend.specs.Order.{IsNext};
ghost use Rattle.run_io.specs.Bytes.{Rose};
ghost use Rattle.node_backend.specs.Counts.{CountsGet};
ghost use Rattle.node_backend.specs.Faults.{LeavesDevice, OnFault};
ghost use Rattle.node_backend.specs.Filling.{filled};
ghost use Rattle.node_backend.specs.Doubts.{MayDoubt, FailedPut, SetsPair, Doubts};
ghost use Rattle.log_shelf.specs.Places.{Shows};
ghost use Rattle.log_shelf.specs.Backends.{held_in, pair_in_doubt};

use crate::index::Index;
use crate::log::Log;
use crate::{Disk, Place64};
use half_hash::{Blob, Hash32};
use node_backend::{BackFault, Backend};
use std::alloc::{AllocError, Global};

/// What stands between a gate and the value of its entry: the length and the hash.
const VALUE: u64 = 41;

/// A backend on the disk of its number. A pair counts once the last sync behind it answered; one whose gate is in doubt may stand on the
/// disk or not.
#[derive(Drop)]
pub struct LogBackend<D: Disk> {
    pub(crate) number: u64,
    pub(crate) log: Log<D>,
    index: Index,
    gets: u64,
    faults: u64,
    ghost own: { D.number log.disk ≡ number },
    ghost indexed: { Shows index (take log.tail (D.seen log.disk)) (held_in log.tail (D.seen log.disk)) },
}

/// The bytes of an entry.
fn entry_bytes(alloc: Global, h: &Hash32, form: &[u8]) -> Result<Vec<u8>, AllocError>
    ensures { IfOk result (λ entry. entry.items ≡ h.now ++ form.now) }
{
    let mut entry = Vec::from_slice(alloc, &h.bytes)?;
    entry.extend_from_slice(form)?;
    Ok(entry)
}

/// Counts a fault of the disk.
pub(crate) fn count_fault<T>(
    faults: &mut u64,
    outcome: Result<T, BackFault>,
) -> Result<T, BackFault>
    ensures same { result ≡ outcome }
    ensures later { faults.old ≤ faults.new }
    ensures cause { result ≡ Err BackFault.Fault → Rose faults.old faults.new }
    ensures quiet { result ≢ Err BackFault.Fault → faults.new ≡ faults.old }
{
    if let Err(BackFault::Fault) = &outcome {
        *faults = faults.saturating_add(1);
    }
    outcome
}

/// Adds a pair to a log, and its place to the index, which grows first.
fn store_pair<D: Disk>(
    alloc: Global,
    index: &mut Index,
    log: &mut Log<D>,
    h: &Hash32,
    form: &[u8],
) -> Result<(), BackFault>
    requires shows { Shows index.old (take log.old.tail (D.seen log.old.disk)) (held_in log.old.tail (D.seen log.old.disk)) }
    ensures shows { Shows index.new (take log.new.tail (D.seen log.new.disk)) (held_in log.new.tail (D.seen log.new.disk)) }
    ensures pair { SetsPair (held_in log.old.tail (D.seen log.old.disk)) (held_in log.new.tail (D.seen log.new.disk)) h.now form.now
        result }
    ensures sure { OnOk result (log.new.doubt ≡ false) }
    ensures doubted { OnErr result (MayDoubt (pair_in_doubt log.old.tail log.old.doubt (D.seen log.old.disk)) (h.now, form.now)
        (pair_in_doubt log.new.tail log.new.doubt (D.seen log.new.disk))) }
    ensures device { LeavesDevice D.number D.faults (OnFault result) log.old.disk log.new.disk }
{
    h.known();
    let entry = entry_bytes(alloc, h, form)?;
    let place = Place64 {
        at: log.tail + VALUE,
        len: form.len() as u64,
    };
    let before = index.set(*h, place)?;
    match log.append(alloc, &entry) {
        Ok(()) => Ok(()),
        Err(fault) => {
            index.unset(*h, before);
            Err(fault)
        }
    }
}

impl<D: Disk> LogBackend<D> {
    ghost use Rattle.log_shelf.specs.Adding.{IsEmptyLog};
    ghost use Rattle.log_shelf.specs.Stops.{IsNewBackend};

    /// A backend over a log without entries.
    pub(crate) fn over(alloc: Global, number: u64, log: Log<D>) -> LogBackend<D>
        requires { IsEmptyLog number log }
        ensures backend { IsNewBackend number result }
        ensures log { result.log ≡ log }
    {
        LogBackend {
            number,
            log,
            index: Index::new(alloc),
            gets: 0,
            faults: 0,
        }
    }
}

impl<D: Disk + Send> Backend for LogBackend<D> {
    ghost use Rattle.std.specs.Prelude.{true};
    ghost use Rattle.log_shelf.specs.Stops.{held_of, doubt_of, LeavesLog};

    ghost tells = { true };

    ghost held = { λ b. held_of b };

    ghost faults = { λ b. b.faults };

    ghost gets = { λ b. b.gets };

    ghost number = { λ b. b.number };

    ghost doubt = { λ b. doubt_of b };

    fn is_telling() -> bool {
        true
    }

    fn get(&mut self, alloc: Global, h: &Hash32) -> Result<Option<Blob>, BackFault>
        ensures same { held_of self.new ≡ held_of self.old }
        ensures found { IfOk result (λ b. b ≡ map.get (held_of self.old) h.now) }
        ensures asked { CountsGet self.old.gets self.new.gets }
        ensures doubted { doubt_of self.new ≡ doubt_of self.old }
        ensures left { LeavesLog self.old self.new result }
    {
        self.gets = self.gets.saturating_add(1);
        match self.index.get(h) {
            None => Ok(None),
            Some(place) => {
                let outcome = self.log.bytes(alloc, place.at, place.len);
                let bytes = count_fault(&mut self.faults, outcome)?;
                Ok(Some(Blob::new(bytes)))
            }
        }
    }

    fn get_into(&mut self, alloc: Global, h: &Hash32, room: &mut Vec<u8>) -> Result<bool, BackFault>
        ensures same { held_of self.new ≡ held_of self.old }
        ensures found { IfOk result (λ b. filled b room.new.items ≡ map.get (held_of self.old) h.now) }
        ensures asked { CountsGet self.old.gets self.new.gets }
        ensures doubted { doubt_of self.new ≡ doubt_of self.old }
        ensures left { LeavesLog self.old self.new result }
    {
        self.gets = self.gets.saturating_add(1);
        match self.index.get(h) {
            None => Ok(false),
            Some(place) => {
                let outcome = self.log.bytes(alloc, place.at, place.len);
                *room = count_fault(&mut self.faults, outcome)?;
                Ok(true)
            }
        }
    }

    fn put(&mut self, alloc: Global, h: &Hash32, form: &[u8]) -> Result<(), BackFault>
        ensures pair { SetsPair (held_of self.old) (held_of self.new) h.now form.now result }
        ensures partly { OnErr result (FailedPut (held_of self.old) (doubt_of self.old) (h.now, form.now) (held_of self.new) (doubt_of
            self.new)) }
        ensures doubts { Doubts (doubt_of self.old) (h.now, form.now) (doubt_of self.new) result }
        ensures uncounted { self.new.gets ≡ self.old.gets }
        ensures left { LeavesLog self.old self.new result }
    {
        let outcome = store_pair(alloc, &mut self.index, &mut self.log, h, form);
        count_fault(&mut self.faults, outcome)
    }

    fn next(&mut self, _: Global, after: Option<&Hash32>) -> Result<Option<Hash32>, BackFault>
        ensures same { held_of self.new ≡ held_of self.old }
        ensures next { IfOk result (IsNext (held_of self.old) (option_copied after.entry)) }
        ensures uncounted { self.new.gets ≡ self.old.gets }
        ensures doubted { doubt_of self.new ≡ doubt_of self.old }
        ensures left { LeavesLog self.old self.new result }
    {
        Ok(self.index.next(after))
    }

    fn faults(&self) -> u64 {
        self.faults
    }

    fn gets(&self) -> u64 {
        self.gets
    }
}

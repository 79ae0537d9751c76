//! What is recovered from the disks of a room, whatever a stop left of them.
ghost use Rattle.std.specs.Prelude.{◌≡◌, ◌≤◌, ◌∷◌, [], ℕ, List, Bool, true, IsTrue, length, IfOk, OnOk, OnErr, IfSome, IfNone};
ghost use Rattle.std.specs.List.{filter};
ghost use Rattle.std.specs.FinMap as map;
ghost use Rattle.std.specs.Option.{option_copied};
ghost use Rattle.log_shelf.specs.Entries.{entries_of};
ghost use Rattle.log_shelf.specs.Backends.{nodes_after};
ghost use Rattle.log_shelf.specs.Manifests.{live_of};
ghost use Rattle.log_shelf.specs.Reading.{ReadsRoom};
ghost use Rattle.log_shelf.specs.Recovery.{entries_at, Rises, IsRecovered};
ghost use Rattle.node_backend.specs.Numbers.{is_among};

use crate::reading::{front, live_numbers, read_file};
use crate::{Disk, Room};
use half_hash::{Blob, Hash32, Memory};
use node_backend::BackFault;
use std::alloc::{AllocError, Global};
use std::collections::BTreeMap;
use std::marker::Model;

/// Which entries of a log are records: a hash of 32 bytes, and its form.
pub trait EntryTest {
    /// Whether it is one.
    ghost is_record: { List ℕ → Bool };

    /// Whether it is one.
    fn test(alloc: Global, entry: &[u8]) -> Result<bool, Memory>
        ensures { IfOk result (λ is. is ≡ is_record entry.now) };

    /// A record has a hash.
    ghost long: { (entry : List ℕ) → is_record entry ≡ true → 32 ≤ length entry };
}

/// The records that were found, each hash once. Contracts see the finite map.
#[derive(Drop)]
pub struct Found {
    entries: BTreeMap<Hash32, Blob>,
}

impl Model for Found {
    ghost use Rattle.std.specs.Prelude.{ℕ, List};
    ghost use Rattle.std.specs.Ordering.{nat_cmp};
    ghost use Rattle.std.specs.Cmp.Lexicographic.{slice_cmp};
    ghost use Rattle.std.specs.FinMap as map;
    ghost use Rattle.std.specs.Coded.{coded_ℕ, coded_list};

    ghost Value = { map.FinMap (slice_cmp nat_cmp) (List ℕ) };

    ghost coded = { map.code (coded_list coded_ℕ) (coded_list coded_ℕ) };

    ghost view = { λ a. map.from_entries a.entries.entries };
}

impl Found {
    fn new(alloc: Global) -> Self
        ensures { result ≡ map.empty }
    {
        Found {
            entries: BTreeMap::new(alloc),
        }
    }

    /// The form of a hash, or None where none was found.
    pub fn get(&self, key: &Hash32) -> Option<&Blob>
        ensures { option_copied result ≡ map.get self.now key.now }
    {
        self.entries.get(key)
    }

    /// Takes out the least hash, with its form; None where none is left.
    pub fn pop_first(&mut self) -> Option<(Hash32, Blob)>
        ensures first { IfSome result (λ e. map.entries self.old ≡ e ∷ map.entries self.new) }
        ensures none { IfNone result (map.entries self.old ≡ []) }
    {
        self.entries.pop_first()
    }

    fn set(&mut self, key: Hash32, value: Blob) -> Result<(), Memory>
        ensures ok { OnOk result (self.new ≡ map.insert self.old key value) }
        ensures err { OnErr result (self.new ≡ self.old) }
    {
        self.entries.insert(key, value)?;
        Ok(())
    }
}

/// Adds an entry where it is a record.
fn add_entry<T: EntryTest>(alloc: Global, found: &mut Found, entry: &[u8]) -> Result<(), Memory>
    ensures { OnOk result (found.new ≡ nodes_after found.old (filter T.is_record (entry.now ∷ []))) }
{
    if !T::test(alloc, entry)? {
        return Ok(());
    }
    let (hash, value) = entry.split_at(32);
    found.set(Hash32::from_slice(hash), Blob::from_slice(alloc, value)?)
}

/// Adds the records of a log, one after another.
fn add_log<T: EntryTest>(alloc: Global, found: &mut Found, log: &[u8]) -> Result<(), Memory>
    ensures { OnOk result (found.new ≡ nodes_after found.old (filter T.is_record (entries_of log.now))) }
{
    let mut rest = log;
    while let Some((entry, behind)) = front(rest) {
        add_entry::<T>(alloc, found, entry)?;
        rest = behind;
    }
    Ok(())
}

/// Why nothing was recovered.
#[derive(Drop)]
pub enum RecoverFault<D: Disk> {
    /// The room failed.
    Room,
    /// This disk failed.
    Disk(D),
    /// Memory was refused.
    Memory,
}

/// The bytes of a disk; none where there is no disk.
fn file_of<R: Room>(alloc: Global, room: &mut R, number: u64) -> Result<Vec<u8>, RecoverFault<R::D>>
    ensures found { IsTrue R.tells → IfOk result (λ bytes. entries_of bytes.items ≡ entries_at (R.files room.old) number) }
    ensures later { R.faults room.old ≤ R.faults room.new }
    ensures read { ReadsRoom R.tells R.files R.is_calm R.faults R.D.faults room.old room.new result }
{
    let attached = match room.attach(alloc, number) {
        Ok(attached) => attached,
        Err(BackFault::Fault) => return Err(RecoverFault::Room),
        Err(BackFault::Memory) => return Err(RecoverFault::Memory),
    };
    let Some(disk) = attached else {
        return Ok(Vec::new(alloc));
    };
    let mut disk = disk;
    match read_file(alloc, &mut disk) {
        Ok(bytes) => Ok(bytes),
        Err(BackFault::Fault) => Err(RecoverFault::Disk(disk)),
        Err(BackFault::Memory) => Err(RecoverFault::Memory),
    }
}

/// The numbers of the live logs, none before a lesser one.
fn sorted_numbers(alloc: Global, manifest: &[u8]) -> Result<Vec<u64>, AllocError>
    ensures rises { IfOk result (λ numbers. Rises 0 numbers.items) }
    ensures live { IfOk result (λ numbers. (n : ℕ) → is_among numbers.items n ≡ is_among (live_of (entries_of manifest.now)) n) }
{
    let mut numbers = live_numbers(alloc, manifest)?;
    numbers.sort_unstable();
    Ok(numbers)
}

/// The records of the live logs, those that pass the test: each hash once, the last in the greatest log that has it.
pub fn recover_where<R: Room, T: EntryTest>(
    alloc: Global,
    room: &mut R,
) -> Result<Found, RecoverFault<R::D>>
    ensures found { IsTrue R.tells → IfOk result (IsRecovered T.is_record (R.files room.old)) }
    ensures read { ReadsRoom R.tells R.files R.is_calm R.faults R.D.faults room.old room.new result }
{
    let manifest = file_of(alloc, room, 0)?;
    let Ok(numbers) = sorted_numbers(alloc, &manifest) else {
        return Err(RecoverFault::Memory);
    };
    let mut found = Found::new(alloc);
    for number in numbers.iter() {
        let log = file_of(alloc, room, *number)?;
        if add_log::<T>(alloc, &mut found, &log).is_err() {
            return Err(RecoverFault::Memory);
        }
    }
    Ok(found)
}

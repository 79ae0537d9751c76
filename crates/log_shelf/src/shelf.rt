//! A shelf of logs on the disks of a room. The manifest, disk 0, has an entry for each log that was made and for each that is
//! gone, so a stop finds the live ones.
ghost use Rattle.std.specs.Prelude.{◌≡◌, ◌≢◌, ◌⊎◌, ◌+◌, ◌<◌, ◌≤◌, ◌++◌, [], ◌∷◌, false, length, map as map_list};
ghost use Rattle.std.specs.Prelude.{is_none, IsTrue, IfOk, OnOk, OnErr};
ghost use Rattle.std.specs.Vec.{vec_capacity};
ghost use Rattle.run_io.specs.Bytes.{Rose, CountsFaults};
ghost use Rattle.node_backend.specs.Faults.{LeavesDevice, OnFault};
ghost use Rattle.node_backend.specs.Numbers.{is_among, exceeds, without, ListsNew, TakesBack};
ghost use Rattle.log_shelf.specs.Entries.{number_bytes};
ghost use Rattle.log_shelf.specs.Logs.{body_of, told_entries, doubted, MayDoubtEntry};
ghost use Rattle.log_shelf.specs.Manifests.{Manifested};

use crate::backend::count_fault;
use crate::log::Log;
use crate::{Disk, LogBackend, Room};
use node_backend::{BackFault, Shelf};
use std::alloc::Global;

/// The kind of an entry for a log that was made.
const MADE: u8 = 1;
/// The kind of one for a log that is gone.
const GONE: u8 = 2;

/// Backends as logs on the disks of a room.
#[derive(Drop)]
pub struct LogShelf<R: Room> {
    room: R,
    pub(crate) manifest: Log<R::D>,
    live: Vec<u64>,
    made: u64,
    pub(crate) spent: Vec<LogBackend<R::D>>,
    broken: Option<R::D>,
    faults: u64,
    ghost first: { R.D.number manifest.disk ≡ 0 },
    ghost listed: { Manifested live.items (map_list (λ b. b.number) spent.items) made (is_none broken)
        (told_entries manifest.tail (R.D.seen manifest.disk)) (doubted manifest.tail manifest.doubt (R.D.seen manifest.disk)) },
    ghost reserved: { length spent.items + length live.items ≤ vec_capacity spent },
}

/// Why there is no shelf, and what is left.
#[derive(Drop)]
pub enum Unmade<R: Room> {
    /// The room failed.
    Room(R),
    /// The disk of the manifest failed.
    Manifest { room: R, disk: R::D },
    /// Memory was refused.
    Memory,
}

/// The entry of a log.
fn number_entry(kind: u8, number: u64) -> [u8; 9]
    ensures { result ≡ kind ∷ number_bytes number }
{
    let b = number.to_be_bytes();
    [kind, b[0], b[1], b[2], b[3], b[4], b[5], b[6], b[7]]
}

/// What stands behind its gate.
fn number_body(kind: u8, number: u64) -> [u8; 18]
    ensures { result ≡ body_of (kind ∷ number_bytes number) }
{
    let b = number.to_be_bytes();
    [
        0, 0, 0, 0, 0, 0, 0, 9, kind, b[0], b[1], b[2], b[3], b[4], b[5], b[6], b[7], 0,
    ]
}

/// Writes down that a log was made, or that it is gone. It takes no memory but what the disk takes.
fn note_number<D: Disk>(manifest: &mut Log<D>, kind: u8, number: u64) -> Result<(), BackFault>
    ensures told { OnOk result (told_entries manifest.new.tail (D.seen manifest.new.disk)
        ≡ told_entries manifest.old.tail (D.seen manifest.old.disk) ++ (kind ∷ number_bytes number) ∷ []) }
    ensures sure { OnOk result (manifest.new.doubt ≡ false) }
    ensures untold { OnErr result (told_entries manifest.new.tail (D.seen manifest.new.disk) ≡ told_entries manifest.old.tail (D.seen
        manifest.old.disk)) }
    ensures doubted { OnErr result (MayDoubtEntry (doubted manifest.old.tail manifest.old.doubt (D.seen manifest.old.disk)) (kind ∷
        number_bytes number)
        (doubted manifest.new.tail manifest.new.doubt (D.seen manifest.new.disk))) }
    ensures device { LeavesDevice D.number D.faults (OnFault result) manifest.old.disk manifest.new.disk }
{
    manifest.add(&number_entry(kind, number), &number_body(kind, number))
}

/// Makes room for one more number, and for all logs of the list beside those that are spent.
fn reserve_log<D: Disk>(
    live: &mut Vec<u64>,
    spent: &mut Vec<LogBackend<D>>,
) -> Result<(), BackFault>
    ensures live { live.new.items ≡ live.old.items }
    ensures spent { spent.new.items ≡ spent.old.items }
    ensures ok { OnOk result ((length live.old.items + 1 ≤ vec_capacity live.new)
        × (length spent.old.items + (length live.old.items + 1) ≤ vec_capacity spent.new)) }
    ensures more { vec_capacity spent.old ≤ vec_capacity spent.new }
    ensures cause { result ≢ Err BackFault.Fault }
{
    live.reserve(1)?;
    spent.reserve(live.len() + 1)?;
    Ok(())
}

/// Takes a number out of the list, and says whether it stood there.
fn unlist(live: &mut Vec<u64>, number: u64) -> bool
    ensures gone { live.new.items ≡ without live.old.items number }
    ensures found { result ≡ is_among live.old.items number }
    ensures shorter { IsTrue result → length live.new.items < length live.old.items }
    ensures bound { length live.new.items ≤ length live.old.items }
{
    let found = live.contains(&number);
    live.retain(|k| *k != number);
    found
}

impl<R: Room> LogShelf<R> {
    ghost use Rattle.std.specs.Prelude.{IsSomeAnd};
    ghost use Rattle.log_shelf.specs.Adding.{IsEmptyLog};
    ghost use Rattle.log_shelf.specs.Stops.{IsNewBackend};
    ghost use Rattle.log_shelf.specs.Shelves.{KeepsShelf, StandsLive, TellsWhy};

    /// A shelf without backends, in a room. It makes the manifest.
    pub fn new(alloc: Global, room: R) -> Result<LogShelf<R>, Unmade<R>>
        ensures lists { IfOk result (λ s. (s.live.items ≡ []) × (s.spent.items ≡ []) × (s.made ≡ 0) × (s.faults ≡ 0)) }
        ensures stop { IfOk result (λ s. StandsLive s) }
        ensures room { (r : R) → result ≡ Err (Unmade.Room r) → Rose (R.faults room) (R.faults r) }
        ensures manifest { (r : R) (d : R.D) → result ≡ Err (Unmade.Manifest r d) → R.D.faults d ≢ 0 }
    {
        let mut room = room;
        let disk = match room.make(alloc, 0) {
            Ok(disk) => disk,
            Err(BackFault::Fault) => return Err(Unmade::Room(room)),
            Err(BackFault::Memory) => return Err(Unmade::Memory),
        };
        match Log::format(disk) {
            Ok(manifest) => Ok(LogShelf {
                room,
                manifest,
                live: Vec::new(alloc),
                made: 0,
                spent: Vec::new(alloc),
                broken: None,
                faults: 0,
            }),
            Err((BackFault::Fault, disk)) => Err(Unmade::Manifest { room, disk }),
            Err((BackFault::Memory, _)) => Err(Unmade::Memory),
        }
    }

    /// Makes the log of a number. Where its disk fails it is kept as the broken one.
    fn make_log(&mut self, alloc: Global, number: u64) -> Result<Log<R::D>, BackFault>
        requires closed { self.old.manifest.doubt ≡ false }
        ensures log { IfOk result (λ log. IsEmptyLog number log) }
        ensures rest { KeepsShelf self.old self.new }
        ensures whole { OnOk result (self.new.broken ≡ self.old.broken) }
        ensures counts { CountsFaults (λ rose. OnFault result (rose ⊎ IsSomeAnd self.new.broken (λ d. 0 < R.D.faults d)))
            (R.faults self.old.room) (R.faults self.new.room) }
    {
        let disk = self.room.make(alloc, number)?;
        match Log::format(disk) {
            Ok(log) => Ok(log),
            Err((fault, disk)) => {
                self.broken = Some(disk);
                Err(fault)
            }
        }
    }

    /// Makes a backend with the next number.
    fn make(&mut self, alloc: Global) -> Result<LogBackend<R::D>, BackFault>
        ensures backend { IfOk result (λ b. IsNewBackend (self.old.made + 1) b) }
        ensures lists { ListsNew (λ b. b.number) self.old.live.items self.new.live.items self.old.spent.items self.new.spent.items result }
        ensures faults { self.new.faults ≡ self.old.faults }
        ensures fresh { TellsWhy (result ≡ Err BackFault.Fault) self.old self.new result }
    {
        reserve_log(&mut self.live, &mut self.spent)?;
        self.broken = None;
        if self.made == u64::MAX {
            return Err(BackFault::Fault);
        }
        self.manifest.close()?;
        let number = self.made + 1;
        let log = self.make_log(alloc, number)?;
        note_number(&mut self.manifest, MADE, number)?;
        push_number(&mut self.live, number);
        self.made = number;
        Ok(LogBackend::over(alloc, number, log))
    }
}

/// Adds a number. There is room for it.
fn push_number(live: &mut Vec<u64>, number: u64)
    requires { length live.old.items < vec_capacity live.old }
    ensures { live.new.items ≡ live.old.items ++ number ∷ [] }
{
    let _ = live.push(number);
}

/// Keeps a log whose number is gone from the list, but not from the manifest. There is room for it.
fn keep_aside<D: Disk>(spent: &mut Vec<LogBackend<D>>, old: LogBackend<D>)
    requires { length spent.old.items < vec_capacity spent.old }
    ensures kept { spent.new.items ≡ spent.old.items ++ old ∷ [] }
    ensures room { vec_capacity spent.old ≤ vec_capacity spent.new }
{
    let _ = spent.push(old);
}

impl<R: Room + Send> Shelf for LogShelf<R>
where
    R::D: Send,
{
    ghost use Rattle.log_shelf.specs.Stops.{IsNewBackend};
    ghost use Rattle.log_shelf.specs.Shelves.{numbers_of, LeavesShelf, TellsWhy};

    type B = LogBackend<R::D>;

    ghost faults = { λ s. s.faults };

    ghost live = { λ s. s.live.items };

    ghost undone = { λ s. numbers_of s.spent.items };

    fn fresh(&mut self, alloc: Global) -> Result<LogBackend<R::D>, BackFault>
        ensures backend { IfOk result (λ b. IsNewBackend (self.old.made + 1) b) }
        ensures above { IfOk result (λ b. IsTrue (exceeds b.number self.old.live.items)
            × IsTrue (exceeds b.number (numbers_of self.old.spent.items))) }
        ensures lists { ListsNew (λ b. b.number) self.old.live.items self.new.live.items (numbers_of self.old.spent.items)
            (numbers_of self.new.spent.items) result }
        ensures fresh { TellsWhy (self.new.faults ≢ self.old.faults) self.old self.new result }
        ensures left { LeavesShelf self.old self.new result }
    {
        let outcome = self.make(alloc);
        count_fault(&mut self.faults, outcome)
    }

    fn discard(&mut self, old: LogBackend<R::D>) -> Result<(), BackFault>
        ensures taken { TakesBack old.number self.old.live.items self.new.live.items (numbers_of self.old.spent.items)
            (numbers_of self.new.spent.items) result }
        ensures rose { self.new.faults ≢ self.old.faults → Rose (R.D.faults self.old.manifest.disk) (R.D.faults self.new.manifest.disk) }
        ensures left { LeavesShelf self.old self.new result }
    {
        let number = old.number;
        if !unlist(&mut self.live, number) {
            return Ok(());
        }
        match note_number(&mut self.manifest, GONE, number) {
            Ok(()) => Ok(()),
            Err(fault) => {
                keep_aside(&mut self.spent, old);
                count_fault(&mut self.faults, Err(fault))
            }
        }
    }

    fn faults(&self) -> u64 {
        self.faults
    }
}

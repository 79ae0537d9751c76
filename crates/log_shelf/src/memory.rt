//! A disk in memory. It keeps what was synced and the writes since then, so a stop may leave all that a disk's contract allows.
ghost use Rattle.std.specs.Prelude.{◌≡◌, ◌≢◌, ◌+◌, ◌-◌, ◌^◌, ◌<◌, ◌≤◌, ◌++◌, [], true, false, IsTrue, is_none, length, take};
ghost use Rattle.std.specs.Prelude.{drop, IfOk, OnOk};
ghost use Rattle.std.specs.Vec.{vec_capacity};
ghost use Rattle.log_shelf.specs.Disks.{padded, overwritten};
ghost use Rattle.log_shelf.specs.MemDisks.{applied, IsOutcome, KeepsWrite};

use crate::{Disk, Span};
use node_backend::BackFault;
use run_io::Fault;
use std::alloc::{AllocError, Global};
use std::sync::Arc;
use std::sync::atomic::{AtomicU64, Ordering};

/// No write may pass so many bytes.
const MOST: u64 = 1 << 63;

/// A disk in memory, which fails for good after so many changing calls on the disks of its room, and before that never but
/// where a write would pass 2^63 bytes.
#[derive(Drop)]
pub struct MemDisk {
    pub(crate) number: u64,
    /// What reads give.
    pub(crate) shown: Vec<u8>,
    pub(crate) synced: Vec<u8>,
    pub(crate) pending: Vec<Span>,
    spent: Arc<AtomicU64, Global>,
    stop: Option<u64>,
    faults: u64,
    ghost room: { length shown.items ≤ vec_capacity synced },
    ghost same: { shown.items ≡ applied pending.items synced.items },
}

/// Whether the disks of a room have stopped, where this is a call that changes one, or where it is not.
pub(crate) fn has_stopped(spent: &Arc<AtomicU64, Global>, stop: Option<u64>, changes: bool) -> bool
    ensures { IsTrue (is_none stop) → result ≡ false }
{
    let before = if changes {
        spent.fetch_add(1, Ordering::SeqCst)
    } else {
        spent.load(Ordering::SeqCst)
    };
    match stop {
        None => false,
        Some(most) => most <= before,
    }
}

/// Whether a write would pass the greatest length.
fn is_far(at: u64, len: u64) -> bool
    ensures far { result ≡ true → 2 ^ 63 < at + len }
    ensures near { result ≡ false → at + len ≤ 2 ^ 63 }
{
    len > MOST || at > MOST - len
}

/// Makes room for so many bytes.
pub(crate) fn reserve_to(file: &mut Vec<u8>, len: usize) -> Result<(), AllocError>
    ensures items { file.new.items ≡ file.old.items }
    ensures ok { OnOk result (len ≤ vec_capacity file.new) }
    ensures capacity { vec_capacity file.old ≤ vec_capacity file.new }
{
    file.reserve(len.saturating_sub(file.len()))
}

/// Adds zeros up to a place that lies past the end.
fn pad(file: &mut Vec<u8>, at: usize)
    requires room { at ≤ vec_capacity file.old }
    ensures padded { file.new.items ≡ padded file.old.items at }
    ensures capacity { vec_capacity file.old ≤ vec_capacity file.new }
{
    if file.len() < at {
        let _ = file.resize(at, 0);
    }
}

/// Puts bytes over those at a place and past the end.
fn put_over(file: &mut Vec<u8>, at: usize, bytes: &[u8])
    requires within { at ≤ length file.old.items }
    requires room { at + length bytes.now ≤ vec_capacity file.old }
    ensures put { file.new.items ≡ take at file.old.items ++ (bytes.now ++ drop (at + length bytes.now) file.old.items) }
    ensures capacity { vec_capacity file.old ≤ vec_capacity file.new }
{
    let end = at + bytes.len();
    if end <= file.len() {
        file[at..end].copy_from_slice(bytes);
    } else {
        file.truncate(at);
        let _ = file.extend_from_slice(bytes);
    }
}

/// Writes bytes at a place. There is room for them.
pub(crate) fn write_into(file: &mut Vec<u8>, at: usize, bytes: &[u8])
    requires room { at + length bytes.now ≤ vec_capacity file.old }
    ensures written { file.new.items ≡ overwritten file.old.items at bytes.now }
    ensures capacity { vec_capacity file.old ≤ vec_capacity file.new }
{
    pad(file, at);
    put_over(file, at, bytes);
}

/// Makes a copy of a file the synced one. There is room for it.
fn copy_over(synced: &mut Vec<u8>, now: &[u8])
    requires room { length now.now ≤ vec_capacity synced.old }
    ensures copied { synced.new.items ≡ now.now }
    ensures capacity { vec_capacity synced.old ≤ vec_capacity synced.new }
{
    synced.clear();
    let _ = synced.extend_from_slice(now);
}

impl MemDisk {
    /// An empty disk that shares the count of changing calls with the others of its room.
    pub(crate) fn new(
        alloc: Global,
        number: u64,
        spent: Arc<AtomicU64, Global>,
        stop: Option<u64>,
    ) -> MemDisk
        ensures number { result.number ≡ number }
        ensures empty { (result.shown.items ≡ []) × (result.synced.items ≡ []) × (result.pending.items ≡ []) }
        ensures faults { result.faults ≡ 0 }
        ensures stop { result.stop ≡ stop }
    {
        MemDisk {
            number,
            shown: Vec::new(alloc),
            synced: Vec::new(alloc),
            pending: Vec::new(alloc),
            spent,
            stop,
            faults: 0,
        }
    }

    /// A disk that has these bytes, all of them synced.
    pub(crate) fn of(
        alloc: Global,
        number: u64,
        bytes: &[u8],
        spent: Arc<AtomicU64, Global>,
        stop: Option<u64>,
    ) -> Result<MemDisk, AllocError>
        ensures number { IfOk result (λ d. d.number ≡ number) }
        ensures bytes { IfOk result (λ d. (d.shown.items ≡ bytes.now) × (d.synced.items ≡ bytes.now) × (d.pending.items ≡ [])) }
        ensures faults { IfOk result (λ d. d.faults ≡ 0) }
        ensures stop { IfOk result (λ d. d.stop ≡ stop) }
    {
        let shown = Vec::from_slice(alloc, bytes)?;
        let synced = Vec::from_slice(alloc, bytes)?;
        Ok(MemDisk {
            number,
            shown,
            synced,
            pending: Vec::new(alloc),
            spent,
            stop,
            faults: 0,
        })
    }

    /// Keeps a write that was not synced yet. Where memory is refused nothing changes.
    fn keep(&mut self, at: u64, bytes: &[u8]) -> Result<(), BackFault>
        requires near { at + length bytes.now ≤ 2 ^ 63 }
        ensures kept { KeepsWrite at bytes.now self.old.shown.items self.new.shown.items self.old.pending.items self.new.pending.items
            result }
        ensures synced { self.new.synced.items ≡ self.old.synced.items }
        ensures rest { (self.new.faults ≡ self.old.faults) × (self.new.stop ≡ self.old.stop) × (self.new.number ≡ self.old.number) }
        ensures cause { result ≢ Err BackFault.Fault }
    {
        let alloc = *self.pending.allocator();
        let copy = Vec::from_slice(alloc, bytes)?;
        let end = at as usize + bytes.len();
        reserve_to(&mut self.shown, end)?;
        reserve_to(&mut self.synced, end.max(self.shown.len()))?;
        self.pending.push(Span { at, bytes: copy })?;
        write_into(&mut self.shown, at as usize, bytes);
        Ok(())
    }
}

impl Disk for MemDisk {
    ghost use Rattle.log_shelf.specs.Outcomes.{seen_may_stay};

    ghost seen = { λ m. m.shown.items };

    ghost may_leave = { λ m. IsOutcome m.pending.items m.synced.items };

    ghost number = { λ m. m.number };

    ghost faults = { λ m. m.faults };

    ghost is_calm = { λ m. is_none m.stop };

    ghost seen_stays = { λ m. seen_may_stay m.pending.items m.synced.items m.shown.items m.same };

    fn len(&mut self) -> Result<u64, Fault> {
        if has_stopped(&self.spent, self.stop, false) {
            self.faults = self.faults.saturating_add(1);
            return Err(Fault);
        }
        Ok(self.shown.len() as u64)
    }

    fn read(&mut self, at: u64, buf: &mut [u8]) -> Result<(), Fault> {
        if has_stopped(&self.spent, self.stop, false) {
            self.faults = self.faults.saturating_add(1);
            return Err(Fault);
        }
        let from = at as usize;
        buf.copy_from_slice(&self.shown[from..from + buf.len()]);
        Ok(())
    }

    fn write_at(&mut self, at: u64, bytes: &[u8]) -> Result<(), BackFault> {
        if has_stopped(&self.spent, self.stop, true) || is_far(at, bytes.len() as u64) {
            self.faults = self.faults.saturating_add(1);
            return Err(BackFault::Fault);
        }
        self.keep(at, bytes)
    }

    fn sync(&mut self) -> Result<(), Fault> {
        if has_stopped(&self.spent, self.stop, true) {
            self.faults = self.faults.saturating_add(1);
            return Err(Fault);
        }
        copy_over(&mut self.synced, &self.shown);
        self.pending.clear();
        Ok(())
    }
}

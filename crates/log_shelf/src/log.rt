//! A log: entries one after another, and then a closed gate. An entry is its gate, a length and so many bytes, and counts
//! where its gate is open. What stands behind a gate is on the disk before the gate is opened, by a write of its own, so a
//! stop leaves the entry whole or without effect, and no checksum is trusted.
ghost use Rattle.std.specs.Prelude.{◌≡◌, ◌≢◌, ◌+◌, ◌^◌, ◌<◌, ◌≤◌, [], ◌∷◌, true, false, length, take, drop};
ghost use Rattle.std.specs.Prelude.{slice_index, IfOk, IfErr, OnOk, OnErr};
ghost use Rattle.run_io.specs.Bytes.{Rose};
ghost use Rattle.node_backend.specs.Faults.{OnFault, LeavesDevice};
ghost use Rattle.log_shelf.specs.Disks.{Holds, Only, KeepsBytes};
ghost use Rattle.log_shelf.specs.Logs.{body_of, behind, IsLog, doubted, KeepsAround};

use crate::Disk;
use node_backend::BackFault;
use run_io::Fault;
use std::alloc::{AllocError, Global};

/// The gate of an entry that counts.
const OPEN: u8 = 1;
/// Any other gate.
const CLOSED: u8 = 0;

/// A log on a disk. Its gate is in doubt where a write of it, or the sync behind that, has failed.
#[derive(Drop)]
pub(crate) struct Log<D: Disk> {
    pub(crate) disk: D,
    pub(crate) tail: u64,
    pub(crate) doubt: bool,
    ghost kept: { IsLog tail doubt (D.seen disk) (D.may_leave disk) },
}

/// Waits until a stop leaves what reads give.
fn settle<D: Disk>(disk: &mut D) -> Result<(), BackFault>
    ensures durable { OnOk result (Only (D.seen disk.old) (D.may_leave disk.new)) }
    ensures kept { KeepsBytes D.seen D.may_leave disk.old disk.new }
    ensures device { LeavesDevice D.number D.faults (OnErr result) disk.old disk.new }
    ensures memory { result ≢ Err BackFault.Memory }
{
    match disk.sync() {
        Ok(()) => Ok(()),
        Err(Fault) => Err(BackFault::Fault),
    }
}

/// What stands behind the gate of an entry: its length, its bytes and a closed gate.
fn body_bytes(alloc: Global, entry: &[u8]) -> Result<Vec<u8>, AllocError>
    ensures { IfOk result (λ body. body.items ≡ body_of entry.now) }
{
    let mut body = Vec::from_slice(alloc, &(entry.len() as u64).to_be_bytes())?;
    body.extend_from_slice(entry)?;
    body.push(CLOSED)?;
    Ok(body)
}

/// Writes the closed gate of a log without entries.
fn write_first<D: Disk>(disk: &mut D) -> Result<(), BackFault>
    requires { D.seen disk.old ≡ [] }
    ensures ok { OnOk result ((D.seen disk.new ≡ 0 ∷ []) × Only (D.seen disk.new) (D.may_leave disk.new)) }
    ensures device { LeavesDevice D.number D.faults (OnFault result) disk.old disk.new }
{
    disk.write_at(0, &[CLOSED])?;
    settle(disk)
}

/// Writes the gate of a log whose gate is in doubt, or may be.
fn write_gate<D: Disk>(disk: &mut D, tail: u64, gate: u8) -> Result<(), BackFault>
    requires log { IsLog tail true (D.seen disk.old) (D.may_leave disk.old) }
    ensures log { IsLog tail true (D.seen disk.new) (D.may_leave disk.new) }
    ensures around { KeepsAround tail (D.seen disk.old) (D.seen disk.new) }
    ensures ok { OnOk result (Only (D.seen disk.new) (D.may_leave disk.new) × (slice_index (D.seen disk.new) tail ≡ gate)) }
    ensures device { LeavesDevice D.number D.faults (OnFault result) disk.old disk.new }
{
    disk.write_at(tail, &[gate])?;
    settle(disk)
}

/// Writes an entry behind a closed gate.
fn write_body<D: Disk>(disk: &mut D, tail: u64, body: &[u8]) -> Result<(), BackFault>
    requires log { IsLog tail false (D.seen disk.old) (D.may_leave disk.old) }
    ensures log { IsLog tail false (D.seen disk.new) (D.may_leave disk.new) }
    ensures front { take tail (D.seen disk.new) ≡ take tail (D.seen disk.old) }
    ensures ok { OnOk result (Only (D.seen disk.new) (D.may_leave disk.new) × Holds (D.seen disk.new) (tail + 1) body.now
        × (tail + 1 + length body.now ≤ 2 ^ 63)) }
    ensures device { LeavesDevice D.number D.faults (OnFault result) disk.old disk.new }
{
    disk.write_at(tail + 1, body)?;
    settle(disk)
}

impl<D: Disk> Log<D> {
    ghost use Rattle.log_shelf.specs.Adding.{IsEmptyLog, AddsEntry, OpensGate};

    /// A log without entries on an empty disk. Where that fails the disk comes back.
    pub(crate) fn format(disk: D) -> Result<Log<D>, (BackFault, D)>
        requires { D.seen disk ≡ [] }
        ensures log { IfOk result (λ log. IsEmptyLog (D.number disk) log) }
        ensures empty { IfOk result (λ log. take log.tail (D.seen log.disk) ≡ []) }
        ensures later { IfOk result (λ log. D.faults disk ≤ D.faults log.disk) }
        ensures cause { IfErr result (λ e. (D.faults disk ≤ D.faults e.1) × (e.0 ≡ BackFault.Fault
            → Rose (D.faults disk) (D.faults e.1))) }
    {
        let mut disk = disk;
        if let Err(fault) = write_first(&mut disk) {
            return Err((fault, disk));
        }
        Ok(Log {
            disk,
            tail: 0,
            doubt: false,
        })
    }

    /// Sees to it that the gate is closed on the disk.
    pub(crate) fn close(&mut self) -> Result<(), BackFault>
        ensures ok { OnOk result (self.new.doubt ≡ false) }
        ensures tail { self.new.tail ≡ self.old.tail }
        ensures front { take self.old.tail (D.seen self.new.disk) ≡ take self.old.tail (D.seen self.old.disk) }
        ensures err { OnErr result ((self.new.doubt ≡ self.old.doubt)
            × (doubted self.old.tail self.new.doubt (D.seen self.new.disk) ≡ doubted self.old.tail self.old.doubt (D.seen
            self.old.disk))) }
        ensures device { LeavesDevice D.number D.faults (OnFault result) self.old.disk self.new.disk }
    {
        if self.doubt {
            write_gate(&mut self.disk, self.tail, CLOSED)?;
            self.doubt = false;
        }
        Ok(())
    }

    /// Opens the gate before an entry that stands behind it on the disk.
    fn publish(&mut self, len: u64) -> Result<(), BackFault>
        requires ready { IsLog self.old.tail true (D.seen self.old.disk) (D.may_leave self.old.disk) }
        requires len { len ≡ length (behind self.old.tail (D.seen self.old.disk)) }
        ensures opened { OpensGate len self.old self.new result }
        ensures around { KeepsAround self.old.tail (D.seen self.old.disk) (D.seen self.new.disk) }
        ensures device { LeavesDevice D.number D.faults (OnFault result) self.old.disk self.new.disk }
    {
        self.doubt = true;
        write_gate(&mut self.disk, self.tail, OPEN)?;
        self.doubt = false;
        self.tail += 9 + len;
        Ok(())
    }

    /// Adds an entry, given with what stands behind its gate. Where that fails the entry may be in doubt, and no other is but
    /// one that was. It takes no memory but what the disk takes.
    pub(crate) fn add(&mut self, entry: &[u8], body: &[u8]) -> Result<(), BackFault>
        requires body { body.now ≡ body_of entry.now }
        ensures added { AddsEntry entry.now self.old self.new result }
        ensures device { LeavesDevice D.number D.faults (OnFault result) self.old.disk self.new.disk }
    {
        self.close()?;
        write_body(&mut self.disk, self.tail, body)?;
        self.publish(entry.len() as u64)
    }

    /// Adds an entry. Where that fails the entry may be in doubt, and no other is but one that was.
    pub(crate) fn append(&mut self, alloc: Global, entry: &[u8]) -> Result<(), BackFault>
        ensures added { AddsEntry entry.now self.old self.new result }
        ensures device { LeavesDevice D.number D.faults (OnFault result) self.old.disk self.new.disk }
    {
        let body = body_bytes(alloc, entry)?;
        self.add(entry, &body)
    }

    /// Bytes in front of the gate.
    pub(crate) fn bytes(&mut self, alloc: Global, at: u64, len: u64) -> Result<Vec<u8>, BackFault>
        requires { at + len ≤ length (take self.old.tail (D.seen self.old.disk)) }
        ensures bytes { IfOk result (λ bytes. bytes.items ≡ take len (drop at (take self.old.tail (D.seen self.old.disk)))) }
        ensures seen { D.seen self.new.disk ≡ D.seen self.old.disk }
        ensures same { (self.new.tail ≡ self.old.tail) × (self.new.doubt ≡ self.old.doubt) }
        ensures device { LeavesDevice D.number D.faults (OnFault result) self.old.disk self.new.disk }
    {
        let mut bytes = vec![in alloc; 0; len as usize]?;
        match self.disk.read(at, &mut bytes) {
            Ok(()) => Ok(bytes),
            Err(Fault) => Err(BackFault::Fault),
        }
    }
}

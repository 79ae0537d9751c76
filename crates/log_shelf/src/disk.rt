//! A disk as a log sees it: what reads give, and what a stop may leave.
ghost use Rattle.std.specs.Prelude.{◌≡◌, ◌+◌, ◌^◌, ◌<◌, ◌≤◌, ℕ, Bool, IsTrue, List, length, take, drop, IfOk, IsOk, OnOk, OnErr};
ghost use Rattle.node_backend.specs.Faults.{OnFault, LeavesDevice};
ghost use Rattle.log_shelf.specs.Disks.{Only, KeepsBytes, WritesBytes};

use node_backend::BackFault;
use run_io::Fault;

/// One file that may fail, and of which a stop may leave what was not synced in any state.
pub trait Disk: Drop {
    /// The bytes that reads give.
    ghost seen: { Self → List ℕ };

    /// The byte strings that a stop at this moment may leave.
    ghost may_leave: { Self → List ℕ → Type 0 };

    /// The number by which its room knows it.
    ghost number: { Self → ℕ };

    /// How often the disk failed.
    ghost faults: { Self → ℕ };

    /// Whether it fails in no call, but where a write would pass 2^63 bytes.
    ghost is_calm: { Self → Bool };

    /// How many bytes there are.
    fn len(&mut self) -> Result<u64, Fault>
        ensures length { IfOk result (λ n. n ≡ length (seen self.old)) }
        ensures kept { KeepsBytes seen may_leave self.old self.new }
        ensures device { LeavesDevice number faults (OnErr result) self.old self.new }
        ensures calm { IsTrue (is_calm self.old) → IsTrue (is_calm self.new) × IsOk result };

    /// Fills the buffer with the bytes from a place on.
    fn read(&mut self, at: u64, buf: &mut [u8]) -> Result<(), Fault>
        requires { at + length buf.old ≤ length (seen self.old) }
        ensures read { OnOk result (buf.new ≡ take (length buf.old) (drop at (seen self.old))) }
        ensures kept { KeepsBytes seen may_leave self.old self.new }
        ensures device { LeavesDevice number faults (OnErr result) self.old self.new }
        ensures calm { IsTrue (is_calm self.old) → IsTrue (is_calm self.new) × IsOk result };

    /// Writes over what is there, and past the end. Until a sync a stop may leave any bytes in the range, and
    /// where the disk fails reads may give any there. Where memory is refused nothing changes.
    fn write_at(&mut self, at: u64, bytes: &[u8]) -> Result<(), BackFault>
        ensures wrote { WritesBytes seen may_leave at bytes.now self.old self.new result }
        ensures refused { result ≡ Err BackFault.Memory → KeepsBytes seen may_leave self.old self.new }
        ensures far { 2 ^ 63 < at + length bytes.now → result ≡ Err BackFault.Fault }
        ensures device { LeavesDevice number faults (OnFault result) self.old self.new }
        ensures calm { IsTrue (is_calm self.old) → IsTrue (is_calm self.new) × (result ≡ Err BackFault.Fault
            → 2 ^ 63 < at + length bytes.now) };

    /// After it a stop leaves what reads give.
    fn sync(&mut self) -> Result<(), Fault>
        ensures durable { OnOk result (Only (seen self.old) (may_leave self.new)) }
        ensures kept { KeepsBytes seen may_leave self.old self.new }
        ensures device { LeavesDevice number faults (OnErr result) self.old self.new }
        ensures calm { IsTrue (is_calm self.old) → IsTrue (is_calm self.new) × IsOk result };

    /// What reads give is among what a stop may leave.
    ghost seen_stays: { (disk : Self) → may_leave disk (seen disk) };
}

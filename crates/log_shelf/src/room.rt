//! A room of disks, each with a number: the trait that a shelf of logs is generic in.
ghost use Rattle.std.specs.Prelude.{◌≡◌, ◌≢◌, ℕ, Bool, IsTrue, [], IfOk, IfSome};
ghost use Rattle.std.specs.Option.{option_map};
ghost use Rattle.run_io.specs.Bytes.{CountsFaults};
ghost use Rattle.node_backend.specs.Faults.{OnFault};
ghost use Rattle.log_shelf.specs.Rooms.{Files, IsAttached, file_in};

use crate::Disk;
use node_backend::BackFault;
use std::alloc::Global;

/// What makes disks, and finds those that are there.
pub trait Room: Drop {
    /// Its disks.
    type D: Disk;

    /// Whether rooms of this type tell what their disks have: all of them, or none.
    ghost tells: { Bool };

    /// The bytes of each disk, where the type tells them.
    ghost files: { Self → Files };

    /// How often the room failed.
    ghost faults: { Self → ℕ };

    /// Whether it fails in no call, and its disks are calm.
    ghost is_calm: { Self → Bool };

    /// An empty disk, also in place of an older one of that number.
    fn make(&mut self, alloc: Global, number: u64) -> Result<Self::D, BackFault>
        ensures empty { IfOk result (λ d. Self.D.seen d ≡ []) }
        ensures calm { IsTrue (is_calm self.old) → IsTrue (is_calm self.new) × (result ≢ Err BackFault.Fault)
            × IfOk result (λ d. IsTrue (Self.D.is_calm d)) }
        ensures attached { IfOk result (λ d. IsAttached Self.D.number Self.D.faults number d) }
        ensures others { IsTrue tells → (n : ℕ) → n ≢ number → file_in (files self.new) n ≡ file_in (files self.old) n }
        ensures counts { CountsFaults (OnFault result) (faults self.old) (faults self.new) };

    /// The disk of a number, or None exactly where there is none.
    fn attach(&mut self, alloc: Global, number: u64) -> Result<Option<Self::D>, BackFault>
        ensures same { IsTrue tells → files self.new ≡ files self.old }
        ensures calm { IsTrue (is_calm self.old) → IsTrue (is_calm self.new) × (result ≢ Err BackFault.Fault)
            × IfOk result (λ d. IfSome d (λ d. IsTrue (Self.D.is_calm d))) }
        ensures found { IsTrue tells → IfOk result (λ d. option_map Self.D.seen d ≡ file_in (files self.old) number) }
        ensures attached { IfOk result (λ d. IfSome d (λ d. IsAttached Self.D.number Self.D.faults number d)) }
        ensures counts { CountsFaults (OnFault result) (faults self.old) (faults self.new) };
}

//! What a store stands on: the trait of backends, which hold forms, and of shelves, which make them, and why either could not answer.
ghost use Rattle.std.specs.Prelude.{◌≡◌, ℕ, List, Option, Bool, IsTrue, IfOk, OnOk, OnErr};
ghost use Rattle.std.specs.FinMap as map;
ghost use Rattle.std.specs.Option.{option_copied};
ghost use Rattle.ledger_spec.specs.Bytes.{Nodes};
ghost use Rattle.node_backend.specs.Order.{IsNext};
ghost use Rattle.node_backend.specs.Counts.{CountsGet};
ghost use Rattle.node_backend.specs.Filling.{filled};
ghost use Rattle.run_io.specs.Bytes.{CountsFaults};
ghost use Rattle.node_backend.specs.Faults.{OnFault, LeavesDevice};
ghost use Rattle.node_backend.specs.Numbers.{exceeds, ListsNew, TakesBack};
ghost use Rattle.node_backend.specs.Doubts.{Pair, Doubts, FailedPut};
ghost use Rattle.node_backend.specs.Backends.{IsEmptyBackend};

use half_hash::{Blob, Hash32, Memory};
use std::alloc::{AllocError, AllocFailed, Global};

/// Why a backend or a shelf could not answer.
#[derive(Clone, Copy, Debug, PartialEq, Eq)]
pub enum BackFault {
    /// The device failed.
    Fault,
    /// Memory was refused.
    Memory,
}

impl From<Memory> for BackFault {
    ghost use Rattle.node_backend.specs.declared.back.BackFault.TheVariants as fault;

    ghost from_gives = { λ _ e. e ≡ fault.Memory };

    fn from(_: Memory) -> BackFault {
        BackFault::Memory
    }
}

impl From<AllocError> for BackFault {
    ghost use Rattle.node_backend.specs.declared.back.BackFault.TheVariants as fault;

    ghost from_gives = { λ _ e. e ≡ fault.Memory };

    fn from(_: AllocError) -> BackFault {
        BackFault::Memory
    }
}

impl<T: Drop> From<AllocFailed<T>> for BackFault {
    ghost use Rattle.node_backend.specs.declared.back.BackFault.TheVariants as fault;

    ghost from_gives = { λ _ e. e ≡ fault.Memory };

    fn from(_: AllocFailed<T>) -> BackFault {
        BackFault::Memory
    }
}

/// What holds forms under their hashes, on a device that may fail.
pub trait Backend: Send + Drop {
    /// Whether values of this type tell what they hold: all of them, or none.
    ghost tells: { Bool };

    /// The pairs that are held, where the type tells them.
    ghost held: { Self → Nodes };

    /// How often the device failed.
    ghost faults: { Self → ℕ };

    /// How often a form was asked for.
    ghost gets: { Self → ℕ };

    /// The number by which its shelf knows it.
    ghost number: { Self → ℕ };

    /// A pair of which the device does not know whether it is stored.
    ghost doubt: { Self → Option Pair };

    /// Whether values of this type tell what they hold.
    fn is_telling() -> bool
        ensures { result ≡ tells };

    /// The form of a hash.
    fn get(&mut self, alloc: Global, h: &Hash32) -> Result<Option<Blob>, BackFault>
        ensures same { IsTrue tells → held self.new ≡ held self.old }
        ensures found { IsTrue tells → IfOk result (λ b. b ≡ map.get (held self.old) h.now) }
        ensures asked { CountsGet (gets self.old) (gets self.new) }
        ensures doubted { doubt self.new ≡ doubt self.old }
        ensures device { LeavesDevice number faults (OnFault result) self.old self.new };

    /// Writes the form of a hash into a room, in place of what that held. False where none is held; what the room holds then, and after an
    /// error, is open.
    fn get_into(&mut self, alloc: Global, h: &Hash32, room: &mut Vec<u8>) -> Result<bool, BackFault>
        ensures same { IsTrue tells → held self.new ≡ held self.old }
        ensures found { IsTrue tells → IfOk result (λ b. filled b room.new.items ≡ map.get (held self.old) h.now) }
        ensures asked { CountsGet (gets self.old) (gets self.new) }
        ensures doubted { doubt self.new ≡ doubt self.old }
        ensures device { LeavesDevice number faults (OnFault result) self.old self.new };

    /// Sets the form of a hash.
    fn put(&mut self, alloc: Global, h: &Hash32, form: &[u8]) -> Result<(), BackFault>
        ensures set { IsTrue tells → OnOk result (held self.new ≡ map.insert (held self.old) h.now form.now) }
        ensures partly { IsTrue tells
            → OnErr result (FailedPut (held self.old) (doubt self.old) (h.now, form.now) (held self.new) (doubt self.new)) }
        ensures doubts { Doubts (doubt self.old) (h.now, form.now) (doubt self.new) result }
        ensures uncounted { gets self.new ≡ gets self.old }
        ensures device { LeavesDevice number faults (OnFault result) self.old self.new };

    /// The least hash that comes after another one, or the least of all.
    fn next(&mut self, alloc: Global, after: Option<&Hash32>) -> Result<Option<Hash32>, BackFault>
        ensures same { IsTrue tells → held self.new ≡ held self.old }
        ensures next { IsTrue tells → IfOk result (IsNext (held self.old) (option_copied after.entry)) }
        ensures uncounted { gets self.new ≡ gets self.old }
        ensures doubted { doubt self.new ≡ doubt self.old }
        ensures device { LeavesDevice number faults (OnFault result) self.old self.new };

    /// How often the device failed.
    fn faults(&self) -> u64
        ensures { result ≡ faults self.now };

    /// How often a form was asked for.
    fn gets(&self) -> u64
        ensures { result ≡ gets self.now };
}

/// What makes backends, and takes those that are done with.
pub trait Shelf: Send + Drop {
    /// Its backends.
    type B: Backend;

    /// How often the shelf failed.
    ghost faults: { Self → ℕ };

    /// The numbers that were handed out and not discarded.
    ghost live: { Self → List ℕ };

    /// The numbers whose discard failed.
    ghost undone: { Self → List ℕ };

    /// An empty backend, with a number greater than all of both lists.
    fn fresh(&mut self, alloc: Global) -> Result<Self::B, BackFault>
        ensures backend { IfOk result (λ b. IsEmptyBackend Self.B.tells Self.B.held Self.B.faults Self.B.gets Self.B.doubt b) }
        ensures above { IfOk result (λ b. IsTrue (exceeds (Self.B.number b) (live self.old))
            × IsTrue (exceeds (Self.B.number b) (undone self.old))) }
        ensures lists { ListsNew Self.B.number (live self.old) (live self.new) (undone self.old) (undone self.new) result }
        ensures counts { CountsFaults (OnFault result) (faults self.old) (faults self.new) };

    /// Takes a backend back: its number leaves the first list, and where the device fails it goes into
    /// the second.
    fn discard(&mut self, old: Self::B) -> Result<(), BackFault>
        ensures taken { TakesBack (Self.B.number old) (live self.old) (live self.new) (undone self.old) (undone self.new) result }
        ensures counts { CountsFaults (OnFault result) (faults self.old) (faults self.new) };

    /// How often the shelf failed.
    fn faults(&self) -> u64
        ensures { result ≡ faults self.now };
}

//! The rotator: a walk from the roots, which is told of what is written meanwhile, and the swap once nothing is grey.
ghost use Rattle.std.specs.Prelude.{◌≡◌, ◌≤◌, ◌<◌, ◌-◌, ◌^◌, true, false, IfOk, IsOk, OnOk, OnErr};
ghost use Rattle.rotating_store.specs.Stores.{LeavesStore};
ghost use Rattle.rotating_store.specs.Turning.{FailsPlainly};
ghost use Rattle.ledger_spec.specs.Retaining.{due};
ghost use Rattle.copy_walk.specs.Calls.{AnswersSlice};
ghost use Rattle.online_rotate.specs.Rotators.{slices_after};
ghost use Rattle.online_rotate.specs.Calls.{LeavesUnbegun, GoesOnBy, EndsBy, Rotates, TurnsOrStays};

use copy_walk::{CopyWalk, Left};
use half_hash::{Hash32, Memory};
use node_backend::Shelf;
use retain_book::Book;
use rotating_store::{RotStore, StoreFault};
use std::alloc::Global;
use std::marker::Model;

/// What a begin came to.
#[derive(Clone, Copy, Debug, PartialEq, Eq)]
pub enum Begun {
    /// The rotation of this sequence is under way, and this is the floor.
    Begun { seq: u32, floor: u32 },
    /// None is due.
    NotDue,
    /// One is under way.
    Busy,
}

/// What a rotation is told to keep, and its walk. Contracts see these, whether one is under way, and its slices.
#[derive(Drop)]
pub struct Rotator {
    told: Vec<Hash32>,
    walk: Option<CopyWalk>,
    /// How many slices of this rotation left something to copy.
    slices: u32,
}

impl Model for Rotator {
    ghost use Rattle.std.specs.Prelude.{is_some};
    ghost use Rattle.std.specs.Option.{unwrap_or};
    ghost use Rattle.online_rotate.specs.Rotators.{Turning, no_walk};

    ghost Value = { Turning };

    ghost view = { λ r. record {
      turning = is_some r.walk;
      shaded = r.told.items;
      walk = unwrap_or r.walk no_walk;
      slices = r.slices;
    } };
}

impl Rotator {
    ghost use Rattle.online_rotate.specs.Rotators.{Turning, at_rest, InStep, begun_by, AfterBegin, Shades, Heeds, AfterFinish};

    /// No rotation is under way.
    pub fn new(alloc: Global) -> Rotator
        ensures { result ≡ at_rest }
    {
        Rotator {
            told: Vec::new(alloc),
            walk: None,
            slices: 0,
        }
    }

    /// Begins the rotation that is due, with the book's roots for the new floor and these targets to keep. Where one is under way, or none
    /// is due, nothing changes and no memory is asked for; where memory is refused nothing changes either.
    pub fn begin(
        &mut self,
        alloc: Global,
        book: &mut Book,
        targets: &[Hash32],
    ) -> Result<Begun, Memory>
        requires { InStep self.old book.old }
        ensures reply { IfOk result (λ r. r ≡ begun_by self.old.turning (due book.old) book.old.last) }
        ensures after { IfOk result (λ r. AfterBegin book.old targets.now self.old r book.new self.new) }
        ensures step { InStep self.new book.new }
        ensures err { LeavesUnbegun self.old book.old result self.new book.new }
    {
        if self.walk.is_some() {
            return Ok(Begun::Busy);
        }
        book.known();
        let (Some(last), Some(seq)) = (book.last(), book.due()) else {
            return Ok(Begun::NotDue);
        };
        let floor = last + 1;
        let mut roots = book.roots(alloc, floor)?;
        roots.extend_from_slice(targets)?;
        let walk = CopyWalk::start(alloc, &roots)?;
        book.begin();
        self.told = roots;
        self.walk = Some(walk);
        self.slices = 0;
        Ok(Begun::Begun { seq, floor })
    }

    /// Keeps what a hash reaches too, where a rotation is under way. Where memory is refused nothing changes.
    pub fn shade(&mut self, h: &Hash32) -> Result<(), Memory>
        ensures told { self.old.turning ≡ true → OnOk result (Shades self.old h.now self.new) }
        ensures idle { self.old.turning ≡ false → IsOk result × (self.new ≡ self.old) }
        ensures err { OnErr result (self.new ≡ self.old) }
    {
        let Some(walk) = &mut self.walk else {
            return Ok(());
        };
        self.told.reserve(1)?;
        walk.shade(h)?;
        self.told.push(*h).unwrap();
        Ok(())
    }

    /// Has a hash taken, where a rotation is under way, which is about to be written below one that is kept. Where memory is refused
    /// nothing changes.
    pub fn heed(&mut self, h: &Hash32) -> Result<(), Memory>
        ensures heeds { self.old.turning ≡ true → OnOk result (Heeds self.old h.now self.new) }
        ensures idle { self.old.turning ≡ false → IsOk result × (self.new ≡ self.old) }
        ensures err { OnErr result (self.new ≡ self.old) }
    {
        let Some(walk) = &mut self.walk else {
            return Ok(());
        };
        walk.shade(h)?;
        Ok(())
    }

    /// Takes up to n grey hashes of the walk. After an error, a device's or for want of memory, no grey hash is lost, and a later call goes
    /// on.
    pub fn slice<Sh: Shelf>(
        &mut self,
        alloc: Global,
        store: &mut RotStore<Sh>,
        n: usize,
    ) -> Result<Left, StoreFault>
        requires turning { self.old.turning ≡ true }
        requires some { 0 < n }
        ensures slices { AnswersSlice Sh.B.tells n self.old.walk store.old result self.new.walk store.new }
        ensures turns { GoesOnBy Sh.B.tells self.old store.old result self.new store.new }
        ensures store { LeavesStore StoreFault.Fault store.old store.new result }
    {
        let Some(walk) = &mut self.walk else {
            return Ok(Left::Done);
        };
        let left = walk.slice(alloc, store, n)?;
        self.slices = counted(left, self.slices);
        Ok(left)
    }

    /// Copies forward what is left, drops the archive, and tells the new epoch. After an error, a device's or for want of memory, the
    /// rotation is still under way, and a later `finish` goes on with it.
    pub fn finish<Sh: Shelf>(
        &mut self,
        alloc: Global,
        store: &mut RotStore<Sh>,
        book: &mut Book,
    ) -> Result<u64, StoreFault>
        requires step { InStep self.old book.old }
        requires turning { self.old.turning ≡ true }
        requires room { store.old.epoch < 2 ^ 64 - 1 }
        ensures after { AfterFinish self.old book.old store.old result self.new book.new store.new }
        ensures ends { EndsBy Sh.B.tells self.old.shaded self.old.walk store.old result self.new.walk store.new }
    {
        let Some(walk) = &mut self.walk else {
            unreachable!();
        };
        rotate(alloc, store, walk)?;
        book.finish();
        self.walk = None;
        self.told.clear();
        Ok(store.epoch())
    }

    /// Whether a rotation is under way.
    pub fn busy(&self) -> bool
        ensures { result ≡ self.now.turning }
    {
        self.walk.is_some()
    }

    /// How many slices of this rotation left something to copy.
    pub fn slices(&self) -> u32
        ensures { result ≡ self.now.slices }
    {
        self.slices
    }
}

// Copies what is left of a walk, and swaps.
fn rotate<Sh: Shelf>(
    alloc: Global,
    store: &mut RotStore<Sh>,
    walk: &mut CopyWalk,
) -> Result<(), StoreFault>
    requires { store.old.epoch < 2 ^ 64 - 1 }
    ensures rotates { Rotates Sh.B.tells walk.old store.old result walk.new store.new }
    ensures rest { TurnsOrStays store.old result store.new }
    ensures risen { (store.old.faults ≤ store.new.faults) × (store.old.gets ≤ store.new.gets) }
    ensures fails { FailsPlainly store.old store.new result }
{
    walk.drain(alloc, store)?;
    store.prepare(alloc)?;
    store.swap();
    Ok(())
}

// How many slices left something, after one more.
fn counted(left: Left, slices: u32) -> u32
    ensures { result ≡ slices_after left slices }
{
    match left {
        Left::More => slices.saturating_add(1),
        Left::Done => slices,
    }
}

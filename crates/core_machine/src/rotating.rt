//! The commands that begin and end a rotation, and what one is told meanwhile.
ghost use Rattle.std.specs.Prelude.{◌≡◌, ◌⊎◌, false, ◌<◌, ◌≤◌, ◌-◌, ◌^◌, ◌++◌, [], IsTrue, IsSome, IfOk};
ghost use Rattle.std.specs.Map.{keys_of, values_of};
ghost use Rattle.ledger_machine.specs.State.{bases as edited};
ghost use Rattle.core_machine.specs.Desks.{IsFiled};
ghost use Rattle.core_machine.specs.Serving.{Acts, MayServe};
ghost use Rattle.core_machine.specs.Telling.{most_slices, most_copied, BeginsTurn, Finishes, SlicesFirst, SlicesOn};
ghost use Rattle.core_machine.specs.Telling.{AreTold, Carried};

use crate::limits::{MOST_COPIED, MOST_SLICES};
use crate::machine::Machine;
use crate::refusals::unread;
use crate::replies::{begin_told, slice_told, swap_told};
use crate::tables::Tables;
use acquire_core::Acquire;
use edit_session::a_session_stays_over_its_ledger;
use half_hash::{Hash32, Memory, NodeHash};
use ledger_machine::{BeginReply, Command, Reply, SwapReply};
use node_backend::{BackFault, Shelf};
use online_rotate::Left;
use std::alloc::Global;
use std::collections::BTreeMap;

/// How much of a command one section does.
#[derive(Clone, Copy, Debug, PartialEq, Eq)]
pub enum Part {
    /// A slice of it, where it is done in slices.
    Slice,
    /// All of it.
    Whole,
}

impl<H: NodeHash, Sh: Shelf> Tables<H, Sh> {
    /// Begins the rotation that is due, which is told of the ledgers that stay listed, of those of views, of the open targets and of these.
    pub(crate) fn begin(&mut self, alloc: Global, bases: &[Hash32]) -> Result<BeginReply, Memory>
        ensures { BeginsTurn Sh.B.tells bases.now self.old result self.new }
    {
        let targets = self.targets(alloc, bases)?;
        let begun = self.rotator.begin(alloc, &mut self.book, &targets)?;
        Ok(begin_told(begun))
    }

    // What views hold, the open targets, and these.
    fn targets(&self, alloc: Global, bases: &[Hash32]) -> Result<Vec<Hash32>, Memory>
        ensures { IfOk result (λ hashes. hashes.items ≡ values_of self.now.state.views ++ keys_of self.now.state.wanted ++ bases.now) }
    {
        let mut hashes = viewed(alloc, &self.views)?;
        let wanted = opened(alloc, &self.wanted)?;
        hashes.extend_from_slice(&wanted)?;
        hashes.extend_from_slice(bases)?;
        Ok(hashes)
    }

    /// Whether a rotation is under way that may do one more slice.
    pub(crate) fn may_slice(&self) -> bool
        ensures yes { IsTrue result → IsSome self.now.state.turning × (self.now.slices < most_slices) }
        ensures no { result ≡ false → (self.now.grey ≡ []) ⊎ (most_slices ≤ self.now.slices) }
    {
        self.rotator.busy() && self.rotator.slices() < MOST_SLICES
    }

    /// Takes up to n hashes of the walk of the rotation under way. Only where forms lie changes: the state stays as it is.
    pub(crate) fn slice(&mut self, alloc: Global, n: usize) -> Result<Left, BackFault>
        requires turning { IsSome self.old.state.turning }
        requires some { 0 < n }
        ensures slices { SlicesOn Sh.B.tells n self.old result self.new }
        ensures told { self.new.state.shaded ≡ self.old.state.shaded }
    {
        let sliced = self.rotator.slice(alloc, &mut self.store, n);
        slice_told(sliced)
    }

    /// Ends the rotation under way: what it was told to keep is copied, and the rest goes. Where that is refused it goes on.
    pub(crate) fn swap(&mut self, alloc: Global) -> Result<SwapReply, BackFault>
        requires { self.old.state.epoch < 2 ^ 64 - 1 }
        ensures { Finishes Sh.B.tells self.old result self.new }
    {
        if !self.rotator.busy() {
            return Ok(SwapReply::Idle);
        }
        let ended = self.rotator.finish(alloc, &mut self.store, &mut self.book);
        swap_told(ended)
    }
}

impl<H: NodeHash, Sh: Shelf> Machine<H, Sh> {
    /// The slice that a section of a swap begins with, where a rotation is under way that may do one more. `Done` where there is none.
    pub(crate) fn slice_first(
        &mut self,
        alloc: Global,
        command: &Command,
        part: Part,
    ) -> Result<Left, BackFault>
        ensures { SlicesFirst Sh.B.tells command.now part self.old result self.new }
    {
        let Command::Swap = command else {
            return Ok(Left::Done);
        };
        if part == Part::Whole || !self.tables.may_slice() {
            return Ok(Left::Done);
        }
        self.slice(alloc)
    }

    // A slice of the rotation under way. What a session leaves to the store stays as it is.
    fn slice(&mut self, alloc: Global) -> Result<Left, BackFault>
        requires { IsSome self.old.state.turning }
        ensures { SlicesOn Sh.B.tells most_copied self.old result self.new }
    {
        self.tables.slice(alloc, MOST_COPIED)
    }

    /// What `begin` does.
    pub(crate) fn answer_begin(&mut self, alloc: Global, actor: u8) -> Reply
        requires may { MayServe H.half Sh.B.tells self.old Command.Begin }
        ensures acts { Acts H.half Sh.B.tells self.old actor Command.Begin result [] self.new }
        ensures carries { IsTrue Sh.B.tells
            → AreTold self.new.state × Carried H.half self.old.state actor Command.Begin result self.new.state }
    {
        match self.begin(alloc) {
            Ok(reply) => Reply::Begin(reply),
            Err(_) => Reply::Memory,
        }
    }

    /// What `swap` does.
    pub(crate) fn answer_swap(&mut self, alloc: Global, actor: u8) -> Reply
        requires may { MayServe H.half Sh.B.tells self.old Command.Swap }
        ensures acts { Acts H.half Sh.B.tells self.old actor Command.Swap result [] self.new }
        ensures carries { IsTrue Sh.B.tells
            → AreTold self.new.state × Carried H.half self.old.state actor Command.Swap result self.new.state }
    {
        match self.swap(alloc) {
            Ok(reply) => Reply::Swap(reply),
            Err(fault) => unread(fault),
        }
    }

    // Begins the rotation that is due. It is told of the ledgers that are edited, too.
    fn begin(&mut self, alloc: Global) -> Result<BeginReply, Memory>
        ensures { BeginsTurn Sh.B.tells (edited self.old.state) self.old result self.new }
    {
        let bases = self.sessions.bases(alloc)?;
        self.tables.begin(alloc, &bases)
    }

    // Ends the rotation under way. What a session leaves to the store is reached from the ledger that it edits, so that it stays.
    fn swap(&mut self, alloc: Global) -> Result<SwapReply, BackFault>
        requires filed { IsFiled H.half Sh.B.tells self.old.state }
        requires told { IsTrue Sh.B.tells → AreTold self.old.state }
        requires room { self.old.state.epoch < 2 ^ 64 - 1 }
        ensures { Finishes Sh.B.tells self.old result self.new }
    {
        a_session_stays_over_its_ledger();
        self.tables.swap(alloc)
    }
}

/// The ledgers of the open views.
pub(crate) fn viewed(
    alloc: Global,
    views: &BTreeMap<(u8, u16), Hash32>,
) -> Result<Vec<Hash32>, Memory>
    ensures { IfOk result (λ hashes. hashes.items ≡ values_of views.now.entries) }
{
    let hashes = views.values().copied().collect(alloc)?;
    Ok(hashes)
}

// The targets of the open acquisitions.
fn opened(alloc: Global, wanted: &BTreeMap<Hash32, Acquire>) -> Result<Vec<Hash32>, Memory>
    ensures { IfOk result (λ hashes. hashes.items ≡ keys_of wanted.now.entries) }
{
    let hashes = wanted.keys().copied().collect(alloc)?;
    Ok(hashes)
}

//! The commands that acquire a ledger from peers. Each is answered by the acquisition that is open under the target.
ghost use Rattle.std.specs.Prelude.{◌≡◌, ◌<◌, ◌∷◌, [], None, IsTrue, IsSome, OnOk, OnErr, IfOk};
ghost use Rattle.std.specs.List.{Contains};
ghost use Rattle.std.specs.Option.{option_copied};
ghost use Rattle.ledger_spec.specs.Bytes.{is_nonzero};
ghost use Rattle.ledger_spec.specs.Maps.{hash_cmp, get_in};
ghost use Rattle.ledger_spec.specs.Acquiring.{after_verdict};
ghost use Rattle.acquire_core.specs.Replies.{found_verdict};
ghost use Rattle.missing_walk.specs.Founds.{IsFound};
ghost use Rattle.core_machine.specs.Checking.{AreKept, HasFound, sought_by};
ghost use Rattle.core_machine.specs.Serving.{MayAct, Seeks, TakesOffer};
ghost use Rattle.ledger_machine.specs.Limits.{actors};
ghost use Rattle.ledger_machine.specs.State.{stored_seq, with_wanted, ended};
ghost use Rattle.ledger_machine.specs.Want.{want_reply, after_want};
ghost use Rattle.ledger_machine.specs.Peer.{peer_reply, after_peer};
ghost use Rattle.ledger_machine.specs.Check.{check_reply, after_check};
ghost use Rattle.ledger_machine.specs.Ticks.{tick_reply, after_tick};
ghost use Rattle.ledger_machine.specs.Rotation.{Tells};
ghost use Rattle.ledger_machine.specs.Steps.{IsAfter};
ghost use Rattle.core_machine.specs.Desks.{AsksNoStore, IsFiled, Stays, Grows, KeepsRest, WantsMemory};
ghost use Rattle.core_machine.specs.Commands.{TellsRoot};
ghost use Rattle.core_machine.specs.Telling.{Hears};
ghost use Rattle.core_machine.specs.Wanting.{judged_by, found_seq as seq_found, settled, told_at};

use crate::heeding::{take_base, take_node};
use crate::limits::MOST_WANTED;
use crate::replies::{base_answer, node_answer};
use crate::rotating::Part;
use crate::tables::Tables;
use acquire_core::Acquire;
use half_hash::{Blob, Hash32, Memory, NodeHash, known_half};
use ledger_machine::{
    BaseBox, BaseReply, CheckReply, Command, NodeReply, PeerReply, Reply, TickReply, WantReply,
};
use ledger_searches::Searches;
use missing_walk::{Found, SearchFault};
use nib_path::NodeId;
use node_backend::Shelf;
use shamap_node::Kind;
use std::alloc::Global;

/// What was searched of a ledger before a check of it is answered.
#[derive(Drop)]
pub(crate) enum Sought {
    /// The search has ended with what was found, or no acquisition is open under the target, and nothing was searched.
    Ended(Option<Found>),
    /// The search is left for another section.
    More,
}

impl<H: NodeHash, Sh: Shelf> Tables<H, Sh> {
    /// Opens an acquisition.
    pub(crate) fn want(
        &mut self,
        alloc: Global,
        target: &Hash32,
        seq: u32,
    ) -> Result<WantReply, Memory>
        requires { IsTrue (is_nonzero target.now) }
        ensures row { IfOk result (λ r.
            (r ≡ want_reply self.old.state target.now seq) × IsAfter (after_want self.old.state target.now seq r) self.new.state) }
        ensures err { OnErr result (IsAfter self.old.state self.new.state) }
        ensures tells { IfOk result (λ r. Tells self.old.state self.new.state []) }
        ensures may_tell { OnErr result (Tells self.old.state self.new.state (target.now ∷ [])) }
        ensures names { IfOk result (λ r. TellsRoot self.old.state (Command.Want target.now seq) (Reply.Want r) self.new.state) }
        ensures stays { Stays Sh.B.tells self.old self.new }
    {
        if self.book.is_listed(target) {
            return Ok(WantReply::Listed);
        }
        if self.wanted.contains_key(target) {
            return Ok(WantReply::Open);
        }
        let floor = self.book.floor();
        if seq != 0 && seq < floor {
            return Ok(WantReply::BelowFloor(floor));
        }
        if self.wanted.len() == MOST_WANTED {
            return Ok(WantReply::TooMany);
        }
        self.open(alloc, target, seq)?;
        Ok(WantReply::Opened)
    }

    // Opens an acquisition, whose target is a new root: the rotation under way is told of it first.
    fn open(&mut self, alloc: Global, target: &Hash32, seq: u32) -> Result<(), Memory>
        requires { IsTrue (is_nonzero target.now) }
        ensures ok { OnOk result (IsAfter (after_want self.old.state target.now seq WantReply.Opened) self.new.state) }
        ensures err { OnErr result (IsAfter self.old.state self.new.state) }
        ensures hears { Hears self.old.state.shaded (target.now ∷ []) self.new.state.shaded }
        ensures told { OnOk result (IsSome self.old.state.turning → Contains self.new.state.shaded target.now) }
        ensures stays { Stays Sh.B.tells self.old self.new }
    {
        self.shade(target)?;
        self.begin_search(alloc, target, seq)
    }

    // The same, once the rotation was told.
    fn begin_search(&mut self, alloc: Global, target: &Hash32, seq: u32) -> Result<(), Memory>
        requires { IsTrue (is_nonzero target.now) }
        ensures ok { OnOk result (self.new.state ≡ after_want self.old.state target.now seq WantReply.Opened) }
        ensures memory { WantsMemory Sh.B.tells self.old result self.new }
    {
        self.wanted
            .insert(*target, Acquire::new(alloc, *target, seq))?;
        Ok(())
    }

    /// Adds a peer to an acquisition.
    pub(crate) fn peer(&mut self, peer: u16, target: &Hash32) -> Result<PeerReply, Memory>
        ensures reply { IfOk result (λ r. r ≡ peer_reply self.old.state peer target.now) }
        ensures after { IfOk result (λ _. self.new.state ≡ after_peer self.old.state peer target.now) }
        ensures memory { WantsMemory Sh.B.tells self.old result self.new }
    {
        let Some(acquire) = self.wanted.get_mut(target) else {
            return Ok(PeerReply::NotOpen);
        };
        let reply = acquire.peer(peer)?;
        Ok(reply)
    }

    /// Takes a base reply of a peer: a header, and the roots of its maps where they are given. What is written then is reached from the
    /// target, so a rotation under way, which was told of that, keeps it.
    pub(crate) fn base(
        &mut self,
        alloc: Global,
        room: BaseBox,
        peer: u16,
        target: &Hash32,
        header: &Blob,
        state: &Option<Blob>,
        tx: &Option<Blob>,
    ) -> Reply
        requires may { MayAct H.half Sh.B.tells self.old (Command.Base peer target.now header.now state.now tx.now) None }
        ensures { TakesOffer H.half Sh.B.tells self.old (Command.Base peer target.now header.now state.now tx.now) result self.new }
    {
        known_half::<H>();
        let Some(acquire) = self.wanted.get_mut(target) else {
            return Reply::Base(room.holding(BaseReply::NotOpen));
        };
        let (state, tx) = (lent(state), lent(tx));
        let taken = take_base::<H, Sh>(
            alloc,
            acquire,
            &mut self.store,
            &mut self.rotator,
            target,
            peer,
            header.bytes(),
            state,
            tx,
        );
        base_answer(room, taken)
    }

    /// Takes a node of a peer. It is reached from the target, so a rotation under way, which was told of that, keeps it; its walk takes the
    /// node's hash before the node is written.
    pub(crate) fn node(
        &mut self,
        alloc: Global,
        peer: u16,
        target: &Hash32,
        kind: Kind,
        id: &NodeId,
        blob: &Blob,
    ) -> Reply
        requires may { MayAct H.half Sh.B.tells self.old (Command.Node peer target.now kind id.now blob.now) None }
        ensures { TakesOffer H.half Sh.B.tells self.old (Command.Node peer target.now kind id.now blob.now) result self.new }
    {
        known_half::<H>();
        let Some(acquire) = self.wanted.get_mut(target) else {
            return Reply::Node(NodeReply::NotOpen);
        };
        let taken = take_node::<H, Sh>(
            alloc,
            acquire,
            &mut self.store,
            &mut self.rotator,
            peer,
            kind,
            id,
            blob.bytes(),
        );
        node_answer(taken)
    }

    /// Searches for what is missing of a ledger whose acquisition is open, passing what is marked: a slice of the actor's search, or to its
    /// end. Nothing but what searches share is changed.
    pub(crate) fn seek(
        &mut self,
        alloc: Global,
        searches: &mut Searches,
        actor: u8,
        target: &Hash32,
        part: Part,
    ) -> Result<Sought, SearchFault>
        requires filed { IsFiled H.half Sh.B.tells self.old.state }
        requires searches { AreKept H.half Sh.B.tells self.old.state searches.old }
        requires known { actor < actors }
        ensures { Seeks H.half Sh.B.tells self.old actor target.now part searches.old result searches.new self.new }
    {
        if !self.wanted.contains_key(target) {
            return Ok(Sought::Ended(None));
        }
        match part {
            Part::Slice => {
                let found = searches.slice::<H, Sh>(alloc, &mut self.store, actor, target)?;
                Ok(slice_sought(found))
            }
            Part::Whole => {
                let found = searches.look::<H, Sh>(alloc, &mut self.store, target)?;
                Ok(Sought::Ended(Some(found)))
            }
        }
    }

    /// Lists a ledger whose acquisition is open where nothing of it was found missing or broken and it is acceptable.
    pub(crate) fn check(
        &mut self,
        alloc: Global,
        target: &Hash32,
        found: &Option<Found>,
    ) -> Result<CheckReply, Memory>
        requires found { HasFound H.half Sh.B.tells self.old.state (Command.Check target.now) found.now }
        ensures row { IsTrue Sh.B.tells → IfOk result (λ r. (r ≡ check_reply H.half self.old.state target.now)
            × IsAfter (after_check self.old.state target.now (stored_seq self.old.state target.now) r) self.new.state) }
        ensures err { OnErr result (IsAfter self.old.state self.new.state) }
        ensures tells { Tells self.old.state self.new.state [] }
        ensures kept { OnErr result (KeepsRest self.old.state self.new.state) }
        ensures grows { Grows self.old self.new }
        ensures store { AsksNoStore Sh.B.tells self.old self.new }
    {
        if !self.wanted.contains_key(target) {
            return Ok(CheckReply::NotOpen);
        }
        let Some(found) = found else {
            unreachable!();
        };
        let reply = self.judge(alloc, target, found)?;
        self.settle(target, found_seq(found), &reply)?;
        Ok(reply)
    }

    // What an acquisition comes to by what a search found.
    fn judge(&mut self, alloc: Global, target: &Hash32, found: &Found) -> Result<CheckReply, Memory>
        requires { IsFound found.now }
        ensures reply { IfOk result (λ r. r ≡ judged_by (get_in hash_cmp self.old.state.wanted target.now) self.old.state.floor found.now) }
        ensures after { IfOk result (λ _. self.new.state ≡ with_wanted self.old.state target.now
            (λ a. after_verdict a (found_verdict a self.old.state.floor found.now))) }
        ensures memory { WantsMemory Sh.B.tells self.old result self.new }
        ensures store { AsksNoStore Sh.B.tells self.old self.new }
    {
        let floor = self.book.floor();
        let Some(acquire) = self.wanted.get_mut(target) else {
            return Ok(CheckReply::NotOpen);
        };
        Ok(acquire.check(alloc, found, floor)?)
    }

    // Ends what the answer ends: a complete ledger is listed, and one that isn't acceptable is wanted no more.
    fn settle(&mut self, target: &Hash32, seq: u32, reply: &CheckReply) -> Result<(), Memory>
        ensures ok { OnOk result (IsAfter (settled self.old.state target.now seq reply.now) self.new.state) }
        // only to list a ledger takes memory
        ensures err { OnErr result ((reply.now ≡ CheckReply.Complete) × IsAfter self.old.state self.new.state) }
        ensures hears { Hears self.old.state.shaded (told_at target.now reply.now) self.new.state.shaded }
        ensures store { AsksNoStore Sh.B.tells self.old self.new }
    {
        match reply {
            CheckReply::Complete => self.list(target, seq)?,
            CheckReply::SeqDiffers { .. }
            | CheckReply::ZeroState
            | CheckReply::BelowFloor(_)
            | CheckReply::Malformed { .. } => self.end(target),
            _ => {}
        }
        Ok(())
    }

    // Ends an acquisition.
    fn end(&mut self, target: &Hash32)
        ensures after { self.new.state ≡ ended self.old.state target.now }
        ensures told { self.new.state.shaded ≡ self.old.state.shaded }
        ensures store { AsksNoStore Sh.B.tells self.old self.new }
    {
        self.wanted.remove(target);
    }

    /// Takes a tick of an acquisition; the seventh gives it up.
    pub(crate) fn tick(&mut self, target: &Hash32) -> TickReply
        ensures reply { result ≡ tick_reply self.old.state target.now }
        ensures after { self.new.state ≡ after_tick self.old.state target.now result }
        ensures told { self.new.state.shaded ≡ self.old.state.shaded }
        ensures stays { Stays Sh.B.tells self.old self.new }
    {
        let Some(acquire) = self.wanted.get_mut(target) else {
            return TickReply::NotOpen;
        };
        match acquire.tick() {
            TickReply::Timeout(number) => TickReply::Timeout(number),
            TickReply::GaveUp(number) => {
                self.wanted.remove(target);
                TickReply::GaveUp(number)
            }
            TickReply::NotOpen => TickReply::NotOpen,
        }
    }
}

// The bytes of a part that is given.
fn lent(blob: &Option<Blob>) -> Option<&[u8]>
    ensures { option_copied result ≡ blob.now }
{
    match blob {
        Some(blob) => Some(blob.bytes()),
        None => None,
    }
}

// What a slice of a search has come to.
fn slice_sought(found: Option<Found>) -> Sought
    ensures { result ≡ sought_by found }
{
    match found {
        Some(found) => Sought::Ended(Some(found)),
        None => Sought::More,
    }
}

// The sequence of the header that was found, 0 where none was.
fn found_seq(found: &Found) -> u32
    ensures { result ≡ seq_found found.now }
{
    match &found.header {
        Some(header) => header.seq,
        None => 0,
    }
}

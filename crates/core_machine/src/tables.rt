//! The state that the commands act on, over tables in memory.
ghost use Rattle.std.specs.Prelude.{◌≡◌, ◌<◌, ◌^◌, [], IsTrue, length, map};
ghost use Rattle.std.specs.FinMap as finite;
ghost use Rattle.std.specs.Option.{option_copied};
ghost use Rattle.shamap_node.specs.Nodes.{held};
ghost use Rattle.ledger_machine.specs.Commands.{IsBeside};
ghost use Rattle.ledger_machine.specs.Rotation.{Tells};
ghost use Rattle.ledger_machine.specs.State.{opening};
ghost use Rattle.ledger_machine.specs.Steps.{own_hashes};
ghost use Rattle.rotating_store.specs.Stores.{merged};
ghost use Rattle.core_machine.specs.Desks.{IsFiled, over};
ghost use Rattle.core_machine.specs.Dumping.{GivesNext};
ghost use Rattle.core_machine.specs.Commands.{ReadsNothing, TellsRoot};
ghost use Rattle.core_machine.specs.Serving.{Acts, MayAct};
ghost use Rattle.core_machine.specs.Totals.{totals_by};

use crate::records::next_record;
use crate::refusals::unread;
use acquire_core::Acquire;
use half_hash::{Hash32, NodeHash};
use ledger_machine::{BaseBox, Command, Record, Reply, Totals};
use missing_walk::Found;
use node_backend::{BackFault, Shelf};
use online_rotate::Rotator;
use retain_book::Book;
use rotating_store::RotStore;
use shamap_node::Node;
use std::alloc::Global;
use std::collections::BTreeMap;
use std::marker::Model;
use std::sync::Arc;

#[derive(Drop)]
pub(crate) struct Tables<H: NodeHash, Sh: Shelf> {
    pub(crate) hash: H,
    pub(crate) store: RotStore<Sh>,
    pub(crate) wanted: BTreeMap<Hash32, Acquire>,
    pub(crate) views: BTreeMap<(u8, u16), Hash32>,
    pub(crate) book: Book,
    pub(crate) rotator: Rotator,
}

impl<H: NodeHash, Sh: Shelf> Model for Tables<H, Sh> {
    ghost use Rattle.std.specs.Coded.{codes};
    ghost use Rattle.ledger_spec.specs.Maps.{map_code, set_code};
    ghost use Rattle.core_machine.specs.Desks.{Desk, desk_of};
    ghost use Rattle.core_machine.specs.Telling.{KeepsTurning};
    ghost use Rattle.core_machine.specs.Wanting.{AreOpen};

    ghost Value = { Desk };

    ghost coded = { Prim.hlevel (codes, map_code, set_code) };

    ghost view = { λ m. desk_of m.store m.wanted.entries m.views.entries m.book m.rotator };

    ghost invariant = { λ m. AreOpen m.wanted.entries × KeepsTurning Sh.B.tells m.book m.rotator m.store };
}

impl<H: NodeHash, Sh: Shelf> Tables<H, Sh> {
    /// The opening state over a store: the tables are empty, and what the store holds is there.
    pub(crate) fn new(alloc: Global, hash: H, interval: u32, store: RotStore<Sh>) -> Tables<H, Sh>
        requires apart { 0 < interval }
        requires new { IsTrue Sh.B.tells → store.archive ≡ finite.empty }
        ensures state { result.state ≡ over store (opening finite.empty interval) }
        ensures faults { result.faults ≡ store.faults }
        ensures slices { result.slices ≡ 0 }
    {
        Tables {
            hash,
            store,
            wanted: BTreeMap::new(alloc),
            views: BTreeMap::new(alloc),
            book: Book::new(alloc, interval),
            rotator: Rotator::new(alloc),
        }
    }

    /// For proofs: the machine has no sessions, and what is stored is what the two backends hold.
    pub(crate) fn known(&self)
        ensures sessions { self.now.state.sessions ≡ [] }
        ensures nodes { self.now.state.nodes ≡ merged self.now.written self.now.archived }
    {
        let _ = &self.rotator;
    }

    pub(crate) fn floor(&self) -> u32
        ensures { result ≡ self.now.state.floor }
    {
        self.book.floor()
    }

    /// The numbers of a run's summary, by how many entries are `complete` and how many `closed`.
    pub(crate) fn totals(&self, complete: u32, closed: u32) -> Totals
        requires { length self.now.state.listed < 2 ^ 32 }
        ensures { result ≡ totals_by complete closed self.now.state }
    {
        Totals {
            complete,
            closed,
            listed: self.book.count() as u32,
            floor: self.book.floor(),
            last: self.book.last(),
            epoch: self.store.epoch(),
        }
    }

    /// The next stored record after a hash, or the first one.
    pub(crate) fn next_stored(
        &mut self,
        alloc: Global,
        after: Option<&Hash32>,
    ) -> Result<Option<Record>, BackFault>
        requires { IsFiled H.half Sh.B.tells self.old.state }
        ensures { GivesNext Sh.B.tells self.old (option_copied after.entry) result self.new }
    {
        let next = next_record::<H, Sh>(alloc, &mut self.store, after)?;
        Ok(next)
    }

    /// What a command does that names no session and sees none: the reply, and the nodes that it used.
    #[tactic(auto, using(crate::proofs::shared::Checks::asks_as))]
    pub(crate) fn answer(
        &mut self,
        alloc: Global,
        actor: u8,
        command: &Command,
        found: &Option<Found>,
    ) -> (Reply, Vec<Arc<Node>>)
        requires beside { IsBeside command.now }
        requires may { MayAct H.half Sh.B.tells self.old command.now found.now }
        ensures acts { Acts H.half Sh.B.tells self.old actor command.now result.0 (map (λ a. held a.value) result.1.items) self.new }
        ensures tells { Tells self.old.state self.new.state (own_hashes H.half self.old.state actor command.now result.0) }
        ensures names { TellsRoot self.old.state command.now result.0 self.new.state }
    {
        match command {
            Command::Get { view, kind, key } => match self.get(alloc, actor, *view, *kind, key) {
                Ok(got) => (Reply::Get(got.reply), got.used),
                Err(fault) => (unread(fault), Vec::new(alloc)),
            },
            Command::Page {
                view,
                kind,
                after,
                n,
            } => match self.page(alloc, actor, *view, *kind, after, *n) {
                Ok(paged) => (Reply::Page(paged.reply), paged.used),
                Err(fault) => (unread(fault), Vec::new(alloc)),
            },
            _ => (self.act(alloc, actor, command, found), Vec::new(alloc)),
        }
    }

    /// The same of a command that reads nothing.
    #[tactic(auto, using(crate::proofs::shared::Checks::asks_as))]
    fn act(&mut self, alloc: Global, actor: u8, command: &Command, found: &Option<Found>) -> Reply
        requires beside { IsBeside command.now }
        requires reads_nothing { ReadsNothing command.now }
        requires may { MayAct H.half Sh.B.tells self.old command.now found.now }
        ensures acts { Acts H.half Sh.B.tells self.old actor command.now result [] self.new }
        ensures tells { Tells self.old.state self.new.state (own_hashes H.half self.old.state actor command.now result) }
        ensures names { TellsRoot self.old.state command.now result self.new.state }
    {
        match command {
            Command::Want { target, seq } => match self.want(alloc, target, *seq) {
                Ok(reply) => Reply::Want(reply),
                Err(_) => Reply::Memory,
            },
            Command::Peer { peer, target } => match self.peer(*peer, target) {
                Ok(reply) => Reply::Peer(reply),
                Err(_) => Reply::Memory,
            },
            Command::Base {
                peer,
                target,
                header,
                state,
                tx,
            } => match BaseBox::new(alloc) {
                Ok(room) => self.base(alloc, room, *peer, target, header, state, tx),
                Err(_) => Reply::Memory,
            },
            Command::Node {
                peer,
                target,
                kind,
                id,
                blob,
            } => self.node(alloc, *peer, target, *kind, id, blob),
            Command::Check { target } => match self.check(alloc, target, found) {
                Ok(reply) => Reply::Check(reply),
                Err(_) => Reply::Memory,
            },
            Command::Tick { target } => Reply::Tick(self.tick(target)),
            Command::Unview { view } => Reply::Unview(self.unview(actor, *view)),
            _ => unreachable!(),
        }
    }
}

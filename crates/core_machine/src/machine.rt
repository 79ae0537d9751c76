//! The machine with the open edit sessions beside it: each command is the machine's, the sessions', or one of both.
ghost use Rattle.std.specs.Prelude.{◌≡◌, ◌<◌, ◌^◌, [], IsTrue, IfOk, MatchOption, length, map};
ghost use Rattle.std.specs.FinMap as finite;
ghost use Rattle.std.specs.Option.{option_copied};
ghost use Rattle.rotating_store.specs.Stores.{merged};
ghost use Rattle.run_io.specs.Bytes.{Rose};
ghost use Rattle.shamap_node.specs.Nodes.{held};
ghost use Rattle.ledger_machine.specs.Limits.{actors};
ghost use Rattle.ledger_machine.specs.Commands.{IsBeside};
ghost use Rattle.ledger_machine.specs.Rotation.{Tells};
ghost use Rattle.ledger_machine.specs.State.{opening};
ghost use Rattle.ledger_machine.specs.Steps.{own_hashes};
ghost use Rattle.ledger_machine.specs.Views.{is_retained as state_retains, view_reply, after_view};
ghost use Rattle.core_machine.specs.Commands.{IsNoCheck, IsOfSessions, TellsRoot};
ghost use Rattle.core_machine.specs.Checking.{AreKept, HasFound};
ghost use Rattle.core_machine.specs.Desks.{IsFiled, over, WantsMemory};
ghost use Rattle.core_machine.specs.Dumping.{GivesNext};
ghost use Rattle.core_machine.specs.Reads.{GivesForm, GivesNode};
ghost use Rattle.core_machine.specs.Serving.{Acts, Answers, LeavesMore, MayServe, Seeks, Steps};
ghost use Rattle.core_machine.specs.Totals.{totals_by};

use crate::acquiring::Sought;
use crate::refusals::{unread, unsearched};
use crate::rotating::Part;
use crate::tables::Tables;
use edit_session::a_session_stays_over_its_ledger;
use half_hash::{Blob, Hash32, Memory, NodeHash};
use ledger_laws::a_row_is_one_beside_any_sessions;
use ledger_machine::{Command, Nature, Record, Reply, Totals, ViewReply};
use ledger_searches::Searches;
use missing_walk::{Found, SearchFault};
use node_backend::{BackFault, Shelf};
use online_rotate::Left;
use open_sessions::Open;
use path_proof::FetchFault;
use rotating_store::RotStore;
use shamap_node::Node;
use std::alloc::Global;
use std::marker::Model;
use std::sync::Arc;

/// The machine: the store with the tables of views, acquisitions, retained ledgers and a rotation, and the open edit sessions.
#[derive(Drop)]
pub struct Machine<H: NodeHash, Sh: Shelf> {
    pub(crate) tables: Tables<H, Sh>,
    pub(crate) sessions: Open,
}

impl<H: NodeHash, Sh: Shelf> Model for Machine<H, Sh> {
    ghost use Rattle.std.specs.Coded.{codes};
    ghost use Rattle.ledger_spec.specs.Maps.{map_code, set_code};
    ghost use Rattle.core_machine.specs.Desks.{Desk};
    ghost use Rattle.core_machine.specs.Machines.{with_open, KeepsDrafts};

    ghost Value = { Desk };

    ghost coded = { Prim.hlevel (codes, map_code, set_code) };

    ghost view = { λ b. record b.tables { state = with_open H.half Sh.B.tells b.tables.state b.sessions } };

    ghost invariant = { λ b. KeepsDrafts H.half Sh.B.tells b.tables.state b.sessions };
}

impl<H: NodeHash, Sh: Shelf> Machine<H, Sh> {
    /// The opening state over a store, without sessions.
    pub fn new(alloc: Global, hash: H, interval: u32, store: RotStore<Sh>) -> Machine<H, Sh>
        requires apart { 0 < interval }
        requires new { IsTrue Sh.B.tells → store.archive ≡ finite.empty }
        ensures state { result.state ≡ over store (opening finite.empty interval) }
        ensures faults { result.faults ≡ store.faults }
        ensures slices { result.slices ≡ 0 }
    {
        Machine {
            tables: Tables::new(alloc, hash, interval, store),
            sessions: Open::new(alloc),
        }
    }

    /// The hash that nodes are stored under.
    pub fn hash(&self) -> H {
        self.tables.hash
    }

    /// For proofs: what is stored lies in the two backends.
    pub fn known(&self)
        ensures { self.now.state.nodes ≡ merged self.now.written self.now.archived }
    {
        self.tables.known();
    }

    /// The numbers of a run's summary, by how many entries are `complete` and how many `closed`.
    pub fn totals(&self, complete: u32, closed: u32) -> Totals
        requires { length self.now.state.listed < 2 ^ 32 }
        ensures { result ≡ totals_by complete closed self.now.state }
    {
        self.tables.totals(complete, closed)
    }

    /// The next stored record after a hash, or the first one.
    pub fn next_stored(
        &mut self,
        alloc: Global,
        after: Option<&Hash32>,
    ) -> Result<Option<Record>, BackFault>
        requires { IsFiled H.half Sh.B.tells self.old.state }
        ensures { GivesNext Sh.B.tells self.old (option_copied after.entry) result self.new }
    {
        let next = self.tables.next_stored(alloc, after)?;
        Ok(next)
    }

    /// The node of a hash, as the store gives it.
    pub fn node_at(&mut self, alloc: Global, h: &Hash32) -> Result<Option<Arc<Node>>, FetchFault>
        requires { IsFiled H.half Sh.B.tells self.old.state }
        ensures { GivesNode H.half Sh.B.tells self.old h.now result self.new }
    {
        self.tables.node_at(alloc, h)
    }

    /// The bytes of a hash, as the store gives them: nothing of them is hashed.
    pub fn form_at(&mut self, alloc: Global, h: &Hash32) -> Result<Option<Blob>, FetchFault>
        requires { IsFiled H.half Sh.B.tells self.old.state }
        ensures { GivesForm H.half Sh.B.tells self.old h.now result self.new }
    {
        self.tables.form_at(alloc, h)
    }

    /// What a command does in one go: the reply, and the nodes that it used.
    pub fn answer(
        &mut self,
        alloc: Global,
        actor: u8,
        command: &Command,
        found: &Option<Found>,
    ) -> (Reply, Vec<Arc<Node>>)
        requires may { MayServe H.half Sh.B.tells self.old command.now }
        requires found { HasFound H.half Sh.B.tells self.old.state command.now found.now }
        ensures { Steps H.half Sh.B.tells self.old actor command.now result.0 (map (λ a. held a.value) result.1.items) self.new }
    {
        match command.nature() {
            Nature::View | Nature::Session => {
                (self.change(alloc, actor, command), Vec::new(alloc))
            }
            Nature::Begin => (self.answer_begin(alloc, actor), Vec::new(alloc)),
            Nature::Swap => (self.answer_swap(alloc, actor), Vec::new(alloc)),
            Nature::Table | Nature::Check | Nature::Read | Nature::Unview => {
                self.beside(alloc, actor, command, found)
            }
        }
    }

    /// One section of a check: the search, and the reply with the nodes that it used where that has ended; or none where a slice of it left
    /// something.
    pub fn search_section(
        &mut self,
        alloc: Global,
        searches: &mut Searches,
        actor: u8,
        command: &Command,
        target: &Hash32,
        part: Part,
    ) -> Option<(Reply, Vec<Arc<Node>>)>
        requires check { command.now ≡ Command.Check target.now }
        requires may { MayServe H.half Sh.B.tells self.old command.now }
        requires searches { AreKept H.half Sh.B.tells self.old.state searches.old }
        requires known { actor < actors }
        ensures { MatchOption result
            (LeavesMore H.half Sh.B.tells self.old actor command.now part searches.old searches.new self.new)
            (λ r. Answers H.half Sh.B.tells (Rose self.old.faults self.new.faults) self.old actor command.now part searches.old r.0
            (map (λ a. held a.value) r.1.items) searches.new self.new) }
    {
        self.tables.known();
        match self.seek(alloc, searches, actor, target, part) {
            Ok(Sought::More) => None,
            Ok(Sought::Ended(found)) => Some(self.answer(alloc, actor, command, &found)),
            Err(fault) => Some((unsearched(fault), Vec::new(alloc))),
        }
    }

    // What is searched of a ledger before a check of it is answered. The sessions leave what is stored.
    fn seek(
        &mut self,
        alloc: Global,
        searches: &mut Searches,
        actor: u8,
        target: &Hash32,
        part: Part,
    ) -> Result<Sought, SearchFault>
        requires filed { IsFiled H.half Sh.B.tells self.old.state }
        requires searches { AreKept H.half Sh.B.tells self.old.state searches.old }
        requires known { actor < actors }
        ensures { Seeks H.half Sh.B.tells self.old actor target.now part searches.old result searches.new self.new }
    {
        self.tables.seek(alloc, searches, actor, target, part)
    }

    /// One section of a command that is no check: a slice of a swap, or the step. Whatever searches share, it leaves that.
    pub fn turn_section(
        &mut self,
        alloc: Global,
        actor: u8,
        command: &Command,
        part: Part,
    ) -> Option<(Reply, Vec<Arc<Node>>)>
        requires no_check { IsNoCheck command.now }
        requires may { MayServe H.half Sh.B.tells self.old command.now }
        ensures { (x : Searches) → AreKept H.half Sh.B.tells self.old.state x → MatchOption result
            (LeavesMore H.half Sh.B.tells self.old actor command.now part x x self.new)
            (λ r. Answers H.half Sh.B.tells (Rose self.old.faults self.new.faults) self.old actor command.now part x r.0
            (map (λ a. held a.value) r.1.items) x self.new) }
    {
        self.tables.known();
        match self.slice_first(alloc, command, part) {
            Ok(Left::More) => None,
            Ok(Left::Done) => Some(self.answer(alloc, actor, command, &None)),
            Err(fault) => Some((unread(fault), Vec::new(alloc))),
        }
    }

    // What a command does that names a session or sees which are open. It reads no nodes.
    #[tactic(auto, using(crate::proofs::Turns::quiet, crate::proofs::shared::Checks::asks_as))]
    fn change(&mut self, alloc: Global, actor: u8, command: &Command) -> Reply
        requires open { IsOfSessions command.now }
        requires may { MayServe H.half Sh.B.tells self.old command.now }
        ensures acts { Acts H.half Sh.B.tells self.old actor command.now result [] self.new }
        ensures tells { IsTrue Sh.B.tells
            → Tells self.old.state self.new.state (own_hashes H.half self.old.state actor command.now result) }
        ensures names { IsTrue Sh.B.tells → TellsRoot self.old.state command.now result self.new.state }
    {
        match command {
            Command::View { view, target } => match self.view(actor, *view, target) {
                Ok(reply) => Reply::View(reply),
                Err(_) => Reply::Memory,
            },
            Command::Edit { session, target } => match self.edit(alloc, actor, *session, target) {
                Ok(reply) => Reply::Edit(reply),
                Err(fault) => unread(fault),
            },
            Command::Put { session, item } => match self.put(alloc, actor, *session, item) {
                Ok(put) => Reply::Put(put),
                Err(fault) => unread(fault),
            },
            Command::Del { session, key } => match self.del(alloc, actor, *session, key) {
                Ok(reply) => Reply::Del(reply),
                Err(fault) => unread(fault),
            },
            Command::Tx { session, item } => match self.tx(alloc, actor, *session, item) {
                Ok(put) => Reply::Tx(put),
                Err(_) => Reply::Memory,
            },
            Command::Close { session, fields } => self.close(alloc, (actor, *session), fields),
            Command::Abandon { session } => Reply::Abandon(self.abandon(actor, *session)),
            _ => unreachable!(),
        }
    }

    // What a command does that names no session and sees none.
    fn beside(
        &mut self,
        alloc: Global,
        actor: u8,
        command: &Command,
        found: &Option<Found>,
    ) -> (Reply, Vec<Arc<Node>>)
        requires beside { IsBeside command.now }
        requires may { MayServe H.half Sh.B.tells self.old command.now }
        requires found { HasFound H.half Sh.B.tells self.old.state command.now found.now }
        ensures acts { Acts H.half Sh.B.tells self.old actor command.now result.0 (map (λ a. held a.value) result.1.items) self.new }
        ensures tells { IsTrue Sh.B.tells
            → Tells self.old.state self.new.state (own_hashes H.half self.old.state actor command.now result.0) }
        ensures names { IsTrue Sh.B.tells → TellsRoot self.old.state command.now result.0 self.new.state }
    {
        a_session_stays_over_its_ledger();
        a_row_is_one_beside_any_sessions();
        let answered = self.tables.answer(alloc, actor, command, found);
        self.tables.known();
        answered
    }

    // Opens a view of a retained ledger.
    fn view(&mut self, actor: u8, view: u16, target: &Hash32) -> Result<ViewReply, Memory>
        ensures reply { IfOk result (λ r. r ≡ view_reply self.old.state (actor, view) target.now) }
        ensures after { IfOk result (λ r. self.new.state ≡ after_view self.old.state (actor, view) target.now r) }
        ensures memory { WantsMemory Sh.B.tells self.old result self.new }
    {
        let retained = self.is_retained(target);
        self.tables.view(actor, view, target, retained)
    }

    /// Whether the ledger is listed, or pinned by a view or a session.
    pub fn is_retained(&self, target: &Hash32) -> bool
        ensures { result ≡ state_retains self.now.state target.now }
    {
        self.tables.known();
        let pinned = self.sessions.pins(target);
        self.tables.is_retained(target) || pinned
    }
}

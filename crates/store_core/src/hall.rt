//! The machine, and beside it the open views with their ledgers' headers, so that the root of a view's map is known without the store.
ghost use Rattle.std.specs.Prelude.{◌≡◌, ◌≢◌, ◌⊎◌, ◌<◌, ◌^◌, [], None, Some, true, false, IsTrue, IfOk};
ghost use Rattle.std.specs.Prelude.{IfSome, IsNone, IsSome, IsSomeAnd, MatchBool, MatchOption, length, map};
ghost use Rattle.std.specs.FinMap as finite;
ghost use Rattle.std.specs.Option.{option_copied};
ghost use Rattle.ledger_spec.specs.Bytes.{Hash, Half};
ghost use Rattle.ledger_spec.specs.Maps.{numbered_cmp, get_in, has_in};
ghost use Rattle.ledger_spec.specs.declared.Kind.{Kind as the_kind};
ghost use Rattle.ledger_machine.specs.Limits.{actors};
ghost use Rattle.ledger_machine.specs.State.{opening};
ghost use Rattle.ledger_machine.specs.Views.{is_retained as state_retains};
ghost use Rattle.rotating_store.specs.Stores.{merged};
ghost use Rattle.run_io.specs.Bytes.{Rose};
ghost use Rattle.shamap_node.specs.Nodes.{held};
ghost use Rattle.core_machine.specs.Machines.{IsHeaderOf};
ghost use Rattle.core_machine.specs.Checking.{AreKept};
ghost use Rattle.core_machine.specs.Desks.{IsFiled, over};
ghost use Rattle.core_machine.specs.Dumping.{GivesNext};
ghost use Rattle.core_machine.specs.Commands.{IsQuiet};
ghost use Rattle.store_core.specs.Halls.{AreViews, root_by, root_of};
ghost use Rattle.core_machine.specs.Serving.{Answers, LeavesMore, MayServe, Serves, Steps};
ghost use Rattle.store_core.specs.Jobs.{HandsFault, IfSays, IsTaken, job_for};
ghost use Rattle.core_machine.specs.Reads.{GivesForm, GivesNode, IsFollowed};
ghost use Rattle.store_core.specs.Reads.{IsReplied};
ghost use Rattle.core_machine.specs.Retaining.{AreRetained, IsStoreOf};
ghost use Rattle.core_machine.specs.Totals.{totals_by};
ghost use Rattle.core_machine.specs.Telling.{AreTold};

use crate::jobs::{Followed, Handed, ReadJob, View};
use core_machine::{Machine, Part, answered, unread};
use half_hash::{Blob, Hash32, Memory, NodeHash};
use ledger_header::Header;
use ledger_machine::{Command, Line, Record, Reply, Totals, ViewReply};
use ledger_searches::Searches;
use node_backend::{BackFault, Shelf};
use path_proof::{Answer, FetchFault, ReadFault};
use rotating_store::RotStore;
use shamap_node::{Kind, Node};
use std::alloc::Global;
use std::collections::BTreeMap;
use std::marker::Model;
use std::sync::Arc;

#[derive(Drop)]
pub(crate) struct Hall<H: NodeHash, Sh: Shelf> {
    machine: Machine<H, Sh>,
    views: BTreeMap<(u8, u16), View>,
}

impl<H: NodeHash, Sh: Shelf> Model for Hall<H, Sh> {
    ghost use Rattle.std.specs.Prelude.{IsTrue};
    ghost use Rattle.std.specs.Coded.{codes};
    ghost use Rattle.ledger_spec.specs.Maps.{map_code, set_code};
    ghost use Rattle.store_core.specs.Halls.{HallView, AreViews};

    ghost Value = { HallView };

    ghost coded = { Prim.hlevel (codes, map_code, set_code) };

    ghost view = { λ h. record { desk = h.machine; views = h.views.entries } };

    ghost invariant = { λ h. IsTrue Sh.B.tells → AreViews h.machine.state h.views.entries };
}

impl<H: NodeHash, Sh: Shelf> Hall<H, Sh> {
    /// The opening state over a store, without views.
    pub(crate) fn new(alloc: Global, hash: H, interval: u32, store: RotStore<Sh>) -> Hall<H, Sh>
        requires apart { 0 < interval }
        requires new { IsTrue Sh.B.tells → store.archive ≡ finite.empty }
        ensures state { result.desk.state ≡ over store (opening finite.empty interval) }
        ensures faults { result.desk.faults ≡ store.faults }
        ensures slices { result.desk.slices ≡ 0 }
        ensures views { result.views ≡ [] }
    {
        Hall {
            machine: Machine::new(alloc, hash, interval, store),
            views: BTreeMap::new(alloc),
        }
    }

    /// The hash that nodes are stored under.
    pub(crate) fn hash(&self) -> H {
        self.machine.hash()
    }

    /// The store that the commands act on.
    pub(crate) fn store(&self) -> &RotStore<Sh>
        ensures { IsStoreOf self.now.desk result.now }
    {
        self.machine.store()
    }

    /// The retained ledgers, rising, each once.
    pub(crate) fn retained(&self, alloc: Global) -> Result<Vec<Hash32>, Memory>
        ensures { IfOk result (λ hashes. AreRetained self.now.desk.state hashes.items) }
    {
        self.machine.retained(alloc)
    }

    /// The numbers of a run's summary, by how many entries are `complete` and how many `closed`.
    pub(crate) fn totals(&self, complete: u32, closed: u32) -> Totals
        requires { length self.now.desk.state.listed < 2 ^ 32 }
        ensures { result ≡ totals_by complete closed self.now.desk.state }
    {
        self.machine.totals(complete, closed)
    }

    /// For proofs: the views are the state's, with the headers that are stored, and what is stored lies in the two backends.
    pub(crate) fn known(&self)
        ensures views { IsTrue Sh.B.tells → AreViews self.now.desk.state self.now.views }
        ensures nodes { self.now.desk.state.nodes ≡ merged self.now.desk.written self.now.desk.archived }
    {
        self.machine.known();
        let _ = &self.views;
    }

    /// The next stored record after a hash, or the first one.
    pub(crate) fn next_stored(
        &mut self,
        alloc: Global,
        after: Option<&Hash32>,
    ) -> Result<Option<Record>, BackFault>
        requires { IsFiled H.half Sh.B.tells self.old.desk.state }
        ensures next { GivesNext Sh.B.tells self.old.desk (option_copied after.entry) result self.new.desk }
        ensures views { self.new.views ≡ self.old.views }
    {
        let next = self.machine.next_stored(alloc, after)?;
        Ok(next)
    }

    /// The node of a hash, as the store gives it.
    pub(crate) fn node_at(
        &mut self,
        alloc: Global,
        h: &Hash32,
    ) -> Result<Option<Arc<Node>>, FetchFault>
        requires { IsFiled H.half Sh.B.tells self.old.desk.state }
        ensures node { GivesNode H.half Sh.B.tells self.old.desk h.now result self.new.desk }
        ensures views { self.new.views ≡ self.old.views }
    {
        self.machine.node_at(alloc, h)
    }

    /// The bytes of a hash, as the store gives them: nothing of them is hashed.
    pub(crate) fn form_at(&mut self, alloc: Global, h: &Hash32) -> Result<Option<Blob>, FetchFault>
        requires { IsFiled H.half Sh.B.tells self.old.desk.state }
        ensures form { GivesForm H.half Sh.B.tells self.old.desk h.now result self.new.desk }
        ensures views { self.new.views ≡ self.old.views }
    {
        self.machine.form_at(alloc, h)
    }

    /// The read that an actor's line asks for: a `get` by a view that is open.
    pub(crate) fn job_of(&self, actor: u8, line: &Line) -> Option<ReadJob>
        ensures { result ≡ job_for (root_by self.now.views) actor line.now.number line.now.command }
    {
        match &line.command {
            Command::Get { view, kind, key } => {
                let root = self.root_for(actor, *view, *kind)?;
                Some(ReadJob {
                    line: line.number,
                    root,
                    kind: *kind,
                    key: *key,
                })
            }
            _ => None,
        }
    }

    // The root of an open view's map, by the header that the view keeps.
    fn root_for(&self, actor: u8, view: u16, kind: Kind) -> Option<Hash32>
        ensures { result ≡ root_by self.now.views kind (actor, view) }
    {
        match self.views.get(&(actor, view)) {
            Some(view) => Some(root_in(&view.header, kind)),
            None => None,
        }
    }

    /// One section of a line: the reply, and the nodes that it used; or none where a slice of a swap or of a check left something. Where a
    /// reader hands in what it got for the very job that the line asks for now, that is the reply; a fault that is handed in is the reply
    /// where the actor's fetch failed. Else what the line asks is read here.
    pub(crate) fn section(
        &mut self,
        alloc: Global,
        searches: &mut Searches,
        actor: u8,
        line: &Line,
        handed: Option<Followed<H>>,
        failed: bool,
        part: Part,
    ) -> Option<(Reply, Vec<Arc<Node>>)>
        requires may { MayServe H.half Sh.B.tells self.old.desk line.now.command }
        requires searches { AreKept H.half Sh.B.tells self.old.desk.state searches.old }
        requires known { actor < actors }
        ensures does { MatchOption result
            (LeavesMore H.half Sh.B.tells self.old.desk actor line.now.command part searches.old searches.new self.new.desk)
            (λ r. Answers H.half Sh.B.tells (Rose self.old.desk.faults self.new.desk.faults ⊎ (HandsFault handed × IsTrue failed))
            self.old.desk actor line.now.command part searches.old r.0 (map (λ a. held a.value) r.1.items) searches.new self.new.desk) }
        ensures views { IsNone result → self.new.views ≡ self.old.views }
        ensures takes { (h : Handed) → handed ≡ Some h
            → job_for (root_by self.old.views) actor line.now.number line.now.command ≡ Some h.job
            → IfSays H.half h.job h.got (λ nodes o. IsSomeAnd result (λ r. IsTaken nodes o r.0 r.1.items)) }
    {
        self.known();
        match self.heard(alloc, actor, line, handed, failed) {
            Some(answered) => Some(answered),
            None => self.serve(alloc, searches, actor, &line.command, part),
        }
    }

    // The reply to a line by what a reader hands in for the job that the line asks for now: by its answer, or a fault where the actor's
    // fetch failed.
    fn heard(
        &self,
        alloc: Global,
        actor: u8,
        line: &Line,
        handed: Option<Followed<H>>,
        failed: bool,
    ) -> Option<(Reply, Vec<Arc<Node>>)>
        requires told { IsTrue Sh.B.tells → AreTold self.now.desk.state }
        ensures serves { IfSome result (λ r. Serves H.half Sh.B.tells (HandsFault handed × IsTrue failed) self.now.desk actor
            line.now.command r.0 (map (λ a. held a.value) r.1.items) self.now.desk) }
        ensures quiet { IsSome result → IsQuiet line.now.command }
        ensures takes { (h : Handed) → handed ≡ Some h
            → job_for (root_by self.now.views) actor line.now.number line.now.command ≡ Some h.job
            → IfSays H.half h.job h.got (λ nodes o. IsSomeAnd result (λ r. IsTaken nodes o r.0 r.1.items)) }
    {
        self.known();
        let Some(handed) = handed else {
            return None;
        };
        if !self.is_asked(actor, line, handed.job()) {
            return None;
        }
        let Handed { job: _, got } = handed.into_handed();
        match got {
            Ok(answer) => Some(replied(alloc, answer)),
            Err(why) => faulted(alloc, &why, failed),
        }
    }

    // Whether a line asks for this job now.
    fn is_asked(&self, actor: u8, line: &Line, job: &ReadJob) -> bool
        ensures { let asked = job_for (root_by self.now.views) actor line.now.number line.now.command in
            MatchBool result (asked ≡ Some job.now) (asked ≢ Some job.now) }
    {
        match self.job_of(actor, line) {
            Some(asked) => asked.equals(job),
            None => false,
        }
    }

    // One section of a command, read here. Only a view's commands change which views are kept, and only a check searches.
    fn serve(
        &mut self,
        alloc: Global,
        searches: &mut Searches,
        actor: u8,
        command: &Command,
        part: Part,
    ) -> Option<(Reply, Vec<Arc<Node>>)>
        requires may { MayServe H.half Sh.B.tells self.old.desk command.now }
        requires searches { AreKept H.half Sh.B.tells self.old.desk.state searches.old }
        requires known { actor < actors }
        ensures does { MatchOption result
            (LeavesMore H.half Sh.B.tells self.old.desk actor command.now part searches.old searches.new self.new.desk)
            (λ r. Answers H.half Sh.B.tells (Rose self.old.desk.faults self.new.desk.faults) self.old.desk actor command.now part
            searches.old r.0 (map (λ a. held a.value) r.1.items) searches.new self.new.desk) }
        ensures views { IsNone result → self.new.views ≡ self.old.views }
    {
        self.known();
        match command {
            Command::View { view, target } => {
                Some(self.view(alloc, actor, command, *view, target))
            }
            Command::Unview { view } => Some(self.unview(alloc, actor, command, *view)),
            Command::Check { target } => {
                self.machine
                    .search_section(alloc, searches, actor, command, target, part)
            }
            _ => self.machine.turn_section(alloc, actor, command, part),
        }
    }

    // Closes a view. It is never refused.
    fn unview(
        &mut self,
        alloc: Global,
        actor: u8,
        command: &Command,
        view: u16,
    ) -> (Reply, Vec<Arc<Node>>)
        requires is { command.now ≡ Command.Unview view }
        requires may { MayServe H.half Sh.B.tells self.old.desk command.now }
        ensures { Steps H.half Sh.B.tells self.old.desk actor command.now result.0 (map (λ a. held a.value) result.1.items) self.new.desk }
    {
        let answered = self.machine.answer(alloc, actor, command, &None);
        self.views.remove(&(actor, view));
        answered
    }

    // Opens a view of a retained ledger. The header that is stored under the ledger's hash is read in this section, and kept.
    fn view(
        &mut self,
        alloc: Global,
        actor: u8,
        command: &Command,
        view: u16,
        target: &Hash32,
    ) -> (Reply, Vec<Arc<Node>>)
        requires is { command.now ≡ Command.View view target.now }
        requires may { MayServe H.half Sh.B.tells self.old.desk command.now }
        ensures { Steps H.half Sh.B.tells self.old.desk actor command.now result.0 (map (λ a. held a.value) result.1.items) self.new.desk }
    {
        if !self.is_openable((actor, view), target) {
            return self.machine.answer(alloc, actor, command, &None);
        }
        match self.machine.header_of(alloc, target) {
            Ok(Some(header)) => {
                let opened = View {
                    target: *target,
                    header,
                };
                self.pin(alloc, actor, command, view, opened)
            }
            // the header of a retained ledger is held, so that only memory was wanted
            Ok(None) => (Reply::Memory, Vec::new(alloc)),
            Err(fault) => (unread(fault), Vec::new(alloc)),
        }
    }

    // Whether a view may be opened: none is open under its number, and the ledger is retained.
    fn is_openable(&self, id: (u8, u16), target: &Hash32) -> bool
        ensures { MatchBool result (get_in numbered_cmp self.now.views id ≡ None)
            ((has_in numbered_cmp self.now.views id ≡ true) ⊎ (state_retains self.now.desk.state target.now ≡ false)) }
    {
        if self.views.contains_key(&id) {
            return false;
        }
        self.machine.is_retained(target)
    }

    // Opens a view that isn't open, and keeps it with its header. What is kept is taken back where the view isn't opened.
    fn pin(
        &mut self,
        alloc: Global,
        actor: u8,
        command: &Command,
        view: u16,
        opened: View,
    ) -> (Reply, Vec<Arc<Node>>)
        requires is { command.now ≡ Command.View view opened.target }
        requires closed { get_in numbered_cmp self.old.views (actor, view) ≡ None }
        requires header { IsTrue Sh.B.tells → IsHeaderOf self.old.desk.state opened.target opened.header }
        requires may { MayServe H.half Sh.B.tells self.old.desk command.now }
        ensures { Steps H.half Sh.B.tells self.old.desk actor command.now result.0 (map (λ a. held a.value) result.1.items) self.new.desk }
    {
        let id = (actor, view);
        let Ok(_) = self.views.insert(id, opened) else {
            return (Reply::Memory, Vec::new(alloc));
        };
        let answered = self.machine.answer(alloc, actor, command, &None);
        if !is_opened(&answered.0) {
            self.views.remove(&id);
        }
        answered
    }
}

// The root of the map of this kind of the ledger with this header.
fn root_in(header: &Header, kind: Kind) -> Hash32
    ensures { result ≡ root_of kind header.now }
{
    match kind {
        Kind::State => header.state_root,
        Kind::Tx => header.tx_root,
        Kind::Set => Hash32::zero(),
    }
}

// Whether a read ended in a fault.
fn is_fault(why: &ReadFault) -> bool
    ensures { MatchBool result (why.now ≡ ReadFault.Fault) (why.now ≢ ReadFault.Fault) }
{
    match why {
        ReadFault::Fault => true,
        _ => false,
    }
}

// The reply to a read that ended with no answer: a fault, where the actor's fetch failed.
fn faulted(alloc: Global, why: &ReadFault, failed: bool) -> Option<(Reply, Vec<Arc<Node>>)>
    ensures fault { IfSome result (λ r. (r.0 ≡ Reply.Fault) × (r.1.items ≡ [])) }
    ensures cause { IsSome result → (why.now ≡ ReadFault.Fault) × IsTrue failed }
{
    if failed && is_fault(why) {
        Some((Reply::Fault, Vec::new(alloc)))
    } else {
        None
    }
}

// Whether a view was opened.
fn is_opened(reply: &Reply) -> bool
    ensures { MatchBool result (reply.now ≡ Reply.View ViewReply.Fine) (reply.now ≢ Reply.View ViewReply.Fine) }
{
    match reply {
        Reply::View(ViewReply::Fine) => true,
        _ => false,
    }
}

// The reply that an answer gives, with its path.
fn replied(alloc: Global, answer: Answer) -> (Reply, Vec<Arc<Node>>)
    ensures { (half : Half) (kind : the_kind) (root key : Hash) → IsFollowed half kind root key answer
        → IsReplied half kind root key answer result.0 result.1.items }
{
    match answered(answer) {
        Ok(got) => (Reply::Get(got.reply), got.used),
        Err(fault) => (unread(fault), Vec::new(alloc)),
    }
}

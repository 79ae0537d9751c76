//! The commands that open, change and end edit sessions, and what these ask of the store.
ghost use Rattle.std.specs.Prelude.{◌≡◌, IsTrue, IfErr, IfOk, IfSome, OnErr, is_some, length, unwrap_or, false};
ghost use Rattle.run_io.specs.Bytes.{Rose};
ghost use Rattle.edit_session.specs.Changes.{ChangesState, ChangesTxs, SetsAccount, RemovesAccount, SetsTx};
ghost use Rattle.ledger_machine.specs.Sessions.{has_session, after_put, after_tx, del_reply, after_del, without_session};
ghost use Rattle.ledger_machine.specs.Sessions.{edit_reply, after_edit};
ghost use Rattle.ledger_machine.specs.Sound.{Sound};
ghost use Rattle.ledger_machine.specs.State.{form_in};
ghost use Rattle.open_sessions.specs.Changed.{Changed};
ghost use Rattle.open_sessions.specs.Rows.{del_said};
ghost use Rattle.core_machine.specs.Machines.{IsHeaderOf, IsFit, edit_by};
ghost use Rattle.core_machine.specs.Desks.{IsFiled, LooksUp, Stays, OnlyReads, WantsMemory};

use crate::limits::{LAST_SEQ, MOST_SESSIONS};
use crate::machine::Machine;
use crate::refusals::unedited;
use crate::tables::Tables;
use cow_map::MapFault;
use edit_session::Session;
use half_hash::{Hash32, Memory, NodeHash, known_half};
use ledger_header::Header;
use ledger_machine::{DelReply, EditReply};
use node_backend::{BackFault, Shelf};
use open_sessions::Open;
use rotating_store::own_form;
use shamap_node::Item;
use std::alloc::Global;

impl<H: NodeHash, Sh: Shelf> Machine<H, Sh> {
    /// Opens a session on a retained ledger, unless that is the last that a header can number.
    pub(crate) fn edit(
        &mut self,
        alloc: Global,
        actor: u8,
        session: u16,
        target: &Hash32,
    ) -> Result<EditReply, BackFault>
        requires { IsTrue Sh.B.tells → Sound H.half self.old.state }
        ensures reply { IsTrue Sh.B.tells → IfOk result (λ r. r ≡ edit_reply self.old.state (actor, session) target.now) }
        ensures after { IsTrue Sh.B.tells
            → IfOk result (λ r. self.new.state ≡ after_edit H.half self.old.state (actor, session) target.now r) }
        ensures looks { LooksUp Sh.B.tells self.old result self.new }
    {
        let id = (actor, session);
        if self.sessions.has(id) {
            return Ok(EditReply::InUse);
        }
        if !self.is_retained(target) {
            return Ok(EditReply::NotRetained);
        }
        match self.header_of(alloc, target)? {
            Some(header) => Ok(self.start(alloc, id, target, header)?),
            // the header of a retained ledger is held, so that only memory was wanted
            None => Err(BackFault::Memory),
        }
    }

    /// The header that is held under a ledger's hash.
    pub fn header_of(&mut self, alloc: Global, target: &Hash32) -> Result<Option<Header>, BackFault>
        requires { IsFiled H.half Sh.B.tells self.old.state }
        ensures header { IsTrue Sh.B.tells → IfOk result (λ found. IfSome found (IsHeaderOf self.old.state target.now)) }
        ensures reads { OnlyReads Sh.B.tells self.old self.new }
        ensures fault { IfErr result (λ e. e ≡ BackFault.Fault → Rose self.old.faults self.new.faults) }
    {
        self.tables.header_of(alloc, target)
    }

    // Opens a session on the ledger with this header.
    fn start(
        &mut self,
        alloc: Global,
        id: (u8, u16),
        target: &Hash32,
        header: Header,
    ) -> Result<EditReply, Memory>
        requires { IsTrue Sh.B.tells → IsFit H.half self.old.state target.now header }
        ensures reply { IfOk result (λ r. r ≡ edit_by header.seq (length self.old.state.sessions)) }
        ensures after { IsTrue Sh.B.tells → IfOk result (λ r. self.new.state ≡ after_edit H.half self.old.state id target.now r) }
        ensures memory { WantsMemory Sh.B.tells self.old result self.new }
    {
        known_half::<H>();
        if header.seq == LAST_SEQ {
            return Ok(EditReply::LastSeq);
        }
        if self.sessions.len() == MOST_SESSIONS {
            return Ok(EditReply::TooMany);
        }
        let session = Session::open(alloc, *target, header);
        self.sessions.open(id, session)?;
        Ok(EditReply::Fine)
    }

    /// Sets an item of a session's account state; whether the session is open.
    pub(crate) fn put(
        &mut self,
        alloc: Global,
        actor: u8,
        session: u16,
        item: &Item,
    ) -> Result<bool, BackFault>
        requires { IsFiled H.half Sh.B.tells self.old.state }
        ensures reply { IsTrue Sh.B.tells → IfOk result (λ r. r ≡ has_session self.old.state (actor, session)) }
        ensures after { IsTrue Sh.B.tells
            → IfOk result (λ _. self.new.state ≡ after_put self.old.state (actor, session) item.now.key item.now.value) }
        ensures looks { LooksUp Sh.B.tells self.old result self.new }
    {
        self.tables
            .put(alloc, &mut self.sessions, (actor, session), item)
    }

    /// Removes a key of a session's account state.
    pub(crate) fn del(
        &mut self,
        alloc: Global,
        actor: u8,
        session: u16,
        key: &Hash32,
    ) -> Result<DelReply, BackFault>
        requires { IsFiled H.half Sh.B.tells self.old.state }
        ensures reply { IsTrue Sh.B.tells → IfOk result (λ r. r ≡ del_reply self.old.state (actor, session) key.now) }
        ensures after { IsTrue Sh.B.tells
            → IfOk result (λ _. self.new.state ≡ after_del self.old.state (actor, session) key.now) }
        ensures looks { LooksUp Sh.B.tells self.old result self.new }
    {
        let there = self
            .tables
            .remove(alloc, &mut self.sessions, (actor, session), key)?;
        Ok(removed(there))
    }

    /// Sets an item of a session's transactions; whether the session is open.
    pub(crate) fn tx(
        &mut self,
        alloc: Global,
        actor: u8,
        session: u16,
        item: &Item,
    ) -> Result<bool, Memory>
        requires { IsFiled H.half Sh.B.tells self.old.state }
        ensures reply { IsTrue Sh.B.tells → IfOk result (λ r. r ≡ has_session self.old.state (actor, session)) }
        ensures after { IsTrue Sh.B.tells
            → IfOk result (λ _. self.new.state ≡ after_tx self.old.state (actor, session) item.now.key item.now.value) }
        ensures memory { WantsMemory Sh.B.tells self.old result self.new }
    {
        self.tables
            .tx(alloc, &mut self.sessions, (actor, session), item)
    }

    /// Ends a session; whether it was open.
    pub(crate) fn abandon(&mut self, actor: u8, session: u16) -> bool
        ensures reply { result ≡ has_session self.old.state (actor, session) }
        ensures after { self.new.state ≡ without_session self.old.state (actor, session) }
        ensures told { self.new.state.shaded ≡ self.old.state.shaded }
        ensures stays { Stays Sh.B.tells self.old self.new }
    {
        self.sessions.end((actor, session))
    }
}

// The reply to a removal.
fn removed(there: Option<bool>) -> DelReply
    ensures { result ≡ del_said there }
{
    match there {
        None => DelReply::NoSession,
        Some(true) => DelReply::Fine,
        Some(false) => DelReply::Absent,
    }
}

impl<H: NodeHash, Sh: Shelf> Tables<H, Sh> {
    /// The header that is held under a ledger's hash.
    pub(crate) fn header_of(
        &mut self,
        alloc: Global,
        target: &Hash32,
    ) -> Result<Option<Header>, BackFault>
        requires { IsFiled H.half Sh.B.tells self.old.state }
        ensures header { IsTrue Sh.B.tells → IfOk result (λ found. IfSome found (IsHeaderOf self.old.state target.now)) }
        ensures reads { OnlyReads Sh.B.tells self.old self.new }
        ensures fault { IfErr result (λ e. e ≡ BackFault.Fault → Rose self.old.faults self.new.faults) }
    {
        match own_form::<H, Sh>(alloc, &mut self.store, target)? {
            Some(form) => Ok(Header::from_form(form.bytes())),
            None => Ok(None),
        }
    }

    /// Sets an item of a session's account state; whether the session is open.
    pub(crate) fn put(
        &mut self,
        alloc: Global,
        sessions: &mut Open,
        id: (u8, u16),
        item: &Item,
    ) -> Result<bool, BackFault>
        requires { IsFiled H.half Sh.B.tells self.old.state }
        ensures changed { IsTrue Sh.B.tells → IfOk result (Changed (λ d d'. ChangesState 65 d d'
            × SetsAccount H.half (form_in self.old.state) d d' item.now.key item.now.value) sessions.old sessions.new id) }
        ensures err { OnErr result (sessions.new ≡ sessions.old) }
        ensures reads { OnlyReads Sh.B.tells self.old self.new }
        ensures fault { IfErr result (λ e. e ≡ BackFault.Fault → Rose self.old.faults self.new.faults) }
    {
        match sessions.put::<H, Sh>(alloc, &mut self.store, id, item) {
            Ok(was) => Ok(was),
            Err(fault) => Err(unedited(fault)),
        }
    }

    /// Removes a key of a session's account state, and tells whether it was there; none where the session isn't open.
    pub(crate) fn remove(
        &mut self,
        alloc: Global,
        sessions: &mut Open,
        id: (u8, u16),
        key: &Hash32,
    ) -> Result<Option<bool>, BackFault>
        requires { IsFiled H.half Sh.B.tells self.old.state }
        ensures changed { IsTrue Sh.B.tells → IfOk result (λ there. Changed (λ d d'. ChangesState 64 d d'
            × RemovesAccount H.half (form_in self.old.state) d d' key.now (unwrap_or there false))
            sessions.old sessions.new id (is_some there)) }
        ensures err { OnErr result (sessions.new ≡ sessions.old) }
        ensures reads { OnlyReads Sh.B.tells self.old self.new }
        ensures fault { IfErr result (λ e. e ≡ BackFault.Fault → Rose self.old.faults self.new.faults) }
    {
        match sessions.remove::<H, Sh>(alloc, &mut self.store, id, key) {
            Ok(there) => Ok(there),
            Err(fault) => Err(unedited(fault)),
        }
    }

    /// Sets an item of a session's transactions; whether the session is open.
    pub(crate) fn tx(
        &mut self,
        alloc: Global,
        sessions: &mut Open,
        id: (u8, u16),
        item: &Item,
    ) -> Result<bool, Memory>
        ensures changed { IfOk result (Changed (λ d d'. ChangesTxs 65 d d' × SetsTx d d' item.now.key item.now.value)
            sessions.old sessions.new id) }
        ensures err { OnErr result (sessions.new ≡ sessions.old) }
        ensures same { self.new ≡ self.old }
    {
        match sessions.tx::<H, Sh>(alloc, &mut self.store, id, item) {
            Ok(was) => Ok(was),
            Err(MapFault::Memory) => Err(Memory),
            Err(_) => unreachable!(),
        }
    }
}

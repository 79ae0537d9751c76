//! The table of open sessions, by the numbers that actors gave them: a call names one, and the table hands it the store as a source.
ghost use Rattle.std.specs.Prelude.{◌≡◌, [], None, Some, false, IsTrue, IfErr, IfOk, OnErr, OnOk, is_some, unwrap_or, length, map};
ghost use Rattle.std.specs.Prelude.{MatchOption};
ghost use Rattle.std.specs.FinMap as finite;
ghost use Rattle.std.specs.List.{list_any};
ghost use Rattle.std.specs.Map.{values_of};
ghost use Rattle.ledger_spec.specs.Bytes.{same_bytes};
ghost use Rattle.ledger_spec.specs.Maps.{numbered_cmp, get_in, has_in, insert_in, remove_in};
ghost use Rattle.rotating_store.specs.Stores.{nodes_of};
ghost use Rattle.rotating_store.specs.Sources.{AreFiled, LeavesAsked, own_nodes};
ghost use Rattle.cow_map.specs.Ways.{stop_of, removal_stop_of, IsSourceFault};
ghost use Rattle.edit_session.specs.Changes.{ChangesState, ChangesTxs, SetsAccount, RemovesAccount, SetsTx};
ghost use Rattle.open_sessions.specs.Changed.{Changed, GoesByOpen};

use cow_map::MapFault;
use edit_session::Session;
use half_hash::{Blob, Hash32, Memory, NodeHash};
use node_backend::Shelf;
use rotating_store::{Filed, RotStore};
use shamap_node::{Item, ItemFault};
use std::alloc::Global;
use std::collections::BTreeMap;
use std::marker::Model;

/// The open sessions. Contracts see the entries of a table of drafts, keys rising.
#[derive(Drop)]
pub struct Open {
    sessions: BTreeMap<(u8, u16), Session>,
}

impl Model for Open {
    ghost use Rattle.ledger_spec.specs.Maps.{ForActor};
    ghost use Rattle.edit_session.specs.Drafts.{Draft};

    ghost Value = { ForActor Draft };

    ghost view = { λ o. o.sessions.entries };
}

impl Open {
    /// No session is open.
    pub fn new(alloc: Global) -> Open
        ensures { result ≡ [] }
    {
        Open {
            sessions: BTreeMap::new(alloc),
        }
    }

    /// How many sessions are open.
    pub fn len(&self) -> usize
        ensures { result ≡ length self.now }
    {
        self.sessions.len()
    }

    /// Whether this one is.
    pub fn has(&self, id: (u8, u16)) -> bool
        ensures { result ≡ has_in numbered_cmp self.now id }
    {
        self.sessions.contains_key(&id)
    }

    /// Whether an open session edits the ledger.
    pub fn pins(&self, target: &Hash32) -> bool
        ensures { result ≡ list_any (λ d. same_bytes target.now d.base) (values_of self.now) }
    {
        is_edited(&self.sessions, target)
    }

    /// The ledgers that the open sessions edit.
    pub fn bases(&self, alloc: Global) -> Result<Vec<Hash32>, Memory>
        ensures { IfOk result (λ bases. bases.items ≡ map (λ d. d.base) (values_of self.now)) }
    {
        let bases = self
            .sessions
            .values()
            .map(|session| *session.base())
            .collect(alloc)?;
        Ok(bases)
    }

    /// Opens a session.
    pub fn open(&mut self, id: (u8, u16), session: Session) -> Result<(), Memory>
        ensures ok { OnOk result (self.new ≡ insert_in numbered_cmp self.old id session) }
        ensures err { OnErr result (self.new ≡ self.old) }
    {
        self.sessions.insert(id, session)?;
        Ok(())
    }

    /// Ends a session; whether it was open.
    pub fn end(&mut self, id: (u8, u16)) -> bool
        ensures was { result ≡ has_in numbered_cmp self.old id }
        ensures after { self.new ≡ remove_in numbered_cmp self.old id }
    {
        self.sessions.remove(&id).is_some()
    }

    /// The session of this number.
    pub fn session(&self, id: (u8, u16)) -> Option<&Session>
        ensures { MatchOption result (get_in numbered_cmp self.now id ≡ None) (λ s. get_in numbered_cmp self.now id ≡ Some s.now) }
    {
        self.sessions.get(&id)
    }

    /// Sets an item of a session's account state; whether the session is open.
    pub fn put<H: NodeHash, Sh: Shelf>(
        &mut self,
        alloc: Global,
        store: &mut RotStore<Sh>,
        id: (u8, u16),
        item: &Item,
    ) -> Result<bool, MapFault>
        requires filed { AreFiled H.half Sh.B.tells store.old }
        ensures changed { IfOk result (Changed (λ d d'. ChangesState 65 d d' × (IsTrue Sh.B.tells
            → SetsAccount H.half (finite.get (own_nodes H.half (nodes_of store.old))) d d' item.now.key item.now.value))
            self.old self.new id) }

        // what stops it is what stops the open session's map
        ensures goes { let stored = finite.get (own_nodes H.half (nodes_of store.old)) in
            GoesByOpen Sh.B.tells H.half stored self.old id (λ d. stop_of H.half stored d.state item.now.key) result }
        ensures err { OnErr result (self.new ≡ self.old) }
        ensures store { LeavesAsked Sh.B.tells H.half IsSourceFault store.old store.new result }
    {
        let item = copy_of(alloc, item)?;
        let Some(session) = self.sessions.get_mut(&id) else {
            return Ok(false);
        };
        let mut filed = Filed::<'_, H, Sh>::new(store);
        session.put::<H, Filed<'_, H, Sh>>(alloc, &mut filed, item)?;
        Ok(true)
    }

    /// Removes a key of a session's account state, and tells whether it was there; none where the session isn't open.
    pub fn remove<H: NodeHash, Sh: Shelf>(
        &mut self,
        alloc: Global,
        store: &mut RotStore<Sh>,
        id: (u8, u16),
        key: &Hash32,
    ) -> Result<Option<bool>, MapFault>
        requires filed { AreFiled H.half Sh.B.tells store.old }
        ensures changed { IfOk result (λ there. Changed (λ d d'. ChangesState 64 d d' × (IsTrue Sh.B.tells
            → RemovesAccount H.half (finite.get (own_nodes H.half (nodes_of store.old))) d d' key.now (unwrap_or there false)))
            self.old self.new id (is_some there)) }

        // what stops it is what stops the open session's map
        ensures goes { let stored = finite.get (own_nodes H.half (nodes_of store.old)) in
            GoesByOpen Sh.B.tells H.half stored self.old id (λ d. removal_stop_of H.half stored d.state key.now) result }
        ensures err { OnErr result (self.new ≡ self.old) }
        ensures store { LeavesAsked Sh.B.tells H.half IsSourceFault store.old store.new result }
    {
        let Some(session) = self.sessions.get_mut(&id) else {
            return Ok(None);
        };
        let mut filed = Filed::<'_, H, Sh>::new(store);
        let there = session.remove::<H, Filed<'_, H, Sh>>(alloc, &mut filed, key)?;
        Ok(Some(there))
    }

    /// Sets an item of a session's transactions; whether the session is open. No source is asked.
    pub fn tx<H: NodeHash, Sh: Shelf>(
        &mut self,
        alloc: Global,
        store: &mut RotStore<Sh>,
        id: (u8, u16),
        item: &Item,
    ) -> Result<bool, MapFault>
        ensures changed { IfOk result (Changed (λ d d'. ChangesTxs 65 d d' × SetsTx d d' item.now.key item.now.value)
            self.old self.new id) }
        ensures err { OnErr result (self.new ≡ self.old) }
        ensures same { store.new ≡ store.old }
        ensures memory { IfErr result (λ e. e ≡ MapFault.Memory) }
    {
        let item = copy_of(alloc, item)?;
        let Some(session) = self.sessions.get_mut(&id) else {
            return Ok(false);
        };
        session.tx::<H, RotStore<Sh>>(alloc, store, item)?;
        Ok(true)
    }
}

// Whether one of the sessions edits the ledger.
fn is_edited(sessions: &BTreeMap<(u8, u16), Session>, target: &Hash32) -> bool
    ensures { result ≡ list_any (λ d. same_bytes target.now d.base) (values_of sessions.now.entries) }
{
    sessions.values().any(|session| edits(session, target))
}

// Whether the session edits the ledger.
fn edits(session: &Session, target: &Hash32) -> bool
    ensures { result ≡ same_bytes target.now session.now.base }
{
    target.equals(session.base())
}

// The item once more.
fn copy_of(alloc: Global, item: &Item) -> Result<Item, MapFault>
    ensures same { IfOk result (λ i. (i.key ≡ item.now.key) × (i.value ≡ item.now.value)) }
    ensures memory { IfErr result (λ e. e ≡ MapFault.Memory) }
{
    let Ok(value) = Blob::from_slice(alloc, item.data()) else {
        return Err(MapFault::Memory);
    };
    match Item::new(*item.key(), value) {
        Ok(item) => Ok(item),
        Err(ItemFault::ZeroKey) => unreachable!(),
        Err(ItemFault::TooLong(_)) => unreachable!(),
    }
}

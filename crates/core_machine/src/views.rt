//! Views, which pin a ledger under a number of an actor's, and reads of them.
ghost use Rattle.std.specs.Prelude.{◌≡◌, ◌≢◌, IsTrue, IfErr, IfOk};
ghost use Rattle.std.specs.FinMap as map;
ghost use Rattle.rotating_store.specs.Reading.{WasRead};
ghost use Rattle.path_proof.specs.Sources.{LeavesSource, RoseIf};
ghost use Rattle.rotating_store.specs.Stores.{nodes_of};
ghost use Rattle.std.specs.List.{list_any};
ghost use Rattle.std.specs.Map.{values_of};
ghost use Rattle.ledger_spec.specs.Bytes.{Hash, Half, same_bytes};
ghost use Rattle.ledger_spec.specs.declared.Kind.{Kind as the_kind};
ghost use Rattle.run_io.specs.Bytes.{Rose};
ghost use Rattle.ledger_machine.specs.Views.{is_retained as state_retains, after_view, unview_reply, after_unview};
ghost use Rattle.ledger_machine.specs.Reading.{IsRead, view_root};
ghost use Rattle.core_machine.specs.Machines.{view_by};
ghost use Rattle.core_machine.specs.Desks.{IsFiled, Stays, OnlyReads, WantsMemory};
ghost use Rattle.path_proof.specs.Paths.{held_nodes};
ghost use Rattle.core_machine.specs.Reads.{GivesForm, GivesNode, IsFollowed, IsGot, IsNodeOf, Says};

use crate::limits::MOST_VIEWS;
use crate::tables::Tables;
use half_hash::{Blob, Hash32, Memory, NodeHash};
use ledger_machine::{GetReply, Reply, ViewReply};
use node_backend::{BackFault, Shelf};
use node_offer::root_in;
use path_proof::{Answer, FetchFault, NodeSource, Outcome, ReadFault, read};
use rotating_store::{Filed, RotStore, StoreFault};
use shamap_node::{Kind, Node};
use std::alloc::Global;
use std::collections::BTreeMap;
use std::sync::Arc;

/// A reply to `get`, with the nodes of the path that was read.
#[derive(Drop)]
pub struct Got {
    pub reply: GetReply,
    pub used: Vec<Arc<Node>>,
}

impl<H: NodeHash, Sh: Shelf> Tables<H, Sh> {
    /// Opens a view of a ledger, if that is retained.
    pub(crate) fn view(
        &mut self,
        actor: u8,
        view: u16,
        target: &Hash32,
        retained: bool,
    ) -> Result<ViewReply, Memory>
        ensures reply { IfOk result (λ r. r ≡ view_by retained self.old.state (actor, view)) }
        ensures after { IfOk result (λ r. self.new.state ≡ after_view self.old.state (actor, view) target.now r) }
        ensures memory { WantsMemory Sh.B.tells self.old result self.new }
    {
        let id = (actor, view);
        if self.views.contains_key(&id) {
            return Ok(ViewReply::InUse);
        }
        if !retained {
            return Ok(ViewReply::NotRetained);
        }
        if self.views.len() == MOST_VIEWS {
            return Ok(ViewReply::TooMany);
        }
        self.views.insert(id, *target)?;
        Ok(ViewReply::Fine)
    }

    /// Whether the ledger is listed, or pinned by a view.
    pub(crate) fn is_retained(&self, target: &Hash32) -> bool
        ensures { result ≡ state_retains self.now.state target.now }
    {
        self.book.is_listed(target) || is_pinned(&self.views, target)
    }

    /// Ends a view; whether it was open.
    pub(crate) fn unview(&mut self, actor: u8, view: u16) -> bool
        ensures reply { result ≡ unview_reply self.old.state (actor, view) }
        ensures after { self.new.state ≡ after_unview self.old.state (actor, view) }
        ensures told { self.new.state.shaded ≡ self.old.state.shaded }
        ensures stays { Stays Sh.B.tells self.old self.new }
    {
        self.views.remove(&(actor, view)).is_some()
    }

    /// Reads a key in the map of a view.
    pub(crate) fn get(
        &mut self,
        alloc: Global,
        actor: u8,
        view: u16,
        kind: Kind,
        key: &Hash32,
    ) -> Result<Got, BackFault>
        requires { IsFiled H.half Sh.B.tells self.old.state }
        ensures got { IsTrue Sh.B.tells
            → IfOk result (IsGot H.half self.old.state kind key.now (view_root self.old.state kind (actor, view)) self.new.state) }
        ensures reads { OnlyReads Sh.B.tells self.old self.new }
        ensures fault { IfErr result (λ e. e ≡ BackFault.Fault → Rose self.old.faults self.new.faults) }
    {
        match self.root_of_view(alloc, actor, view, kind)? {
            Some(root) => self.read(alloc, &root, kind, key),
            None => Ok(Got {
                reply: GetReply::NoView,
                used: Vec::new(alloc),
            }),
        }
    }

    // The root of the map of this kind of a view's ledger, or none where the view isn't open.
    pub(crate) fn root_of_view(
        &mut self,
        alloc: Global,
        actor: u8,
        view: u16,
        kind: Kind,
    ) -> Result<Option<Hash32>, BackFault>
        requires { IsFiled H.half Sh.B.tells self.old.state }
        ensures root { IsTrue Sh.B.tells → IfOk result (λ r. r ≡ view_root self.old.state kind (actor, view)) }
        ensures reads { OnlyReads Sh.B.tells self.old self.new }
        ensures fault { IfErr result (λ e. e ≡ BackFault.Fault → Rose self.old.faults self.new.faults) }
    {
        match self.views.get(&(actor, view)).copied() {
            Some(target) => root_in::<H, Sh>(alloc, &mut self.store, &target, kind),
            None => Ok(None),
        }
    }

    /// The node of a hash, as the store gives it.
    pub(crate) fn node_at(
        &mut self,
        alloc: Global,
        h: &Hash32,
    ) -> Result<Option<Arc<Node>>, FetchFault>
        requires { IsFiled H.half Sh.B.tells self.old.state }
        ensures { GivesNode H.half Sh.B.tells self.old h.now result self.new }
    {
        let mut filed = Filed::<'_, H, Sh>::new(&mut self.store);
        fetched::<H, Filed<'_, H, Sh>>(alloc, &mut filed, h)
    }

    /// The bytes of a hash, as the store gives them: nothing of them is hashed.
    pub(crate) fn form_at(&mut self, alloc: Global, h: &Hash32) -> Result<Option<Blob>, FetchFault>
        requires { IsFiled H.half Sh.B.tells self.old.state }
        ensures { GivesForm H.half Sh.B.tells self.old h.now result self.new }
    {
        bytes_at::<H, Sh>(alloc, &mut self.store, h)
    }

    // Reads a key in the map below a root.
    fn read(
        &mut self,
        alloc: Global,
        root: &Hash32,
        kind: Kind,
        key: &Hash32,
    ) -> Result<Got, BackFault>
        requires { IsFiled H.half Sh.B.tells self.old.state }
        ensures read { IfOk result (λ got. IsRead H.half kind key.now root.now (Reply.Get got.reply) (held_nodes got.used.items)) }
        ensures reads { OnlyReads Sh.B.tells self.old self.new }
        ensures fault { IfErr result (λ e. e ≡ BackFault.Fault → Rose self.old.faults self.new.faults) }
    {
        let mut filed = Filed::<'_, H, Sh>::new(&mut self.store);
        match read::<H, Filed<'_, H, Sh>>(alloc, &mut filed, root, kind, key) {
            Ok(answer) => answered(answer),
            Err(ReadFault::Fault) => Err(BackFault::Fault),
            // the map of a retained ledger is whole, so that only memory was wanted
            Err(_) => Err(BackFault::Memory),
        }
    }
}

// The bytes that the store gives for a hash.
fn bytes_at<H: NodeHash, Sh: Shelf>(
    alloc: Global,
    store: &mut RotStore<Sh>,
    h: &Hash32,
) -> Result<Option<Blob>, FetchFault>
    ensures found { IsTrue Sh.B.tells → IfOk result (λ b. b ≡ map.get (nodes_of store.old) h.now) }
    ensures unread { IfErr result (λ e. e ≢ FetchFault.Foreign) }
    ensures read { WasRead Sh.B.tells H.half store.old store.new }
    ensures fault { IfErr result (λ e. e ≡ FetchFault.Fault → Rose store.old.faults store.new.faults) }
{
    match store.get(alloc, h) {
        Ok(form) => Ok(form),
        Err(StoreFault::Fault) => Err(FetchFault::Fault),
        Err(StoreFault::Memory) => Err(FetchFault::Memory),
        Err(StoreFault::Clash { .. }) => unreachable!(),
        Err(StoreFault::WrongHash { .. }) => unreachable!(),
    }
}

// What a source gives for a hash.
fn fetched<H: NodeHash, S: NodeSource<H>>(
    alloc: Global,
    source: &mut S,
    h: &Hash32,
) -> Result<Option<Arc<Node>>, FetchFault>
    ensures node { IsNodeOf H.half S.tells (map.get (S.stored source.old) h.now) h.now result }
    ensures source { LeavesSource S.tells S.stored S.rest S.faults (RoseIf FetchFault.Fault) source.old source.new result }
{
    source.fetch(alloc, h)
}

// Whether a view pins the ledger.
fn is_pinned(views: &BTreeMap<(u8, u16), Hash32>, target: &Hash32) -> bool
    ensures { result ≡ list_any (same_bytes target.now) (values_of views.now.entries) }
{
    views.values().any(|pinned| target.equals(pinned))
}

/// The reply that an answer gives, with its path.
pub fn answered(answer: Answer) -> Result<Got, BackFault>
    ensures got { (half : Half) (kind : the_kind) (root key : Hash) → IsFollowed half kind root key answer
        → IfOk result (λ got. IsRead half kind key root (Reply.Get got.reply) (held_nodes got.used.items)) }
    ensures used { IfOk result (λ got. got.used ≡ answer.used) }
    ensures memory { IfErr result (λ e. e ≡ BackFault.Memory) }
{
    match said(&answer) {
        Ok(reply) => Ok(Got {
            reply,
            used: answer.used,
        }),
        Err(_) => Err(BackFault::Memory),
    }
}

// What an answer says of its key: a value is the last node of the path.
fn said(answer: &Answer) -> Result<GetReply, Memory>
    ensures { (half : Half) (kind : the_kind) (root key : Hash) → IsFollowed half kind root key answer.now
        → IfOk result (Says answer.now) }
{
    match (answer.outcome, answer.used.last()) {
        (Outcome::Value, Some(leaf)) => Ok(GetReply::Value(Arc::try_clone(leaf)?)),
        _ => Ok(GetReply::Nothing),
    }
}

//! A session, from its opening to its close: the header of the ledger that it edits, and two maps.
ghost use Rattle.std.specs.Prelude.{◌≡◌, ◌≢◌, ◌<◌, ◌+◌, [], IsTrue, IfErr, IfOk, OnErr, OnOk, MatchBool};
ghost use Rattle.std.specs.FinMap as map;
ghost use Rattle.ledger_spec.specs.declared.Kind.TheVariants.{State as accounts_kind};
ghost use Rattle.ledger_spec.specs.Bytes.{Half, Items, Lookup};
ghost use Rattle.ledger_spec.specs.Commits.{AreOwn, IsWholeMap};
ghost use Rattle.ledger_spec.specs.Findings.{items_of};
ghost use Rattle.path_proof.specs.Sources.{LeavesSource};
ghost use Rattle.cow_map.specs.declared.fault.MapFault.TheVariants as causes;
ghost use Rattle.cow_map.specs.Laws.{IsSized};
ghost use Rattle.cow_map.specs.Sealing.{IsSealFault};
ghost use Rattle.cow_map.specs.Trees.{StandsFor};
ghost use Rattle.cow_map.specs.Ways.{stop_of, removal_stop_of, IsSourceFault};
ghost use Rattle.edit_session.specs.Drafts.{IsOpened, Keeps, Edits, LeavesToParent};
ghost use Rattle.edit_session.specs.Changes.{ChangesState, ChangesTxs, SetsAccount, RemovesAccount, SetsTx, GoesBy};
ghost use Rattle.edit_session.specs.Closing.{IsOccupied, header_after, Follows, Closes, NamesFirst};

use crate::close::closed_with;
use crate::{Closed, Fields};
use cow_map::{
    CowMap, MapFault, a_map_without_a_source_stands_anywhere, the_forms_made_are_the_trees,
    what_is_left_is_whole,
};
use half_hash::{Hash32, NodeHash, known_half};
use ledger_header::Header;
use ledger_spec::Kind;
use path_proof::{NoSource, NodeSource};
use shamap_node::Item;
use std::alloc::Global;
use std::marker::Model;

/// A session over a ledger. Contracts see a `Draft`; `Edits` says which two finite maps that is, together
/// with what a source holds.
#[derive(Drop)]
pub struct Session {
    base: Hash32,
    parent: Header,
    state: CowMap,
    txs: CowMap,
}

impl Model for Session {
    ghost use Rattle.edit_session.specs.Drafts.{Draft, Keeps};

    ghost Value = { Draft };

    ghost view = { λ a. record { base = a.base; parent = a.parent; state = a.state; txs = a.txs } };

    ghost invariant = { λ a. Keeps (record { base = a.base; parent = a.parent; state = a.state; txs = a.txs }) };
}

impl Session {
    /// A session on the ledger with this hash and header: its account state, and no transactions. It takes no memory.
    pub fn open(alloc: Global, base: Hash32, parent: Header) -> Session
        requires { parent.seq < 4294967295 }
        ensures opened { IsOpened base parent result }

        // where the ledger's account state is whole, the session has it, and leaves it to the source
        ensures maps { (half : Half) (stored : Lookup) → IsSized half → IsWholeMap half stored accounts_kind parent.state_root →
            Edits half stored result (items_of half stored accounts_kind parent.state_root) [] × LeavesToParent half stored result }
    {
        what_is_left_is_whole();
        a_map_without_a_source_stands_anywhere();
        Session {
            base,
            parent,
            state: CowMap::over(alloc, Kind::State, &parent.state_root),
            txs: CowMap::new(alloc, Kind::Tx),
        }
    }

    /// Sets an item of the account state.
    pub fn put<H: NodeHash, S: NodeSource<H>>(
        &mut self,
        alloc: Global,
        source: &mut S,
        item: Item,
    ) -> Result<(), MapFault>
        ensures sets { IsTrue S.tells →
            OnOk result (SetsAccount H.half (map.get (S.stored source.old)) self.old self.new item.key item.value) }
        ensures rest { ChangesState 65 self.old self.new }

        // what the source lacks, or what breaks a rule of shape, is named exactly where it is the first such on the way
        ensures way { IsTrue S.tells → let stored = map.get (S.stored source.old) in
            GoesBy H.half stored self.old (stop_of H.half stored self.old.state item.key) result }
        ensures err { OnErr result (self.new ≡ self.old) }
        ensures source { LeavesSource S.tells S.stored S.rest S.faults IsSourceFault source.old source.new result }
    {
        what_is_left_is_whole();
        self.state.put::<H, S>(alloc, source, item)
    }

    /// Removes a key of the account state, and tells whether it was there.
    pub fn remove<H: NodeHash, S: NodeSource<H>>(
        &mut self,
        alloc: Global,
        source: &mut S,
        key: &Hash32,
    ) -> Result<bool, MapFault>
        ensures removes { IsTrue S.tells →
            IfOk result (RemovesAccount H.half (map.get (S.stored source.old)) self.old self.new key.now) }
        ensures rest { ChangesState 64 self.old self.new }

        // what the source lacks, or what breaks a rule of shape, is named exactly where it is the first such on the way, or else
        // stands beside the key's leaf as the only other branch of an inner node below the root
        ensures way { IsTrue S.tells → let stored = map.get (S.stored source.old) in
            GoesBy H.half stored self.old (removal_stop_of H.half stored self.old.state key.now) result }
        ensures err { OnErr result (self.new ≡ self.old) }
        ensures source { LeavesSource S.tells S.stored S.rest S.faults IsSourceFault source.old source.new result }
    {
        what_is_left_is_whole();
        self.state.remove::<H, S>(alloc, source, key)
    }

    /// Sets an item of the transactions. They leave nothing to a source, so none is asked, and only want of memory refuses.
    pub fn tx<H: NodeHash, S: NodeSource<H>>(
        &mut self,
        alloc: Global,
        source: &mut S,
        item: Item,
    ) -> Result<(), MapFault>
        ensures sets { OnOk result (SetsTx self.old self.new item.key item.value) }
        ensures rest { ChangesTxs 65 self.old self.new }
        ensures err { OnErr result (self.new ≡ self.old) }
        ensures cause { IfErr result (λ e. e ≡ causes.Memory) }
        ensures same { source.new ≡ source.old }
    {
        a_map_without_a_source_stands_anywhere();
        self.txs.put::<H, NoSource>(alloc, &mut NoSource, item)
    }

    /// Whether the account state is empty.
    pub fn is_empty(&self) -> bool
        ensures { (half : Half) (stored : Lookup) (items : Items) → StandsFor half stored self.now.state items →
            MatchBool result (items ≡ []) (items ≢ []) }
    {
        self.state.is_empty()
    }

    /// The hash of the ledger that is edited.
    pub fn base(&self) -> &Hash32
        ensures { result.now ≡ self.now.base }
    {
        &self.base
    }

    /// The sequence of the next ledger.
    pub fn next_seq(&self) -> u32
        ensures { result ≡ self.now.parent.seq + 1 }
    {
        self.parent.seq + 1
    }

    /// The next ledger: its header and hash, and the forms to store. The session stays as it is.
    pub fn close<H: NodeHash>(&self, alloc: Global, fields: &Fields) -> Result<Closed, MapFault>
        requires { IsOccupied self.now.state }
        // whatever maps the session has, the header follows the parent's, and each form is given with its own hash
        ensures follows { IfOk result (Follows H.half self.now fields.now) }

        // where the session has maps over forms under their own hashes, the ledger has these
        ensures closes { IfOk result (λ c. (stored : Lookup) (accounts txs : Items) → AreOwn H.half stored →
            Edits H.half stored self.now accounts txs → Closes H.half stored self.now fields.now accounts txs c) }

        // a form that has the zero hash is named, the first in the order of storing
        ensures zero { (stored : Lookup) (accounts txs : Items) → AreOwn H.half stored →
            Edits H.half stored self.now accounts txs → NamesFirst H.half stored self.now fields.now accounts txs result }
        ensures cause { IfErr result IsSealFault }
    {
        known_half::<H>();
        the_forms_made_are_the_trees();
        let state = self.state.seal::<H>(alloc)?;
        let txs = self.txs.seal::<H>(alloc)?;
        let header = self.header(fields, state.root, txs.root);
        closed_with::<H>(alloc, header, state.forms, txs.forms)
    }

    // The header of the next ledger with these roots.
    fn header(&self, fields: &Fields, state_root: Hash32, tx_root: Hash32) -> Header
        ensures { result ≡ header_after self.now fields.now state_root tx_root }
    {
        Header {
            seq: self.parent.seq + 1,
            drops: fields.drops,
            parent: self.base,
            tx_root,
            state_root,
            parent_close: self.parent.close,
            close: fields.close,
            resolution: fields.resolution,
            flags: fields.flags,
        }
    }

    /// For proofs: what each session keeps. The call changes nothing.
    pub fn known(&self)
        ensures { Keeps self.now }
    {
        let _base = &self.base;
    }
}

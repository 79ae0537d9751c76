//! The ledgers that are listed: one whose acquisition is complete, and one that a session closes into.
ghost use Rattle.std.specs.Prelude.{◌≡◌, ◌≤◌, ◌∷◌, [], OnErr, OnOk};
ghost use Rattle.ledger_spec.specs.Maps.{hash_cmp, has_in};
ghost use Rattle.ledger_machine.specs.Check.{after_check};
ghost use Rattle.ledger_machine.specs.Sessions.{without_session};
ghost use Rattle.ledger_machine.specs.State.{listed_with};
ghost use Rattle.ledger_machine.specs.Steps.{IsAfter};
ghost use Rattle.core_machine.specs.Desks.{AsksNoStore};
ghost use Rattle.core_machine.specs.Telling.{Hears};

use crate::machine::Machine;
use crate::tables::Tables;
use half_hash::{Hash32, Memory, NodeHash};
use ledger_machine::CheckReply;
use node_backend::Shelf;

impl<H: NodeHash, Sh: Shelf> Tables<H, Sh> {
    /// Whether the ledger is listed.
    pub(crate) fn is_listed(&self, target: &Hash32) -> bool
        ensures { result ≡ has_in hash_cmp self.now.state.listed target.now }
    {
        self.book.is_listed(target)
    }

    /// Lists a ledger that is closed here. Its sequence isn't below the floor, as a close looks for that first.
    pub(crate) fn list_closed(&mut self, target: &Hash32, seq: u32) -> Result<(), Memory>
        ensures ok { OnOk result (self.new.state ≡ listed_with self.old.state target.now seq) }
        ensures err { OnErr result (self.new ≡ self.old) }
        ensures told { self.new.state.shaded ≡ self.old.state.shaded }
        ensures store { AsksNoStore Sh.B.tells self.old self.new }
    {
        if seq < self.book.floor() {
            return Err(Memory);
        }
        self.book.list(target, seq)?;
        Ok(())
    }

    /// Lists a ledger with a sequence, which the rotation under way is told of first, and ends its acquisition.
    pub(crate) fn list(&mut self, target: &Hash32, seq: u32) -> Result<(), Memory>
        ensures ok { OnOk result (IsAfter (after_check self.old.state target.now seq CheckReply.Complete) self.new.state) }
        ensures err { OnErr result (IsAfter self.old.state self.new.state) }
        ensures hears { Hears self.old.state.shaded (target.now ∷ []) self.new.state.shaded }
        ensures store { AsksNoStore Sh.B.tells self.old self.new }
    {
        // a complete ledger isn't below the floor; only a backend that doesn't tell what it holds may show one without a header
        if seq < self.floor() {
            return Err(Memory);
        }
        self.shade(target)?;
        self.enlist(target, seq)
    }

    // The same, once the rotation was told.
    fn enlist(&mut self, target: &Hash32, seq: u32) -> Result<(), Memory>
        requires { self.old.state.floor ≤ seq }
        ensures ok { OnOk result (self.new.state ≡ after_check self.old.state target.now seq CheckReply.Complete) }
        ensures err { OnErr result (self.new ≡ self.old) }
        ensures told { self.new.state.shaded ≡ self.old.state.shaded }
        ensures store { AsksNoStore Sh.B.tells self.old self.new }
    {
        self.book.list(target, seq)?;
        self.wanted.remove(target);
        Ok(())
    }
}

impl<H: NodeHash, Sh: Shelf> Machine<H, Sh> {
    /// Lists the ledger of a session, which ends.
    pub(crate) fn list_closed(
        &mut self,
        id: (u8, u16),
        target: &Hash32,
        seq: u32,
    ) -> Result<(), Memory>
        ensures ok { OnOk result (self.new.state ≡ without_session (listed_with self.old.state target.now seq) id) }
        ensures err { OnErr result (self.new ≡ self.old) }
        ensures told { self.new.state.shaded ≡ self.old.state.shaded }
        ensures store { AsksNoStore Sh.B.tells self.old self.new }
    {
        self.tables.list_closed(target, seq)?;
        self.sessions.end(id);
        Ok(())
    }
}

//! Roots that a rotation under way is to keep, and the forms of a closed ledger, which are stored under their hashes.
ghost use Rattle.std.specs.Prelude.{◌≡◌, ◌∷◌, [], IsTrue, IsSome, IfErr, OnOk, map};
ghost use Rattle.std.specs.List.{Contains};
ghost use Rattle.cow_map.specs.Sealing.{AreNamed};
ghost use Rattle.run_io.specs.Bytes.{Rose};
ghost use Rattle.ledger_machine.specs.Steps.{IsAfter};
ghost use Rattle.core_machine.specs.Closing.{KeepsForms, MayKeep};
ghost use Rattle.core_machine.specs.Desks.{AsksNoStore, IsFiled, Stays, KeepsRest};
ghost use Rattle.core_machine.specs.Telling.{Hears};

use crate::machine::Machine;
use crate::refusals::kept;
use crate::tables::Tables;
use cow_map::FormOf;
use edit_session::a_session_stays_over_its_ledger;
use half_hash::{Hash32, Memory, NodeHash};
use node_backend::Shelf;
use node_offer::OfferFault;
use std::alloc::Global;

impl<H: NodeHash, Sh: Shelf> Tables<H, Sh> {
    /// Shades a hash: the rotation under way, where there is one, keeps what it reaches. Each new root and each form of a close is shaded
    /// before anything else is done with it.
    pub(crate) fn shade(&mut self, h: &Hash32) -> Result<(), Memory>
        ensures after { IsAfter self.old.state self.new.state }
        ensures hears { Hears self.old.state.shaded (h.now ∷ []) self.new.state.shaded }
        ensures told { OnOk result (IsSome self.old.state.turning → Contains self.new.state.shaded h.now) }
        ensures stays { Stays Sh.B.tells self.old self.new }
        ensures store { AsksNoStore Sh.B.tells self.old self.new }
    {
        self.rotator.shade(h)?;
        Ok(())
    }

    /// Stores a form under its hash, unless it is there. Each form that a close writes comes by here: the rotation under way is told of its
    /// hash before it is written, and a refused telling has written nothing.
    pub(crate) fn keep(&mut self, alloc: Global, form: &FormOf) -> Result<(), OfferFault>
        requires { form.now.hash ≡ H.half form.now.form }
        ensures keeps { IsTrue Sh.B.tells → MayKeep H.half self.old.state form.now.form result self.new.state }
        ensures hears { Hears self.old.state.shaded (form.now.hash ∷ []) self.new.state.shaded }
        ensures told { OnOk result (IsSome self.old.state.turning → Contains self.new.state.shaded form.now.hash) }
        ensures rest { KeepsRest self.old.state self.new.state }
        ensures stays { Stays Sh.B.tells self.old self.new }
        ensures fault { IfErr result (λ e. e ≡ OfferFault.Fault → Rose self.old.faults self.new.faults) }
    {
        match self.rotator.shade(&form.hash) {
            Ok(()) => {}
            Err(_) => return Err(OfferFault::Memory),
        }
        let put = self
            .store
            .put_hashed::<H>(alloc, &form.hash, form.form.bytes());
        kept(put)
    }

    /// Stores forms under their hashes, one after another, until another one is there or the store fails.
    pub(crate) fn keep_all(&mut self, alloc: Global, forms: &[FormOf]) -> Result<(), OfferFault>
        requires { AreNamed H.half forms.now }
        ensures { KeepsForms H.half Sh.B.tells self.old (map (λ f. f.hash) forms.now) (map (λ f. f.form) forms.now) result self.new }
    {
        for form in forms {
            match self.keep(alloc, form) {
                Ok(()) => {}
                Err(fault) => return Err(fault),
            }
        }
        Ok(())
    }

    /// Tells the rotation under way of a ledger, and stores its forms under their hashes.
    pub(crate) fn keep_ledger(
        &mut self,
        alloc: Global,
        target: &Hash32,
        forms: &[FormOf],
    ) -> Result<(), OfferFault>
        requires { AreNamed H.half forms.now }
        ensures forms { KeepsForms H.half Sh.B.tells self.old (target.now ∷ map (λ f. f.hash) forms.now) (map (λ f. f.form) forms.now)
            result self.new }
        ensures told { OnOk result (IsSome self.old.state.turning → Contains self.new.state.shaded target.now) }
    {
        if self.shade(target).is_err() {
            return Err(OfferFault::Memory);
        }
        self.keep_all(alloc, forms)
    }
}

impl<H: NodeHash, Sh: Shelf> Machine<H, Sh> {
    /// Tells the rotation under way of a ledger, and stores its forms under their hashes. The open sessions stay what they are.
    pub(crate) fn keep_forms(
        &mut self,
        alloc: Global,
        target: &Hash32,
        forms: &[FormOf],
    ) -> Result<(), OfferFault>
        requires named { AreNamed H.half forms.now }
        requires filed { IsFiled H.half Sh.B.tells self.old.state }
        ensures forms { KeepsForms H.half Sh.B.tells self.old (target.now ∷ map (λ f. f.hash) forms.now) (map (λ f. f.form) forms.now)
            result self.new }
        ensures told { OnOk result (IsSome self.old.state.turning → Contains self.new.state.shaded target.now) }
    {
        a_session_stays_over_its_ledger();
        self.tables.keep_ledger(alloc, target, forms)
    }
}

//! A pass over the items of one map, which counts them.
ghost use Rattle.std.specs.Prelude.{◌≡◌, ◌++◌, ◌∷◌, [], true, false, length, IfOk, IfErr, OnOk, OnErr};
ghost use Rattle.ledger_spec.specs.Bytes.{Bytes, Hash, Half, Items};
ghost use Rattle.ledger_spec.specs.declared.Kind.{Kind as AnyKind};
ghost use Rattle.ledger_spec.specs.Tree.{root_of};
ghost use Rattle.audit_core.specs.Said.{is_behind, last_key};

use crate::Cause;
use half_hash::{Hash32, Memory, NodeHash};
use ledger_spec::Kind;
use root_pass::Pass;
use std::alloc::Global;

/// A pass, and how many items it saw.
#[derive(Drop)]
pub struct Counting {
    pass: Pass,
    number: u64,
}

impl Counting {
    ghost use Rattle.audit_core.specs.Keeping.{Counts};
    ghost use Rattle.audit_core.specs.declared.cause.Cause.TheVariants as causes;

    /// No item.
    pub(crate) fn new(alloc: Global, kind: Kind) -> Result<Counting, Memory>
        ensures { IfOk result (λ counting. (half : Half) → Counts half kind counting []) }
    {
        let pass = Pass::new(alloc, kind)?;
        Ok(Counting { pass, number: 0 })
    }

    /// One item more.
    pub(crate) fn add<H: NodeHash>(&mut self, key: &Hash32, bytes: &[u8]) -> Result<(), Cause>
        ensures ok { OnOk result ((kind : AnyKind) (items : Items) → Counts H.half kind self.old items
            → (is_behind items key.now ≡ true) × Counts H.half kind self.new (items ++ (key.now, bytes.now) ∷ [])) }
        ensures cause { IfErr result (λ cause. (kind : AnyKind) (items : Items) → Counts H.half kind self.old items
            → (is_behind items key.now ≡ false) × (cause ≡ causes.NotBehind (last_key items) key.now)) }
        ensures err { OnErr result (self.new ≡ self.old) }
    {
        match self.pass.add::<H>(key, bytes) {
            Ok(()) => {
                self.number = self.number.saturating_add(1);
                Ok(())
            }
            Err(fault) => Err(Cause::NotBehind {
                before: fault.before,
                key: *key,
            }),
        }
    }

    /// How many items there are.
    pub(crate) fn number(&self) -> u64
        ensures { result ≡ self.now.number }
    {
        self.number
    }

    /// The root of the items.
    pub(crate) fn root<H: NodeHash>(self) -> Hash32
        ensures { (kind : AnyKind) (items : Items) → Counts H.half kind self items → result ≡ root_of H.half kind items }
    {
        self.pass.root::<H>()
    }
}

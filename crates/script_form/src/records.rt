//! The records of a script so far: a list of them, and a set in which their hashes are looked up.
ghost use Rattle.std.specs.Prelude.{◌≡◌, ◌++◌, ◌∷◌, [], OnOk, OnErr, MatchBool};
ghost use Rattle.std.specs.List.{Contains};
ghost use Rattle.ledger_machine.specs.Records.{hashes_of};

use half_hash::{Hash32, Memory};
use ledger_machine::Record;
use std::alloc::Global;
use std::collections::HashSet;
use std::marker::Model;

/// Records. Contracts see the list of them.
#[derive(Drop)]
pub(crate) struct Records {
    records: Vec<Record>,
    hashes: HashSet<Hash32>,
}

impl Model for Records {
    ghost use Rattle.std.specs.Prelude.{List};
    ghost use Rattle.ledger_machine.specs.declared.commands.Record.{Record};
    ghost use Rattle.ledger_machine.specs.Records.{hashes_of};
    ghost use Rattle.script_form.specs.Finding.{Finds};

    ghost Value = { List Record };

    ghost view = { λ a. a.records.items };

    ghost invariant = { λ a. Finds a.hashes (hashes_of a.records.items) };
}

impl Records {
    /// No records.
    pub(crate) fn new(alloc: Global) -> Records
        ensures { result ≡ [] }
    {
        Records {
            records: Vec::new(alloc),
            hashes: HashSet::new(alloc),
        }
    }

    /// Whether one of them has this hash.
    pub(crate) fn has(&self, hash: &Hash32) -> bool
        ensures { MatchBool result (Contains (hashes_of self.now) hash.now) (Contains (hashes_of self.now) hash.now → ⊥) }
    {
        self.hashes.contains(hash)
    }

    /// Adds a record behind the others. Where memory is refused nothing changes.
    pub(crate) fn push(&mut self, one: Record) -> Result<(), Memory>
        ensures ok { OnOk result (self.new ≡ self.old ++ one ∷ []) }
        ensures err { OnErr result (self.new ≡ self.old) }
    {
        let hash = one.hash;
        self.records.push(one)?;
        if self.hashes.insert(hash).is_err() {
            let _ = self.records.pop();
            return Err(Memory);
        }
        Ok(())
    }

    /// The records, given back without taking memory.
    pub(crate) fn into_records(self) -> Vec<Record>
        ensures { result.items ≡ self }
    {
        self.records
    }
}

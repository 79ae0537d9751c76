//! What of a core is looked at from outside: its store, and the ledgers that it retains.
ghost use Rattle.std.specs.Prelude.{◌≡◌, ◌++◌, List, IfOk};
ghost use Rattle.std.specs.Map.{keys_of, values_of};
ghost use Rattle.ledger_spec.specs.Bytes.{Hash};
ghost use Rattle.ledger_spec.specs.Maps.{IsMap, hash_cmp};
ghost use Rattle.core_machine.specs.Retaining.{AreRising, AreRetained, IsStoreOf, HaveKeys};

use crate::machine::Machine;
use crate::rotating::viewed;
use crate::tables::Tables;
use half_hash::{Hash32, Memory, NodeHash};
use node_backend::Shelf;
use rotating_store::RotStore;
use std::alloc::Global;
use std::collections::BTreeMap;

impl<H: NodeHash, Sh: Shelf> Tables<H, Sh> {
    // The listed ledgers, those of views, and these.
    fn pinned(&self, alloc: Global, bases: &[Hash32]) -> Result<Vec<Hash32>, Memory>
        ensures { IfOk result (λ hashes. (listed : List Hash) × HaveKeys self.now.state.listed listed
            × (hashes.items ≡ listed ++ values_of self.now.state.views ++ bases.now)) }
    {
        let mut hashes = self.book.roots(alloc, 0)?;
        let views = viewed(alloc, &self.views)?;
        hashes.extend_from_slice(&views)?;
        hashes.extend_from_slice(bases)?;
        Ok(hashes)
    }
}

impl<H: NodeHash, Sh: Shelf> Machine<H, Sh> {
    /// The store that the commands act on.
    pub fn store(&self) -> &RotStore<Sh>
        ensures { IsStoreOf self.now result.now }
    {
        &self.tables.store
    }

    /// The retained ledgers, rising, each once.
    pub fn retained(&self, alloc: Global) -> Result<Vec<Hash32>, Memory>
        ensures { IfOk result (λ hashes. AreRetained self.now.state hashes.items) }
    {
        let bases = self.sessions.bases(alloc)?;
        let hashes = self.tables.pinned(alloc, &bases)?;
        rising(alloc, &hashes)
    }
}

// These hashes, rising, each once.
fn rising(alloc: Global, hashes: &[Hash32]) -> Result<Vec<Hash32>, Memory>
    ensures { IfOk result (λ rising. AreRising hashes.now rising.items) }
{
    let mut found = BTreeMap::new(alloc);
    for hash in hashes {
        found.insert(*hash, true)?;
    }
    keys(alloc, &found)
}

// The keys, which rise.
fn keys(alloc: Global, found: &BTreeMap<Hash32, bool>) -> Result<Vec<Hash32>, Memory>
    ensures keys { IfOk result (λ hashes. hashes.items ≡ keys_of found.now.entries) }
    ensures rising { IsMap hash_cmp found.now.entries }
{
    let hashes = found.keys().copied().collect(alloc)?;
    Ok(hashes)
}

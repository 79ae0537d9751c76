//! The store as what gives nodes. The method calls nothing that is generic in the hash or the shelf but their traits' own methods, since
//! a call of another function would pass their bounds on.
ghost use Rattle.std.specs.Prelude.{◌≡◌, ◌≤◌, IfErr, IfOk, IfSome, IsTrue};
ghost use Rattle.std.specs.Borrow.{GName};
ghost use Rattle.std.specs.FinMap as map;
ghost use Rattle.run_io.specs.Bytes.{Rose};
ghost use Rattle.ledger_spec.specs.Forms.{hash_of};
ghost use Rattle.shamap_node.specs.Nodes.{held};
ghost use Rattle.path_proof.specs.Sources.{Gives};
ghost use Rattle.rotating_store.specs.Stores.{Store, nodes_of};
ghost use Rattle.rotating_store.specs.Sources.{AreFiled, fetch_fault, own_nodes, rest_of};

use crate::store::RotStore;
use half_hash::{Hash32, NodeHash};
use node_backend::{BackFault, Backend, Shelf};
use path_proof::{FetchFault, NodeSource, node_of_form};
use shamap_node::Node;
use std::alloc::Global;
use std::marker::PhantomData;
use std::sync::Arc;

impl<H: NodeHash, Sh: Shelf> NodeSource<H> for RotStore<Sh> {
    ghost tells = { Sh.B.tells };

    ghost stored = { λ s. own_nodes H.half (nodes_of s) };

    ghost Rest = { Store };

    ghost rest = { λ s. rest_of Sh.B.tells s };

    ghost faults = { λ s. s.faults };

    fn fetch(&mut self, alloc: Global, h: &Hash32) -> Result<Option<Arc<Node>>, FetchFault> {
        match self.writable.get_into(alloc, h, &mut self.room) {
            Ok(true) => return node_of_form(alloc, h, &H::half(&self.room), &self.room),
            Ok(false) => {}
            Err(fault) => return Err(not_fetched(fault)),
        }
        match self.archive.get_into(alloc, h, &mut self.room) {
            Ok(true) => {}
            Ok(false) => return Ok(None),
            Err(fault) => return Err(not_fetched(fault)),
        }
        node_of_form(alloc, h, &H::half(&self.room), &self.room)
    }
}

/// A store as a source of nodes, where all that it tells is known to stand under its own hashes: what a backend gives that tells what
/// it holds isn't hashed again. In contracts it is what `RotStore` is as a source, and `rest` says too that it borrows the same store.
#[derive(Drop)]
pub struct Filed<'a, H: NodeHash, Sh: Shelf> {
    store: &'a mut RotStore<Sh>,
    of: PhantomData<H>,
    ghost filed: { AreFiled H.half Sh.B.tells store.now },
}

impl<'a, H: NodeHash, Sh: Shelf> Filed<'a, H, Sh> {
    /// The store, borrowed.
    pub fn new(store: &'a mut RotStore<Sh>) -> Filed<'a, H, Sh>
        requires filed { AreFiled H.half Sh.B.tells store.old }
        ensures same_reference { result.store.ghost_name ≡ store.entry.ghost_name }
        ensures same { result.store.now ≡ store.old }
    {
        Filed {
            store,
            of: PhantomData,
        }
    }
}

impl<H: NodeHash, Sh: Shelf> NodeSource<H> for Filed<'_, H, Sh> {
    ghost tells = { Sh.B.tells };

    ghost stored = { λ s. own_nodes H.half (nodes_of s.store.now) };

    ghost Rest = { GName × Store };

    ghost rest = { λ s. (s.store.ghost_name, rest_of Sh.B.tells s.store.now) };

    ghost faults = { λ s. s.store.now.faults };

    fn fetch(&mut self, alloc: Global, h: &Hash32) -> Result<Option<Arc<Node>>, FetchFault> {
        let store = &mut *self.store;
        match store.writable.get_into(alloc, h, &mut store.room) {
            Ok(true) => {
                if Sh::B::is_telling() {
                    return node_of_form(alloc, h, h, &store.room);
                }
                return node_of_form(alloc, h, &H::half(&store.room), &store.room);
            }
            Ok(false) => {}
            Err(fault) => return Err(not_fetched(fault)),
        }
        match store.archive.get_into(alloc, h, &mut store.room) {
            Ok(true) => {}
            Ok(false) => return Ok(None),
            Err(fault) => return Err(not_fetched(fault)),
        }
        if Sh::B::is_telling() {
            return node_of_form(alloc, h, h, &store.room);
        }
        node_of_form(alloc, h, &H::half(&store.room), &store.room)
    }
}

// Why nothing is fetched from a backend that failed.
fn not_fetched(fault: BackFault) -> FetchFault
    ensures { result ≡ fetch_fault fault }
{
    match fault {
        BackFault::Fault => FetchFault::Fault,
        BackFault::Memory => FetchFault::Memory,
    }
}

//! What gives nodes by their hashes, and may fail: the trait over which maps are read and edited.
ghost use Rattle.std.specs.Prelude.{◌≡◌, ℕ, Bool, true, IfOk, IfSome, IsTrue, None, Ok};
ghost use Rattle.std.specs.Bool.{⊤};
ghost use Rattle.std.specs.FinMap as map;
ghost use Rattle.ledger_spec.specs.Bytes.{Nodes};
ghost use Rattle.ledger_spec.specs.Forms.{hash_of};
ghost use Rattle.shamap_node.specs.Nodes.{held};
ghost use Rattle.path_proof.specs.Sources.{Gives, LeavesSource, RoseIf, no_nodes};

use half_hash::{Hash32, NodeHash};
use shamap_node::Node;
use std::alloc::Global;
use std::sync::Arc;

/// Why a node is not given.
#[derive(Clone, Copy, Debug, PartialEq, Eq)]
pub enum FetchFault {
    /// The source failed, and its count rose.
    Fault,
    /// A header is held under the hash, and no node.
    Foreign,
    /// Memory was refused.
    Memory,
}

/// What gives nodes by their hashes.
pub trait NodeSource<H: NodeHash> {
    /// Whether sources of this type tell what they hold.
    ghost tells: { Bool };

    /// The forms that it holds under their hashes, where it tells them.
    ghost stored: { Self → Nodes };

    /// What else a proof knows of it, which no fetch changes.
    ghost Rest: { Type 0 };

    ghost rest: { Self → Rest };

    /// How often it has failed, held at the last value of a u64.
    ghost faults: { Self → ℕ };

    /// The node of a hash, or none where nothing is held under it.
    fn fetch(&mut self, alloc: Global, h: &Hash32) -> Result<Option<Arc<Node>>, FetchFault>
        ensures hash { IfOk result (λ o. IfSome o (λ node. hash_of H.half (held node.value) ≡ h.now)) }
        ensures exact { IsTrue tells → Gives H.half (map.get (stored self.old) h.now) result }
        ensures source { LeavesSource tells stored rest faults (RoseIf FetchFault.Fault) self.old self.new result };
}

/// A source that holds nothing.
#[derive(Clone, Copy, Debug)]
pub struct NoSource;

impl<H: NodeHash> NodeSource<H> for NoSource {
    ghost tells = { true };

    ghost stored = { λ s. no_nodes };

    ghost Rest = { ⊤ };

    ghost rest = { λ s. tt };

    ghost faults = { λ s. 0 };

    /// Nothing. It takes no memory.
    fn fetch(&mut self, _: Global, h: &Hash32) -> Result<Option<Arc<Node>>, FetchFault>
        ensures none { result ≡ Ok None }
        ensures exact { Gives H.half (map.get no_nodes h.now) result }
    {
        Ok(None)
    }
}

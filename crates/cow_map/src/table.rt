//! Where the hashes stand that a node's links to the source name: in the source's own node, which is shared, or in a list of their own.
ghost use Rattle.std.specs.Prelude.{◌≡◌, ◌<◌, ℕ, [], length, IfOk};
ghost use Rattle.std.specs.List.{slice_index_or};
ghost use Rattle.half_hash.specs.Zero.{zero_hash};
ghost use Rattle.cow_map.specs.Tables.{hashes_held};

use half_hash::{Hash32, Memory};
use shamap_node::Node;
use std::alloc::Global;
use std::marker::Model;
use std::sync::Arc;

/// The hashes at the branches of an inner node. Contracts see the list of them.
#[derive(Drop)]
pub(crate) struct Table {
    kept: Kept,
}

// Where they are kept.
#[derive(Drop)]
enum Kept {
    // Nowhere: there are none.
    Nowhere,
    // In an inner node of the source.
    Source(Arc<Node>),
    // In a list of their own.
    Made(Arc<[Hash32; 16]>),
}

impl Model for Table {
    ghost use Rattle.std.specs.Prelude.{List};
    ghost use Rattle.ledger_spec.specs.Bytes.{Hash};
    ghost use Rattle.cow_map.specs.Tables.{hashes_in};

    ghost Value = { List Hash };

    ghost view = { λ a. hashes_in a.kept };
}

impl Table {
    /// No hashes.
    pub(crate) fn none() -> Table
        ensures { result ≡ [] }
    {
        Table {
            kept: Kept::Nowhere,
        }
    }

    /// The hashes of an inner node of the source.
    pub(crate) fn of_node(node: Arc<Node>) -> Table
        ensures { result ≡ hashes_held node.value }
    {
        Table {
            kept: Kept::Source(node),
        }
    }

    /// These hashes.
    pub(crate) fn made(alloc: Global, hashes: [Hash32; 16]) -> Result<Table, Memory>
        ensures { IfOk result (λ table. table ≡ hashes) }
    {
        let hashes = Arc::new(alloc, hashes)?;
        Ok(Table {
            kept: Kept::Made(hashes),
        })
    }

    /// The hash at a branch; zero where there is none.
    pub(crate) fn hash(&self, b: u8) -> Hash32
        requires { b < 16 }
        ensures { result ≡ slice_index_or self.now b zero_hash }
    {
        match &self.kept {
            Kept::Nowhere => Hash32::zero(),
            Kept::Source(node) => hash_of(node, b),
            Kept::Made(hashes) => hashes[b as usize],
        }
    }

    /// The hashes at the sixteen branches.
    pub(crate) fn hashes(&self) -> [Hash32; 16]
        ensures width { length result ≡ 16 }
        ensures each { (b : ℕ) → b < 16 → slice_index_or result b zero_hash ≡ slice_index_or self.now b zero_hash }
    {
        let mut hashes = [Hash32::zero(); 16];
        for b in 0..16u8 {
            hashes[b as usize] = self.hash(b);
        }
        hashes
    }

    /// The same hashes, shared.
    pub(crate) fn copy(&self) -> Result<Table, Memory>
        ensures { IfOk result (λ table. table ≡ self.now) }
    {
        let kept = match &self.kept {
            Kept::Nowhere => Kept::Nowhere,
            Kept::Source(node) => Kept::Source(Arc::try_clone(node)?),
            Kept::Made(hashes) => Kept::Made(Arc::try_clone(hashes)?),
        };
        Ok(Table { kept })
    }
}

// The hash at a branch of an inner node of the source.
fn hash_of(node: &Node, b: u8) -> Hash32
    requires { b < 16 }
    ensures { result ≡ slice_index_or (hashes_held node.now) b zero_hash }
{
    match node {
        Node::Inner(inner) => inner.branch(b),
        Node::Leaf(_) => Hash32::zero(),
    }
}

//! What becomes of what a peer offers: of a node and of a header, by the definitions that judge them.

use half_hash::Hash32;
use nib_path::NodeId;

/// What became of a node that a peer sent.
#[derive(Drop)]
pub enum Offered {
    Good,
    Duplicate,
    BadWire(u8),
    BadHash { wanted: Hash32, found: Hash32 },
    NoBase,
    NoParent(NodeId),
    EmptyBranch(NodeId),
    UnderLeaf(NodeId),
    Malformed(u8),
}

/// What became of a header that a peer sent.
#[derive(Drop)]
pub enum HeadOffered {
    Good,
    Duplicate,
    BadLength(usize),
    BadHash { found: Hash32 },
}

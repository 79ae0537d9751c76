//! What is told of a map's nodes: the place, hash and wire form of one, and the root of a map.
use half_hash::{Blob, Hash32};
use nib_path::NodeId;

/// A node of a map: its place, its hash, and the wire form that is written.
#[derive(Drop)]
pub struct PlacedNode {
    pub id: NodeId,
    pub hash: Hash32,
    pub blob: Blob,
}

/// The root of a map that isn't empty: its hash, and the wire form that is written.
#[derive(Drop)]
pub struct Root {
    pub hash: Hash32,
    pub blob: Blob,
}

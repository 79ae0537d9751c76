//! Places in a map of 256-bit keys, by the nibbles that lead to them: the node IDs of a SHAMap, as in the XRP Ledger's documentation
//! and rippled's `SHAMapNodeID`.
//!
//! A node ID is a depth from 0 to 64, and 32 bytes whose nibbles from the depth on are zero. It is sent as the 32 bytes and then the
//! depth.
#![tactic(auto)]

ghost use Rattle.std.specs.Prelude.{◌≡◌, ℕ, ◌<◌, ◌≤◌, List, [], ◌∷◌, ◌++◌, length, take, IfOk, IfSome, IsNone, ◌↔◌};
ghost use Rattle.nib_path.specs.Paths.{nibbles};

mod digits;

pub use digits::nibble;
use digits::{first_set, head_of, known_small, set_nibble};
use std::hash::{Hash, Hasher};
use std::marker::Model;
use thiserror::Error;

#[cfg(test)]
mod tests;

/// Why bytes are no node ID.
#[derive(Clone, Copy, Debug, PartialEq, Eq, Error)]
pub enum IdFault {
    /// There are not 33 bytes, but this many.
    #[error("not 33 bytes long")]
    Length(usize),
    /// The depth is above 64.
    #[error("the depth is above 64")]
    Depth(u8),
    /// This nibble, the first such, lies at or past the depth and is not zero.
    #[error("a nibble past the depth is not zero")]
    Tail(u8),
}

/// A place in a map, rippled's `SHAMapNodeID`. Contracts see its path from the root, a list of at most 64 nibbles.
#[derive(Clone, Copy, Debug, PartialEq, Eq, PartialOrd, Ord)]
pub struct NodeId {
    depth: u8,
    id: [u8; 32],
}

impl Model for NodeId {
    ghost use Rattle.std.specs.Prelude.{ℕ, List};

    ghost Value = { List ℕ };

    ghost use Rattle.nib_path.specs.Paths.{IsNodeId, path_of, inside_of, inside_of-path_of};

    ghost view = { path_of };

    ghost invariant = { IsNodeId };

    ghost inverse = { inside_of };

    ghost inverse_ok = { inside_of-path_of };
}

// What a hash table asks: the path's first sixteen nibbles, and its length.
impl Hash for NodeId {
    ghost use Rattle.std.specs.Prelude.{◌++◌, ◌∷◌, [], length, take};
    ghost use Rattle.std.specs.Cmp.Rules.{hashing};
    ghost use Rattle.std.proofs.Common.{rules};
    ghost use Rattle.nib_path.specs.Paths.{id_of};

    ghost hash_input = { λ path. take 8 (id_of path) ∷ (length path ∷ []) ∷ [] };

    ghost respects_eq = { Prim.search (hashing, rules) };

    fn hash<H: Hasher>(&self, state: &mut H) {
        state.write(&self.id[..8]);
        state.write(&[self.depth]);
    }
}

impl NodeId {
    ghost use Rattle.nib_path.specs.Paths.{lies_under, id_of, id_wire, IsPath};
    ghost use Rattle.nib_path.specs.Wire.{read_id, read_wire_id};

    /// The root of every map, at depth 0.
    pub fn root() -> NodeId
        ensures { result ≡ [] }
    {
        NodeId {
            depth: 0,
            id: [0; 32],
        }
    }

    /// The place at a depth on the way to a key, rippled's `createID`.
    pub fn of_key(key: &[u8; 32], depth: u8) -> NodeId
        requires { depth ≤ 64 }
        ensures { result ≡ take depth (nibbles key.now) }
    {
        NodeId {
            depth,
            id: head_of(key, depth),
        }
    }

    /// The path's length.
    pub fn depth(&self) -> u8
        ensures { result ≡ length self.now }
    {
        self.depth
    }

    /// The path's nibbles, and then zeros, as 32 bytes.
    pub fn id(&self) -> [u8; 32]
        ensures { result ≡ id_of self.now }
    {
        self.id
    }

    /// The place one step below, at the branch `b`, rippled's `getChildNodeID`. There is none below depth 64.
    pub fn child(&self, b: u8) -> Option<NodeId>
        requires { b < 16 }
        ensures none { IsNone result ↔ (length self.now ≡ 64) }
        ensures below { IfSome result (λ path. path ≡ self.now ++ b ∷ []) }
    {
        if self.depth == 64 {
            return None;
        }
        let mut id = self.id;
        set_nibble(&mut id, self.depth, b);
        Some(NodeId {
            depth: self.depth + 1,
            id,
        })
    }

    /// Whether the place lies on the way to the key.
    pub fn holds(&self, key: &[u8; 32]) -> bool
        ensures { result ≡ lies_under self.now key.now }
    {
        head_of(key, self.depth) == self.id
    }

    /// The ID as it is sent, rippled's `getRawString`: the 32 bytes, and then the depth.
    pub fn to_wire(&self) -> [u8; 33]
        ensures { result ≡ id_wire self.now }
    {
        let mut wire = [0; 33];
        wire[..32].copy_from_slice(&self.id);
        wire[32] = self.depth;
        wire
    }

    /// The ID that was sent as these bytes, rippled's `deserializeSHAMapNodeID`, or the first thing that is wrong with them.
    pub fn from_wire(bytes: &[u8]) -> Result<NodeId, IdFault>
        ensures exact { result ≡ read_wire_id bytes.now }

        // each of `to_wire` and `from_wire` undoes the other
        ensures ok { IfOk result (λ path. bytes.now ≡ id_wire path) }
        ensures back { (path : List ℕ) → IsPath path → bytes.now ≡ id_wire path → result ≡ Ok path }
    {
        if bytes.len() != 33 {
            return Err(IdFault::Length(bytes.len()));
        }
        let mut id = [0; 32];
        id.copy_from_slice(&bytes[..32]);
        NodeId::of_parts(&id, bytes[32])
    }

    // The ID of 32 bytes and a depth.
    fn of_parts(id: &[u8; 32], depth: u8) -> Result<NodeId, IdFault>
        ensures { result ≡ read_id id.now depth }
    {
        if depth > 64 {
            return Err(IdFault::Depth(depth));
        }
        match first_set(id, depth) {
            None => Ok(NodeId { depth, id: *id }),
            Some(i) => Err(IdFault::Tail(i)),
        }
    }

    /// For proofs: a path has at most 64 nibbles, each below 16. The call changes nothing.
    pub fn known(&self)
        ensures { IsPath self.now }
    {
        known_small(&self.id);
    }
}

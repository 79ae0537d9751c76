//! An item, a leaf's head and an inner node, with the fact that each of them keeps.
ghost use Rattle.std.specs.Prelude.{◌≡◌, ◌==◌, ◌<◌, ◌≤◌, [], if◌then◌else◌, length, count_by, IsTrue, MatchOption, MatchResult, None, Some};
ghost use Rattle.std.specs.Option.{option_map};
ghost use Rattle.std.specs.List.{list_all, list_any, slice_index_or};
ghost use Rattle.half_hash.specs.Zero.{zero_hash, is_zero as all_zero, is_nonzero};
ghost use Rattle.ledger_spec.specs.Forms.{leaf, IsItem, IsInner};

use half_hash::{Blob, Hash32};
use ledger_spec::Kind;
use thiserror::Error;

/// The most bytes of an item's data.
pub const DATA_LIMIT: usize = 1_048_576;

/// A key that isn't zero, with data of 0 to 1,048,576 bytes.
#[derive(Debug, Drop)]
pub struct Item {
    key: Hash32,
    value: Blob,
    ghost valid: { IsItem key value },
}

/// Why a key and data are no item.
#[derive(Clone, Copy, Debug, PartialEq, Eq, Error)]
pub enum ItemFault {
    /// The key is zero.
    #[error("the key is zero")]
    ZeroKey,
    /// The data has this many bytes, more than the limit.
    #[error("the data is too long")]
    TooLong(usize),
}

impl Item {
    ghost use Rattle.shamap_node.specs.Items.{Keeps, HasItemCause};

    /// The item of this key and data. A zero key is refused, and else data that is too long.
    pub fn new(key: Hash32, value: Blob) -> Result<Item, ItemFault>
        ensures { MatchResult result (λ item. Keeps item key value) (HasItemCause key value) }
    {
        if key.is_zero() {
            return Err(ItemFault::ZeroKey);
        }
        let size = value.bytes().len();
        if size > DATA_LIMIT {
            return Err(ItemFault::TooLong(size));
        }
        key.known();
        Ok(Item { key, value })
    }

    // The item of a key and data that are known to make one.
    pub(crate) fn of_parts(key: Hash32, value: Blob) -> Item
        requires { IsItem key value }
        ensures { Keeps result key value }
    {
        Item { key, value }
    }

    /// The key.
    pub fn key(&self) -> &Hash32
        ensures { result.now ≡ self.now.key }
    {
        &self.key
    }

    /// The data.
    pub fn data(&self) -> &[u8]
        ensures { result.now ≡ self.now.value }
    {
        self.value.bytes()
    }
}

/// The kind of a leaf, and its key, which isn't zero.
#[derive(Clone, Copy, Debug)]
pub struct LeafHead {
    kind: Kind,
    key: Hash32,
    ghost valid: { IsTrue (is_nonzero key) },
}

impl LeafHead {
    ghost use Rattle.shamap_node.specs.Heads.{held_head};

    // The head of a leaf of this kind with this key, or none where the key is zero.
    pub(crate) fn new(kind: Kind, key: Hash32) -> Option<LeafHead>
        ensures { option_map held_head result ≡ (if is_nonzero key then Some (leaf kind key []) else None) }
    {
        if key.is_zero() {
            return None;
        }
        Some(LeafHead { kind, key })
    }

    /// The kind.
    pub fn kind(&self) -> Kind
        ensures { result ≡ self.now.kind }
    {
        self.kind
    }

    /// The key.
    pub fn key(&self) -> Hash32
        ensures key { result ≡ self.now.key }
        ensures nonzero { IsTrue (is_nonzero result) }
    {
        self.key
    }
}

/// Sixteen branches, at least one of them not empty.
#[derive(Clone, Copy, Debug)]
pub struct Inner {
    hashes: [Hash32; 16],
    ghost valid: { IsInner hashes },
}

impl Inner {
    /// The inner node with these branches, or none where all sixteen are zero.
    pub fn new(hashes: [Hash32; 16]) -> Option<Inner>
        ensures { MatchOption result (IsTrue (list_all all_zero hashes))
            (λ inner. (inner.hashes ≡ hashes) × IsTrue (list_any is_nonzero hashes)) }
    {
        if !has_branch(&hashes) {
            return None;
        }
        known_sizes(&hashes);
        Some(Inner { hashes })
    }

    /// The hashes at the sixteen branches.
    pub fn hashes(&self) -> &[Hash32; 16]
        ensures { result.now ≡ self.now.hashes }
    {
        &self.hashes
    }

    /// The hash at a branch; zero where the branch is empty.
    pub fn branch(&self, b: u8) -> Hash32
        requires { b < 16 }
        ensures { result ≡ slice_index_or self.now.hashes b zero_hash }
    {
        self.hashes[b as usize]
    }

    /// The number of branches that are not empty.
    pub fn count(&self) -> u8
        ensures number { result ≡ count_by is_nonzero self.now.hashes }
        ensures most { result ≤ 16 }
    {
        nonzero_count(&self.hashes) as u8
    }

    /// Whether one branch alone is not empty. No branch behind a second such is read.
    pub fn has_one_branch(&self) -> bool
        ensures { result ≡ (count_by is_nonzero self.now.hashes == 1) }
    {
        one_nonzero(&self.hashes)
    }
}

// Whether some hash is not zero.
fn has_branch(hashes: &[Hash32]) -> bool
    ensures { result ≡ list_any is_nonzero hashes.now }
{
    hashes.iter().any(|h| !h.is_zero())
}

// The number of hashes that are not zero.
fn nonzero_count(hashes: &[Hash32]) -> usize
    ensures number { result ≡ count_by is_nonzero hashes.now }
    ensures most { result ≤ length hashes.now }
{
    hashes.iter().filter(|h| !h.is_zero()).count()
}

// Whether one hash alone is not zero.
fn one_nonzero(hashes: &[Hash32]) -> bool
    ensures { result ≡ (count_by is_nonzero hashes.now == 1) }
{
    let mut found = false;
    for h in hashes {
        if !h.is_zero() {
            if found {
                return false;
            }
            found = true;
        }
    }
    found
}

// For proofs: each hash has 32 bytes.
fn known_sizes(hashes: &[Hash32])
    ensures { IsTrue (list_all (λ h. length h == 32) hashes.now) }
{
    for h in hashes {
        h.known();
    }
}

//! Prefix forms: written, read and hashed.
ghost use Rattle.std.specs.Prelude.{◌≡◌, ◌≢◌, ◌++◌, ◌+◌, ◌-◌, ◌<◌, ◌≤◌, length, take, drop, IfErr, IfOk, IsTrue, MatchResult, None};
ghost use Rattle.std.specs.Prelude.{OnOk, Some};
ghost use Rattle.std.specs.List.{concat, list_any, slice_index_or};
ghost use Rattle.std.specs.Option.{is_some, option_map};
ghost use Rattle.std.specs.Int.{w32, from_be_bytes};
ghost use Rattle.half_hash.specs.Zero.{zero_hash, is_nonzero};
ghost use Rattle.ledger_spec.specs.Bytes.{hashes_of};
ghost use Rattle.ledger_spec.specs.Forms.{Held, IsItem, IsInner, Form, form_of, inner_of as inner_hashes_of};
ghost use Rattle.ledger_spec.specs.Forms as spec;
ghost use Rattle.shamap_node.specs.Nodes.{held};
ghost use Rattle.shamap_node.specs.Causes.{leaf_cause, keyed_cause, inner_cause, form_cause};
ghost use Rattle.shamap_node.specs.Laws.{is_node, OneForm, HeldByForm};
ghost use Rattle.shamap_node.specs.Reading.{ReadsHeld};
ghost use Rattle.shamap_node.specs.declared.forms.FormFault.TheVariants as faults;

use crate::making::{inner_form, key_part, leaf_form};
use crate::{DATA_LIMIT, Inner, Item, Kind, Leaf, Node};
use half_hash::{Blob, Hash32, Memory, NodeHash, Prefix};
use std::alloc::Global;
use thiserror::Error;

/// Why bytes are no prefix form of a node.
#[derive(Clone, Copy, Debug, PartialEq, Eq, Error)]
pub enum FormFault {
    /// There are only this many bytes, fewer than a prefix has.
    #[error("shorter than a prefix")]
    Short(usize),
    /// The first four bytes, as a number with the high byte first, are no node's prefix.
    #[error("no node's prefix")]
    Prefix(u32),
    /// An inner node's prefix, and this many bytes in all, not 516.
    #[error("an inner node is not 516 bytes long")]
    InnerLength(usize),
    /// An inner node with no branch that is not empty.
    #[error("an inner node has no branch")]
    EmptyInner,
    /// The prefix of a leaf with its key behind its data, and this many bytes in all, fewer than 36.
    #[error("a leaf is shorter than its prefix and key")]
    LeafShort(usize),
    /// A leaf whose key is zero.
    #[error("a leaf's key is zero")]
    ZeroKey,
    /// A leaf with this many bytes of data, more than the limit.
    #[error("a leaf's data is too long")]
    TooLong(usize),
    /// Memory was refused.
    #[error("memory was refused")]
    Memory,
}

impl From<Memory> for FormFault {
    ghost from_gives = { λ _ fault. fault ≡ faults.Memory };

    fn from(_: Memory) -> FormFault {
        FormFault::Memory
    }
}

// The sixteen hashes, joined.
fn body_of(inner: &Inner) -> [u8; 512]
    ensures { result ≡ concat inner.now.hashes }
{
    let mut body = [0; 512];
    for b in 0..16u8 {
        let at = b as usize * 32;
        body[at..at + 32].copy_from_slice(&inner.branch(b).bytes);
    }
    body
}

/// The prefix form of a node: `MIN\0` and the sixteen hashes of an inner node, 516 bytes; `MLN\0`,
/// data and key of an account state; `SND\0`, data and key of a transaction with metadata; `TXN\0`
/// and data of a bare transaction.
pub fn encode_form(alloc: Global, node: &Node) -> Result<Blob, Memory>
    ensures { IfOk result (λ blob. blob ≡ form_of (held node.now)) }
{
    match node {
        Node::Inner(inner) => Ok(inner_form(alloc, inner.hashes())?),
        Node::Leaf(leaf) => Ok(leaf_form(alloc, leaf.kind, &leaf.item)?),
    }
}

/// The hash of a node: that of its prefix form. It takes no memory.
pub fn hash_of<H: NodeHash>(node: &Node) -> Hash32
    ensures { result ≡ spec.hash_of H.half (held node.now) }
{
    match node {
        Node::Inner(inner) => H::half_parts(&Prefix::Min.bytes(), &body_of(inner), &[]),
        Node::Leaf(leaf) => H::half_parts(
            &leaf.kind.prefix().bytes(),
            leaf.item.data(),
            key_part(leaf.kind, &leaf.item),
        ),
    }
}

// The sixteen hashes that are joined here.
fn hashes_in(body: &[u8]) -> [Hash32; 16]
    requires { length body.now ≡ 512 }
    ensures { result ≡ hashes_of 16 body.now }
{
    let mut hashes = [Hash32::zero(); 16];
    let mut rest = body;
    for b in 0..16usize {
        let (front, back) = rest.split_at(32);
        hashes[b] = Hash32::from_slice(front);
        rest = back;
    }
    hashes
}

/// The inner node whose prefix form the bytes are, or none. It takes no memory.
pub fn inner_of(form: &[u8]) -> Option<Inner>
    ensures { option_map (λ inner. inner.hashes) result ≡ inner_hashes_of form.now }
{
    if form.len() != 516 || !Prefix::Min.begins(form) {
        return None;
    }
    let (_prefix, body) = form.split_at(4);
    Inner::new(hashes_in(body))
}

/// Whether the bytes are an inner node's prefix form.
pub fn is_inner_form(form: &[u8]) -> bool
    ensures { result ≡ is_some (inner_hashes_of form.now) }
{
    if form.len() != 516 || !Prefix::Min.begins(form) {
        return false;
    }
    let (_prefix, body) = form.split_at(4);
    has_branch(body)
}

// Whether one of the sixteen hashes that are joined here is not zero.
fn has_branch(body: &[u8]) -> bool
    requires { length body.now ≡ 512 }
    ensures { result ≡ list_any is_nonzero (hashes_of 16 body.now) }
{
    for b in 0..16usize {
        if !hash_at(body, 32 * b).is_zero() {
            return true;
        }
    }
    false
}

// The 32 bytes from this place on.
fn hash_at(bytes: &[u8], at: usize) -> Hash32
    requires { at + 32 ≤ length bytes.now }
    ensures { result ≡ take 32 (drop at bytes.now) }
{
    let (_before, rest) = bytes.split_at(at);
    let (piece, _behind) = rest.split_at(32);
    Hash32::from_slice(piece)
}

/// The hash at a branch of the inner node whose prefix form the bytes are, read in place; zero where the branch is empty.
pub fn inner_branch(form: &[u8], b: u8) -> Hash32
    requires branch { b < 16 }
    requires inner { IsTrue (is_some (inner_hashes_of form.now)) }
    ensures { Some result ≡ option_map (λ hashes. slice_index_or hashes b zero_hash) (inner_hashes_of form.now) }
{
    hash_at(form, 4 + 32 * b as usize)
}

/// The hash at a branch of the inner node whose prefix form the bytes are, read in place, or none where they are no such form.
pub fn branch_of_form(form: &[u8], b: u8) -> Option<Hash32>
    requires { b < 16 }
    ensures { result ≡ option_map (λ hashes. slice_index_or hashes b zero_hash) (inner_hashes_of form.now) }
{
    if is_inner_form(form) {
        Some(inner_branch(form, b))
    } else {
        None
    }
}

// The item of a key and data, or why they are none.
fn item_from(alloc: Global, key: Hash32, bytes: &[u8]) -> Result<Item, FormFault>
    ensures item { IfOk result (λ item. IsItem item.key item.value × (item.key ≡ key) × (item.value ≡ bytes.now)) }
    ensures cause { IfErr result (λ fault. fault ≢ faults.Memory → leaf_cause (length bytes.now) key ≡ Some fault) }
{
    if bytes.len() > DATA_LIMIT {
        return Err(FormFault::TooLong(bytes.len()));
    }
    if key.is_zero() {
        return Err(FormFault::ZeroKey);
    }
    key.known();
    let value = Blob::from_slice(alloc, bytes)?;
    Ok(Item::of_parts(key, value))
}

// The item of a leaf whose key stands behind its data.
fn keyed_item(alloc: Global, form: &[u8]) -> Result<Item, FormFault>
    ensures item { IfOk result (λ item. IsItem item.key item.value × (drop 4 form.now ≡ item.value ++ item.key)) }
    ensures cause { IfErr result (λ fault. fault ≢ faults.Memory → keyed_cause form.now ≡ Some fault) }
{
    if form.len() < 36 {
        return Err(FormFault::LeafShort(form.len()));
    }
    let (front, key) = form.split_at(form.len() - 32);
    let (_prefix, data) = front.split_at(4);
    Ok(item_from(alloc, Hash32::from_slice(key), data)?)
}

// The item of a bare transaction.
fn bare_item<H: NodeHash>(alloc: Global, form: &[u8]) -> Result<Item, FormFault>
    requires { 4 ≤ length form.now }
    ensures item { IfOk result (λ item. IsItem item.key item.value × (item.key ≡ H.half form.now) × (item.value ≡ drop 4 form.now)) }
    ensures cause { IfErr result (λ fault. fault ≢ faults.Memory → leaf_cause (length form.now - 4) (H.half form.now) ≡ Some fault) }
{
    let (_prefix, data) = form.split_at(4);
    Ok(item_from(alloc, H::half(form), data)?)
}

// The inner node behind an inner node's prefix.
fn inner_behind(form: &[u8]) -> Result<Inner, FormFault>
    ensures inner { IfOk result (λ inner. IsInner inner.hashes × (drop 4 form.now ≡ concat inner.hashes)) }
    ensures cause { IfErr result (λ fault. inner_cause form.now ≡ Some fault) }
{
    if form.len() != 516 {
        return Err(FormFault::InnerLength(form.len()));
    }
    let (_prefix, body) = form.split_at(4);
    match Inner::new(hashes_in(body)) {
        Some(inner) => Ok(inner),
        None => Err(FormFault::EmptyInner),
    }
}

// The first four bytes as a number, the high byte first.
fn first_word(bytes: &[u8]) -> u32
    requires { 4 ≤ length bytes.now }
    ensures { result ≡ from_be_bytes w32 (take 4 bytes.now) }
{
    let (front, _rest) = bytes.split_at(4);
    let mut word = [0; 4];
    word.copy_from_slice(front);
    u32::from_be_bytes(word)
}

// The same as `decode_form`, by the prefix.
fn node_from<H: NodeHash>(alloc: Global, bytes: &[u8]) -> Result<Node, FormFault>
    ensures form { IfOk result (λ node. Form H.half (held node) bytes.now) }
    ensures cause { IfErr result (λ fault. fault ≢ faults.Memory → form_cause H.half bytes.now ≡ Some fault) }
{
    if bytes.len() < 4 {
        return Err(FormFault::Short(bytes.len()));
    }
    if Prefix::Min.begins(bytes) {
        return Ok(Node::Inner(inner_behind(bytes)?));
    }
    if Prefix::Mln.begins(bytes) {
        let item = keyed_item(alloc, bytes)?;
        return Ok(Node::Leaf(Leaf {
            kind: Kind::State,
            item,
        }));
    }
    if Prefix::Snd.begins(bytes) {
        let item = keyed_item(alloc, bytes)?;
        return Ok(Node::Leaf(Leaf {
            kind: Kind::Tx,
            item,
        }));
    }
    if Prefix::Txn.begins(bytes) {
        let item = bare_item::<H>(alloc, bytes)?;
        return Ok(Node::Leaf(Leaf {
            kind: Kind::Set,
            item,
        }));
    }
    Err(FormFault::Prefix(first_word(bytes)))
}

/// The node whose prefix form the bytes are, or the first thing that is wrong with them: fewer than
/// four bytes, an unknown prefix, and then by the prefix an inner node's length and that it has a
/// branch, or a leaf's length, that its data is not too long, and that its key is not zero.
pub fn decode_form<H: NodeHash>(alloc: Global, bytes: &[u8]) -> Result<Node, FormFault>
    ensures form { IfOk result (λ node. Form H.half (held node) bytes.now) }
    ensures fits { OnOk result (form_cause H.half bytes.now ≡ None) }
    ensures cause { IfErr result (λ fault. fault ≢ faults.Memory → form_cause H.half bytes.now ≡ Some fault) }

    // a node's form is read as that node, if there is memory
    ensures back { (n : Held) → IsTrue (is_node n) → Form H.half n bytes.now
        → MatchResult result (λ node. held node ≡ n) (λ fault. fault ≡ faults.Memory) }

    // the same as what the bytes hold
    ensures held { ReadsHeld H.half bytes.now result }
{
    node_from::<H>(alloc, bytes)
}

/// For proofs: bytes are the prefix form of at most one node or header, the one that they hold. It does
/// nothing.
pub fn one_form()
    ensures one { OneForm }
    ensures held { HeldByForm }
{}

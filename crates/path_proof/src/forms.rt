//! The node that bytes under a hash stand for. It is given that hash, and hashes nothing: bytes of another hash, and bytes that are no
//! form, are read as not held.
ghost use Rattle.std.specs.Prelude.{◌≡◌, ◌≢◌, ◌++◌, nat_eq, drop, false, true, IfErr, IfOk, IfSome, is_some, IsTrue, ℕ, List, None, Some};
ghost use Rattle.std.specs.List.{starts_with};
ghost use Rattle.ledger_spec.specs.declared.Kind.TheVariants as kinds;
ghost use Rattle.ledger_spec.specs.Findings.{held_of};
ghost use Rattle.ledger_spec.specs.Forms.{Form, IsItem, hash_of, header_of, leaf_prefix};
ghost use Rattle.ledger_spec.specs.Own.{own_form};
ghost use Rattle.shamap_node.specs.Laws.{is_no_node};
ghost use Rattle.shamap_node.specs.Nodes.{held};
ghost use Rattle.shamap_node.specs.declared.forms.FormFault.TheVariants as faults;
ghost use Rattle.path_proof.specs.Sources.{Gives};

use crate::FetchFault;
use half_hash::{Blob, Half512, Hash32, Prefix};
use ledger_header::Header;
use shamap_node::{FormFault, Item, ItemFault, Kind, Leaf, Node, decode_form};
use std::alloc::Global;
use std::sync::Arc;

/// The node whose form the bytes are, where their hash, `own`, is the one under which they stand. Other bytes, and bytes that are no
/// form, are read as not held.
pub fn node_of_form(
    alloc: Global,
    h: &Hash32,
    own: &Hash32,
    form: &[u8],
) -> Result<Option<Arc<Node>>, FetchFault>
    ensures hash { (half : List ℕ → List ℕ) → half form.now ≡ own.now
        → IfOk result (λ o. IfSome o (λ node. hash_of half (held node.value) ≡ h.now)) }
    ensures exact { (half : List ℕ → List ℕ) → half form.now ≡ own.now → Gives half (own_form half h.now (Some form.now)) result }
    ensures cause { IfErr result (λ fault. fault ≢ FetchFault.Fault) }
{
    if !own.equals(h) {
        return Ok(None);
    }
    if let Some(leaf) = keyed_leaf(alloc, form)? {
        return Ok(Some(leaf));
    }
    other_node(alloc, own, form)
}

// The leaf whose form the bytes are, if its key stands behind its data. It is made where it is shared: a node has room for sixteen
// hashes, so that one that is handed from call to call is copied at each.
fn keyed_leaf(alloc: Global, form: &[u8]) -> Result<Option<Arc<Node>>, FetchFault>
    ensures form { (half : List ℕ → List ℕ) → IfOk result (λ o. IfSome o (λ node. Form half (held node.value) form.now)) }
    ensures memory { IfErr result (λ fault. fault ≡ FetchFault.Memory) }
{
    if Prefix::Mln.begins(form) {
        return leaf_of_kind(alloc, Kind::State, form);
    }
    if Prefix::Snd.begins(form) {
        return leaf_of_kind(alloc, Kind::Tx, form);
    }
    Ok(None)
}

// The same, by the kind that the prefix says.
fn leaf_of_kind(alloc: Global, kind: Kind, form: &[u8]) -> Result<Option<Arc<Node>>, FetchFault>
    requires keyed { kind ≢ Kind.Set }
    requires prefix { starts_with nat_eq form.now (leaf_prefix kind) ≡ true }
    ensures form { (half : List ℕ → List ℕ) → IfOk result (λ o. IfSome o (λ node. Form half (held node.value) form.now)) }
    ensures memory { IfErr result (λ fault. fault ≡ FetchFault.Memory) }
{
    let Some(item) = keyed_item(alloc, form)? else {
        return Ok(None);
    };
    match Arc::new(alloc, Node::Leaf(Leaf { kind, item })) {
        Ok(node) => Ok(Some(node)),
        Err(_) => Err(FetchFault::Memory),
    }
}

// The item of a leaf whose key stands behind its data, if it is one.
fn keyed_item(alloc: Global, form: &[u8]) -> Result<Option<Item>, FetchFault>
    ensures item { IfOk result (λ o. IfSome o (λ item. IsItem item.key item.value × (drop 4 form.now ≡ item.value ++ item.key))) }
    ensures memory { IfErr result (λ fault. fault ≡ FetchFault.Memory) }
{
    if form.len() < 36 {
        return Ok(None);
    }
    let (front, key) = form.split_at(form.len() - 32);
    let (_prefix, data) = front.split_at(4);
    let Ok(value) = Blob::from_slice(alloc, data) else {
        return Err(FetchFault::Memory);
    };
    match Item::new(Hash32::from_slice(key), value) {
        Ok(item) => Ok(Some(item)),
        Err(_) => Ok(None),
    }
}

// The same as `node_of_form`, for any bytes under their hash.
fn other_node(alloc: Global, own: &Hash32, form: &[u8]) -> Result<Option<Arc<Node>>, FetchFault>
    ensures hash { (half : List ℕ → List ℕ) → half form.now ≡ own.now
        → IfOk result (λ o. IfSome o (λ node. hash_of half (held node.value) ≡ own.now)) }
    ensures exact { (half : List ℕ → List ℕ) → half form.now ≡ own.now → Gives half (own_form half own.now (Some form.now)) result }
    ensures cause { IfErr result (λ fault. fault ≢ FetchFault.Fault) }
{
    match decode_under(alloc, own, form) {
        Ok(node) => Ok(Some(shared(alloc, node)?)),
        Err(FormFault::Memory) => Err(FetchFault::Memory),
        Err(_) => not_a_node(form),
    }
}

// The node whose form the bytes are, where `own` is their hash. Only a bare transaction's node depends on it.
fn decode_under(alloc: Global, own: &Hash32, form: &[u8]) -> Result<Node, FormFault>
    ensures form { (half : List ℕ → List ℕ) → half form.now ≡ own.now → IfOk result (λ node. Form half (held node) form.now) }
    ensures none { (half : List ℕ → List ℕ) → half form.now ≡ own.now
        → IfErr result (λ fault. fault ≢ faults.Memory → IsTrue (is_no_node (held_of half form.now))) }
{
    if is_bare(form) {
        return bare_under(alloc, own, form);
    }
    decode_form::<Half512>(alloc, form)
}

// Whether the bytes begin as a bare transaction's form.
fn is_bare(form: &[u8]) -> bool
    ensures { result ≡ starts_with nat_eq form.now (leaf_prefix kinds.Set) }
{
    Kind::Set.prefix().begins(form)
}

// The bare transaction whose form the bytes are.
fn bare_under(alloc: Global, own: &Hash32, form: &[u8]) -> Result<Node, FormFault>
    requires { starts_with nat_eq form.now (leaf_prefix kinds.Set) ≡ true }
    ensures form { (half : List ℕ → List ℕ) → half form.now ≡ own.now → IfOk result (λ node. Form half (held node) form.now) }
    ensures none { (half : List ℕ → List ℕ) → half form.now ≡ own.now
        → IfErr result (λ fault. fault ≢ faults.Memory → IsTrue (is_no_node (held_of half form.now))) }
{
    let (_prefix, data) = form.split_at(4);
    let value = Blob::from_slice(alloc, data)?;
    match Item::new(*own, value) {
        Ok(item) => Ok(Node::Leaf(Leaf {
            kind: Kind::Set,
            item,
        })),
        Err(ItemFault::ZeroKey) => Err(FormFault::ZeroKey),
        Err(ItemFault::TooLong(size)) => Err(FormFault::TooLong(size)),
    }
}

// The node, to be shared.
fn shared(alloc: Global, node: Node) -> Result<Arc<Node>, FetchFault>
    ensures same { IfOk result (λ a. a.value ≡ node) }
    ensures memory { IfErr result (λ fault. fault ≡ FetchFault.Memory) }
{
    match Arc::new(alloc, node) {
        Ok(node) => Ok(node),
        Err(_) => Err(FetchFault::Memory),
    }
}

// What is held where bytes are no node's form: a header, or nothing.
fn not_a_node(form: &[u8]) -> Result<Option<Arc<Node>>, FetchFault>
    ensures header { IfErr result (λ fault. (fault ≡ FetchFault.Foreign) × IsTrue (is_some (header_of form.now))) }
    ensures none { IfOk result (λ o. (o ≡ None) × (header_of form.now ≡ None)) }
{
    if Header::from_form(form).is_some() {
        return Err(FetchFault::Foreign);
    }
    Ok(None)
}

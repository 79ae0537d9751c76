//! The nodes of a map of links, with the hashes of their links from a list that has them by their places.
ghost use Rattle.std.specs.Prelude.{◌≡◌, ◌<◌, ℕ, List, map, length, Some, IfOk, true};
ghost use Rattle.std.specs.List.{slice_get, slice_index_or};
ghost use Rattle.ledger_spec.specs.declared.Kind.{Kind as KindOf};
ghost use Rattle.ledger_spec.specs.Bytes.{Half, same_bytes};
ghost use Rattle.ledger_spec.specs.Forms.{form_of};
ghost use Rattle.ledger_spec.specs.Forms as held;
ghost use Rattle.ledger_spec.specs.Wire.{wire_of};
ghost use Rattle.cow_map.specs.Bodies.{Body};
ghost use Rattle.cow_map.specs.declared.link.Link.TheVariants.{Empty as empty_link};
ghost use Rattle.map_changes.specs.Tracking.{place_of, link_hash, node_at, kid_at, AreHashes, IsKnown, KnowsKids, HaveTwoHashes};

use cow_map::{Cow, CowMap, Link, Links};
use half_hash::{Blob, Hash32, Memory, Prefix};
use node_wire::{encode_wire, leaf_wire};
use shamap_node::{Inner, Node, inner_form, leaf_form};
use std::alloc::Global;

/// The type byte of a compressed inner node's wire form.
const CHUNKS_TYPE: u8 = 3;

/// The place in the list of nodes to which a link leads.
pub(crate) fn place(link: &Link) -> Option<usize>
    ensures { result ≡ place_of link.now }
{
    match link {
        Link::Own(at) => Some(*at),
        _ => None,
    }
}

/// Where a branch of the node at a place leads.
pub(crate) fn kid(map: &CowMap, at: usize, b: u8) -> Option<usize>
    requires { b < 16 }
    ensures { result ≡ kid_at map.now.nodes at b }
{
    match map.node(at) {
        Some(Cow::Inner(links)) => place(&links.get(b)),
        _ => None,
    }
}

/// The hash of the node at a place. One that isn't known is answered as want of memory; nodes are hashed
/// before they are asked for.
pub(crate) fn known(hashes: &[Option<Hash32>], at: usize) -> Result<Hash32, Memory>
    ensures { IfOk result (λ h. slice_get hashes.now at ≡ Some (Some h)) }
{
    match hashes.get(at) {
        Some(Some(hash)) => Ok(*hash),
        _ => Err(Memory),
    }
}

/// The hash that a link stands for.
fn hash_in(hashes: &[Option<Hash32>], link: &Link) -> Result<Hash32, Memory>
    ensures hash { IfOk result (λ h. (half : Half) (kind : KindOf) (nodes : List Body) →
        AreHashes half kind nodes hashes.now → h ≡ link_hash half kind nodes link.now) }
    ensures known { IfOk result (λ _. (i : ℕ) → place_of link.now ≡ Some i → IsKnown hashes.now i) }
{
    match link {
        Link::Empty => Ok(Hash32::zero()),
        Link::Unloaded(hash) => Ok(*hash),
        Link::Own(at) => Ok(known(hashes, *at)?),
    }
}

/// The hashes of an inner node's links.
fn hashes_below(hashes: &[Option<Hash32>], links: &Links) -> Result<[Hash32; 16], Memory>
    requires { length links.now ≡ 16 }
    ensures hashes { IfOk result (λ below. (half : Half) (kind : KindOf) (nodes : List Body) →
        AreHashes half kind nodes hashes.now → below ≡ map (link_hash half kind nodes) links.now) }
    ensures known { IfOk result (λ _. (b : ℕ) → b < 16 → (i : ℕ) → place_of (slice_index_or links.now b empty_link) ≡ Some i
        → IsKnown hashes.now i) }
{
    let mut below = [Hash32::zero(); 16];
    for b in 0..16u8 {
        below[b as usize] = hash_in(hashes, &links.get(b))?;
    }
    Ok(below)
}

/// The form of the node at a place; where there is none, that of a header without bytes.
pub(crate) fn form(
    alloc: Global,
    map: &CowMap,
    hashes: &[Option<Hash32>],
    at: usize,
) -> Result<Blob, Memory>
    ensures form { IfOk result (λ form. (half : Half) → AreHashes half map.now.kind map.now.nodes hashes.now →
        form ≡ form_of (node_at half map.now.kind map.now.nodes at)) }

    // without the hashes below the node there is no form
    ensures kids { IfOk result (λ _. KnowsKids map.now.nodes hashes.now at) }
{
    map.known();
    match map.node(at) {
        Some(Cow::Inner(links)) => {
            let below = hashes_below(hashes, links)?;
            Ok(inner_form(alloc, &below)?)
        }
        Some(Cow::Leaf(item)) => Ok(leaf_form(alloc, map.kind(), item)?),
        None => Ok(Blob::from_slice(alloc, &Prefix::Lwr.bytes())?),
    }
}

/// The wire form that is written of an inner node.
fn inner_wire(alloc: Global, below: [Hash32; 16]) -> Result<Blob, Memory>
    ensures { IfOk result (λ blob. blob ≡ wire_of (held.inner below)) }
{
    match Inner::new(below) {
        Some(inner) => Ok(encode_wire(alloc, &Node::Inner(inner))?),
        // where all hashes are zero there is no chunk
        None => Ok(Blob::from_slice(alloc, &[CHUNKS_TYPE])?),
    }
}

/// The wire form that is written of the node at a place; where there is none, no bytes.
pub(crate) fn wire(
    alloc: Global,
    map: &CowMap,
    hashes: &[Option<Hash32>],
    at: usize,
) -> Result<Blob, Memory>
    ensures { IfOk result (λ blob. (half : Half) → AreHashes half map.now.kind map.now.nodes hashes.now →
        blob ≡ wire_of (node_at half map.now.kind map.now.nodes at)) }
{
    map.known();
    match map.node(at) {
        Some(Cow::Inner(links)) => {
            let below = hashes_below(hashes, links)?;
            Ok(inner_wire(alloc, below)?)
        }
        Some(Cow::Leaf(item)) => Ok(leaf_wire(alloc, map.kind(), item)?),
        None => Ok(Blob::new(Vec::new(alloc))),
    }
}

// Whether the nodes at two places have two hashes.
fn have_two_hashes(hashes: &[Option<Hash32>], at: usize, other: usize) -> Result<bool, Memory>
    ensures { IfOk result (λ two. two ≡ true → HaveTwoHashes hashes.now at other) }
{
    let own = known(hashes, at)?;
    let others = known(hashes, other)?;
    Ok(!own.equals(&others))
}

/// Whether the nodes at two places have one form. Where their hashes are two, no form is made.
pub(crate) fn have_one_form(
    alloc: Global,
    map: &CowMap,
    hashes: &[Option<Hash32>],
    at: usize,
    other: usize,
) -> Result<bool, Memory>
    ensures { IfOk result (λ same. (half : Half) → AreHashes half map.now.kind map.now.nodes hashes.now →
        same ≡ same_bytes (form_of (node_at half map.now.kind map.now.nodes at))
        (form_of (node_at half map.now.kind map.now.nodes other))) }
{
    map.known();
    let two = have_two_hashes(hashes, at, other)?;
    if two {
        return Ok(false);
    }
    let own = form(alloc, map, hashes, at)?;
    let others = form(alloc, map, hashes, other)?;
    Ok(own.bytes() == others.bytes())
}

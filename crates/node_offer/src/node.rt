//! A node that a peer offers for a place: its bytes are read, its place is found, and where it is the node that is wanted there it is
//! stored.
ghost use Rattle.std.specs.Prelude.{◌≡◌, IsTrue, IfErr, IfOk, Ok, is_some};
ghost use Rattle.std.specs.Option.{option_and_then};
ghost use Rattle.std.specs.Result.{result_err};
ghost use Rattle.std.specs.FinMap as map;
ghost use Rattle.ledger_spec.specs.Findings.{held_of};
ghost use Rattle.ledger_spec.specs.Forms.{form_of, inner_of as inner_form};
ghost use Rattle.ledger_spec.specs.Rules.{fault_of};
ghost use Rattle.ledger_spec.specs.Spots as way;
ghost use Rattle.ledger_spec.specs.Wire.{read_wire};
ghost use Rattle.shamap_node.specs.Nodes.{held};
ghost use Rattle.ledger_spec.specs.Offers.{node_outcome, stored_by};
ghost use Rattle.run_io.specs.Bytes.{Rose};
ghost use Rattle.ledger_spec.specs.Own.{AreStored};
ghost use Rattle.rotating_store.specs.Stores.{nodes_of};
ghost use Rattle.rotating_store.specs.Reading.{IsLater, IsReadable, KeepsReadable};
ghost use Rattle.node_offer.specs.Stored.{HasForms, Refuses};
ghost use Rattle.node_offer.specs.Outcomes.{numbered};
ghost use Rattle.node_offer.specs.Judging.{AnswersOffer, JudgesAt};
ghost use Rattle.node_offer.specs.Ways.{offered_as, spot_found};

use crate::fault::OfferFault;
use crate::outcome::Offered;
use crate::spots::{Block, Found, find};
use crate::store::{Stored, put};
use half_hash::{Blob, Hash32, NodeHash, known_half};
use ledger_spec::ShapeFault;
use nib_path::NodeId;
use node_backend::Shelf;
use node_wire::{WireFault, decode_wire};
use rotating_store::RotStore;
use shamap_node::{Kind, Node, encode_form, inner_of, shape};
use std::alloc::Global;

/// Judges the node that these bytes are the wire form of, offered for a place of a ledger's map, and stores its form under its hash
/// where it is the node that is wanted there, also where it breaks a rule of shape. The first of these that applies is the answer: bad
/// bytes, what stands in the way to the place, another hash than the wanted one, a clash, a node that is stored, a broken rule, good.
/// After a fault, or for want of memory, a node that would be stored may be, and nothing else. What is said of the outcome holds where
/// all that is stored are forms under their own hashes.
pub fn offer<H: NodeHash, Sh: Shelf>(
    alloc: Global,
    store: &mut RotStore<Sh>,
    target: &Hash32,
    kind: Kind,
    id: &NodeId,
    blob: &[u8],
) -> Result<Offered, OfferFault>
    ensures answers { AnswersOffer Sh.B.tells H.half (map.get (nodes_of store.old)) target.now kind id.now blob.now result }

    // a node that is good, or that breaks a rule, is stored under its hash, and nothing else changes
    ensures stored { IsTrue Sh.B.tells
        → IfOk result (λ o. HasForms H.half (stored_by (read_wire H.half blob.now) (Ok (numbered o))) store.old store.new) }
    ensures err { IsTrue Sh.B.tells → AreStored H.half (map.get (nodes_of store.old))
        → IfErr result (λ e. Refuses H.half (node_outcome H.half (map.get (nodes_of store.old)) target.now kind id.now blob.now)
        (stored_by (read_wire H.half blob.now) (node_outcome H.half (map.get (nodes_of store.old)) target.now kind id.now blob.now))
        store.old e store.new) }
    ensures store { KeepsReadable Sh.B.tells H.half OfferFault.Fault store.old store.new result }
{
    let node = match decode_wire::<H>(alloc, blob) {
        Ok(node) => node,
        Err(WireFault::Memory) => return Err(OfferFault::Memory),
        Err(fault) => return Ok(Offered::BadWire(fault)),
    };
    let found = find::<H, Sh>(alloc, store, target, kind, id)?;
    known_half::<H>();
    Ok(offer_to::<H, Sh>(alloc, store, &node, &found, kind, id)?)
}

// The same for a node, by what is found of its place.
fn offer_to<H: NodeHash, Sh: Shelf>(
    alloc: Global,
    store: &mut RotStore<Sh>,
    node: &Node,
    found: &Found,
    kind: Kind,
    id: &NodeId,
) -> Result<Offered, OfferFault>
    ensures judges { JudgesAt Sh.B.tells H.half store.old (held node.now) (spot_found found.now) kind id.now result store.new }
    ensures notes { IsTrue (is_some (held_of H.half (form_of (held node.now)))) → IsReadable Sh.B.tells H.half store.old
        → IsReadable Sh.B.tells H.half store.new }
    ensures later { IsLater store.old store.new }
    ensures fault { IfErr result (λ e. e ≡ OfferFault.Fault → Rose store.old.faults store.new.faults) }
{
    match found {
        Found::NoBase => Ok(Offered::NoBase),
        Found::Blocked(Block::NoParent(at)) => Ok(Offered::NoParent(*at)),
        Found::Blocked(Block::EmptyBranch(at)) => Ok(Offered::EmptyBranch(*at)),
        Found::Blocked(Block::UnderLeaf(at)) => Ok(Offered::UnderLeaf(*at)),
        Found::Wanted { hash, parent } => {
            Ok(offer_at::<H, Sh>(alloc, store, node, hash, parent, kind, id)?)
        }
    }
}

// The same for a node, at a place where this hash is wanted, below the inner node of this form.
fn offer_at<H: NodeHash, Sh: Shelf>(
    alloc: Global,
    store: &mut RotStore<Sh>,
    node: &Node,
    wanted: &Hash32,
    parent: &Option<Blob>,
    kind: Kind,
    id: &NodeId,
) -> Result<Offered, OfferFault>
    ensures judges { JudgesAt Sh.B.tells H.half store.old (held node.now)
        (way.wanted wanted.now (option_and_then inner_form parent.now)) kind id.now result store.new }
    ensures notes { IsTrue (is_some (held_of H.half (form_of (held node.now)))) → IsReadable Sh.B.tells H.half store.old
        → IsReadable Sh.B.tells H.half store.new }
    ensures later { IsLater store.old store.new }
    ensures fault { IfErr result (λ e. e ≡ OfferFault.Fault → Rose store.old.faults store.new.faults) }
{
    let rule = rule_broken(node, parent, kind, id);
    let form = encode_form(alloc, node)?;
    let stored = put::<H, Sh>(alloc, store, wanted, form.bytes())?;
    Ok(stored_as(stored, *wanted, rule))
}

// What became of a node that was to have this hash.
fn stored_as(stored: Stored, wanted: Hash32, rule: Option<ShapeFault>) -> Offered
    ensures { result ≡ offered_as wanted rule stored }
{
    match (stored, rule) {
        (Stored::WrongHash(found), _) => Offered::BadHash { wanted, found },
        (Stored::Same, _) => Offered::Duplicate,
        (Stored::New, None) => Offered::Good,
        (Stored::New, Some(fault)) => Offered::Malformed(fault),
    }
}

// The rule that the node breaks at its place, below the inner node of this form, which is read for a leaf alone.
fn rule_broken(node: &Node, parent: &Option<Blob>, kind: Kind, id: &NodeId) -> Option<ShapeFault>
    ensures { result ≡ fault_of (held node.now) (option_and_then inner_form parent.now) kind id.now }
{
    let judged = match node {
        Node::Inner(_) => shape(node, None, kind, id),
        Node::Leaf(_) => shape_below(node, parent, kind, id),
    };
    match judged {
        Ok(()) => None,
        Err(fault) => Some(fault),
    }
}

// Whether the node may stand at its place, below the inner node of this form.
fn shape_below(
    node: &Node,
    parent: &Option<Blob>,
    kind: Kind,
    id: &NodeId,
) -> Result<(), ShapeFault>
    ensures { result_err result ≡ fault_of (held node.now) (option_and_then inner_form parent.now) kind id.now }
{
    let Some(form) = parent else {
        return shape(node, None, kind, id);
    };
    let above = inner_of(form.bytes());
    match &above {
        None => shape(node, None, kind, id),
        Some(inner) => shape(node, Some(inner), kind, id),
    }
}

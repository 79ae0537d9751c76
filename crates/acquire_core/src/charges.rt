//! Which outcomes charge a peer: a header of another length or hash, bytes that are no wire form, and a node of another hash.
ghost use Rattle.std.specs.Prelude.{◌≡◌};
ghost use Rattle.ledger_spec.specs.Acquiring.{is_bad, is_bad_head, is_bad_root, after_outcome, after_judging};
ghost use Rattle.acquire_core.specs.Parts.{shown};

use crate::parts::Parts;
use ledger_spec::{HeadOffered, Offered};
use peer_set::PeerSet;

/// Charges the peer for each bad part of its base reply.
pub(crate) fn charge_parts(peers: &mut PeerSet, peer: u16, parts: &Parts)
    ensures { peers.new ≡ after_judging peer (shown parts.now) peers.old }
{
    charge(peers, peer, bad_head(&parts.header));
    charge(peers, peer, bad_root(&parts.state));
    charge(peers, peer, bad_root(&parts.tx));
}

/// Charges the peer for a bad node.
pub(crate) fn charge_node(peers: &mut PeerSet, peer: u16, outcome: &Offered)
    ensures { peers.new ≡ after_outcome peer (is_bad outcome.now) peers.old }
{
    charge(peers, peer, bad_node(outcome));
}

// Charges the peer where an outcome is bad and it is still present.
fn charge(peers: &mut PeerSet, peer: u16, bad: bool)
    ensures { peers.new ≡ after_outcome peer bad peers.old }
{
    if bad && peers.has(peer) {
        let _ = peers.charge(peer);
    }
}

// Whether the header's length or hash is another one.
fn bad_head(outcome: &HeadOffered) -> bool
    ensures { result ≡ is_bad_head outcome.now }
{
    matches!(
        outcome,
        HeadOffered::BadLength(_) | HeadOffered::BadHash { .. }
    )
}

// Whether the bytes are no wire form, or the node's hash isn't the wanted one.
fn bad_node(outcome: &Offered) -> bool
    ensures { result ≡ is_bad outcome.now }
{
    matches!(outcome, Offered::BadWire(_) | Offered::BadHash { .. })
}

// The same of a root, where one was given.
fn bad_root(outcome: &Option<Offered>) -> bool
    ensures { result ≡ is_bad_root outcome.now }
{
    match outcome {
        Some(outcome) => bad_node(outcome),
        None => false,
    }
}

//! An acquisition: its target, its asked sequence and its peers. What a peer offers and what a check found go in here, and the reply comes
//! out; only `base` and `node` touch a store.
ghost use Rattle.std.specs.Prelude.{◌≡◌, ◌<◌, IsTrue, IfOk, IsSome, OnErr, Ok};
ghost use Rattle.std.specs.Option.{option_copied};
ghost use Rattle.ledger_spec.specs.Bytes.{is_nonzero};
ghost use Rattle.ledger_spec.specs.Own.{AreStored};
ghost use Rattle.ledger_spec.specs.Peers.{added, after_adding, is_present, ticked, after_tick, most_ticks};
ghost use Rattle.ledger_spec.specs.Acquiring.{acquiring, after_verdict};
ghost use Rattle.rotating_store.specs.Reading.{KeepsReadable};
ghost use Rattle.missing_walk.specs.Founds.{IsFound};
ghost use Rattle.acquire_core.specs.Answers.{forms_in, Answers};
ghost use Rattle.ledger_spec.specs.Replies.{peer_said, tick_said, base_given, base_stored, node_given, node_stored, check_said};
ghost use Rattle.acquire_core.specs.Replies.{found_verdict, TakesBase, AreWanted, TakesNode, IsWanted};

use crate::charges::{charge_node, charge_parts};
use crate::parts::{take_node, take_parts};
use crate::verdict::{asked, refusal};
use half_hash::{Hash32, Memory, NodeHash};
use ledger_spec::{BaseReply, CheckReply, Kind, NodeReply, PeerReply, TickReply};
use missing_walk::Found;
use nib_path::NodeId;
use node_backend::Shelf;
use node_offer::OfferFault;
use peer_set::{Added, PeerSet, Tick};
use rotating_store::RotStore;
use std::alloc::Global;
use std::marker::Model;

/// A wanted ledger and the peers that it is acquired from. Contracts see these as a record.
#[derive(Drop)]
pub struct Acquire {
    target: Hash32,
    /// The sequence that was asked for, 0 where any will do.
    seq: u32,
    peers: PeerSet,
}

impl Model for Acquire {
    ghost use Rattle.std.specs.Prelude.{IsTrue};
    ghost use Rattle.ledger_spec.specs.Bytes.{is_nonzero};
    ghost use Rattle.ledger_spec.specs.Acquiring.{Acquiring};

    ghost Value = { Acquiring };

    ghost view = { λ a. record { target = a.target; seq = a.seq; peers = a.peers } };

    ghost invariant = { λ a. IsTrue (is_nonzero a.target) };
}

impl Acquire {
    /// An acquisition of the ledger under this hash: no peers, nothing asked, no ticks.
    pub fn new(alloc: Global, target: Hash32, seq: u32) -> Acquire
        requires { IsTrue (is_nonzero target) }
        ensures { result ≡ acquiring target seq }
    {
        Acquire {
            target,
            seq,
            peers: PeerSet::new(alloc),
        }
    }

    /// Adds a peer behind the others, unless it was added before, perhaps dropped since. Where memory is refused nothing changes.
    pub fn peer(&mut self, peer: u16) -> Result<PeerReply, Memory>
        ensures answer { IfOk result (λ r. r ≡ peer_said (added self.old.peers peer)) }
        ensures after { IfOk result (λ _. self.new ≡ record self.old { peers = after_adding self.old.peers peer }) }
        ensures err { OnErr result (self.new ≡ self.old) }
    {
        Ok(match self.peers.add(peer)? {
            Added::Added => PeerReply::Added,
            Added::Known => PeerReply::Known,
        })
    }

    /// Whether the peer is present.
    pub fn has(&self, peer: u16) -> bool
        ensures { result ≡ is_present self.now.peers peer }
    {
        self.peers.has(peer)
    }

    /// Takes a base reply of a peer that is present: a header, and the roots of its maps where they are given, each judged over what
    /// those before it left in the store. Then each bad part charges the peer once, as long as it is present. A clash in one part is the
    /// answer of the whole. A fault, a clash or want of memory charges nobody and leaves the acquisition as it was.
    pub fn base<H: NodeHash, Sh: Shelf>(
        &mut self,
        alloc: Global,
        store: &mut RotStore<Sh>,
        peer: u16,
        header: &[u8],
        state: Option<&[u8]>,
        tx: Option<&[u8]>,
    ) -> Result<BaseReply, OfferFault>
        ensures answer { IsTrue Sh.B.tells → AreStored H.half (forms_in store.old) → Answers H.half
            (base_given H.half (forms_in store.old) self.old.target self.old.peers peer header.now (option_copied state.entry)
            (option_copied tx.entry))
            (base_stored H.half (forms_in store.old) self.old.target self.old.peers peer header.now (option_copied state.entry)
            (option_copied tx.entry))
            store.old result store.new }
        ensures after { TakesBase self.old peer result self.new }

        // a header and roots that have the wanted hashes charge nobody
        ensures wanted { IsTrue Sh.B.tells → AreStored H.half (forms_in store.old) → AreWanted H.half (forms_in store.old) self.old.target
            header.now (option_copied state.entry) (option_copied tx.entry) → self.new ≡ self.old }

        // an absent peer's reply isn't looked at
        ensures unasked { result ≡ Ok BaseReply.Unasked → store.new ≡ store.old }
        ensures store { KeepsReadable Sh.B.tells H.half OfferFault.Fault store.old store.new result }
    {
        if !self.peers.has(peer) {
            return Ok(BaseReply::Unasked);
        }
        let parts = take_parts::<H, Sh>(alloc, store, &self.target, header, state, tx)?;
        charge_parts(&mut self.peers, peer, &parts);
        Ok(BaseReply::Parts {
            header: parts.header,
            state: parts.state,
            tx: parts.tx,
        })
    }

    /// Takes a node of a peer that is present. A bad one charges the peer. A fault, a clash or want of memory charges nobody.
    pub fn node<H: NodeHash, Sh: Shelf>(
        &mut self,
        alloc: Global,
        store: &mut RotStore<Sh>,
        peer: u16,
        kind: Kind,
        id: &NodeId,
        blob: &[u8],
    ) -> Result<NodeReply, OfferFault>
        ensures answer { IsTrue Sh.B.tells → AreStored H.half (forms_in store.old) → Answers H.half
            (node_given H.half (forms_in store.old) self.old.target self.old.peers peer kind id.now blob.now)
            (node_stored H.half (forms_in store.old) self.old.target self.old.peers peer kind id.now blob.now) store.old result store.new }
        ensures after { TakesNode self.old peer result self.new }

        // a node that has the wanted hash charges nobody
        ensures wanted { IsTrue Sh.B.tells → AreStored H.half (forms_in store.old)
            → IsWanted H.half (forms_in store.old) self.old.target kind id.now blob.now → self.new ≡ self.old }

        // an absent peer's node isn't looked at
        ensures unasked { result ≡ Ok NodeReply.Unasked → store.new ≡ store.old }
        ensures store { KeepsReadable Sh.B.tells H.half OfferFault.Fault store.old store.new result }
    {
        if !self.peers.has(peer) {
            return Ok(NodeReply::Unasked);
        }
        let offered = take_node::<H, Sh>(alloc, store, &self.target, kind, id, blob)?;
        charge_node(&mut self.peers, peer, &offered);
        Ok(NodeReply::One(offered))
    }

    /// Says what the acquisition comes to by what a search of its ledger found, for the floor of listed sequences. The first of these
    /// that applies is the answer: the header's sequence isn't the asked one, it has no state map, it is below the floor, a place is
    /// broken, nobody is present to be asked, places that weren't asked since the last tick go to the first peer, all were asked,
    /// nothing is missing. Where memory is refused nothing changes.
    pub fn check(&mut self, alloc: Global, found: &Found, floor: u32) -> Result<CheckReply, Memory>
        requires { IsFound found.now }
        ensures answer { IfOk result (λ r. r ≡ check_said (found_verdict self.old floor found.now)) }
        ensures after { IfOk result (λ _. self.new ≡ after_verdict self.old (found_verdict self.old floor found.now)) }

        // only a ledger whose header is stored is complete
        ensures header { IfOk result (λ r. r ≡ CheckReply.Complete → IsSome found.now.header) }
        ensures err { OnErr result (self.new ≡ self.old) }
    {
        if let Some(header) = &found.header {
            if let Some(reply) = refusal(header, self.seq, floor) {
                return Ok(reply);
            }
        }
        if let Some((place, rule)) = &found.broken {
            return Ok(CheckReply::Malformed {
                place: *place,
                rule: rule.number(),
            });
        }
        if found.missing.is_empty() {
            return Ok(CheckReply::Complete);
        }
        Ok(asked(self.peers.ask(alloc, found.missing.as_slice())?))
    }

    /// Time has passed: what was asked may be asked again. The seventh tick gives up.
    pub fn tick(&mut self) -> TickReply
        requires { self.old.peers.ticks < most_ticks }
        ensures answer { result ≡ tick_said (ticked self.old.peers) }
        ensures after { self.new ≡ record self.old { peers = after_tick self.old.peers } }
    {
        match self.peers.tick() {
            Tick::Timeout(number) => TickReply::Timeout(number),
            Tick::GaveUp(number) => TickReply::GaveUp(number),
        }
    }
}

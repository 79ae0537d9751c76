//! The lines by which a ledger is acquired: its peers, its header and its nodes, and before some nodes a liar's, who sends another first
//! byte.
ghost use Rattle.std.specs.Prelude.{◌≡◌, ◌+◌, ◌<◌, ◌≤◌, ◌^◌, vec_len, [], length, map, IfOk, IsTrue, OnOk};
ghost use Rattle.std.specs.List.{range_with_len, All};
ghost use Rattle.ledger_machine.specs.declared.commands.Command.TheVariants as command;
ghost use Rattle.swarm_gen.specs.Plans.{IsPlan};
ghost use Rattle.swarm_gen.specs.Script.{says, lie_of, lies_for, lines_for, lines_for_all, opening_of, acquired, acquirer as acquirer_of};
ghost use Rattle.swarm_gen.specs.Adding.{Adds, AddsLines, ledger_from};
ghost use Rattle.swarm_gen.specs.Serving.{IsOfLedger, MayAsk, MaySend};
ghost use Rattle.ledger_spec.specs.Bytes.{is_nonzero};

use crate::Plan;
use crate::lines::{Head, Lines, Sent, known_blob};
use half_hash::{Blob, Hash32, Memory};
use ledger_machine::Command;
use std::alloc::Global;

/// How many peers each ledger has.
const PEERS: u16 = 8;

/// The peer of a `base` line.
const BASE_PEER: u16 = 7;

impl Lines {
    /// The peers' lines of a ledger.
    fn add_peers(&mut self, actor: u8, target: Hash32) -> Result<(), Memory>
        requires actor { actor < 64 }
        requires target { IsTrue (is_nonzero target) }
        ensures { OnOk result (Adds self.old self.new (map (says actor) (map (λ p. command.Peer p target) (range_with_len 0 8)))) }
    {
        for peer in 0..PEERS {
            self.say(actor, Command::Peer { peer, target })?;
        }
        Ok(())
    }

    /// The lie before node n of a ledger, where one is due.
    fn add_lie(
        &mut self,
        alloc: Global,
        plan: &Plan,
        target: Hash32,
        actor: u8,
        n: usize,
        sent: &Sent,
    ) -> Result<(), Memory>
        requires asks { MayAsk plan.now actor target }
        requires sent { IsOfLedger sent.now }
        ensures { OnOk result (Adds self.old self.new (map (says actor) (lies_for plan.now target n sent.now))) }
    {
        let liars = plan.liars as usize;
        if liars == 0 || n % 8 != 0 {
            return Ok(());
        }
        let peer = (n / 8 % liars) as u16;
        let blob = lie(alloc, &sent.blob)?;
        known_blob(&blob);
        self.say(
            actor,
            Command::Node {
                peer,
                target,
                kind: sent.kind,
                id: sent.id,
                blob,
            },
        )
    }

    /// The lines for node n of a ledger.
    fn add_node(
        &mut self,
        alloc: Global,
        plan: &Plan,
        target: Hash32,
        actor: u8,
        n: usize,
        sent: Sent,
    ) -> Result<(), Memory>
        requires asks { MayAsk plan.now actor target }
        requires sent { IsOfLedger sent }
        ensures { OnOk result (Adds self.old self.new (map (says actor) (lines_for plan.now target n sent))) }
    {
        self.add_lie(alloc, plan, target, actor, n, &sent)?;
        let liars = plan.liars as usize;
        let peer = (liars + n % (8 - liars)) as u16;
        known_blob(&sent.blob);
        self.say(
            actor,
            Command::Node {
                peer,
                target,
                kind: sent.kind,
                id: sent.id,
                blob: sent.blob,
            },
        )
    }

    /// The lines for nodes of a ledger, counted from `first` on.
    fn add_nodes(
        &mut self,
        alloc: Global,
        plan: &Plan,
        target: Hash32,
        actor: u8,
        first: usize,
        nodes: Vec<Sent>,
    ) -> Result<(), Memory>
        requires asks { MayAsk plan.now actor target }
        requires sent { All IsOfLedger nodes.items }
        requires few { first + vec_len nodes < 2 ^ 64 }
        ensures { OnOk result (Adds self.old self.new (map (says actor) (lines_for_all plan.now target first nodes.items))) }
    {
        let mut n = first;
        for sent in nodes {
            self.add_node(alloc, plan, target, actor, n, sent)?;
            n += 1;
        }
        Ok(())
    }

    /// The lines of a ledger's peers and header, up to its root nodes.
    fn add_opening(&mut self, actor: u8, head: Head) -> Result<(), Memory>
        requires actor { actor < 64 }
        requires target { IsTrue (is_nonzero head.hash) }
        ensures { OnOk result (Adds self.old self.new (map (says actor) (opening_of (ledger_from head [] [])))) }
    {
        let target = head.hash;
        known_blob(&head.header);
        known_blob(&head.state_root);
        known_blob(&head.tx_root);
        self.say(
            actor,
            Command::Want {
                target,
                seq: head.seq,
            },
        )?;
        self.add_peers(actor, target)?;
        self.say(actor, Command::Check { target })?;
        self.say(
            actor,
            Command::Base {
                peer: BASE_PEER,
                target,
                header: head.header,
                state: Some(head.state_root),
                tx: Some(head.tx_root),
            },
        )?;
        Ok(())
    }

    /// The lines of a ledger's acquirer, and the number of the last of them, the final check.
    pub(crate) fn add_acquired(
        &mut self,
        alloc: Global,
        plan: &Plan,
        head: Head,
        state_nodes: Vec<Sent>,
        tx_nodes: Vec<Sent>,
        waits: u32,
    ) -> Result<u32, Memory>
        requires plan { IsPlan plan.now }
        requires ledger { MaySend head state_nodes tx_nodes }
        requires earlier { waits ≤ length self.old }
        ensures { let more = acquired plan.now (ledger_from head state_nodes.items tx_nodes.items) waits in
            AddsLines self.old self.new more (length self.old + length more) result }
    {
        let target = head.hash;
        let actor = acquirer(plan, head.seq);
        let count = state_nodes.len();
        self.add_opening(actor, head)?;
        self.add_nodes(alloc, plan, target, actor, 0, state_nodes)?;
        self.say(actor, Command::Check { target })?;
        self.add_nodes(alloc, plan, target, actor, count, tx_nodes)?;
        let last = self.push(actor, waits, Command::Check { target })?;
        Ok(last)
    }
}

/// Who acquires the ledger of a sequence.
fn acquirer(plan: &Plan, seq: u32) -> u8
    requires plan { IsPlan plan.now }
    requires seq { 1 ≤ seq }
    ensures acquirer { result ≡ acquirer_of plan.now seq }
    ensures known { result < 64 }
{
    2 + ((seq - 1) % (u32::from(plan.actors) - 2)) as u8
}

/// The blob with its first byte changed.
fn lie(alloc: Global, blob: &Blob) -> Result<Blob, Memory>
    ensures { IfOk result (λ lie. lie ≡ lie_of blob.now) }
{
    let mut bytes = Vec::from_slice(alloc, blob.bytes())?;
    if let Some(first) = bytes.first_mut() {
        *first ^= 1;
    }
    Ok(Blob::new(bytes))
}

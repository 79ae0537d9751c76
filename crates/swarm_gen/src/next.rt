//! The next ledger, as it is sent: its header over the state's root and that of four transactions, and of both maps the nodes that are
//! others than in the ledger before.
ghost use Rattle.std.specs.Prelude.{◌&&◌, ◌≡◌, [], ◌∷◌, true, false, map, IfOk, IfSome, MatchOption};
ghost use Rattle.std.specs.List.{list_all, All};
ghost use Rattle.ledger_spec.specs.declared.Kind.TheVariants.{State, Tx};
ghost use Rattle.ledger_spec.specs.Bytes.{is_nonzero};
ghost use Rattle.swarm_gen.specs.Ledgers.{txs_of, state_nodes, are_nonzero, is_made};
ghost use Rattle.swarm_gen.specs.Standing.{IsAmong, IsDue, IsNext};
ghost use Rattle.swarm_gen.specs.Changed.{IsChange};
ghost use Rattle.swarm_gen.specs.Sending.{sent as sent_as, below};
ghost use Rattle.map_changes.specs.Tracking.{leaves_in, versions_in};
ghost use Rattle.swarm_gen.specs.Serving.{IsOfLedger};
ghost use Rattle.ledger_machine.specs.Scripts.{IsLedgerMap};

use crate::Plan;
use crate::lines::{Head, Sent};
use crate::state::{key, set_number};
use half_hash::{Blob, Hash32, Memory, NodeHash};
use ledger_header::Header;
use map_changes::{PlacedNode, Root, Versions};
use shamap_node::Kind;
use std::alloc::Global;
use std::thread::Threads;

/// All drops that there are in each ledger.
const DROPS: u64 = 100_000_000_000_000_000;

/// What the numbers of transactions' keys begin with.
const TX_BASE: u64 = 4_294_967_296;

/// A ledger as it is sent.
#[derive(Drop)]
pub(crate) struct Next {
    pub(crate) head: Head,
    pub(crate) state_nodes: Vec<Sent>,
    pub(crate) tx_nodes: Vec<Sent>,
}

/// The transactions of a ledger, as the version behind the empty map.
fn txs<H: NodeHash>(alloc: Global, plan: &Plan, seq: u32) -> Result<Versions<H>, Memory>
    ensures { IfOk result (λ txs. (leaves_in txs ≡ Tx) × (versions_in txs ≡ [] ∷ txs_of H.half plan.now seq ∷ [])) }
{
    let mut txs = Versions::<H>::new(alloc, Kind::Tx)?;
    for m in 0..4 {
        let key = key::<H>(plan, TX_BASE + 16 * u64::from(seq) + m);
        set_number::<H>(alloc, &mut txs, key, m)?;
    }
    txs.keep()?;
    Ok(txs)
}

/// Whether none of the nodes has the zero hash.
fn are_all_nonzero(nodes: &[PlacedNode]) -> bool
    ensures { result ≡ list_all (λ p. is_nonzero p.hash) nodes.now }
{
    for node in nodes {
        if node.hash.is_zero() {
            return false;
        }
    }
    true
}

/// Whether neither the hash nor that of a node is zero.
fn is_fine(hash: &Hash32, state_nodes: &[PlacedNode], tx_nodes: &[PlacedNode]) -> bool
    ensures { result ≡ (list_all (λ p. is_nonzero p.hash) state_nodes.now
        && list_all (λ p. is_nonzero p.hash) tx_nodes.now && is_nonzero hash.now) }
{
    let state = are_all_nonzero(state_nodes);
    let tx = are_all_nonzero(tx_nodes);
    let header = !hash.is_zero();
    state && tx && header
}

/// The nodes below the root, as they are sent.
fn sent(alloc: Global, kind: Kind, nodes: Vec<PlacedNode>) -> Result<Vec<Sent>, Memory>
    requires { IsLedgerMap kind }
    ensures sent { IfOk result (λ sent. sent.items ≡ map (sent_as kind) (below nodes.items)) }
    ensures maps { IfOk result (λ sent. All IsOfLedger sent.items) }
{
    let mut sent = Vec::new(alloc);
    for node in nodes {
        if node.id.depth() > 0 {
            sent.push(Sent {
                kind,
                id: node.id,
                blob: node.blob,
            })?;
        }
    }
    Ok(sent)
}

/// A ledger with this head and the nodes below its roots, as it is sent.
fn next_of(
    alloc: Global,
    head: Head,
    state_nodes: Vec<PlacedNode>,
    tx_nodes: Vec<PlacedNode>,
) -> Result<Next, Memory>
    ensures head { IfOk result (λ n. n.head ≡ head) }
    ensures state { IfOk result (λ n. n.state_nodes.items ≡ map (sent_as State) (below state_nodes.items)) }
    ensures tx { IfOk result (λ n. n.tx_nodes.items ≡ map (sent_as Tx) (below tx_nodes.items)) }
    ensures maps { IfOk result (λ n. All IsOfLedger n.state_nodes.items × All IsOfLedger n.tx_nodes.items) }
{
    let state_nodes = sent(alloc, Kind::State, state_nodes)?;
    let tx_nodes = sent(alloc, Kind::Tx, tx_nodes)?;
    Ok(Next {
        head,
        state_nodes,
        tx_nodes,
    })
}

/// What a ledger changes, and its roots.
#[derive(Drop)]
struct Changes {
    state_root: Root,
    tx_root: Root,
    state_nodes: Vec<PlacedNode>,
    tx_nodes: Vec<PlacedNode>,
}

/// What the ledger of a sequence changes, or none where one of its maps is empty.
fn take_all<R: Threads + Sync, H: NodeHash>(
    rt: &R,
    alloc: Global,
    plan: &Plan,
    states: &Versions<H>,
    seq: u32,
) -> Result<Option<Changes>, Memory>
    requires { IsAmong H.half plan.now seq (leaves_in states.now) (versions_in states.now) }
    ensures { IfOk result (λ changes. MatchOption changes (is_made H.half plan.now seq ≡ false)
        (λ c. IsChange H.half plan.now seq c.state_root c.tx_root c.state_nodes.items c.tx_nodes.items)) }
{
    let mut txs = txs::<H>(alloc, plan, seq)?;
    txs.hash_all(rt, alloc)?;
    let state_nodes = states.changes(alloc, seq as usize)?;
    let tx_nodes = txs.changes(alloc, 1)?;
    let Some(state_root) = states.root(alloc, seq as usize)? else {
        return Ok(None);
    };
    let Some(tx_root) = txs.root(alloc, 1)? else {
        return Ok(None);
    };
    Ok(Some(Changes {
        state_root,
        tx_root,
        state_nodes,
        tx_nodes,
    }))
}

/// The ledger of a sequence, as it is sent, or none where it isn't made.
pub(crate) fn next_ledger<R: Threads + Sync, H: NodeHash>(
    rt: &R,
    alloc: Global,
    plan: &Plan,
    states: &Versions<H>,
    parent: Hash32,
    seq: u32,
) -> Result<Option<Next>, Memory>
    requires { IsDue H.half plan.now seq parent (leaves_in states.now) (versions_in states.now) }
    ensures made { IfOk result (λ next. MatchOption next (is_made H.half plan.now seq ≡ false) (IsNext H.half plan.now seq)) }
    ensures nonzero { IfOk result (λ next. IfSome next (λ _. are_nonzero H.half (state_nodes H.half plan.now seq) ≡ true)) }
{
    let Some(changes) = take_all::<R, H>(rt, alloc, plan, states, seq)? else {
        return Ok(None);
    };
    let Changes {
        state_root,
        tx_root,
        state_nodes,
        tx_nodes,
    } = changes;
    let header = Header {
        seq,
        drops: DROPS,
        parent,
        tx_root: tx_root.hash,
        state_root: state_root.hash,
        parent_close: 10 * (seq - 1),
        close: 10 * seq,
        resolution: 10,
        flags: 0,
    };
    let hash = header.hash::<H>();
    if !is_fine(&hash, &state_nodes, &tx_nodes) {
        return Ok(None);
    }
    let head = Head {
        seq,
        hash,
        header: Blob::from_slice(alloc, &header.encode())?,
        state_root: state_root.blob,
        tx_root: tx_root.blob,
    };
    Ok(Some(next_of(alloc, head, state_nodes, tx_nodes)?))
}

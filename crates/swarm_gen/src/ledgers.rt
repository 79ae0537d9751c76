//! The script of a plan, ledger by ledger, over the account states of all of them: they are versions of one map, which are hashed together.
ghost use Rattle.std.specs.Prelude.{◌≡◌, ◌≤◌, [], length, IfOk, IsTrue};
ghost use Rattle.std.specs.List.{All};
ghost use Rattle.ledger_spec.specs.Bytes.{is_nonzero};
ghost use Rattle.swarm_gen.specs.Plans.{IsPlan};
ghost use Rattle.swarm_gen.specs.Swarm.{swarm};
ghost use Rattle.swarm_gen.specs.Standing.{IsBehind, IsDue, AreStates};
ghost use Rattle.map_changes.specs.Tracking.{leaves_in, versions_in};
ghost use Rattle.script_form.specs.Servable.{AreServable};

use crate::next::{Next, next_ledger};
use crate::state::{all_states, read_keys};
use crate::{Lines, Plan};
use half_hash::{Hash32, Memory, NodeHash};
use ledger_machine::Script;
use map_changes::Versions;
use std::alloc::Global;
use std::thread::Threads;

/// Where a script stands behind a ledger.
#[derive(Clone, Copy)]
struct Behind {
    /// The ledger's hash.
    parent: Hash32,
    /// The line for which the next ledger's final check waits, or 0.
    waits: u32,
}

/// Adds the lines of the next ledger, and says whether it is made.
fn add_next<R: Threads + Sync, H: NodeHash>(
    rt: &R,
    alloc: Global,
    plan: &Plan,
    keys: &[Hash32],
    states: &Versions<H>,
    lines: &mut Lines,
    behind: &mut Behind,
    seq: u32,
) -> Result<bool, Memory>
    requires due { IsDue H.half plan.now seq behind.old.parent (leaves_in states.now) (versions_in states.now) }
    requires keys { All (λ k. IsTrue (is_nonzero k)) keys.now }
    requires earlier { behind.old.waits ≤ length lines.old }
    ensures { IfOk result (λ more. IsBehind H.half plan.now keys.now seq more lines.old lines.new behind.old behind.new) }
{
    let Some(next) = next_ledger::<R, H>(rt, alloc, plan, states, behind.parent, seq)? else {
        return Ok(false);
    };
    let Next {
        head,
        state_nodes,
        tx_nodes,
    } = next;
    let hash = head.hash;
    let before = behind.waits;
    let waits = lines.add_ledger(alloc, plan, keys, head, state_nodes, tx_nodes, before)?;
    *behind = Behind {
        parent: hash,
        waits,
    };
    Ok(true)
}

/// The lines of a plan's script, over the account states of its ledgers. They end before the first ledger that isn't made: one with an
/// empty map or a form with the zero hash.
fn lines_over<R: Threads + Sync, H: NodeHash>(
    rt: &R,
    alloc: Global,
    plan: &Plan,
    states: &Versions<H>,
) -> Result<Lines, Memory>
    requires plan { IsPlan plan.now }
    requires states { AreStates H.half plan.now plan.now.ledgers (leaves_in states.now) (versions_in states.now) }
    ensures { IfOk result (λ lines. lines ≡ swarm H.half plan.now) }
{
    let keys = read_keys::<H>(alloc, plan)?;
    let mut lines = Lines::new(alloc);
    let mut behind = Behind {
        parent: Hash32::zero(),
        waits: 0,
    };
    for j in 0..plan.ledgers {
        let more = add_next::<R, H>(
            rt,
            alloc,
            plan,
            &keys,
            states,
            &mut lines,
            &mut behind,
            j + 1,
        )?;
        if !more {
            return Ok(lines);
        }
    }
    Ok(lines)
}

/// The lines of a plan's script.
fn all_lines<R: Threads + Sync, H: NodeHash>(
    rt: &R,
    alloc: Global,
    plan: &Plan,
) -> Result<Lines, Memory>
    requires { IsPlan plan.now }
    ensures { IfOk result (λ lines. lines ≡ swarm H.half plan.now) }
{
    let mut states = all_states::<H>(alloc, plan)?;
    states.hash_all(rt, alloc)?;
    lines_over::<R, H>(rt, alloc, plan, &states)
}

/// The script of a plan. It has no records.
///
/// The account states are versions of one map, which goes from ledger to ledger and shares with each what no edit replaced. First all
/// edits of all ledgers are made, then the nodes that any of them left are hashed, each once and side by side where they are many, and
/// then each ledger is listed against the one before: the cost is that of the keys, of a look at each item in each ledger, and of what
/// changes.
pub fn make<R: Threads + Sync, H: NodeHash>(
    rt: &R,
    alloc: Global,
    plan: &Plan,
) -> Result<Script, Memory>
    requires { IsPlan plan.now }
    ensures records { IfOk result (λ script. script.records.items ≡ []) }
    ensures lines { IfOk result (λ script. script.lines.items ≡ swarm H.half plan.now) }
    // A core takes them.
    ensures servable { IfOk result (λ script. AreServable script.lines.items) }
{
    let lines = all_lines::<R, H>(rt, alloc, plan)?;
    Ok(Script {
        records: Vec::new(alloc),
        lines: lines.into_vec(),
    })
}

//! What the words ask for.
ghost use Rattle.std.specs.Prelude.{◌≡◌, ◌<◌, ℕ, [], Err, IsNone, IfOk, IfErr, IfSome, MatchOption, OnOk};
ghost use Rattle.script_form.specs.Reading.{LeavesInput};
ghost use Rattle.script_form.specs.Servable.{AreServable};
ghost use Rattle.script_form.specs.Faults.{HasScriptCause};
ghost use Rattle.ledger_machine.specs.Records.{AreRecords};
ghost use Rattle.swarm_gen.specs.Plans.{IsPlan};
ghost use Rattle.swarm_gen.specs.Swarm.{swarm};
ghost use Rattle.run_words.specs.declared.words.Words.{Words as Said};
ghost use Rattle.top_call.specs.Asking.{Asks, AreCommand, interval_in, quiet_in, dump_in, IsRead, IsScriptOf, WasRead, HasPlan};
ghost use Rattle.top_call.specs.Stopping.{IsStop};

use crate::stop::StopAsked;
use half_hash::{Memory, NodeHash};
use ledger_machine::Script;
use run_io::Source;
use run_words::{Words, read_words};
use script_form::{ScriptFault, read_script};
use std::alloc::Global;
use std::thread::Threads;
use swarm_gen::{Plan, make};

/// What the words ask for, or none where they are no command.
pub(crate) fn asked_for(words: &[&str]) -> Option<Words>
    ensures command { MatchOption result (AreCommand words.now → ⊥) (λ _. AreCommand words.now) }
    ensures asks { IfSome result (Asks words.now) }
    ensures only { IfSome result (λ w. (v : Said) → Asks words.now v → v ≡ w) }
    ensures plan { IfSome result HasPlan }
    ensures apart { IfSome result (λ w. 0 < interval_in w) }
{
    match read_words(words) {
        Ok(asked) => Some(asked),
        Err(_) => None,
    }
}

/// A rotation is due where the greatest listed sequence is so many or more above the last rotation's.
pub(crate) fn interval_of(asked: &Words) -> u32
    ensures { result ≡ interval_in asked.now }
{
    match asked {
        Words::Replay { interval, .. } => *interval,
        Words::Swarm { plan, .. } => plan.interval,
        Words::Stop { interval, .. } => *interval,
    }
}

/// Whether the entries aren't printed.
pub(crate) fn is_quiet(asked: &Words) -> bool
    ensures { result ≡ quiet_in asked.now }
{
    match asked {
        Words::Replay { quiet, .. } => *quiet,
        Words::Swarm { quiet, .. } => *quiet,
        Words::Stop { quiet, .. } => *quiet,
    }
}

/// Whether what is stored at the end is printed.
pub(crate) fn has_dump(asked: &Words) -> bool
    ensures { result ≡ dump_in asked.now }
{
    match asked {
        Words::Replay { dump, .. } => *dump,
        Words::Swarm { dump, .. } => *dump,
        Words::Stop { .. } => false,
    }
}

/// What is asked of a run on disks that stop; none where the words ask for another one.
pub(crate) fn stop_of(asked: &Words) -> Option<StopAsked>
    ensures none { IsNone result → IsStop asked.now → ⊥ }
    ensures asked { IfSome result (λ s. asked.now ≡ Words.Stop s.at s.pick s.interval s.quiet) }
{
    match asked {
        Words::Stop {
            at,
            pick,
            interval,
            quiet,
        } => Some(StopAsked {
            at: *at,
            pick: *pick,
            interval: *interval,
            quiet: *quiet,
        }),
        _ => None,
    }
}

/// The script that is asked for: a replay's is read from the source, a swarm's is made from its plan, and
/// nothing is read.
pub(crate) fn script_for<R: Threads + Sync, H: NodeHash, S: Source>(
    rt: &R,
    alloc: Global,
    asked: &Words,
    source: &mut S,
) -> Result<Script, ScriptFault>
    requires { HasPlan asked.now }
    ensures script { IfOk result (λ s. IsScriptOf H.half asked.now (S.left source.old) s.records.items s.lines.items) }
    ensures servable { IfOk result (λ s. AreServable s.lines.items × AreRecords H.half s.records.items) }
    ensures read { OnOk result (WasRead asked.now (S.left source.old) (S.left source.new)) }
    // Where no script is read, nothing is.
    ensures unread { (IsRead asked.now → ⊥) → source.new ≡ source.old }
    ensures only { (l : ℕ) (n : ℕ) → result ≡ Err (ScriptFault.Refused l n) → IsRead asked.now }
    ensures cause { IfErr result
        (HasScriptCause H.half (S.left source.old) (S.left source.new) (S.faults source.old) (S.faults source.new)) }
    ensures left { LeavesInput (S.left source.old) (S.left source.new) (S.faults source.old) (S.faults source.new) }
{
    match asked {
        Words::Replay { .. } => read_script::<H, S>(alloc, source),
        Words::Stop { .. } => read_script::<H, S>(alloc, source),
        Words::Swarm { plan, .. } => made::<R, H>(rt, alloc, plan),
    }
}

// The script of a plan.
fn made<R: Threads + Sync, H: NodeHash>(
    rt: &R,
    alloc: Global,
    plan: &Plan,
) -> Result<Script, ScriptFault>
    requires { IsPlan plan.now }
    ensures script { IfOk result (λ s. (s.records.items ≡ []) × (s.lines.items ≡ swarm H.half plan.now)) }
    ensures servable { IfOk result (λ s. AreServable s.lines.items) }
    ensures err { IfErr result (λ e. e ≡ ScriptFault.Memory) }
{
    match make::<R, H>(rt, alloc, plan) {
        Ok(script) => Ok(script),
        Err(Memory) => Err(ScriptFault::Memory),
    }
}

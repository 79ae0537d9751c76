//! The lines of one ledger: its acquirer's, then the reader's, and then the rotator's where a rotation is due.
ghost use Rattle.std.specs.Prelude.{◌+◌, ◌≤◌, length, map, if◌then◌else◌, IsTrue, OnOk};
ghost use Rattle.swarm_gen.specs.Plans.{IsPlan};
ghost use Rattle.swarm_gen.specs.Script.{get_line, reader_lines, rotation_lines, ledger_lines, next_waits, is_turn};
ghost use Rattle.swarm_gen.specs.Adding.{Adds, AddsLines, ledger_from};
ghost use Rattle.swarm_gen.specs.Serving.{MaySend};
ghost use Rattle.ledger_spec.specs.Bytes.{is_nonzero};
ghost use Rattle.std.specs.List.{All};

use crate::Plan;
use crate::lines::{Head, Lines, Sent, known_hash};
use half_hash::{Hash32, Memory};
use ledger_machine::Command;
use shamap_node::Kind;
use std::alloc::Global;

/// The actor that rotates.
const ROTATOR: u8 = 0;

/// The actor that reads.
const READER: u8 = 1;

/// The number of the reader's view.
const VIEW: u16 = 1;

impl Lines {
    /// The reader's lines for keys.
    fn add_gets(&mut self, keys: &[Hash32]) -> Result<(), Memory>
        requires { All (λ k. IsTrue (is_nonzero k)) keys.now }
        ensures { OnOk result (Adds self.old self.new (map get_line keys.now)) }
    {
        for key in keys {
            known_hash(key);
            self.say(
                READER,
                Command::Get {
                    view: VIEW,
                    kind: Kind::State,
                    key: *key,
                },
            )?;
        }
        Ok(())
    }

    /// The reader's lines for a ledger, behind its final check.
    fn add_reader(&mut self, keys: &[Hash32], target: Hash32, last: u32) -> Result<(), Memory>
        requires keys { All (λ k. IsTrue (is_nonzero k)) keys.now }
        requires target { IsTrue (is_nonzero target) }
        requires earlier { last ≤ length self.old }
        ensures { OnOk result (Adds self.old self.new (reader_lines keys.now target last)) }
    {
        self.push(READER, last, Command::View { view: VIEW, target })?;
        self.add_gets(keys)?;
        self.say(READER, Command::Unview { view: VIEW })?;
        Ok(())
    }

    /// The rotator's lines behind a ledger, where a rotation is due; gives the number of the line for
    /// which the next ledger waits.
    fn add_rotation(&mut self, plan: &Plan, seq: u32, last: u32) -> Result<u32, Memory>
        requires plan { IsPlan plan.now }
        requires earlier { last ≤ length self.old }
        ensures { let next = (if is_turn plan.now seq then length self.old + 1 else last) in
            AddsLines self.old self.new (rotation_lines plan.now seq last) next result }
    {
        if seq <= 1 || (seq - 1) % plan.interval != 0 {
            return Ok(last);
        }
        let begin = self.push(ROTATOR, last, Command::Begin)?;
        self.say(ROTATOR, Command::Swap)?;
        Ok(begin)
    }

    /// The lines of a ledger; gives the number of the line for which the next ledger waits. After want of
    /// memory some of them may stand there. A line number past 32 bits is answered as want of memory.
    pub(crate) fn add_ledger(
        &mut self,
        alloc: Global,
        plan: &Plan,
        keys: &[Hash32],
        head: Head,
        state_nodes: Vec<Sent>,
        tx_nodes: Vec<Sent>,
        waits: u32,
    ) -> Result<u32, Memory>
        requires keys { All (λ k. IsTrue (is_nonzero k)) keys.now }
        requires plan { IsPlan plan.now }
        requires ledger { MaySend head state_nodes tx_nodes }
        requires earlier { waits ≤ length self.old }
        ensures { let ledger = ledger_from head state_nodes.items tx_nodes.items in
            AddsLines self.old self.new (ledger_lines plan.now keys.now ledger (length self.old) waits)
            (next_waits plan.now keys.now ledger (length self.old) waits) result }
    {
        let target = head.hash;
        let seq = head.seq;
        let last = self.add_acquired(alloc, plan, head, state_nodes, tx_nodes, waits)?;
        self.add_reader(keys, target, last)?;
        let next = self.add_rotation(plan, seq, last)?;
        Ok(next)
    }
}

//! The lines of a script, which are numbered as they are added, and what a ledger's lines are made of.
ghost use Rattle.std.specs.Prelude.{◌≡◌, ◌+◌, ◌<◌, ◌≤◌, List, [], ◌∷◌, length, IfOk, IsTrue, OnOk};
ghost use Rattle.swarm_gen.specs.Script.{says};
ghost use Rattle.swarm_gen.specs.Adding.{Adds, said};
ghost use Rattle.ledger_spec.specs.Bytes.{are_bytes};
ghost use Rattle.ledger_machine.specs.Commands.{IsInRange};
ghost use Rattle.script_form.specs.Servable.{AreServable};

use half_hash::{Blob, Hash32, Memory};
use ledger_machine::{Command, Line};
use nib_path::NodeId;
use shamap_node::Kind;
use std::alloc::Global;
use std::marker::Model;

/// A node that a peer sends: its map, its place, and its wire form.
#[derive(Drop)]
pub struct Sent {
    pub kind: Kind,
    pub id: NodeId,
    pub blob: Blob,
}

/// A ledger as it is sent, but for the nodes below its roots: its header, and the wire forms of its
/// roots.
#[derive(Drop)]
pub struct Head {
    pub seq: u32,
    pub hash: Hash32,
    pub header: Blob,
    pub state_root: Blob,
    pub tx_root: Blob,
}

/// The lines of a script, numbered from 1. Contracts see the list of them.
#[derive(Drop)]
pub struct Lines {
    lines: Vec<Line>,
}

impl Model for Lines {
    ghost use Rattle.std.specs.Prelude.{List};
    ghost use Rattle.ledger_machine.specs.declared.commands.Line.{Line};
    ghost use Rattle.swarm_gen.specs.Serving.{AreLines};

    ghost Value = { List Line };

    ghost view = { λ a. a.lines.items };

    ghost invariant = { λ a. AreLines a.lines.items };
}

impl Lines {
    /// No lines.
    pub(crate) fn new(alloc: Global) -> Lines
        ensures { result ≡ [] }
    {
        Lines {
            lines: Vec::new(alloc),
        }
    }

    /// The lines, which a core takes.
    pub fn into_vec(self) -> Vec<Line>
        ensures lines { result.items ≡ self }
        ensures servable { AreServable result.items }
    {
        self.lines
    }

    /// One line more, and its number.
    pub(crate) fn push(&mut self, actor: u8, after: u32, command: Command) -> Result<u32, Memory>
        requires actor { actor < 64 }
        requires earlier { after ≤ length self.old }
        requires range { IsInRange command }
        ensures number { IfOk result (λ n. n ≡ length self.old + 1) }
        ensures line { OnOk result (Adds self.old self.new (said actor after command ∷ [])) }
    {
        let number = u32::try_from(self.lines.len() + 1).or(Err(Memory))?;
        self.lines.push(Line {
            number,
            actor,
            after,
            command,
        })?;
        Ok(number)
    }

    /// One line more, which waits for no other.
    pub(crate) fn say(&mut self, actor: u8, command: Command) -> Result<(), Memory>
        requires actor { actor < 64 }
        requires range { IsInRange command }
        ensures { OnOk result (Adds self.old self.new (says actor command ∷ [])) }
    {
        self.push(actor, 0, command)?;
        Ok(())
    }
}

/// Tells a proof that a blob is bytes.
pub(crate) fn known_blob(blob: &Blob)
    ensures { IsTrue (are_bytes blob.now) }
{
    known_bytes(blob.bytes());
}

/// The same of a hash, which has 32.
pub(crate) fn known_hash(h: &Hash32)
    ensures size { length h.now ≡ 32 }
    ensures bytes { IsTrue (are_bytes h.now) }
{
    known_bytes(&h.bytes);
}

// The same of bytes.
fn known_bytes(bytes: &[u8])
    ensures { IsTrue (are_bytes bytes.now) }
{
    let _length = bytes.len();
}

//! What became of the parts that peers sent.
ghost use Rattle.std.specs.Prelude.{◌≡◌, ◌++◌, OnOk};
ghost use Rattle.std.specs.String.{string_bytes};
ghost use Rattle.journal_text.specs.Text.{head_text, offered_text, part_text, base_text, node_text, id_text};

use crate::words::{push_hash, push_id};
use ledger_machine::{BaseReply, HeadOffered, NodeReply, Offered};
use nib_path::NodeId;
use std::alloc::AllocError;
use std::fmt::Write;

/// Appends the outcomes of a base reply's parts.
pub(crate) fn push_base(text: &mut String, reply: &BaseReply) -> Result<(), AllocError>
    ensures { OnOk result (string_bytes text.new ≡ string_bytes text.old ++ base_text reply.now) }
{
    match reply {
        BaseReply::Parts { header, state, tx } => {
            push_head(text, header)?;
            push_part(text, state)?;
            push_part(text, tx)
        }
        BaseReply::Unasked => text.push_str("unasked"),
        BaseReply::NotOpen => text.push_str("notopen"),
    }
}

/// Appends the outcome of a node.
pub(crate) fn push_node(text: &mut String, reply: &NodeReply) -> Result<(), AllocError>
    ensures { OnOk result (string_bytes text.new ≡ string_bytes text.old ++ node_text reply.now) }
{
    match reply {
        NodeReply::One(outcome) => push_offered(text, outcome),
        NodeReply::Unasked => text.push_str("unasked"),
        NodeReply::NotOpen => text.push_str("notopen"),
    }
}

fn push_head(text: &mut String, outcome: &HeadOffered) -> Result<(), AllocError>
    ensures { OnOk result (string_bytes text.new ≡ string_bytes text.old ++ head_text outcome.now) }
{
    match outcome {
        HeadOffered::Good => text.push_str("good"),
        HeadOffered::Duplicate => text.push_str("duplicate"),
        HeadOffered::BadLength(n) => write!(text, "bad length {n}"),
        HeadOffered::BadHash { found } => {
            text.push_str("bad hash ")?;
            push_hash(text, found)
        }
    }
}

fn push_part(text: &mut String, part: &Option<Offered>) -> Result<(), AllocError>
    ensures { OnOk result (string_bytes text.new ≡ string_bytes text.old ++ part_text part.now) }
{
    match part {
        None => Ok(()),
        Some(outcome) => {
            text.push_str(" / ")?;
            push_offered(text, outcome)
        }
    }
}

fn push_offered(text: &mut String, outcome: &Offered) -> Result<(), AllocError>
    ensures { OnOk result (string_bytes text.new ≡ string_bytes text.old ++ offered_text outcome.now) }
{
    match outcome {
        Offered::Good => text.push_str("good"),
        Offered::Duplicate => text.push_str("duplicate"),
        Offered::BadWire(cause) => write!(text, "bad wire {cause}"),
        Offered::BadHash { found, .. } => {
            text.push_str("bad hash ")?;
            push_hash(text, found)
        }
        Offered::NoBase => text.push_str("nobase"),
        Offered::NoParent(id) => push_at(text, "noparent ", id),
        Offered::EmptyBranch(id) => push_at(text, "emptybranch ", id),
        Offered::UnderLeaf(id) => push_at(text, "underleaf ", id),
        Offered::Malformed(rule) => write!(text, "malformed {rule}"),
    }
}

fn push_at(text: &mut String, word: &str, id: &NodeId) -> Result<(), AllocError>
    ensures { OnOk result (string_bytes text.new ≡ string_bytes text.old ++ (word.now ++ id_text id.now)) }
{
    text.push_str(word)?;
    push_id(text, id)
}

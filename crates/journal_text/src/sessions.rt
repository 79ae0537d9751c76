//! The answers to the commands of sessions and rotations.
ghost use Rattle.std.specs.Prelude.{◌≡◌, ◌++◌, OnOk};
ghost use Rattle.std.specs.String.{string_bytes};
ghost use Rattle.journal_text.specs.Text.{edit_text, session_text, del_text, close_text, begin_text, swap_text};

use crate::words::{push_below_floor, push_hash};
use ledger_machine::{BeginReply, CloseReply, DelReply, EditReply, SwapReply};
use std::alloc::AllocError;
use std::fmt::Write;

/// The answer to `edit`.
pub(crate) fn edit_words(reply: &EditReply) -> &'static str
    ensures { result.now ≡ edit_text reply.now }
{
    match reply {
        EditReply::Fine => "ok",
        EditReply::NotRetained => "notretained",
        EditReply::LastSeq => "lastseq",
        EditReply::InUse => "inuse",
        EditReply::TooMany => "toomany 64",
    }
}

/// The answer to `put`, `tx` and `abandon`.
pub(crate) fn session_words(done: bool) -> &'static str
    ensures { result.now ≡ session_text done }
{
    if done { "ok" } else { "nosession" }
}

/// The answer to `del`.
pub(crate) fn del_words(reply: &DelReply) -> &'static str
    ensures { result.now ≡ del_text reply.now }
{
    match reply {
        DelReply::Fine => "ok",
        DelReply::Absent => "absent",
        DelReply::NoSession => "nosession",
    }
}

/// Appends the answer to `close`.
pub(crate) fn push_close(text: &mut String, reply: &CloseReply) -> Result<(), AllocError>
    ensures { OnOk result (string_bytes text.new ≡ string_bytes text.old ++ close_text reply.now) }
{
    match reply {
        CloseReply::Closed(hash) => {
            text.push_str("closed ")?;
            push_hash(text, hash)
        }
        CloseReply::Listed => text.push_str("listed"),
        CloseReply::BelowFloor(floor) => push_below_floor(text, *floor),
        CloseReply::ZeroState => text.push_str("zerostate"),
        CloseReply::NoSession => text.push_str("nosession"),
    }
}

/// Appends the answer to `begin`.
pub(crate) fn push_begin(text: &mut String, reply: &BeginReply) -> Result<(), AllocError>
    ensures { OnOk result (string_bytes text.new ≡ string_bytes text.old ++ begin_text reply.now) }
{
    match reply {
        BeginReply::Begun { seq, floor } => write!(text, "begun {seq} {floor}"),
        BeginReply::NotDue => text.push_str("notdue"),
        BeginReply::Busy => text.push_str("busy"),
    }
}

/// Appends the answer to `swap`.
pub(crate) fn push_swap(text: &mut String, reply: &SwapReply) -> Result<(), AllocError>
    ensures { OnOk result (string_bytes text.new ≡ string_bytes text.old ++ swap_text reply.now) }
{
    match reply {
        SwapReply::Swapped(epoch) => write!(text, "swapped {epoch}"),
        SwapReply::Idle => text.push_str("idle"),
    }
}

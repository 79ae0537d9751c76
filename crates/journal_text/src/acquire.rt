//! The answers to `want`, `peer`, `check` and `tick`.
ghost use Rattle.std.specs.Prelude.{◌≡◌, ◌++◌, OnOk};
ghost use Rattle.std.specs.String.{string_bytes};
ghost use Rattle.journal_text.specs.Text.{want_text, peer_text, check_text, tick_text, places_text};

use crate::words::{push_below_floor, push_place};
use ledger_machine::{CheckReply, PeerReply, TickReply, WantReply};
use shamap_node::Place;
use std::alloc::AllocError;
use std::fmt::Write;

/// Appends the answer to `want`.
pub(crate) fn push_want(text: &mut String, reply: &WantReply) -> Result<(), AllocError>
    ensures { OnOk result (string_bytes text.new ≡ string_bytes text.old ++ want_text reply.now) }
{
    match reply {
        WantReply::Opened => text.push_str("opened"),
        WantReply::Open => text.push_str("open"),
        WantReply::Listed => text.push_str("listed"),
        WantReply::BelowFloor(floor) => push_below_floor(text, *floor),
        WantReply::TooMany => text.push_str("toomany 64"),
    }
}

/// The answer to `peer`.
pub(crate) fn peer_words(reply: &PeerReply) -> &'static str
    ensures { result.now ≡ peer_text reply.now }
{
    match reply {
        PeerReply::Added => "added",
        PeerReply::Known => "known",
        PeerReply::NotOpen => "notopen",
    }
}

/// Appends the answer to `check`.
pub(crate) fn push_check(text: &mut String, reply: &CheckReply) -> Result<(), AllocError>
    ensures { OnOk result (string_bytes text.new ≡ string_bytes text.old ++ check_text reply.now) }
{
    match reply {
        CheckReply::Complete => text.push_str("complete"),
        CheckReply::Need { peer, places } => {
            write!(text, "need {peer}")?;
            push_places(text, places.as_slice())
        }
        CheckReply::Waiting(n) => write!(text, "waiting {n}"),
        CheckReply::NoPeer => text.push_str("nopeer"),
        CheckReply::SeqDiffers { asked, found } => write!(text, "seqdiffers {asked} {found}"),
        CheckReply::ZeroState => text.push_str("zerostate"),
        CheckReply::BelowFloor(floor) => push_below_floor(text, *floor),
        CheckReply::Malformed { place, rule } => {
            text.push_str("malformed ")?;
            push_place(text, place)?;
            write!(text, " {rule}")
        }
        CheckReply::NotOpen => text.push_str("notopen"),
    }
}

fn push_places(text: &mut String, places: &[Place]) -> Result<(), AllocError>
    ensures { OnOk result (string_bytes text.new ≡ string_bytes text.old ++ places_text places.now) }
{
    for place in places {
        text.push_str(" ")?;
        push_place(text, place)?;
    }
    Ok(())
}

/// Appends the answer to `tick`.
pub(crate) fn push_tick(text: &mut String, reply: &TickReply) -> Result<(), AllocError>
    ensures { OnOk result (string_bytes text.new ≡ string_bytes text.old ++ tick_text reply.now) }
{
    match reply {
        TickReply::Timeout(n) => write!(text, "timeout {n}"),
        TickReply::GaveUp(n) => write!(text, "gaveup {n}"),
        TickReply::NotOpen => text.push_str("notopen"),
    }
}

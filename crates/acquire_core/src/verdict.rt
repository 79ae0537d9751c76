//! What a check comes to: whom to ask for what is missing, or why a header isn't acceptable.
ghost use Rattle.std.specs.Prelude.{◌≡◌, IfSome, unwrap_or};
ghost use Rattle.ledger_spec.specs.Acquiring.{Acquiring, Verdict, header_verdict, after_verdict};
ghost use Rattle.ledger_spec.specs.Replies.{ask_said, check_said};

use ledger_header::Header;
use ledger_spec::CheckReply;
use peer_set::Ask;

/// Why a ledger with this header isn't acceptable, for the asked sequence, 0 for any, and the floor.
pub(crate) fn refusal(header: &Header, asked: u32, floor: u32) -> Option<CheckReply>
    ensures verdict { (rest : Verdict) → check_said (header_verdict asked floor header.now.seq header.now.state_root rest)
        ≡ unwrap_or result (check_said rest) }

    // none of these asks anybody
    ensures after { (a : Acquiring) (rest : Verdict)
        → IfSome result (λ _. after_verdict a (header_verdict asked floor header.now.seq header.now.state_root rest) ≡ a) }
{
    if asked != 0 && asked != header.seq {
        return Some(CheckReply::SeqDiffers {
            asked,
            found: header.seq,
        });
    }
    if header.state_root.is_zero() {
        return Some(CheckReply::ZeroState);
    }
    if header.seq < floor {
        return Some(CheckReply::BelowFloor(floor));
    }
    None
}

/// The reply where places are missing.
pub(crate) fn asked(ask: Ask) -> CheckReply
    ensures { result ≡ ask_said ask }
{
    match ask {
        Ask::Send { peer, places } => CheckReply::Need { peer, places },
        Ask::Waiting(places) => CheckReply::Waiting(places),
        Ask::NoPeer => CheckReply::NoPeer,
    }
}

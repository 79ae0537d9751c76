//! The machine's replies to what an acquisition and a rotation answer.
ghost use Rattle.std.specs.Prelude.{◌≡◌, IfErr};
ghost use Rattle.rotating_store.specs.Puts.{IsPlain};
ghost use Rattle.core_machine.specs.Wanting as told;
ghost use Rattle.core_machine.specs.Telling as turns;

use crate::refusals::{refusal, unended};
use ledger_machine::{BaseBox, BaseReply, BeginReply, NodeReply, Reply, SwapReply};
use node_backend::BackFault;
use node_offer::OfferFault;
use online_rotate::{Begun, Left};
use rotating_store::StoreFault;

/// The reply to a base reply of a peer, in this block.
pub(crate) fn base_answer(room: BaseBox, taken: Result<BaseReply, OfferFault>) -> Reply
    ensures { result ≡ told.base_answer taken }
{
    match taken {
        Ok(reply) => Reply::Base(room.holding(reply)),
        Err(fault) => refusal(fault),
    }
}

/// The reply to a node of a peer.
pub(crate) fn node_answer(taken: Result<NodeReply, OfferFault>) -> Reply
    ensures { result ≡ told.node_answer taken }
{
    match taken {
        Ok(reply) => Reply::Node(reply),
        Err(fault) => refusal(fault),
    }
}

/// What a begin comes to.
pub(crate) fn begin_told(begun: Begun) -> BeginReply
    ensures { result ≡ turns.begin_told begun }
{
    match begun {
        Begun::Begun { seq, floor } => BeginReply::Begun { seq, floor },
        Begun::NotDue => BeginReply::NotDue,
        Begun::Busy => BeginReply::Busy,
    }
}

/// What the end of a rotation comes to.
pub(crate) fn swap_told(ended: Result<u64, StoreFault>) -> Result<SwapReply, BackFault>
    requires { IfErr ended IsPlain }
    ensures { result ≡ turns.swap_told ended }
{
    match ended {
        Ok(epoch) => Ok(SwapReply::Swapped(epoch)),
        Err(fault) => Err(unended(fault)),
    }
}

/// What a slice of a rotation comes to.
pub(crate) fn slice_told(sliced: Result<Left, StoreFault>) -> Result<Left, BackFault>
    requires { IfErr sliced IsPlain }
    ensures { result ≡ turns.slice_told sliced }
{
    match sliced {
        Ok(left) => Ok(left),
        Err(fault) => Err(unended(fault)),
    }
}

//! One acquisition of a ledger from many peers: what is offered is judged and stored where it is wanted, each bad part charges its
//! peer once, and a check says whom to ask for what is missing.
//!
//! A base reply charges nobody before its last part is judged. So a fault or a clash in any part leaves the acquisition as it was.
#![tactic(auto)]

mod acquire;
mod charges;
mod parts;
mod verdict;

pub use acquire::Acquire;
pub use ledger_spec::{BaseReply, CheckReply, NodeReply, PeerReply, TickReply};

//! The store machine: commands and replies, and in specs/ the state, its steps and its runs.
#![tactic(auto)]

mod base_box;
mod commands;
mod journal;
mod limits;

pub use base_box::BaseBox;
pub use commands::{
    BeginReply, CloseReply, Command, DelReply, EditReply, GetReply, Line, Nature, PageReply,
    Record, Reply, Script, SwapReply, ViewReply, WantReply,
};
pub use journal::{Entry, Totals};
pub use ledger_spec::{
    BaseReply, CheckReply, HeadOffered, NodeReply, Offered, PeerReply, Places, TickReply,
};
pub use limits::ACTORS;

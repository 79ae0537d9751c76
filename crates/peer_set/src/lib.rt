//! The peers of an acquisition: who is asked for what is missing, who is charged, and when time is up. The first peer is asked and
//! moves to the end, no place is asked for twice between two ticks, the fourth charge drops a peer for good, and the seventh tick
//! gives up.
#![tactic(auto)]

mod asked;
mod key;
mod set;

pub use ledger_spec::{Added, Ask, Charge, Places, Tick};
pub use set::PeerSet;

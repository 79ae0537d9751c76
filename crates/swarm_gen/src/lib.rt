//! The script that a swarm's plan makes: its ledgers one after another, each acquired from peers of whom
//! some lie, read, and now and then a rotation.
//!
//! The maps of its ledgers are versions of one, and asked for two things: the nodes that the version before hasn't, and the root.
#![tactic(auto)]

mod acquiring;
mod adding;
mod ledgers;
mod lines;
mod next;
mod plan;
mod state;

pub use ledgers::make;
pub use lines::Lines;
pub use plan::Plan;

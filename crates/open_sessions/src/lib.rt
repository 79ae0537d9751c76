//! The open edit sessions, each under a number of an actor's, over the store that holds the ledgers which they edit.
#![tactic(auto)]

mod open;

pub use open::Open;

//! A whole ledger in plain lines, checked in one pass: `header` and the header's 118 bytes, then `KEY DATA` for each item of the state in
//! the order of the keys, then perhaps `tx KEY DATA` for each of the transactions, all in hexadecimal. The answer is one of: the ledger is
//! whole, something differs from what the header names, or a line is refused. A line at a time is held, and two tables of open nodes.
#![tactic(auto)]

mod laws;
mod lines;
mod run;

pub use laws::{
    a_ledgers_text_is_accepted, an_accepted_input_is_a_ledger,
    whole_runs_of_one_hash_are_of_one_ledger,
};
pub use run::audit_plain;

//! What an audit comes to, in whatever form a ledger is given: its header, a pass over each of its two maps, and the verdict.
#![tactic(auto)]

mod answer;
mod audit;
mod cause;
mod counting;
mod digits;
mod laws;

pub use answer::{Answer, Sum};
pub use audit::{Audit, fault_of};
pub use cause::{Cause, LineFault};
pub use digits::{bytes_of, checked, key_of};
pub use laws::wholes_of_one_hash_are_one;

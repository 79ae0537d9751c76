//! The machine of the core: its state over a store, its tables and its open sessions, and what each command does to it.
#![tactic(auto)]

mod acquiring;
mod closing;
mod editing;
mod heeding;
mod keeping;
mod limits;
mod listing;
mod machine;
mod pages;
mod records;
mod refusals;
mod replies;
mod retained;
mod rotating;
mod tables;
mod views;

pub use machine::Machine;
pub use records::put_records;
pub use refusals::unread;
pub use rotating::Part;
pub use views::{Got, answered};

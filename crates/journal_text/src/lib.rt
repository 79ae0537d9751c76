//! The printed text of a journal: a line for each entry, the summary, and a line for each stored record.
#![tactic(auto)]

mod acquire;
mod digits;
mod entry;
mod offers;
mod reads;
mod replies;
mod sessions;
mod words;

pub use entry::{line, stored, summary};

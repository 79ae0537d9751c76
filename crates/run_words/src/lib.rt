//! The words of the command line.
#![tactic(auto)]

mod options;
mod words;

pub use words::{Usage, Words, read_words};

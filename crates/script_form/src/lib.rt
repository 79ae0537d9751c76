//! The text of a script, read into its records and its lines: what a store begins with, and the commands.
#![tactic(auto)]

mod call;
mod cause;
mod edit_call;
mod forms;
mod judging;
mod limits;
mod line;
mod records;
mod script;
mod store_line;
mod trying;
mod words;
mod wrong;

pub use cause::Cause;
pub use forms::{Argument, Form};
pub use ledger_machine::{Command, Entry, Line, Record, Script};
pub use limits::{MOST_BYTES, MOST_COMMANDS, MOST_TEXT};
pub use script::{ScriptFault, read_script};
pub use store_line::{LineFault, record_of};
pub use words::{blob_word, hash_word, id_word, kind_word, number, words_of};

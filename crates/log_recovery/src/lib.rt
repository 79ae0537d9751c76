//! What is recovered of a store over a shelf of logs: the records in the images that a stop left.
#![tactic(auto)]

mod entry;
mod parts;
mod records;

pub use entry::StoredForms;
pub use parts::{a_stop_loses_no_form, images};
pub use records::recover;

//! Maps of items that are built by fork and join over the sixteen first nibbles.
#![tactic(auto)]

mod cut;
mod items;
mod order;
mod repeated;
mod threads;

pub use items::build;
pub use order::BuildFault;

//! The core of the store: a script, the journal of what was answered, and the state after it.
#![tactic(auto)]

mod core_calls;
mod failed;
mod hall;
mod jobs;
mod laws;

pub use core_calls::{Core, OpenFault, Stepped};
pub use jobs::{Followed, Handed, ReadJob};
pub use laws::what_is_wanted_charges_nobody;

//! A run over a log shelf whose disks stop, and the core that is opened again over what a stop left of them.
#![tactic(auto)]

mod ended;
mod lines;
mod recovered;
mod reopened;

pub use ended::{StopEnd, open_stopped};
pub use reopened::{Reopened, reopen};

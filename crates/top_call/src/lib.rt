//! The top call: it reads a script or makes a swarm's, runs it over an empty store, and prints its journal.
#![tactic(auto)]

mod asking;
mod dump;
mod ends;
mod printing;
mod run;
mod status;
mod stop;

pub use dump::DumpEnd;
pub use run::{Ended, ledger_run, without_core};
pub use status::{
    CLASHED, FINE, NO_MEMORY, REFUSED, SINK_FAILED, SOURCE_FAILED, STORE_FAILED, USAGE,
};

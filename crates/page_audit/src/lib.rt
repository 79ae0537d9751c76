//! A whole ledger as a server answers it, checked in one pass: a JSON document a line, as rippled answers `ledger_data` with `binary`. Each
//! names the ledger's hash and number and has a list of the state's items; the first one has the header too, or has it alone; all but the
//! last one say that more follow. A document at a time is held, and two tables of open nodes.
#![tactic(auto)]

mod documents;
mod laws;
mod pages;
mod run;

pub use laws::{
    a_ledgers_pages_are_accepted, accepted_pages_are_a_ledger, whole_runs_give_one_ledger,
};
pub use pages::PageAudit;
pub use run::audit_pages;

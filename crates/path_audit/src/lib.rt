//! One object of a ledger's state, checked against the state's root: the forms of the nodes from the root down, one a line in hexadecimal,
//! say what the map of that root has at a key.
#![tactic(auto)]

mod answer;
mod laws;
mod nodes;
mod run;

pub use answer::PathAnswer;
pub use laws::a_path_proves_its_answer;
pub use run::audit_path;

//! An edit session over a ledger: the account state is a map that copies on write and starts as the
//! ledger's own, the transactions are a map that starts empty. Closing gives the next ledger's header and
//! the forms to store, those of nodes that the session made; what it left to the source is the ledger's.
#![tactic(auto)]

mod close;
mod laws;
mod session;

pub use close::{Closed, Fields};
pub use laws::a_session_stays_over_its_ledger;
pub use session::Session;

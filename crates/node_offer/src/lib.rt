//! What peers offer: a header for a wanted ledger, or a node for a place in one of its maps. An offer is stored only where its own hash
//! is the one that is wanted there.
#![tactic(auto)]

mod fault;
mod header;
mod laws;
mod node;
mod outcome;
mod spots;
mod store;

pub use fault::OfferFault;
pub use header::offer_header;
pub use laws::a_wanted_node_is_never_bad;
pub use node::offer;
pub use outcome::Offered;
pub use spots::{Spot, place, root_in};

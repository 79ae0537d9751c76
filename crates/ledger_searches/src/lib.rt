//! What the searches of a store share: the marks of what was found whole and the nodes that were read before, so that a search of a ledger
//! that was found whole asks the store for its header alone. Both are of one generation. As long as the store grows they stay true of it;
//! where it loses something, a turn to the next generation takes them away. A check that looks at more than 256 places does so in slices,
//! between which its search is kept here.
#![tactic(auto)]

mod hunt;
mod hunting;
mod laws;
mod searches;

pub use hunt::Hunt;
pub use laws::{a_turn_keeps_them_true, growth_keeps_them_true, nothing_is_true_of_any_store};
pub use searches::Searches;

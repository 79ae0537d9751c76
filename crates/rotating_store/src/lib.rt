//! A store over two backends, the writable one and the archive. Callers see one map. A swap drops the
//! archive: what was copied forward, or written since the last swap, stays, and nothing else.
#![tactic(auto)]

mod maps;
mod outcome;
mod own;
mod pair;
mod source;
mod store;
mod turning;
mod unchecked;

pub use outcome::{Put, StoreFault};
pub use own::{own_form, own_form_into};
pub use pair::Moved;
pub use source::Filed;
pub use store::{Parts, RotStore, Unopened};

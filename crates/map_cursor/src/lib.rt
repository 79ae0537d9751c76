//! Pages of a map: its next items behind a key, with the nodes that say so.
#![tactic(auto)]

mod cursor;
mod laws;
mod paging;
mod visits;

pub use cursor::page;
pub use laws::a_whole_map_is_paged;
pub use paging::Page;

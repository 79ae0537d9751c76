//! Backends as logs on disks, with a manifest of the live ones, and what a stop at any moment leaves of them.
#![tactic(auto)]

mod backend;
mod disk;
mod images;
mod index;
mod laws;
mod log;
mod mem_room;
mod memory;
mod reading;
mod recover;
mod room;
mod shelf;
mod span;

pub use backend::LogBackend;
pub use disk::Disk;
pub use images::images_of;
pub use index::Place64;
pub use laws::{a_stop_loses_no_pair, the_live_pairs_are_recovered};
pub use mem_room::MemRoom;
pub use memory::MemDisk;
pub use recover::{EntryTest, Found, RecoverFault, recover_where};
pub use room::Room;
pub use shelf::{LogShelf, Unmade};
pub use span::Span;

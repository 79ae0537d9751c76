//! The limits of the machine's tables, and how a swap is cut into slices.

/// The most acquisitions that are open at a time.
pub(crate) const MOST_WANTED: usize = 64;

/// The most views that are open at a time.
pub(crate) const MOST_VIEWS: usize = 1024;

/// The most sessions that are open at a time.
pub(crate) const MOST_SESSIONS: usize = 64;

/// The last sequence that a header may have.
pub(crate) const LAST_SEQ: u32 = 4_294_967_295;

/// How many slices of a rotation a swap does before it copies what is left in one section.
pub(crate) const MOST_SLICES: u32 = 64;

/// How many hashes of the walk one slice takes.
pub(crate) const MOST_COPIED: usize = 256;

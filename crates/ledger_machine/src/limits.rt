//! The number of actors, which crates above make their tables by; the other limits are numbers of specs/Limits.

/// How many actors there are, numbered from 0.
pub const ACTORS: usize = 64;

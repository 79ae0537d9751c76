//! A rotation: what is kept is copied forward in slices, and at its end the archive is dropped.
#![tactic(auto)]

mod rotator;

pub use copy_walk::Left;
pub use rotator::{Begun, Rotator};

//! A walk that copies what some hashes reach, in slices. A hash is grey while it is still to be taken, and black once it was taken and
//! found stored; kids of black hashes are shaded, so that at the end all that is reached is copied, whatever was written meanwhile.
#![tactic(auto)]

mod blacks;
mod copy;
mod kids;
mod laws;
mod walk;

pub use laws::{
    a_slice_keeps_what_was_kept, a_swap_leaves_what_is_kept_or_born, little_more_is_kept,
    the_rule_stays_along_a_section, what_the_roots_reach_is_kept,
};
pub use walk::{CopyWalk, Left};

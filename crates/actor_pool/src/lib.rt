//! Runs the actors of a script on threads, over one core under a lock.
#![tactic(auto)]

mod ahead;
mod descent;
mod gate;
mod given;
mod locked;
mod near;
mod pool;
mod reading;
mod shared;
mod worker;
mod working;

pub use gate::{Gate, OpenGate, Point};
pub use pool::run_actors;

//! Tests of the core, of the actors' threads and of the top call: scripts and the journals that they must give. Each test function is
//! proved too, so the cases are texts, run by small loops.
#![tactic(auto)]

#[cfg(test)]
mod actors;
#[cfg(test)]
mod cores;
#[cfg(test)]
mod endings;
#[cfg(test)]
mod reads;
#[cfg(test)]
mod rows;
#[cfg(test)]
mod scripts;
#[cfg(test)]
mod searches;
#[cfg(test)]
mod slices;

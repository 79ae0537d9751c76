//! Tests of the crates below, of what nothing else runs: calls that the program doesn't make, and values that no clause replaces. Each
//! test function is proved too, so the cases are texts of steps with their answers, run by small loops.
#![tactic(auto)]

#[cfg(test)]
mod builds;
#[cfg(test)]
mod logs;
#[cfg(test)]
mod maps;
#[cfg(test)]
mod records;
#[cfg(test)]
mod searches;
#[cfg(test)]
mod walks;
#[cfg(test)]
mod wires;

//! What a swarm is made from: the numbers of a plan, each with its range.

/// The plan of a swarm.
#[derive(Clone, Copy, Debug, PartialEq, Eq)]
pub struct Plan {
    /// What the keys are made from.
    pub number: u64,
    /// How many ledgers, 1 to 200.
    pub ledgers: u32,
    /// How many items of account state, 1 to 10,000.
    pub items: u32,
    /// How many peers lie, 0 to 7.
    pub liars: u32,
    /// How many actors, 3 to 64.
    pub actors: u8,
    /// The interval of rotations, 1 to 4,294,967,295.
    pub interval: u32,
}

//! What an audit answers: the ledger is whole, with what was counted of it, or the first thing that differs, or the line that was refused.

use crate::Cause;
use half_hash::Hash32;

/// A whole ledger.
#[derive(Clone, Copy, Debug)]
pub struct Sum {
    /// The ledger's hash.
    pub hash: Hash32,
    /// The ledger's number.
    pub seq: u32,
    /// The root of its state.
    pub root: Hash32,
    /// How many items its state has.
    pub objects: u64,
    /// How many transactions it has; none where they weren't given, so weren't checked.
    pub transactions: Option<u64>,
}

/// What an audit answers.
#[derive(Clone, Copy, Debug)]
pub enum Answer {
    /// The header commits to these items, all of them and no others.
    Whole(Sum),
    /// The header's hash isn't the one that is expected.
    OtherHash { wanted: Hash32, found: Hash32 },
    /// The root of the state's items isn't the one that the header names.
    OtherState { named: Hash32, found: Hash32 },
    /// The root of the transactions isn't the one that the header names.
    OtherTx { named: Hash32, found: Hash32 },
    /// The line, from 1, is none of a ledger.
    Refused { line: u64, cause: Cause },
}

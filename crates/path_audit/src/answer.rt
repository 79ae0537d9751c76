//! What a path answers: the data of the key, that there is none, or why the nodes say nothing.

use audit_core::Cause;
use half_hash::Blob;

/// What a path answers.
#[derive(Debug, Drop)]
pub enum PathAnswer {
    /// The data at the key.
    Value(Blob),
    /// The map has nothing at the key.
    Nothing,
    /// The nodes are no path from the root.
    NoPath,
    /// The line, from 1, is none of a path.
    Refused { line: u64, cause: Cause },
}

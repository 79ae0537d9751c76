//! A write that was not synced yet: what a stop may leave of it is the matter of disks in memory.

/// Bytes that were written at a place.
#[derive(Drop)]
pub struct Span {
    /// The first of them.
    pub at: u64,
    /// The bytes.
    pub bytes: Vec<u8>,
}

//! What was answered: an entry for each line, and the totals that end a journal.
use crate::Reply;
use shamap_node::Node;
use std::sync::Arc;

/// The answer to one line.
#[derive(Drop)]
pub struct Entry {
    /// The line's number.
    pub line: u32,
    /// Whose line it was.
    pub actor: u8,
    pub reply: Reply,
    /// The nodes that a read used, root first; none for other commands.
    pub used: Vec<Arc<Node>>,
}

/// The numbers of a run's summary.
#[derive(Clone, Copy, Debug, PartialEq, Eq)]
pub struct Totals {
    /// How many ledgers were reported complete.
    pub complete: u32,
    /// How many ledgers were closed.
    pub closed: u32,
    /// How many ledgers are listed at the end.
    pub listed: u32,
    pub floor: u32,
    pub last: Option<u32>,
    pub epoch: u64,
}

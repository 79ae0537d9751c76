//! What is answered to a peer's command, and to a check. `NotOpen` is for the machine, that knows which acquisitions are open. A fault of
//! the store, a clash and want of memory are no replies of these.

use crate::{HeadOffered, Offered, Place, Places};

/// What became of a peer that joins.
#[derive(Drop)]
pub enum PeerReply {
    Added,
    /// It was added before; perhaps it was dropped since.
    Known,
    /// No acquisition is open under the target.
    NotOpen,
}

/// What became of a base reply.
#[derive(Drop)]
pub enum BaseReply {
    /// An outcome for each part that was given.
    Parts {
        header: HeadOffered,
        state: Option<Offered>,
        tx: Option<Offered>,
    },
    /// The peer isn't present.
    Unasked,
    /// No acquisition is open under the target.
    NotOpen,
}

/// What became of a node.
#[derive(Drop)]
pub enum NodeReply {
    One(Offered),
    /// The peer isn't present.
    Unasked,
    /// No acquisition is open under the target.
    NotOpen,
}

/// What a check comes to.
#[derive(Drop)]
pub enum CheckReply {
    /// Nothing is missing or broken.
    Complete,
    /// This peer is asked for these places.
    Need { peer: u16, places: Places },
    /// So many places are missing, and all were asked since the last tick.
    Waiting(usize),
    /// Places are missing, and no peer is present.
    NoPeer,
    /// The header has another sequence than the one that was asked for.
    SeqDiffers { asked: u32, found: u32 },
    /// The header has no state map.
    ZeroState,
    /// The header's sequence is below this floor.
    BelowFloor(u32),
    /// What is stored breaks the rule of this number at this place.
    Malformed { place: Place, rule: u8 },
    /// No acquisition is open under the target.
    NotOpen,
}

/// What comes of a tick: its number, from 1.
#[derive(Drop)]
pub enum TickReply {
    Timeout(u8),
    GaveUp(u8),
    /// No acquisition is open under the target.
    NotOpen,
}

//! What a script says: commands, the lines in which actors give them, and the records that a store begins with. What is answered: `Reply`
//! has a case for each command, and what any command may come to beside it.
ghost use Rattle.std.specs.Prelude.{◌≡◌};
ghost use Rattle.ledger_machine.specs.Commands.{nature_of};

use crate::base_box::BaseBox;
use half_hash::{Blob, Hash32};
use ledger_spec::{CheckReply, NodeReply, PeerReply, TickReply};
use nib_path::NodeId;
use shamap_node::{Item, Kind, Node};
use std::sync::Arc;

/// One command. Targets are shared by all actors; views and sessions are numbered by each actor
/// for itself.
#[derive(Drop)]
pub enum Command {
    /// Opens the acquisition of a ledger; sequence 0 means any.
    Want {
        target: Hash32,
        seq: u32,
    },
    /// Adds a peer to an acquisition.
    Peer {
        peer: u16,
        target: Hash32,
    },
    /// A peer's base reply: the header, and the root nodes of the two maps where they are given.
    Base {
        peer: u16,
        target: Hash32,
        header: Blob,
        state: Option<Blob>,
        tx: Option<Blob>,
    },
    /// A peer's node for a place of a map.
    Node {
        peer: u16,
        target: Hash32,
        kind: Kind,
        id: NodeId,
        blob: Blob,
    },
    /// Searches the ledger for what is missing.
    Check {
        target: Hash32,
    },
    /// Time has passed for an acquisition.
    Tick {
        target: Hash32,
    },
    /// Pins a ledger under a number of the actor's.
    View {
        view: u16,
        target: Hash32,
    },
    /// Ends a view.
    Unview {
        view: u16,
    },
    /// Reads a key in a view's map.
    Get {
        view: u16,
        kind: Kind,
        key: Hash32,
    },
    /// Reads the first items behind a key in a view's map.
    Page {
        view: u16,
        kind: Kind,
        after: Hash32,
        n: u16,
    },
    /// Opens a session of edits on a ledger.
    Edit {
        session: u16,
        target: Hash32,
    },
    /// Sets an entry of a session's account state.
    Put {
        session: u16,
        item: Item,
    },
    /// Removes an entry of a session's account state.
    Del {
        session: u16,
        key: Hash32,
    },
    /// Sets a transaction of a session.
    Tx {
        session: u16,
        item: Item,
    },
    /// Closes a session into a new ledger: total drops, close time, resolution, flags.
    Close {
        session: u16,
        fields: [u64; 4],
    },
    /// Ends a session without a ledger.
    Abandon {
        session: u16,
    },
    /// Begins a rotation.
    Begin,
    /// Ends the rotation that is under way.
    Swap,
}

/// What the core does for a command.
#[derive(Clone, Copy)]
pub enum Nature {
    /// It changes the tables of acquisitions, and what is stored.
    Table,
    /// It searches a ledger, in slices.
    Check,
    /// It reads nodes below a view.
    Read,
    /// It opens a view, which a session's ledger may have.
    View,
    /// It ends a view.
    Unview,
    /// It opens, changes or ends a session.
    Session,
    /// It begins a rotation.
    Begin,
    /// It ends a rotation, in slices.
    Swap,
}

impl Command {
    /// What the core does for it.
    pub fn nature(&self) -> Nature
        ensures { result ≡ nature_of self.now }
    {
        match self {
            Command::Want { .. } => Nature::Table,
            Command::Peer { .. } => Nature::Table,
            Command::Base { .. } => Nature::Table,
            Command::Node { .. } => Nature::Table,
            Command::Check { .. } => Nature::Check,
            Command::Tick { .. } => Nature::Table,
            Command::View { .. } => Nature::View,
            Command::Unview { .. } => Nature::Unview,
            Command::Get { .. } => Nature::Read,
            Command::Page { .. } => Nature::Read,
            Command::Edit { .. } => Nature::Session,
            Command::Put { .. } => Nature::Session,
            Command::Del { .. } => Nature::Session,
            Command::Tx { .. } => Nature::Session,
            Command::Close { .. } => Nature::Session,
            Command::Abandon { .. } => Nature::Session,
            Command::Begin => Nature::Begin,
            Command::Swap => Nature::Swap,
        }
    }
}

/// The answers to `want`.
#[derive(Drop)]
pub enum WantReply {
    Opened,
    Open,
    Listed,
    BelowFloor(u32),
    TooMany,
}

/// The answers to `view`.
#[derive(Drop)]
pub enum ViewReply {
    Fine,
    NotRetained,
    InUse,
    TooMany,
}

/// The answers to `get`; the value is the data of the leaf.
#[derive(Drop)]
pub enum GetReply {
    Value(Arc<Node>),
    Nothing,
    NoView,
}

/// The answers to `page`: leaves, keys rising.
#[derive(Drop)]
pub enum PageReply {
    Items(Vec<Arc<Node>>),
    NoView,
}

/// The answers to `edit`.
#[derive(Drop)]
pub enum EditReply {
    Fine,
    NotRetained,
    LastSeq,
    InUse,
    TooMany,
}

/// The answers to `del`.
#[derive(Drop)]
pub enum DelReply {
    Fine,
    Absent,
    NoSession,
}

/// The answers to `close`.
#[derive(Drop)]
pub enum CloseReply {
    Closed(Hash32),
    Listed,
    BelowFloor(u32),
    ZeroState,
    NoSession,
}

/// The answers to `begin`.
#[derive(Drop)]
pub enum BeginReply {
    Begun { seq: u32, floor: u32 },
    NotDue,
    Busy,
}

/// The answers to `swap`: the new epoch.
#[derive(Drop)]
pub enum SwapReply {
    Swapped(u64),
    Idle,
}

/// The answer to a command. Any command but `tick`, `unview` and `abandon` may meet a fault of the store or want memory; a `Clash` is a
/// form under a hash that already has another form, and a `ZeroHash` a form whose hash is zero.
#[derive(Drop)]
pub enum Reply {
    Fault,
    Memory,
    Clash { hash: Hash32, old: Blob, new: Blob },
    ZeroHash(Blob),
    Want(WantReply),
    Peer(PeerReply),
    Base(BaseBox),
    Node(NodeReply),
    Check(CheckReply),
    Tick(TickReply),
    View(ViewReply),
    Unview(bool),
    Get(GetReply),
    Page(PageReply),
    Edit(EditReply),
    Put(bool),
    Tx(bool),
    Abandon(bool),
    Del(DelReply),
    Close(CloseReply),
    Begin(BeginReply),
    Swap(SwapReply),
}

/// A line of a script.
#[derive(Drop)]
pub struct Line {
    /// The line's number in the script, from 1.
    pub number: u32,
    /// Whose line it is, 0 to 63.
    pub actor: u8,
    /// The earlier line whose answer this one waits for, or 0.
    pub after: u32,
    pub command: Command,
}

/// A stored form that a script begins with.
#[derive(Drop)]
pub struct Record {
    /// The form's hash.
    pub hash: Hash32,
    /// The form of a node or a header.
    pub form: Blob,
}

/// A script: what the store begins with, and the command lines in order.
#[derive(Drop)]
pub struct Script {
    pub records: Vec<Record>,
    pub lines: Vec<Line>,
}

//! Points of an actor's run, and the gate that is handed in and told of them. A run passes it before each section that may record an entry,
//! after each that did, between the slices of a command, and round each fetch of a node for a read outside of the core's lock.

/// Where an actor stands. No lock is held there.
#[derive(Clone, Copy, Debug, PartialEq, Eq)]
pub enum Point {
    /// Before a node is fetched for a read.
    BeforeFetch,
    /// After a node was fetched for a read.
    AfterFetch,
    /// Before a section on the core.
    BeforeCommit,
    /// Between two slices of one command.
    BetweenSlices,
    /// After a section that recorded an entry.
    Answered,
}

/// Is passed by each actor at each point of its run, outside every lock.
pub trait Gate: Sync {
    /// The actor comes to the point, and goes on as this call returns.
    fn pass(&self, actor: u8, point: Point);

    /// Whether every call of `pass` returns at once and does nothing. An actor then needn't stop at its points, so that it may do several
    /// lines in one section, and needs no worker for lines that ask for no read.
    fn is_open(&self) -> bool {
        false
    }
}

/// A gate that lets every actor pass at once.
#[derive(Clone, Copy, Debug)]
pub struct OpenGate;

impl Gate for OpenGate {
    fn pass(&self, _actor: u8, _point: Point) {}

    fn is_open(&self) -> bool {
        true
    }
}

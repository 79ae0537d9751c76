//! Nodes as peers send them: bytes that end in a type byte (XRP Ledger documentation, "Peer protocol"). Type 0 is a bare
//! transaction, its data; 1 an account state and 4 a transaction with metadata, each its data and then its key; 2 a full inner
//! node, its sixteen hashes; 3 a compressed inner node, a chunk for each branch that isn't empty: its hash and its position.
#![tactic(auto)]

mod chunks;
mod fault;
mod laws;
mod reading;
mod writing;

pub use fault::{WireFault, wire_code};
pub use laws::{one_wire_node, read_is_wire, written_is_read};
pub use reading::decode_wire;
pub use writing::{encode_wire, leaf_wire};

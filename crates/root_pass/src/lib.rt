//! The root of a map whose items come in the order of their keys, in one pass and with no memory beside a table of 64 rows.
//!
//! What is open is the way of the last key: an inner node for each depth down to where the last two keys part. An item's leaf waits until
//! the next key is known: its place is below the deepest node that the key shares with the one before it or with the one behind it.
//! Then each open node that the next key doesn't lie under is complete. It is hashed, once, and its hash put into the node above.
//!
//! Of keys 12.., 14.. and 5.., in nibbles: at 12.. the root is open, at 14.. the root and the node 1 with the leaf of 12.. at its branch 2,
//! and at 5.. the root alone, with the hash of the node 1 at its branch 1.
#![tactic(auto)]

mod forms;
mod pass;
mod rows;

pub use pass::{NotBehind, Pass};

//! Laws of what is recovered after a stop, each the contract of an empty function.
ghost use Rattle.std.specs.Prelude.{◌≡◌, ◌++◌, ℕ, Bool, true, IsTrue, List, Option, Some};
ghost use Rattle.std.specs.FinMap as map;
ghost use Rattle.ledger_spec.specs.Bytes.{Bytes, Hash, Nodes};
ghost use Rattle.node_backend.specs.Numbers.{is_among};
ghost use Rattle.node_backend.specs.Doubts.{Pair};
ghost use Rattle.log_shelf.specs.Rooms.{Files};
ghost use Rattle.log_shelf.specs.Shelves.{LosesNoPair};
ghost use Rattle.log_shelf.specs.Recovery.{IsStopped, IsKept, IsRecovered};

use crate::{LogShelf, Room};

/// Over any files that a stop left of a shelf and its backends, each pair of a live backend that is a record is recovered.
pub fn the_live_pairs_are_recovered()
    ensures { (live undone : List ℕ) (held : ℕ → Nodes) (doubt : ℕ → Option Pair) (files : Files) (is_record : List ℕ
        → Bool) (found : Nodes)
        → IsStopped live undone held doubt files → IsKept live undone held doubt → IsRecovered is_record files found
        → (n : ℕ) (h : Hash) (v : Bytes) → IsTrue (is_among live n) → map.get (held n) h ≡ Some v → is_record (h ++ v) ≡ true
        → map.get found h ≡ Some v }
{}

/// Over any files that a stop left of this shelf and its backends, each of their pairs that is a record is recovered.
pub fn a_stop_loses_no_pair<R: Room>(shelf: &LogShelf<R>)
    ensures { LosesNoPair shelf.now }
{
    let _shelf = shelf;
}

//! Laws of maps, for proofs: each is the contract of a function that does nothing.
ghost use Rattle.cow_map.specs.Laws.{TopIsRoot, MadeAreOfTree, IsFiniteMap, IsFree};
ghost use Rattle.cow_map.specs.Unloaded.{StaysOverReach, IsLeftWhole, StandsAnywhere};

/// The hash of a map's top is the root hash of the map that it stands for.
pub fn the_top_is_the_root()
    ensures { TopIsRoot }
{}

/// The forms that a map has made are those of the tree of the map that it stands for, in their order, but for some that the source holds.
pub fn the_forms_made_are_the_trees()
    ensures { MadeAreOfTree }
{}

/// What a map stands for is a finite map of items, and of its kind's items where they are bytes, but for bare transactions.
pub fn a_map_stands_for_items()
    ensures { IsFiniteMap }
{}

/// A map stands for the same over any source that has the same under all that its unloaded hashes reach.
pub fn a_map_stays_over_what_it_reaches()
    ensures { StaysOverReach }
{}

/// Nothing stops one on the way of a key through a map that stands for something: no node of it is absent,
/// and none breaks a rule of shape.
pub fn nothing_is_in_the_way()
    ensures { IsFree }
{}

/// What a map that stands for something leaves to its source is held there, and whole at its place.
pub fn what_is_left_is_whole()
    ensures { IsLeftWhole }
{}

/// A map that needs no source stands for the same over each, and leaves nothing to it.
pub fn a_map_without_a_source_stands_anywhere()
    ensures { StandsAnywhere }
{}

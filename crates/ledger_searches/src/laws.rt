//! Laws of what searches share, each the contract of an empty function: it stays true as a store grows, and as the generation turns.
ghost use Rattle.ledger_spec.specs.Bytes.{Half, Lookup};
ghost use Rattle.ledger_spec.proofs.shared.ReachLaws.{Grows};
ghost use Rattle.ledger_searches.specs.declared.searches.Searches.{Searches};
ghost use Rattle.ledger_searches.specs.Sharing.{IsEmpty, IsTurned, AreTrueOf};

/// What is added to the store leaves marks, cached nodes and begun searches true.
pub fn growth_keeps_them_true()
    ensures { (half : Half) (before after : Lookup) (x : Searches) → Grows before after → AreTrueOf half before x → AreTrueOf half after x }
{}

/// Where nothing is marked or cached and no search was begun, that is true of any store.
pub fn nothing_is_true_of_any_store()
    ensures { (half : Half) (nodes : Lookup) (x : Searches) → IsEmpty x → AreTrueOf half nodes x }
{}

/// Behind a turn what is shared is true of any store: nothing is marked or cached, and each begun search is of a generation before.
pub fn a_turn_keeps_them_true()
    ensures { (half : Half) (before after : Lookup) (x x' : Searches) → IsTurned x x' → AreTrueOf half before x → AreTrueOf half after x' }
{}

//! Laws of the colours, each the contract of an empty function.
ghost use Rattle.std.specs.Prelude.{◌≡◌, ◌⊎◌, ◌↔◌, ◌∷◌, [], ℕ, true, List, Some, None};
ghost use Rattle.ledger_spec.specs.Reach.{Reach, Stored};
ghost use Rattle.copy_walk.specs.Walks.{Keeps};
ghost use Rattle.copy_walk.specs.Scenes.{Scene, Rule};
ghost use Rattle.copy_walk.specs.Moves.{Writes, AddsRoot, Slices, Swaps, Section};

/// The rule holds at the end of each section that it held at the begin of.
pub fn the_rule_stays_along_a_section()
    ensures { (s s' : Scene) → Rule s → Section s s' → Rule s' }
{}

/// All that the roots reach is kept while a rotation is under way.
pub fn what_the_roots_reach_is_kept()
    ensures { (s : Scene) → s.turning ≡ true → Rule s → (h : List ℕ) → Reach s.nodes s.roots h → Keeps s.nodes s.walk h }
{}

/// A slice keeps what was kept, and nothing else.
pub fn a_slice_keeps_what_was_kept()
    ensures { (s s' : Scene) → Slices s s' → Rule s → (h : List ℕ) → Keeps s.nodes s.walk h ↔ Keeps s'.nodes s'.walk h }
{}

/// What is kept after a write with its shade was kept, or is reached from what was written; and after a new root from that.
pub fn little_more_is_kept()
    ensures write { (s s' : Scene) (h form : List ℕ) → s.turning ≡ true → Writes s h form s' → (q : List ℕ) → Keeps s'.nodes s'.walk q
        → Keeps s.nodes s.walk q ⊎ Reach s'.nodes (h ∷ []) q }
    ensures root { (s s' : Scene) (h : List ℕ) → s.turning ≡ true → AddsRoot s h s' → (q : List ℕ) → Keeps s'.nodes s'.walk q
        → Keeps s.nodes s.walk q ⊎ Reach s'.nodes (h ∷ []) q }
{}

/// A swap takes no hash that is kept, and leaves no other one that the archive held.
pub fn a_swap_leaves_what_is_kept_or_born()
    ensures fewer { (s s' : Scene) → Swaps s s' → Rule s → (h form : List ℕ) → s'.nodes h ≡ Some form → s.nodes h ≡ Some form }
    ensures stays { (s s' : Scene) → Swaps s s' → Rule s → (h : List ℕ) → Keeps s.nodes s.walk h → s'.nodes h ≡ s.nodes h }
    ensures only { (s s' : Scene) → Swaps s s' → Rule s → (h : List ℕ) → Stored s'.nodes h
        → Keeps s.nodes s.walk h ⊎ (s.old h ≡ None) }
{}

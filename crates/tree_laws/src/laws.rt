//! Laws of the definitions, each the contract of an empty function.
ghost use Rattle.std.specs.Prelude.{◌≡◌, ℕ, List, Some, length};
ghost use Rattle.ledger_spec.specs.declared.Kind.{Kind};
ghost use Rattle.ledger_spec.specs.Bytes.{Lookup, IsHalf};
ghost use Rattle.ledger_spec.specs.Commits.{AreOwn, AreByteForms, IsWholeMap, Commits};
ghost use Rattle.ledger_spec.specs.Findings.{Whole};
ghost use Rattle.ledger_spec.specs.Forms.{Held};
ghost use Rattle.ledger_spec.specs.Header.{state_root_of, tx_root_of};
ghost use Rattle.ledger_spec.specs.Spots.{header_in};
ghost use Rattle.std.specs.List.{AllByRecursion};
ghost use Rattle.ledger_spec.specs.Bytes.{Items};
ghost use Rattle.ledger_spec.specs.Findings.{items_of};
ghost use Rattle.ledger_spec.specs.Pages.{IsPageOf, after_key, IsPageOrShows, IsStoredNode};
ghost use Rattle.ledger_spec.specs.Reads.{Outcome, follow, IsKey, AreNodes, AnswersOrShows};

/// A path answers, or shows a collision: where nodes lead from a root to an outcome at a key, it is
/// the answer of every map of items with this root, or somewhere on the path a node that was read and
/// the map's own one differ and have one hash.
pub fn a_path_answers_or_shows()
    ensures { (half : List ℕ → List ℕ) → IsHalf half
        → (kind : Kind) (root key : List ℕ) (used : List Held) (outcome : Outcome)
        → IsKey key → AreNodes half kind used
        → follow half kind root key used ≡ Some outcome → AnswersOrShows half kind root key used outcome }
{}

/// A whole map commits to its items: where nothing is missing or broken below a root, and each form
/// is bytes and stored under its own hash, the leaves are a finite map of items whose tree has this root.
pub fn a_whole_map_commits_to_its_items()
    ensures { (half : List ℕ → List ℕ) → IsHalf half
        → (nodes : Lookup) → AreOwn half nodes → AreByteForms nodes
        → (kind : Kind) (root : List ℕ) → length root ≡ 32
        → IsWholeMap half nodes kind root → Commits half nodes kind root }
{}

/// So do both maps of a whole ledger, whose roots its header names.
pub fn a_whole_ledger_commits_to_its_items()
    ensures { (half : List ℕ → List ℕ) → IsHalf half
        → (nodes : Lookup) → AreOwn half nodes → AreByteForms nodes
        → (target header : List ℕ) → header_in nodes target ≡ Some header → Whole half nodes target
        → Commits half nodes Kind.State (state_root_of header) × Commits half nodes Kind.Tx (tx_root_of header) }
{}

/// A page is the map's own, or shows a collision: where nodes say the first items behind a key below a
/// root, these are the items of every map with this root, or at some place a node that was read and the
/// map's own one differ and have one hash.
pub fn a_page_answers_or_shows()
    ensures { (half : List ℕ → List ℕ) → IsHalf half
        → (kind : Kind) (root after : List ℕ) (n : ℕ) (used : List Held) (page : Items) → IsKey after → AreNodes half kind used
        → IsPageOf half kind root after n used page → IsPageOrShows half kind root after n used page }
{}

/// Where these nodes are stored, the page is that of the store's own map below the root.
pub fn a_page_is_the_stores()
    ensures { (half : List ℕ → List ℕ) (nodes : Lookup) (kind : Kind) (root after : List ℕ) → IsKey after
        → (n : ℕ) (used : List Held) (page : Items)
        → AllByRecursion (IsStoredNode half nodes) used → IsPageOf half kind root after n used page
        → page ≡ after_key after n (items_of half nodes kind root) }
{}

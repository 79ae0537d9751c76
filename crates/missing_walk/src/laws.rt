//! Laws of the rule on marks, cache and searches.
ghost use Rattle.std.specs.Prelude.{◌≡◌, ◌+◌, []};
ghost use Rattle.ledger_spec.specs.Bytes.{Half, Lookup};
ghost use Rattle.ledger_spec.proofs.shared.ReachLaws.{Grows};
ghost use Rattle.full_below.specs.declared.marks.Marks.{Marks};
ghost use Rattle.tree_cache.specs.declared.cache.TreeCache.{TreeCache};
ghost use Rattle.missing_walk.specs.declared.search.Search.{Search};
ghost use Rattle.missing_walk.specs.Searching.{IsNew, Rule};

/// What is added to the store keeps the rule.
pub fn growth_keeps_the_rule()
    ensures { (half : Half) (before after : Lookup) (s : Search) (c : TreeCache) (m : Marks) → Grows before after → Rule half before s c m
        → Rule half after s c m }
{}

/// Where marks and cache have turned, the rule holds over any store: no search of the generation before is one of this.
pub fn a_turn_keeps_the_rule()
    ensures { (half : Half) (before after : Lookup) (s : Search) (c c' : TreeCache) (m m' : Marks) → Rule half before s c m
        → c'.entries.entries ≡ [] → m'.entries.entries ≡ [] → m'.generation ≡ m.generation + 1 → Rule half after s c' m' }
{}

/// A search that nobody has begun keeps the rule.
pub fn a_new_search_keeps_the_rule()
    ensures { (half : Half) (nodes : Lookup) (s s' : Search) (c : TreeCache) (m : Marks) → Rule half nodes s c m
        → IsNew s' → Rule half nodes s' c m }
{}

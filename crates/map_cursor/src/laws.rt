//! Laws of pages, each the contract of an empty function.
ghost use Rattle.std.specs.Prelude.{◌≡◌, ◌⊎◌, ℕ, List, true};
ghost use Rattle.ledger_spec.specs.declared.Kind.{Kind};
ghost use Rattle.ledger_spec.specs.Bytes.{Lookup};
ghost use Rattle.ledger_spec.specs.Commits.{IsWholeMap};
ghost use Rattle.ledger_spec.specs.Pages.{heard_from};
ghost use Rattle.path_proof.specs.declared.answer.ReadFault.{ReadFault};
ghost use Rattle.map_cursor.specs.Visits.{Refused};

/// A page of a whole map meets no absent node and no misshapen one: where a source tells what it holds,
/// and nothing is missing or broken below the root, it can only fail by a fault or for want of memory.
pub fn a_whole_map_is_paged()
    ensures { (half : List ℕ → List ℕ) (nodes : Lookup) (kind : Kind) (root after : List ℕ) (n : ℕ) (fault : ReadFault)
        → IsWholeMap half nodes kind root → Refused half kind true nodes (heard_from half kind root after) n fault
        → (fault ≡ ReadFault.Fault) ⊎ (fault ≡ ReadFault.Memory) }
{}

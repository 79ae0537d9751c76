//! Laws of reads, each the contract of an empty function.
ghost use Rattle.std.specs.Prelude.{◌≡◌, ◌⊎◌, ℕ, List, true};
ghost use Rattle.ledger_spec.specs.declared.Kind.{Kind};
ghost use Rattle.ledger_spec.specs.Bytes.{Lookup};
ghost use Rattle.ledger_spec.specs.Commits.{IsWholeMap};
ghost use Rattle.ledger_spec.specs.Reads.{IsKey};
ghost use Rattle.path_proof.specs.Ways.{HasCause};
ghost use Rattle.path_proof.specs.declared.answer.ReadFault.{ReadFault};

/// A read of a whole map meets no absent node and no misshapen one: where a source tells what it
/// holds, and nothing is missing or broken below the root, it can only fail by a fault or for want of memory.
pub fn a_whole_map_is_read()
    ensures { (half : List ℕ → List ℕ) (nodes : Lookup) (kind : Kind) (root key : List ℕ) (fault : ReadFault)
        → IsKey key → IsWholeMap half nodes kind root → HasCause half kind root key true nodes fault
        → (fault ≡ ReadFault.Fault) ⊎ (fault ≡ ReadFault.Memory) }
{}

//! Laws of offers, each the contract of an empty function.
ghost use Rattle.std.specs.Prelude.{◌≡◌, false, ℕ, IfOk, List, Ok, Option};
ghost use Rattle.ledger_spec.specs.declared.Kind.{Kind};
ghost use Rattle.ledger_spec.specs.Bytes.{Lookup};
ghost use Rattle.ledger_spec.specs.Forms.{Held, hash_of};
ghost use Rattle.ledger_spec.specs.Offers.{node_outcome};
ghost use Rattle.ledger_spec.specs.Spots.{spot_of, wanted};
ghost use Rattle.ledger_spec.specs.Wire.{read_wire};
ghost use Rattle.ledger_spec.specs.Acquiring.{is_bad};

/// A node with the hash that is wanted at its place never charges its peer.
pub fn a_wanted_node_is_never_bad()
    ensures { (half : List ℕ → List ℕ) (nodes : Lookup) (target : List ℕ) (kind : Kind) (path blob : List ℕ)
        → (n : Held) (h : List ℕ) (parent : Option (List (List ℕ)))
        → read_wire half blob ≡ Ok n → spot_of nodes target kind path ≡ wanted h parent → hash_of half n ≡ h
        → IfOk (node_outcome half nodes target kind path blob) (λ o. is_bad o ≡ false) }
{}

//! Laws of the machine's steps, each the contract of an empty function.
ghost use Rattle.std.specs.Prelude.{◌≡◌, ℕ, List, Option};
ghost use Rattle.ledger_spec.specs.declared.Kind.{Kind};
ghost use Rattle.ledger_spec.specs.Forms.{Held};
ghost use Rattle.acquire_core.specs.Replies.{IsWanted, AreWanted};
ghost use Rattle.ledger_machine.specs.declared.commands.Command.{Command};
ghost use Rattle.ledger_machine.specs.declared.commands.Reply.{Reply};
ghost use Rattle.ledger_machine.specs.State.{State, form_in};
ghost use Rattle.ledger_machine.specs.Steps.{Step};

/// A blob whose node has the wanted hash never charges its peer: a node that is wanted leaves every acquisition as it was, and so does a
/// base reply whose header and roots are.
pub fn what_is_wanted_charges_nobody()
    ensures node { (half : List ℕ → List ℕ) (s s' : State) (a p : ℕ) (t : List ℕ) (kind : Kind) (path blob : List ℕ) (reply : Reply)
        (used : List Held)
        → Step half s a (Command.Node p t kind path blob) reply used s' → IsWanted half (form_in s) t kind path blob
        → s'.wanted ≡ s.wanted }
    ensures base { (half : List ℕ → List ℕ) (s s' : State) (a p : ℕ) (t header : List ℕ) (state tx : Option (List ℕ)) (reply : Reply)
        (used : List Held)
        → Step half s a (Command.Base p t header state tx) reply used s' → AreWanted half (form_in s) t header state tx
        → s'.wanted ≡ s.wanted }
{}

//! Laws of the machine, each the contract of an empty function.
ghost use Rattle.std.specs.Prelude.{◌≡◌, ◌++◌, ◌∷◌, [], ℕ, List, Some, IsSome};
ghost use Rattle.std.specs.List.{Contains};
ghost use Rattle.std.specs.FinMap as map;
ghost use Rattle.ledger_spec.specs.Bytes.{Nodes, IsHalf};
ghost use Rattle.ledger_spec.specs.Commits.{IsWholeMap};
ghost use Rattle.ledger_spec.specs.declared.Kind.{Kind};
ghost use Rattle.ledger_spec.specs.Forms.{Held};
ghost use Rattle.ledger_spec.specs.Maps.{ForActor};
ghost use Rattle.ledger_spec.specs.Reach.{Reach};
ghost use Rattle.ledger_machine.specs.State.{State, Session, form_in, opening, retained, roots, with_sessions, Kept};
ghost use Rattle.ledger_machine.specs.Sound.{Sound, IsStoredAt};
ghost use Rattle.ledger_machine.specs.Reading.{view_root};
ghost use Rattle.ledger_machine.specs.Commands.{IsInRange, IsBeside};
ghost use Rattle.ledger_machine.specs.Scripts.{IsLedgerMap};
ghost use Rattle.ledger_machine.specs.Rotation.{AreShaded, Tells, WhileTurning};
ghost use Rattle.ledger_machine.specs.Steps.{Does, Step, own_hashes};
ghost use Rattle.ledger_machine.specs.Runs.{Run, Answers, IsRunOf, opening_of};
ghost use Rattle.ledger_machine.specs.Records.{AreRecords};
ghost use Rattle.ledger_machine.specs.Receipts.{AllStay};
ghost use Rattle.ledger_machine.specs.Exact.{AreEveryMaps};
ghost use Rattle.ledger_machine.specs.Complete.{IsAllStored, IsExact, AreExact};
ghost use Rattle.ledger_machine.specs.Collisions.{brought_by, ShowsIn};
ghost use Rattle.ledger_machine.specs.Swaps.{AllSwapsKeep};
ghost use Rattle.ledger_machine.specs.Throughout.{AreInOrder};
ghost use Rattle.ledger_machine.specs.declared.commands.Command.{Command};
ghost use Rattle.ledger_machine.specs.declared.commands.Line.{Line};
ghost use Rattle.ledger_machine.specs.declared.commands.Record.{Record};
ghost use Rattle.ledger_machine.specs.declared.journal.Entry.{Entry};
ghost use Rattle.ledger_spec.specs.declared.replies.CheckReply.{CheckReply};
ghost use Rattle.ledger_machine.specs.declared.commands.Reply.{Reply};

/// A store that has only records, each a form under its own hash, is sound.
pub fn the_opening_is_sound()
    ensures { (half : List ℕ → List ℕ) (records : Nodes) (interval : ℕ)
        → ((h form : List ℕ) → map.get records h ≡ Some form → IsStoredAt half h form)
        → Sound half (opening records interval) }
{}

/// So is one that has only a script's records.
pub fn the_records_are_sound()
    ensures { (half : List ℕ → List ℕ) (records : List Record) (interval : ℕ)
        → AreRecords half records → Sound half (opening_of records interval) }
{}

/// A run goes on by one step.
pub fn a_run_goes_on()
    ensures { (half : List ℕ → List ℕ) (lines : List Line) (s mid s' : State) (entries : List Entry) (e : Entry)
        → Run half lines s entries mid → Answers half lines mid e s' → Run half lines s (entries ++ e ∷ []) s' }
{}

/// Each step of a command that is in range leads from a sound state to a sound state.
pub fn steps_keep_the_store_sound()
    ensures { (half : List ℕ → List ℕ) → IsHalf half → (s s' : State) (a : ℕ) (c : Command) (reply : Reply) (used : List Held)
        → IsInRange c → Sound half s → Step half s a c reply used s' → Sound half s' }
{}

/// So does each run along a journal, where the script's commands are in range.
pub fn a_run_keeps_the_store_sound()
    ensures { (half : List ℕ → List ℕ) → IsHalf half → (lines : List Line) (s : State) (entries : List Entry) (s' : State)
        → ((l : Line) → Contains lines l → IsInRange l.command)
        → Sound half s → Run half lines s entries s' → Sound half s' }
{}

/// Each state of a run from a sound state, the first and the last too, is sound; each node that a retained ledger reaches is stored in it,
/// and each map of an open view is a finite map of items, which the stored nodes commit to.
pub fn each_state_of_a_run_is_in_order()
    ensures { (half : List ℕ → List ℕ) → IsHalf half → (lines : List Line) → ((l : Line) → Contains lines l → IsInRange l.command)
        → (s : State) (entries : List Entry) (s' : State) (run : Run half lines s entries s') → Sound half s
        → AreInOrder half lines s entries s' run }
{}

/// What a command that names no session, and sees none, does is the same whatever sessions are open.
pub fn a_row_is_one_beside_any_sessions()
    ensures { (half : List ℕ → List ℕ) (sessions : ForActor Session) (s s' : State) (a : ℕ) (c : Command) (reply : Reply) (used : List Held)
        → IsBeside c → Does half s a c reply used s'
        → Does half (with_sessions s sessions) a c reply used (with_sessions s' sessions) }
{}

/// What a command does is a step, provided that a rotation that is under way was told each root, and nothing else but roots and the
/// command's own hashes.
pub fn a_step_carries_what_was_told()
    ensures { (half : List ℕ → List ℕ) → (s s' : State) (a : ℕ) (c : Command) (reply : Reply) (used : List Held)
        → Does half s a c reply used s'
        → WhileTurning s.turning s'.turning (AreShaded s' × Tells s s' (own_hashes half s a c reply))
        → Step half s a c reply used s' }
{}

/// While a rotation is under way, what it keeps has all that retained ledgers and open acquisitions reach.
pub fn a_rotation_keeps_what_the_roots_reach()
    ensures { (half : List ℕ → List ℕ) (records : List Record) (lines : List Line) (interval : ℕ) (entries : List Entry) (s' : State)
        → IsRunOf half records lines interval entries s' → IsSome s'.turning
        → (h : List ℕ) → Reach (form_in s') (roots s') h → Kept s' h }
{}

/// Each swap of a run takes nothing that a retained ledger or an open acquisition reaches. It leaves nothing but what was born in the epoch
/// that ended, and what was kept: that was reached, at a step since the rotation began, from the roots then or from the command's own
/// forms.
pub fn swaps_leave_what_is_kept_or_born()
    ensures { (half : List ℕ → List ℕ) (records : List Record) (lines : List Line) (interval : ℕ) (entries : List Entry) (s' : State)
        (run : IsRunOf half records lines interval entries s')
        → AllSwapsKeep half lines (λ h. ⊥) (opening_of records interval) entries s' run }
{}

/// What an answer of a run says was received for a target is stored under its own hash from then on, and
/// reached from what is retained or open, in each state up to which the target was one of these throughout.
pub fn what_was_received_stays()
    ensures { (half : List ℕ → List ℕ) (lines : List Line) (s : State) (entries : List Entry) (s' : State)
        (run : Run half lines s entries s') → AllStay half lines s entries s' run }
{}

/// A check of an open acquisition that meets no fault and has memory answers complete exactly where
/// each node that the target reaches is stored and the ledger is acceptable: of the asked sequence
/// or any was asked for, with a state map, not below the floor, and with no rule of shape broken.
pub fn a_check_is_complete_exactly_where_the_ledger_is()
    ensures { (half : List ℕ → List ℕ) (s s' : State) (a : ℕ) (c : Command) (reply : Reply) (used : List Held)
        → Step half s a c reply used s' → IsExact half s c reply }
{}

/// So does each check of a run.
pub fn the_checks_of_a_run_are_exact()
    ensures { (half : List ℕ → List ℕ) (lines : List Line) (s : State) (entries : List Entry) (s' : State)
        → (run : Run half lines s entries s') → AreExact half lines s entries s' run }
{}

/// What a read over an open view says of a key is what every map of that kind with the view's root has there, or the nodes that it used
/// and the map's own show two different nodes with one hash.
pub fn the_reads_of_a_run_are_every_maps()
    ensures { (half : List ℕ → List ℕ) → IsHalf half → (lines : List Line) → ((l : Line) → Contains lines l → IsInRange l.command)
        → (s : State) (entries : List Entry) (s' : State) (run : Run half lines s entries s') → AreEveryMaps half lines s entries s' run }
{}

/// In a sound state the maps of an open view are whole, so that a read of one ends only in an answer, a fault or want of memory.
pub fn the_maps_of_a_view_are_whole()
    ensures { (half : List ℕ → List ℕ) (s : State) (actor view : ℕ) (kind : Kind) (root : List ℕ)
        → Sound half s → IsLedgerMap kind → view_root s kind (actor, view) ≡ Some root → IsWholeMap half (form_in s) kind root }
{}

/// In a sound state nothing that a retained ledger reaches is absent.
pub fn nothing_of_a_retained_ledger_is_absent()
    ensures { (half : List ℕ → List ℕ) (s : State) (t : List ℕ)
        → Sound half s → Contains (retained s) t → IsAllStored (form_in s) t }
{}

/// Over a store that has only the script's records at first, a clash shows two different forms with one hash, of those that the script
/// offers and those that its closes make, and a zero hash shows one of them that has it.
pub fn a_clash_shows_two_forms_with_one_hash()
    ensures { (half : List ℕ → List ℕ) (records : List Record) (lines : List Line) (interval : ℕ) (entries : List Entry) (s' : State)
        (e : Entry)
        → AreRecords half records → (run : IsRunOf half records lines interval entries s')
        → Contains entries e → ShowsIn half (brought_by half records lines interval entries s' run) e.reply }
{}

//! Laws of the store machine: what each step and each run keeps. Each is the contract of an empty function.
#![tactic(auto)]

mod laws;

pub use laws::{
    a_check_is_complete_exactly_where_the_ledger_is, a_clash_shows_two_forms_with_one_hash,
    a_rotation_keeps_what_the_roots_reach, a_row_is_one_beside_any_sessions, a_run_goes_on,
    a_run_keeps_the_store_sound, a_step_carries_what_was_told, each_state_of_a_run_is_in_order,
    nothing_of_a_retained_ledger_is_absent, steps_keep_the_store_sound,
    swaps_leave_what_is_kept_or_born, the_checks_of_a_run_are_exact, the_maps_of_a_view_are_whole,
    the_opening_is_sound, the_reads_of_a_run_are_every_maps, the_records_are_sound,
    what_was_received_stays,
};

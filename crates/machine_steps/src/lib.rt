//! The steps of the machine, its start and its run, and what every step keeps.
//!
//! The definitions stand in `specs/`. There is no code but the limit of steps; the functions state laws of the definitions, and each does
//! nothing and takes nothing.
#![tactic(auto)]

mod examples;
mod laws;
mod numbers;

pub use examples::{
    a_write_goes_on, an_image_starts, one_process_calls, touches_are_reported,
    two_processes_take_turns,
};
pub use laws::{
    accounts_stay_exact, calls_stay_underway, capabilities_stay_inside, clocks_stay_right,
    dispatches_are_next, full_never_lacks, full_stays_alone, ids_stay_exact,
    machines_stay_machines, numbers_stay_in_range, others_stay_untouched, own_view_decides,
    rules_agree_on_steps, runs_are_sound, runs_end, steps_stay_good, works_are_effects,
};
pub use numbers::constants_are_fixed;

/// A machine makes a step only where it has made fewer steps than this, so that ids stay below `2^63`.
pub const STEP_LIMIT: u64 = 4_611_686_018_427_387_904;

//! The machine of all processes: what it is, what a call makes of it, and what each call keeps.
//!
//! The definitions stand in `specs/`. There is no code but the types of processes and reports; the other functions state laws of the
//! definitions.
#![tactic(auto)]

mod contents_laws;
mod examples;
mod laws;
mod numbers;
mod process;
mod report;

pub use contents_laws::calls_keep_sound;
pub use examples::{
    a_fork_is_refused_or_made, a_kill_moves_nothing, a_long_write_goes_in_transfers,
    a_read_takes_input, a_wait_is_answered, an_end_leaves_orphans, readiness_is_exact,
    the_clock_turns, transfers_are_tested,
};
pub use laws::{
    calls_are_answered, calls_are_effects, calls_are_refused, children_are_found, clocks_turn,
    cuts_agree, effects_leave_others, effects_stay_steady, full_lacks_at_forks, next_is_first,
    outcomes_are_exact, pipes_are_seen, places_are_lowest, rules_agree_on_calls,
    transfers_are_refused, views_decide_calls,
};
pub use numbers::constants_are_fixed;
pub use process::{Process, State, Target};
pub use report::{Quantum, StepReport, Work, WorkEnd};

/// The number of descriptors of a process.
pub const DESCRIPTORS: usize = 16;

/// The number of pipes.
pub const PIPES: usize = 16;

/// The most bytes that a pipe holds.
pub const PIPE_BYTES: usize = 4096;

/// The most bytes of a write to a pipe that goes out at once, POSIX's `PIPE_BUF`.
pub const PIPE_BUF: u64 = 512;

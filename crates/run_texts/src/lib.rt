//! The texts that a run reads beside its image, and the lines that it writes on the errors.
#![tactic(auto)]

mod endings;
mod laws;
mod schedule;

pub use endings::{write_end, write_last};
pub use laws::{schedules_are_exact, worked_endings_hold, worked_schedules_hold};
pub use schedule::{ScheduleRefusal, read_schedule};

#[cfg(test)]
mod tests;

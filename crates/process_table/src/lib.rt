//! The processes of the machine, a slot each, and which of them are marked as ready.
#![tactic(auto)]

mod processes;
#[cfg(test)]
mod tests;

pub use machine::{Process, State};
pub use processes::Processes;

//! The words of a command line.
//!
//! [`read_words`] reads a command with its options, or tells the place at which the words go wrong. The grammar is a table of
//! commands and of options, in `specs/Grammar.antt`.
#![tactic(auto)]

mod laws;
mod words;

pub use laws::{commands_are_exact, constants_are_fixed, sayings_are_exact, worked_commands_hold};
pub use words::{Command, Options, WordFault, read_words};

/// The number of frames where no option says it.
pub const DEFAULT_FRAMES: u32 = 4096;

/// The number of regions where no option says it.
pub const DEFAULT_REGIONS: u32 = 16;

/// The number of slots where no option says it.
pub const DEFAULT_SLOTS: u32 = 16;

/// The most steps of a run where no option says them.
pub const DEFAULT_STEPS: u64 = 20_000_000;

#[cfg(test)]
mod tests;

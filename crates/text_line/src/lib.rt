//! A line of text that is put together on the stack, from its end.
#![tactic(auto)]

mod laws;
mod line;

pub use laws::{constants_are_fixed, hexadecimals_are_exact};
pub use line::Line;

/// The most bytes of a line.
pub const LINE_BYTES: usize = 128;

#[cfg(test)]
mod tests;

//! Whole runs over memory of the commands that run nothing: `asm`, `disasm` and `check`.
//!
//! The crate offers nothing: it holds tests that need all layers.
#![tactic(auto)]

#[cfg(test)]
mod calls;
#[cfg(test)]
mod checks;
#[cfg(test)]
mod listings;
#[cfg(test)]
mod rows;
#[cfg(test)]
mod sources;

//! The home and the number of sharers of each frame.
#![tactic(auto)]

mod laws;
mod owners;
#[cfg(test)]
mod tests;

pub use laws::constants_are_fixed;
pub use owners::{Left, Owners};

/// The most sharers of a frame that one more page may [`join`](Owners::join).
pub const MOST_SHARERS: u32 = 65_535;

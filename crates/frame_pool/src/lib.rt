//! The frames of physical memory: which are used.
#![tactic(auto)]

mod pool;
#[cfg(test)]
mod tests;

pub use pool::FramePool;

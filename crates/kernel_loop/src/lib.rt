//! The kernel: a machine over any space of stores, one step at a time.
#![tactic(auto)]

mod boot;
mod clock;
mod kernel;
mod laws;
mod readiness;
mod stepping;
mod work;

pub use kernel::{BootReason, BootRefusal, Kernel};
pub use laws::reasons_are_told;
pub use machine::{Quantum, StepReport, Work, WorkEnd};

//! The system calls, over any space of stores.
#![tactic(auto)]

mod answers;
mod call;
mod ends;
mod forks;
mod syscalls;
mod transfers;
mod waits;
mod world;

pub use ends::kill_process;
pub use machine::WorkEnd;
pub use syscalls::do_call;
pub use world::{CallDone, World};

//! What one instruction does, over any space of stores.
//!
//! The integer instructions are RV64IM of the RISC-V unprivileged ISA, those on capabilities are after the CHERI ISA v9.
//! `docs/FORMATS.md` says what each does.
#![tactic(auto)]

mod examples;
mod jumps;
mod laws;
mod memory;
mod results;
mod step;

pub use examples::an_instruction_lacks_a_frame;
pub use jumps::next_pcc;
pub use laws::{
    accesses_are_authorized, derivations_narrow, effects_keep_running, effects_leave_others,
    faults_change_nothing, fetches_are_exact, first_failures_decide, frames_are_lacked,
    own_process_decides, reports_are_true, rules_agree_on_effects,
};
pub use memory::{MemoryOp, access};
pub use step::{StepEnd, Stepped, step_instr};

//! The texts in which a machine is shown: so far those of instructions.
//!
//! [`write_instr`] writes the line of an instruction word. Its statement is one of the assembler's, which gives the word again: that is
//! the law [`statements_go_back`].
#![tactic(auto)]

mod instr;
mod kinds;
mod laws;
mod operands;

pub use instr::write_instr;
pub use laws::{statements_go_back, worked_statements_hold};

#[cfg(test)]
mod tests;

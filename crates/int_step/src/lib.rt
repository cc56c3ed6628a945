//! The integer values of instructions: RV64I and M of the RISC-V unprivileged ISA.
#![tactic(auto)]

mod laws;
mod values;
mod words;

pub use laws::{
    differences_undo_sums, divisions_are_exact, products_are_whole, shifts_move_bits, values_fit,
};
pub use values::{extended, imm_value, is_integer, operand, reg_value, register_row, taken};

#[cfg(test)]
mod tests;

//! The table of instructions, from words to instructions and back.
//!
//! The integer rows are those of the RISC-V unprivileged ISA (RV64I and M); the rows of capabilities, after
//! the CHERI ISA v9, have words of this project's own. `docs/FORMATS.md` has the table.
#![tactic(auto)]

mod decoding;
mod encoding;
mod fields;
mod instr;
mod laws;
mod ops;
mod ranges;
mod rows;

pub use decoding::decode;
pub use encoding::encode;
pub use instr::{BranchOp, ImmOp, Instr, LoadOp, OneOp, RegOp, StoreOp, UpperOp};
pub use laws::{each_row_is_decoded, each_word_has_one_row, words_go_round};

#[cfg(test)]
mod tests;

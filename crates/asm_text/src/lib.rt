//! The assembler's language: from a text to a listing of what its lines say, or to the first line that is none.
//!
//! [`read_source`] is the first pass of the assembler. The tokens, the statements and their operands are definitions in `specs/`; the
//! language is this project's own, and `docs/FORMATS.md` has it in words.
#![tactic(auto)]

mod bytes;
mod cursor;
mod laws;
mod listing;
mod mnemonics;
mod operands;
mod source;
mod statements;
mod tokens;

pub use laws::{
    constants_are_fixed, names_are_exact, sources_are_exact, sources_have_ranges,
    sources_have_spans, tokens_are_exact, worked_lines_hold,
};
pub use listing::{Item, Listing, Span, Value, What};
pub use mnemonics::mnemonic;
pub use source::{SourceFault, SourceReason, SourceRefusal, read_source};

/// The most bytes of a source.
pub const SOURCE_BYTES: usize = 1_048_576;

#[cfg(test)]
mod tests;

//! Assembling: from a listing to the file of an image, or to the first fault of the passes behind the first.
//!
//! [`assemble`] is the second and the third pass of the assembler. Where each statement stands, which rules it has to keep, and the file are
//! definitions in `specs/`; the language is this project's own, and `docs/FORMATS.md` has it in words.
#![tactic(auto)]

mod assembler;
mod bytes;
mod file;
mod found;
mod labels;
mod laws;
mod layout;
mod place;
mod relocations;
mod strings;
mod values;

pub use assembler::assemble;
pub use laws::{
    constants_are_fixed, data_is_exact, files_are_exact, files_are_images, least_faults_decide,
    ranges_are_exact, segments_are_full, segments_are_said, sources_are_images,
    sources_are_programs, statements_stand, worked_sources_hold,
};

#[cfg(test)]
mod tests;

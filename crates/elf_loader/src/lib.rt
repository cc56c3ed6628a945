//! Images of guest programs: which files are images, what they hold, and how one is started.
//!
//! [`read_image`] reads every image, by the rules of the image grammar, and says of any other file which rule it breaks first, and
//! where. [`start`] puts an image into a space: its pages, its capabilities, and the registers with which the process begins.
#![tactic(auto)]

mod examples;
mod fields;
mod image;
mod laws;
mod program_headers;
mod rules;
mod starts;

pub use examples::worked_starts_hold;
pub use image::{Image, ImageRefusal, Reloc, Relocs, Segment, Segments, read_image};
pub use laws::{
    constants_are_fixed, relocations_are_exact, starts_are_decided, starts_are_exact,
    starts_may_run,
};
pub use starts::{StartState, start};

/// The region of process 1.
pub const PROCESS_REGION: u32 = 0;

#[cfg(test)]
mod image_tests;

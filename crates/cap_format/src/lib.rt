//! Capabilities of 128 bits: their layout, their bounds and what may be derived from them.
//!
//! The format is after CHERI Concentrate (CHERI ISA v9), in a layout of this project's own:
//! `docs/DEFINITIONS.md` has it in words.
#![tactic(auto)]

mod bounds;
mod cap;
mod image;
mod laws;
mod lengths;
mod set_bounds;
#[cfg(test)]
mod tests;

pub use cap::{Bounded, Cap};
pub use image::{ImageFault, ImageReason, ProgramHeader, Relocation};
pub use laws::{
    code_goes_on, code_moves, constants_are_fixed, each_has_least_exponent, each_has_one_base,
    each_move_is_one, first_faults_decide, images_are_sound, keeps_bounds_within,
    long_files_are_none, moves_go_inside, moves_to_itself_are_none, rounded_lengths_are_exact,
    two_moves_are_one, worked_images_hold,
};
pub use lengths::{align_mask, rounded_length};

/// The first address of region 0, in bytes.
pub const FIRST_REGION: u64 = 0x1_0000_0000;

/// The size of a region, in bytes.
pub const REGION_BYTES: u64 = 0x10_0000;

/// The pages of a region: `REGION_BYTES / PAGE_BYTES`.
pub const REGION_PAGES: u32 = 256;

/// The size of a page, in bytes.
pub const PAGE_BYTES: usize = 4096;

/// The granules of a page: `PAGE_BYTES / GRANULE_BYTES`.
pub const PAGE_GRANULES: usize = 256;

/// The size of a granule, which has one tag, in bytes.
pub const GRANULE_BYTES: usize = 16;

/// The most frames of a machine.
pub const MOST_FRAMES: u32 = 4096;

/// The most bytes of an image file.
pub const IMAGE_BYTES: usize = 4_194_304;

/// The most bytes of an image's table of relocations.
pub const TABLE_BYTES: u64 = 2_621_440;

/// The size of an image's file header, in bytes. The program headers come next.
pub const FILE_HEADER_BYTES: usize = 64;

/// The size of a program header, in bytes.
pub const PROGRAM_HEADER_BYTES: usize = 56;

/// The size of a relocation in an image's table, in bytes.
pub const RELOCATION_BYTES: usize = 40;

/// The most program headers of an image.
pub const MOST_HEADERS: u16 = 16;

/// The type of the program header of a segment.
pub const SEGMENT_TYPE: u32 = 1;

/// The type of the program header of the table of relocations.
pub const TABLE_TYPE: u32 = 0x6b00_0001;

/// The number of regions. Region `i` begins at `FIRST_REGION + i * REGION_BYTES`.
pub const MOST_REGIONS: u32 = 64;

/// The permission to fetch instructions.
pub const EXECUTE: u16 = 1 << 1;

/// The permission to load data.
pub const LOAD: u16 = 1 << 2;

/// The permission to store data.
pub const STORE: u16 = 1 << 3;

/// The permission to load capabilities with their tags.
pub const LOAD_CAPABILITY: u16 = 1 << 4;

/// The permission to store tagged capabilities.
pub const STORE_CAPABILITY: u16 = 1 << 5;

/// All five permissions. The other bits of the 16 have no meaning.
pub const ALL_PERMISSIONS: u16 = EXECUTE | LOAD | STORE | LOAD_CAPABILITY | STORE_CAPABILITY;

//! Spaces of stores: the calls on a space, and the board on which spaces are built.
//!
//! [`Stores`] is the trait of spaces; what its calls do to contents stands in the crate `contents`. [`Board`] is the
//! physical machine, and `specs/Boards.antt` says what it stands for. The other functions state laws of boards, or show
//! what a caller can rely on.
#![tactic(auto)]

mod board;
mod callers;
mod entries;
mod examples;
mod laws;
mod live;
mod pieces;
mod space;
#[cfg(test)]
mod tests;

pub use board::Board;
pub use callers::{add_and_fork, fill_region, take_bytes};
pub use contents::{MOST_TRANSFER, Refusal};
pub use entries::{UNTOUCHED, add_own_page, covers, entry_for, entry_of};
pub use examples::the_picture_stands;
pub use laws::{
    boards_show_pages, boards_stand_for_whole_contents, empty_stands_for_nothing,
    frames_have_classes, made_frames_are_in_all, one_frame_for_one_class, sharers_are_few,
    taken_are_used,
};
pub use live::LiveRegions;
pub use pieces::{Piece, first_piece};
pub use space::{Stores, Translation};

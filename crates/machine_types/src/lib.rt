//! The types and the definitions that the parts of the machine share.
#![tactic(auto)]

mod cause;
mod config;
mod errno;
mod laws;
mod number_lists;
mod numbers;
mod registers;
mod schedule;
mod touches;

pub use cause::Cause;
pub use config::{Config, Outcome, Rule};
pub use errno::Errno;
pub use laws::{
    constants_are_fixed, lists_are_exact, numbers_are_bytes, numbers_are_decimal, pages_are_made,
    pages_are_moved, pages_are_numbered, rights_are_bits, stored_bytes_are_read,
    stored_numbers_are_read, what_may_be_held,
};
pub use number_lists::{ListRefusal, read_list};
pub use numbers::read_number;
pub use registers::Regs;
pub use schedule::Schedule;
pub use touches::{Access, FrameNo, NoFrame, NoMemory, Note, Touched};

/// The most slots for processes.
pub const MOST_SLOTS: u32 = 64;

/// The most steps that a run may be limited to.
pub const MOST_STEPS: u64 = 1_000_000_000;

/// The greatest quantum of a schedule, in steps.
pub const MOST_QUANTUM: u64 = 1_000_000;

/// The most times that a number of a list is repeated.
pub const MOST_REPEATS: u64 = 1_000_000_000;

/// The most lines of a list.
pub const MOST_LINES: u64 = 100_000;

/// The most bytes of a list's text.
pub const LIST_BYTES: usize = 1_048_576;

/// The right of a page to be executed.
pub const RIGHT_X: u8 = 1;

/// The right of a page to be written.
pub const RIGHT_W: u8 = 2;

/// The right of a page to be read.
pub const RIGHT_R: u8 = 4;

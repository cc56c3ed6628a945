//! The top call: from the words, the files, the input, two sinks and a board to a status and the board.
//!
//! [`ufork`] reads first and writes after. Its contract says which status and which bytes come, and which machine the board
//! stands for at the end, as a function of the words, the contents of the files and the bytes of the input; and what stands where a part
//! of the outside fails.
#![tactic(auto)]

mod input;
mod laws;
mod lines;
mod request;
mod run;
mod tools;
mod top;

pub use laws::{
    constants_are_fixed, courses_are_exact, cuts_tell, listings_are_exact, promises_say,
    promises_tell, runs_end_at_the_least, worked_lines_hold,
};
pub use run::{RunDone, Show, run_machine};
pub use top::{Ended, ufork};

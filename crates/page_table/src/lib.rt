//! The page table: which frame each page of each region has, and with which rights.
#![tactic(auto)]

mod table;
#[cfg(test)]
mod tests;

pub use machine_types::{RIGHT_R, RIGHT_W, RIGHT_X};
pub use table::{Entry, NoPage, PageTable};

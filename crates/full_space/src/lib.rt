//! A space of stores in which each page has a frame of its own: the copy rule
//! [`Full`](machine_types::Rule::Full).
#![tactic(auto)]

mod bytes;
mod endings;
mod forks;
mod laws;
mod space;
#[cfg(test)]
mod tests;

pub use laws::full_spaces_show_pages;
pub use space::FullSpace;

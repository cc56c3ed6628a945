//! The descriptors of all slots, and the pipes.
#![tactic(auto)]

mod files;
mod laws;
mod pipes;
mod tables;
#[cfg(test)]
mod tests;

pub use files::Descriptors;
pub use laws::{nothing_is_open, tables_are_given};
pub use machine::Target;

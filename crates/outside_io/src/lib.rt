//! What the program meets outside: sources and sinks of bytes, and files, with counts of their faults.
//!
//! The traits say what each answer tells of the outside. The forms over memory tell all of their bytes and
//! fail at listed calls, so they stand for any outside in a proof or a test. The adapters over `std` are the
//! trusted edge. `specs/` has the words for what a program writes and answers.
#![tactic(auto)]

mod failures;
mod files;
mod laws;
mod memory_files;
mod memory_sink;
mod memory_source;
mod standard;
mod streams;

pub use files::{FileRefusal, Files};
pub use laws::{counts_tell, moments_are_parts};
pub use memory_files::MemoryFiles;
pub use memory_sink::MemorySink;
pub use memory_source::MemorySource;
pub use standard::{HostFiles, StdSink, StdSource};
pub use streams::{Failed, Sink, Source};

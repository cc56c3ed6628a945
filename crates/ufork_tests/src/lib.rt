//! Whole runs of the program over memory, and over writers that take a part of a line, with the boards that come back; and the start
//! of an image on few frames.
//!
//! The crate offers nothing: it holds the tests that need all layers.
#![tactic(auto)]

#[cfg(test)]
mod boards;
#[cfg(test)]
mod commands;
#[cfg(test)]
mod console;
#[cfg(test)]
mod console_input;
#[cfg(test)]
mod cut_lines;
#[cfg(test)]
mod files;
#[cfg(test)]
mod first_path;
#[cfg(test)]
mod image_runs;
#[cfg(test)]
mod images;
#[cfg(test)]
mod instrs;
#[cfg(test)]
mod left_boards;
#[cfg(test)]
mod long_writes;
#[cfg(test)]
mod programs;
#[cfg(test)]
mod refused_images;
#[cfg(test)]
mod relocations;
#[cfg(test)]
mod runs;
#[cfg(test)]
mod schedules;
#[cfg(test)]
mod starts;

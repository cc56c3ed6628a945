//! Every instruction over a space of whole copies, with registers, PCC and memory as they have to be afterwards.
//!
//! The crate offers nothing: it holds the tests of instructions, which need a space.
#![tactic(auto)]

#[cfg(test)]
mod accesses;
#[cfg(test)]
mod caps;
#[cfg(test)]
mod causes;
#[cfg(test)]
mod guests;
#[cfg(test)]
mod jumps;
#[cfg(test)]
mod loops;
#[cfg(test)]
mod rows;

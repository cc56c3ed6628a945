//! Whole runs over memory of guests with several processes: forks, ends and waits, in the order of a schedule.
//!
//! The crate offers nothing: it holds tests that need all layers.
#![tactic(auto)]

#[cfg(test)]
mod ends;
#[cfg(test)]
mod families;
#[cfg(test)]
mod letters;
#[cfg(test)]
mod limits;
#[cfg(test)]
mod patterns;
#[cfg(test)]
mod pointers;
#[cfg(test)]
mod reuse;
#[cfg(test)]
mod runs;
#[cfg(test)]
mod shares;
#[cfg(test)]
mod turns;
#[cfg(test)]
mod waits;

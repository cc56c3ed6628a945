//! Whole runs over memory of guests that have one process: what each call answers, prints and leaves, and how its steps are counted.
//!
//! The crate offers nothing: it holds tests that need all layers.
#![tactic(auto)]

#[cfg(test)]
mod answers;
#[cfg(test)]
mod authority;
#[cfg(test)]
mod guests;
#[cfg(test)]
mod kept;
#[cfg(test)]
mod order;
#[cfg(test)]
mod over_tags;
#[cfg(test)]
mod reads;
#[cfg(test)]
mod runs;
#[cfg(test)]
mod steps;
#[cfg(test)]
mod writes;

//! The steps of a kernel on small guests, one by one: what each reports, what it prints, and how the machine stands afterwards.
//!
//! The crate offers nothing: it holds the tests of the kernel, which need a space and an image.
#![tactic(auto)]

#[cfg(test)]
mod boot;
#[cfg(test)]
mod ends;
#[cfg(test)]
mod orders;
#[cfg(test)]
mod quanta;
#[cfg(test)]
mod rows;
#[cfg(test)]
mod transfers;

//! Physical memory: frames of [`PAGE_BYTES`](cap_format::PAGE_BYTES) bytes, with a tag for each granule of
//! [`GRANULE_BYTES`](cap_format::GRANULE_BYTES) bytes.
#![tactic(auto)]

mod frame;
mod memory;
#[cfg(test)]
mod tests;

pub use memory::Memory;

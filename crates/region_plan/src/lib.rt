//! The regions of the address space: where they lie, and which are taken.
#![tactic(auto)]

mod laws;
mod plan;
#[cfg(test)]
mod tests;

pub use laws::constants_are_fixed;
pub use plan::RegionPlan;

/// The first address of region 0, in bytes.
pub const FIRST_REGION: u64 = 0x1_0000_0000;

/// The size of a region, in bytes.
pub const REGION_BYTES: u64 = 0x10_0000;

/// The most regions.
pub const MOST_REGIONS: u32 = 64;

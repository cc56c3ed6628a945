// The plan of regions.
ghost use Rattle.std.specs.Prelude.{◌≡◌, ◌↔◌, ◌≤◌, ◌<◌, ℕ, IfSome, IsNone, true, false, length, replicate, slice_set};
ghost use Rattle.region_plan.specs.Plan.{start_of, distance_between, is_taken, IsLowestFree};

use crate::{FIRST_REGION, MOST_REGIONS, REGION_BYTES};
use std::marker::Model;

/// Which of the regions from 0 to below their number are taken.
#[derive(Drop)]
pub struct RegionPlan {
    taken: [bool; MOST_REGIONS as usize],
    regions: u32,
}

impl Model for RegionPlan {
    ghost use Rattle.std.specs.Prelude.{◌≤◌, List, Bool, take};
    ghost use Rattle.region_plan.specs.declared.TheConstants.{MOST_REGIONS};

    ghost Value = { List Bool };

    ghost view = { λ p. take p.regions p.taken };

    ghost invariant = { λ p. p.regions ≤ MOST_REGIONS };
}

impl RegionPlan {
    /// A plan of so many regions, from 1 to [`MOST_REGIONS`], all of them free.
    pub fn new(regions: u32) -> RegionPlan
        requires least { 1 ≤ regions }
        requires most { regions ≤ MOST_REGIONS }
        ensures { result ≡ replicate regions false }
    {
        RegionPlan {
            taken: [false; MOST_REGIONS as usize],
            regions,
        }
    }

    /// The lowest free region. None comes exactly where none is free.
    pub fn lowest_free(&self) -> Option<u32>
        ensures lowest { IfSome result (IsLowestFree self.now) }
        ensures none { IsNone result ↔ ((k : ℕ) → k < length self.now → is_taken self.now k ≡ true) }
    {
        first_free(&self.taken[..self.regions as usize])
    }

    /// Takes a region that is free.
    pub fn take(&mut self, region: u32)
        requires region { region < length self.old }
        requires free { is_taken self.old region ≡ false }
        ensures { self.new ≡ slice_set self.old region true }
    {
        self.taken[region as usize] = true;
    }

    /// Frees a region that is taken.
    pub fn free(&mut self, region: u32)
        requires region { region < length self.old }
        requires taken { is_taken self.old region ≡ true }
        ensures { self.new ≡ slice_set self.old region false }
    {
        self.taken[region as usize] = false;
    }

    /// The first address of a region, below [`MOST_REGIONS`], in bytes.
    pub fn start(region: u32) -> u64
        requires { region < MOST_REGIONS }
        ensures { result ≡ start_of region }
    {
        FIRST_REGION + u64::from(region) * REGION_BYTES
    }

    /// The distance from one region to another, both below [`MOST_REGIONS`], in bytes.
    pub fn distance(from: u32, to: u32) -> i64
        requires from { from < MOST_REGIONS }
        requires to { to < MOST_REGIONS }
        ensures { result ≡ distance_between from to }
    {
        (i64::from(to) - i64::from(from)) * REGION_BYTES as i64
    }
}

// The first place that isn't taken.
fn first_free(taken: &[bool]) -> Option<u32>
    requires { length taken.now ≤ MOST_REGIONS }
    ensures lowest { IfSome result (IsLowestFree taken.now) }
    ensures none { IsNone result ↔ ((k : ℕ) → k < length taken.now → is_taken taken.now k ≡ true) }
{
    for region in 0..taken.len() {
        if !taken[region] {
            return Some(region as u32);
        }
    }
    None
}

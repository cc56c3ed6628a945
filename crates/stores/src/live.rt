// Which regions have a store.
ghost use Rattle.std.specs.Prelude.{◌≡◌, ◌<◌, true, false, length, replicate, slice_set};

use cap_format::MOST_REGIONS;
use std::marker::Model;

/// Which of the regions below [`MOST_REGIONS`] have a store. A space keeps it beside its board, on which a store without
/// pages can't be seen.
#[derive(Drop)]
pub struct LiveRegions {
    live: [bool; MOST_REGIONS as usize],
}

impl Model for LiveRegions {
    ghost use Rattle.std.specs.Prelude.{Bool, List};

    ghost Value = { List Bool };

    ghost view = { λ regions. regions.live };
}

impl LiveRegions {
    /// None of them has a store.
    pub fn new() -> LiveRegions
        ensures { result ≡ replicate MOST_REGIONS false }
    {
        LiveRegions {
            live: [false; MOST_REGIONS as usize],
        }
    }

    /// The region, below [`MOST_REGIONS`], has a store from now on.
    pub fn begin(&mut self, region: u32)
        requires { region < MOST_REGIONS }
        ensures is { self.new ≡ slice_set self.old region true }
        ensures within { region < length self.old }
    {
        self.live[region as usize] = true;
    }

    /// The region, below [`MOST_REGIONS`], has no store from now on.
    pub fn end(&mut self, region: u32)
        requires { region < MOST_REGIONS }
        ensures is { self.new ≡ slice_set self.old region false }
        ensures within { region < length self.old }
    {
        self.live[region as usize] = false;
    }
}

// Homes and sharers.
ghost use Rattle.std.specs.Prelude.{◌≡◌, ◌↔◌, ◌<◌, ◌≤◌, ◌+◌, ◌-◌, IfOk, replicate, length};
ghost use Rattle.frame_owners.specs.declared.owners.Left.TheVariants.{Last};

use crate::MOST_SHARERS;
use cap_format::{MOST_FRAMES, MOST_REGIONS};
use machine_types::{FrameNo, NoMemory};
use std::alloc::Global;
use std::marker::Model;

/// Whether a frame that a page left is shared by other pages still.
#[derive(Clone, Copy, Debug, PartialEq, Eq)]
pub enum Left {
    /// No sharer is left.
    Last,
    /// At least one sharer is left.
    Shared,
}

// The home and the number of sharers of a frame.
#[derive(Clone, Copy)]
struct Share {
    home: u32,
    sharers: u32,
}

/// The home and the number of sharers of each frame that was made, at most [`MOST_FRAMES`]. A home is a region, below
/// [`MOST_REGIONS`], and the sharers of a frame are the pages that have it. Frames are numbered from 0 on, and a frame
/// that a call names is one of those that were made.
#[derive(Drop)]
pub struct Owners {
    shares: Vec<Share>,
}

impl Model for Owners {
    ghost use Rattle.std.specs.Prelude.{◌<◌, ◌≤◌, All, List, length, map};
    ghost use Rattle.cap_format.specs.declared.TheConstants.{MOST_FRAMES, MOST_REGIONS};
    ghost use Rattle.frame_owners.specs.Homes.{Owner};

    ghost Value = { List Owner };

    ghost view = { λ o. map (λ s. record { home = s.home; sharers = s.sharers }) o.shares.items };

    ghost invariant = { λ o. (length o.shares.items ≤ MOST_FRAMES) × All (λ s. s.home < MOST_REGIONS) o.shares.items };
}

impl Owners {
    ghost use Rattle.frame_owners.specs.Homes.{nobody, owner, with_owner};

    /// Owners of so many frames, from 1 to [`MOST_FRAMES`]: nobody has them, so they have no sharers, and region 0 as
    /// their home. It takes all its memory at once, and [`NoMemory`] comes where that is not to be had.
    pub fn new(alloc: Global, frames: u32) -> Result<Owners, NoMemory>
        requires least { 1 ≤ frames }
        requires most { frames ≤ MOST_FRAMES }
        ensures { IfOk result (λ owners. owners ≡ replicate frames nobody) }
    {
        let nobody = Share {
            home: 0,
            sharers: 0,
        };
        match vec![in alloc; nobody; frames as usize] {
            Ok(shares) => Ok(Owners { shares }),
            Err(_) => Err(NoMemory),
        }
    }

    /// One page has the frame, which nobody had. Its home is this region, below [`MOST_REGIONS`]. All other frames stay.
    pub fn begin(&mut self, f: FrameNo, home: u32)
        requires frame { f.0 < length self.old }
        requires home { home < MOST_REGIONS }
        requires none { (owner self.old f.0).sharers ≡ 0 }
        ensures { self.new ≡ with_owner self.old f.0 (record { home = home; sharers = 1 }) }
    {
        self.shares[f.0 as usize] = Share { home, sharers: 1 };
    }

    /// One page more shares the frame, which has from 1 to [`MOST_SHARERS`] sharers. Its home and all other frames stay.
    pub fn join(&mut self, f: FrameNo)
        requires frame { f.0 < length self.old }
        requires shared { 1 ≤ (owner self.old f.0).sharers }
        requires room { (owner self.old f.0).sharers ≤ MOST_SHARERS }
        ensures { self.new ≡ with_owner self.old f.0 (record { home = (owner self.old f.0).home; sharers = (owner self.old f.0).sharers + 1 }) }
    {
        let share = &mut self.shares[f.0 as usize];
        share.sharers += 1;
    }

    /// One page leaves the frame, which has at least one sharer. [`Left::Last`] comes exactly where none is left. Its home
    /// and all other frames stay.
    pub fn leave(&mut self, f: FrameNo) -> Left
        requires frame { f.0 < length self.old }
        requires shared { 1 ≤ (owner self.old f.0).sharers }
        ensures after { self.new ≡ with_owner self.old f.0 (record { home = (owner self.old f.0).home; sharers = (owner self.old f.0).sharers - 1 }) }
        ensures last { (result ≡ Last) ↔ ((owner self.new f.0).sharers ≡ 0) }
    {
        let share = &mut self.shares[f.0 as usize];
        share.sharers -= 1;
        if share.sharers == 0 {
            Left::Last
        } else {
            Left::Shared
        }
    }

    /// How many frames it was made for.
    pub fn frames(&self) -> u32
        ensures { result ≡ length self.now }
    {
        self.shares.len() as u32
    }

    /// The home of the frame, which is a region below [`MOST_REGIONS`].
    pub fn home(&self, f: FrameNo) -> u32
        requires { f.0 < length self.now }
        ensures is { result ≡ (owner self.now f.0).home }
        ensures region { result < MOST_REGIONS }
    {
        self.shares[f.0 as usize].home
    }

    /// Makes this region, below [`MOST_REGIONS`], the home of the frame. Its sharers and all other frames stay.
    pub fn set_home(&mut self, f: FrameNo, region: u32)
        requires frame { f.0 < length self.old }
        requires region { region < MOST_REGIONS }
        ensures { self.new ≡ with_owner self.old f.0 (record { home = region; sharers = (owner self.old f.0).sharers }) }
    {
        let share = &mut self.shares[f.0 as usize];
        share.home = region;
    }

    /// How many pages share the frame, which is 0 where nobody has it.
    pub fn sharers(&self, f: FrameNo) -> u32
        requires { f.0 < length self.now }
        ensures { result ≡ (owner self.now f.0).sharers }
    {
        self.shares[f.0 as usize].sharers
    }
}

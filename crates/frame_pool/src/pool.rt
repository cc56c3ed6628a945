// The pool of frames.
ghost use Rattle.std.specs.Prelude.{◌≡◌, ◌↔◌, ◌≤◌, ◌<◌, ◌+◌, IfOk, IfSome, IsNone, MatchOption, ℕ, true, false, length, replicate, slice_index_or};
ghost use Rattle.frame_pool.specs.Pool.{is_used, used_count, with_used, IsLeastFree};

use cap_format::MOST_FRAMES;
use machine_types::{FrameNo, NoMemory};
use std::alloc::Global;
use std::marker::Model;

/// Which of the frames are used. Frames are numbered from 0 on, and the pool is of those below its size, which is at most
/// the number that was made, and that at most [`MOST_FRAMES`].
#[derive(Drop)]
pub struct FramePool {
    used: Vec<bool>,
    size: u32,
}

impl Model for FramePool {
    ghost use Rattle.std.specs.Prelude.{◌≤◌, length};
    ghost use Rattle.frame_pool.specs.Pool.{Pool, IsPool};
    ghost use Rattle.cap_format.specs.declared.TheConstants.{MOST_FRAMES};

    ghost Value = { Pool };

    ghost view = { λ p. record { size = p.size; used = p.used.items } };

    ghost invariant = { λ p. IsPool (record { size = p.size; used = p.used.items }) × (length p.used.items ≤ MOST_FRAMES) };
}

impl FramePool {
    /// A pool of `n` frames, from 1 to [`MOST_FRAMES`], none of them used. It takes all its memory at once, and
    /// [`NoMemory`] comes where that is not to be had.
    pub fn new(alloc: Global, n: u32) -> Result<FramePool, NoMemory>
        requires least { 1 ≤ n }
        requires most { n ≤ MOST_FRAMES }
        ensures { IfOk result (λ pool. pool ≡ record { size = n; used = replicate n false }) }
    {
        match vec![in alloc; false; n as usize] {
            Ok(used) => Ok(FramePool { used, size: n }),
            Err(_) => Err(NoMemory),
        }
    }

    /// How many frames were made: the greatest size that the pool can have.
    pub fn made(&self) -> u32
        ensures { result ≡ length self.now.used }
    {
        self.used.len() as u32
    }

    /// How many frames the pool is of, used or not: at most the number that was made.
    pub fn size(&self) -> u32
        ensures { result ≡ self.now.size }
    {
        self.size
    }

    /// Makes the pool, of which no frame is used, one of `n` frames, at most the number that was made.
    pub fn set_size(&mut self, n: u32)
        requires none { used_count self.old ≡ 0 }
        requires most { n ≤ length self.old.used }
        ensures { self.new ≡ record self.old { size = n } }
    {
        self.size = n;
    }

    /// Takes the least frame below the size that isn't used: it is used then. None comes exactly where all frames below
    /// the size are used, and changes nothing.
    pub fn take(&mut self) -> Option<FrameNo>
        ensures least { IfSome result (λ frame. IsLeastFree self.old frame.0) }
        ensures after { MatchOption result (self.new ≡ self.old) (λ frame. self.new ≡ with_used self.old frame.0 true) }
        ensures used { IfSome result (λ frame. is_used self.new frame.0 ≡ true) }
        ensures none { IsNone result ↔ (used_count self.old ≡ self.old.size) }
    {
        let frame = first_free(&self.used, self.size)?;
        self.used[frame as usize] = true;
        Some(FrameNo(frame))
    }

    /// Gives back a frame that is used: it isn't used then. All others stay as they are.
    pub fn give(&mut self, f: FrameNo)
        requires { is_used self.old f.0 ≡ true }
        ensures after { self.new ≡ with_used self.old f.0 false }
        ensures count { used_count self.new + 1 ≡ used_count self.old }
    {
        self.used[f.0 as usize] = false;
    }

    /// How many frames are used, from 0 to the size.
    pub fn used(&self) -> u32
        ensures { result ≡ used_count self.now }
    {
        self.used.iter().filter(|used| **used).count() as u32
    }

    /// How many frames below the size aren't used, from 0 to the size.
    pub fn free(&self) -> u32
        ensures { result + used_count self.now ≡ self.now.size }
    {
        self.size - self.used()
    }
}

// The least frame below the size that isn't used.
fn first_free(used: &[bool], size: u32) -> Option<u32>
    requires { size ≤ length used.now }
    ensures least { IfSome result (λ frame. IsLeastFree (record { size = size; used = used.now }) frame) }
    ensures none { IsNone result → (k : ℕ) → k < size → slice_index_or used.now k false ≡ true }
{
    for frame in 0..size {
        if !used[frame as usize] {
            return Some(frame);
        }
    }
    None
}

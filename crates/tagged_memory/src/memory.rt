// The frames.
ghost use Rattle.std.specs.Prelude.{◌≡◌, ◌↔◌, ◌≤◌, ◌<◌, ◌+◌, ◌/◌, ◌%◌, ℕ, IfOk, IfSome, IsNone, false, length, replicate};

use crate::frame::Frame;
use cap_format::{Cap, GRANULE_BYTES, MOST_FRAMES, PAGE_BYTES, PAGE_GRANULES};
use machine_types::{FrameNo, NoMemory};
use std::alloc::Global;
use std::marker::Model;

/// The frames that were made, at most [`MOST_FRAMES`], each of [`PAGE_BYTES`] bytes in [`PAGE_GRANULES`] granules with a
/// tag each. Frames, and the bytes and granules of a frame, are numbered from 0 on. A frame that a call names is one of
/// those that were made.
#[derive(Drop)]
pub struct Memory {
    frames: Vec<Frame>,
}

impl Model for Memory {
    ghost use Rattle.std.specs.Prelude.{◌≤◌, List, length};
    ghost use Rattle.cap_format.specs.declared.TheConstants.{MOST_FRAMES};
    ghost use Rattle.cap_format.specs.declared.cap.Cap.{Cap};
    ghost use Rattle.tagged_memory.specs.Frames.{AreFrames};

    ghost Value = { List (List Cap) };

    ghost view = { λ m. m.frames.items };

    ghost invariant = { λ m. AreFrames m.frames.items × (length m.frames.items ≤ MOST_FRAMES) };
}

impl Memory {
    ghost use Rattle.cap_format.specs.Made.{null};
    ghost use Rattle.machine_types.specs.Granules.{granule, IsSize, number_at, with_number, bytes_at, with_bytes, is_tagged};
    ghost use Rattle.tagged_memory.specs.Frames.{frame, with_frame, IsFrame, AreFrames, IsNextTag};
    ghost use Rattle.std.specs.Prelude.{slice_set};

    /// So many frames, from 1 to [`MOST_FRAMES`]: all bytes are 0 and no granule is tagged. It takes all its memory at
    /// once, and [`NoMemory`] comes where that is not to be had.
    pub fn new(alloc: Global, frames: u32) -> Result<Memory, NoMemory>
        requires least { 1 ≤ frames }
        requires most { frames ≤ MOST_FRAMES }
        ensures is { IfOk result (λ memory. memory ≡ replicate frames (replicate PAGE_GRANULES null)) }
        ensures whole { IfOk result AreFrames }
    {
        let mut made = Vec::with_capacity(alloc, frames as usize).map_err(|_| NoMemory)?;
        for _ in 0..frames {
            made.push(Frame::new()).unwrap();
        }
        Ok(Memory { frames: made })
    }

    /// How many frames were made.
    pub fn frames(&self) -> u32
        ensures count { result ≡ length self.now }
        ensures whole { AreFrames self.now }
    {
        self.frames.len() as u32
    }

    /// The number of `size` bytes, 1, 2, 4 or 8, at a byte of a frame that is a multiple of `size`. They lie in the
    /// frame.
    pub fn load(&self, f: FrameNo, at: usize, size: usize) -> u64
        requires frame { f.0 < length self.now }
        requires size { IsSize size }
        requires aligned { at % size ≡ 0 }
        requires within { at + size ≤ PAGE_BYTES }
        ensures { result ≡ number_at (frame self.now f.0) at size }
    {
        let frame = &self.frames[f.0 as usize];
        frame.load(at, size)
    }

    /// The granule at a byte of a frame, below [`PAGE_BYTES`], that is a multiple of [`GRANULE_BYTES`], with its tag.
    pub fn load_cap(&self, f: FrameNo, at: usize) -> Cap
        requires frame { f.0 < length self.now }
        requires aligned { at % GRANULE_BYTES ≡ 0 }
        requires within { at + GRANULE_BYTES ≤ PAGE_BYTES }
        ensures is { result ≡ granule (frame self.now f.0) (at / GRANULE_BYTES) }
        ensures whole { IsFrame (frame self.now f.0) }
    {
        let frame = &self.frames[f.0 as usize];
        frame.load_cap(at / GRANULE_BYTES)
    }

    /// Stores the low `size` bytes, 1, 2, 4 or 8, of a number at a byte of a frame that is a multiple of `size`, and
    /// clears the tag of its granule. They lie in the frame. All else stays.
    pub fn store(&mut self, f: FrameNo, at: usize, size: usize, v: u64)
        requires frame { f.0 < length self.old }
        requires size { IsSize size }
        requires aligned { at % size ≡ 0 }
        requires within { at + size ≤ PAGE_BYTES }
        ensures is { self.new ≡ with_frame self.old f.0 (with_number (frame self.old f.0) at size v) }
        ensures whole { AreFrames self.new }
    {
        let frame = &mut self.frames[f.0 as usize];
        frame.store(at, size, v);
    }

    /// Stores a granule, with its tag, at a byte of a frame, below [`PAGE_BYTES`], that is a multiple of
    /// [`GRANULE_BYTES`]. All else stays.
    pub fn store_cap(&mut self, f: FrameNo, at: usize, c: Cap)
        requires frame { f.0 < length self.old }
        requires aligned { at % GRANULE_BYTES ≡ 0 }
        requires within { at + GRANULE_BYTES ≤ PAGE_BYTES }
        ensures is { self.new ≡ with_frame self.old f.0 (slice_set (frame self.old f.0) (at / GRANULE_BYTES) c) }
        ensures whole { AreFrames self.new }
    {
        let frame = &mut self.frames[f.0 as usize];
        frame.store_cap(at / GRANULE_BYTES, c);
    }

    /// The bytes of a frame from a byte on, as many as there is room for in `into`. They lie in the frame, which has
    /// [`PAGE_BYTES`] bytes.
    pub fn bytes_out(&self, f: FrameNo, at: usize, into: &mut [u8])
        requires frame { f.0 < length self.now }
        requires within { at + length into.old ≤ PAGE_BYTES }
        ensures { into.new ≡ bytes_at (frame self.now f.0) at (length into.old) }
    {
        let frame = &self.frames[f.0 as usize];
        frame.bytes_out(at, into);
    }

    /// Stores bytes in a frame from a byte on, and clears the tags of the granules that they overlap. They lie in the
    /// frame, which has [`PAGE_BYTES`] bytes. All else stays.
    pub fn bytes_in(&mut self, f: FrameNo, at: usize, from: &[u8])
        requires frame { f.0 < length self.old }
        requires within { at + length from.now ≤ PAGE_BYTES }
        ensures is { self.new ≡ with_frame self.old f.0 (with_bytes (frame self.old f.0) at from.now) }
        ensures whole { AreFrames self.new }
    {
        let frame = &mut self.frames[f.0 as usize];
        frame.bytes_in(at, from);
    }

    /// Makes the frame `to` a copy of the frame `from`, tags and all. All other frames stay.
    pub fn copy_frame(&mut self, from: FrameNo, to: FrameNo)
        requires from { from.0 < length self.old }
        requires to { to.0 < length self.old }
        ensures is { self.new ≡ with_frame self.old to.0 (frame self.old from.0) }
        ensures whole { AreFrames self.new }
    {
        let copied = self.frames[from.0 as usize].copied();
        self.frames[to.0 as usize] = copied;
    }

    /// Makes all bytes of a frame 0, without a tag. All other frames stay.
    pub fn clear_frame(&mut self, f: FrameNo)
        requires { f.0 < length self.old }
        ensures is { self.new ≡ with_frame self.old f.0 (replicate PAGE_GRANULES null) }
        ensures whole { AreFrames self.new }
    {
        let frame = &mut self.frames[f.0 as usize];
        frame.clear();
    }

    /// The least granule of a frame that is tagged, from this one on, which is at most [`PAGE_GRANULES`]. None comes
    /// exactly where no granule from there on is tagged.
    pub fn next_tag(&self, f: FrameNo, granule: usize) -> Option<usize>
        requires frame { f.0 < length self.now }
        requires granule { granule ≤ PAGE_GRANULES }
        ensures next { IfSome result (IsNextTag (frame self.now f.0) granule) }
        ensures none { IsNone result ↔ ((k : ℕ) → granule ≤ k → k < PAGE_GRANULES → is_tagged (frame self.now f.0) k ≡ false) }
        ensures whole { IsFrame (frame self.now f.0) }
    {
        let frame = &self.frames[f.0 as usize];
        frame.next_tag(granule)
    }
}

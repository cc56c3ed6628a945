// One frame.
ghost use Rattle.std.specs.Prelude.{◌≡◌, ◌↔◌, ◌≤◌, ◌<◌, ◌+◌, ◌%◌, ◌^◌, ℕ, IfSome, IsNone, false, length, replicate, slice_set};
ghost use Rattle.cap_format.specs.Made.{null};
ghost use Rattle.machine_types.specs.Granules.{granule, IsSize, number_at, with_bits, with_number, bytes_at, with_bytes, is_tagged};
ghost use Rattle.tagged_memory.specs.Frames.{IsFrame, IsNextTag};

use cap_format::{Cap, GRANULE_BYTES, PAGE_BYTES, PAGE_GRANULES};
use std::marker::Model;

/// [`PAGE_GRANULES`] granules: their bits, and a tag for each. Granules, and bytes, are numbered from 0 on.
#[derive(Drop)]
pub(crate) struct Frame {
    words: [u128; PAGE_GRANULES],
    tags: [bool; PAGE_GRANULES],
}

impl Model for Frame {
    ghost use Rattle.std.specs.Prelude.{List};
    ghost use Rattle.cap_format.specs.declared.cap.Cap.{Cap};
    ghost use Rattle.tagged_memory.specs.Frames.{IsFrame};
    ghost use Rattle.tagged_memory.specs.Zipped.{zipped};

    ghost Value = { List Cap };

    ghost view = { λ f. zipped f.words f.tags };

    ghost invariant = { λ f. IsFrame (zipped f.words f.tags) };
}

impl Frame {
    /// A frame whose bytes are all 0 and whose granules are all without a tag.
    pub(crate) fn new() -> Frame
        ensures { result ≡ replicate PAGE_GRANULES null }
    {
        Frame {
            words: [0; PAGE_GRANULES],
            tags: [false; PAGE_GRANULES],
        }
    }

    /// Another frame with the same granules.
    pub(crate) fn copied(&self) -> Frame
        ensures { result ≡ self.now }
    {
        Frame {
            words: self.words,
            tags: self.tags,
        }
    }

    /// Makes all bytes 0, without a tag.
    pub(crate) fn clear(&mut self)
        ensures is { self.new ≡ replicate PAGE_GRANULES null }
        ensures whole { IsFrame self.new }
    {
        self.words = [0; PAGE_GRANULES];
        self.tags = [false; PAGE_GRANULES];
    }

    /// The number of `size` bytes, 1, 2, 4 or 8, at a byte, below [`PAGE_BYTES`], that is a multiple of `size`.
    pub(crate) fn load(&self, at: usize, size: usize) -> u64
        requires size { IsSize size }
        requires within { at < PAGE_BYTES }
        ensures { result ≡ number_at self.now at size }
    {
        let word = self.load_cap(at / GRANULE_BYTES).bits;
        low_bits(word >> (8 * (at % GRANULE_BYTES)), 8 * size) as u64
    }

    /// A granule, below [`PAGE_GRANULES`], with its tag.
    pub(crate) fn load_cap(&self, g: usize) -> Cap
        requires { g < PAGE_GRANULES }
        ensures { result ≡ granule self.now g }
    {
        Cap {
            bits: self.words[g],
            tag: self.tags[g],
        }
    }

    // Whether a granule, below `PAGE_GRANULES`, is tagged.
    fn is_tagged(&self, g: usize) -> bool
        requires { g < PAGE_GRANULES }
        ensures { result ≡ is_tagged self.now g }
    {
        self.tags[g]
    }

    /// Stores the low `size` bytes, 1, 2, 4 or 8, of a number at a byte, below [`PAGE_BYTES`], that is a multiple of
    /// `size`, and clears the tag of its granule.
    pub(crate) fn store(&mut self, at: usize, size: usize, v: u64)
        requires size { IsSize size }
        requires aligned { at % size ≡ 0 }
        requires within { at < PAGE_BYTES }
        ensures is { self.new ≡ with_number self.old at size v }
        ensures whole { IsFrame self.new }
    {
        let g = at / GRANULE_BYTES;
        let bits = replaced(self.load_cap(g).bits, 8 * (at % GRANULE_BYTES), 8 * size, v);
        self.store_cap(g, Cap { bits, tag: false });
    }

    /// Stores a granule, below [`PAGE_GRANULES`], with its tag.
    pub(crate) fn store_cap(&mut self, g: usize, c: Cap)
        requires { g < PAGE_GRANULES }
        ensures is { self.new ≡ slice_set self.old g c }
        ensures whole { IsFrame self.new }
    {
        self.words[g] = c.bits;
        self.tags[g] = c.tag;
    }

    // A byte, below `PAGE_BYTES`.
    fn byte(&self, at: usize) -> u8
        requires { at < PAGE_BYTES }
        ensures { result ≡ number_at self.now at 1 }
    {
        self.load(at, 1) as u8
    }

    /// The bytes from a byte on. They lie in the frame, which has [`PAGE_BYTES`] bytes.
    pub(crate) fn bytes_out(&self, at: usize, into: &mut [u8])
        requires { at + length into.old ≤ PAGE_BYTES }
        ensures { into.new ≡ bytes_at self.now at (length into.old) }
    {
        for i in 0..into.len() {
            into[i] = self.byte(at + i);
        }
    }

    /// Stores bytes from a byte on, and clears the tags of the granules that they overlap. They lie in the frame, which
    /// has [`PAGE_BYTES`] bytes.
    pub(crate) fn bytes_in(&mut self, at: usize, from: &[u8])
        requires { at + length from.now ≤ PAGE_BYTES }
        ensures is { self.new ≡ with_bytes self.old at from.now }
        ensures whole { IsFrame self.old → IsFrame self.new }
    {
        for i in 0..from.len() {
            self.store(at + i, 1, u64::from(from[i]));
        }
    }

    /// The least granule that is tagged, from this one on, which is at most [`PAGE_GRANULES`]. None comes exactly where
    /// no granule from there on is tagged.
    pub(crate) fn next_tag(&self, first: usize) -> Option<usize>
        requires { first ≤ PAGE_GRANULES }
        ensures next { IfSome result (IsNextTag self.now first) }
        ensures none { IsNone result ↔ ((k : ℕ) → first ≤ k → k < PAGE_GRANULES → is_tagged self.now k ≡ false) }
    {
        for k in first..PAGE_GRANULES {
            if self.is_tagged(k) {
                return Some(k);
            }
        }
        None
    }
}

// The low bits of a number, fewer than 128.
fn low_bits(n: u128, width: usize) -> u128
    requires { width < 128 }
    ensures low { result ≡ n % 2 ^ width }
    ensures small { result < 2 ^ width }
{
    n & ((1 << width) - 1)
}

// A number of 128 bits with other bits, from 1 to 64 of them, from bit `low` on.
fn replaced(n: u128, low: usize, width: usize, bits: u64) -> u128
    requires low { low + width ≤ 128 }
    requires width { width ≤ 64 }
    requires some { 0 < width }
    ensures { result ≡ with_bits n low width bits }
{
    let high = n >> low >> width << width | low_bits(u128::from(bits), width);
    high << low | low_bits(n, low)
}

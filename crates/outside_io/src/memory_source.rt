// A source in memory.
ghost use Rattle.std.specs.Prelude.{◌≡◌, ◌↔◌, ◌<◌, ◌≤◌, IsErr, IfOk, MatchResult, Some, length, drop, min, vec_len};
ghost use Rattle.std.specs.Io.{ReadsAtMost};
ghost use Rattle.std.specs.Io.KnownBytes.{ReadConsumes};
ghost use Rattle.outside_io.specs.Faults.{HasCause, count_after};

use crate::failures::FailingCalls;
use crate::{Failed, Source};
use std::marker::Model;

/// A source of bytes that lie in memory. It tells them, gives at most so many a call, and fails at listed calls.
#[derive(Drop)]
pub struct MemorySource {
    bytes: Vec<u8>,
    taken: usize,
    piece: usize,
    failing: FailingCalls,
    faults: u64,
}

impl Model for MemorySource {
    ghost use Rattle.std.specs.Prelude.{◌≤◌, ◌<◌, drop, vec_len};
    ghost use Rattle.outside_io.specs.Memory.{MemorySourceState};

    ghost Value = { MemorySourceState };

    ghost view = { λ s. record { left = drop s.taken s.bytes.items; piece = s.piece; failures = s.failing; faults = s.faults } };

    ghost invariant = { λ s. (s.taken ≤ vec_len s.bytes) × (0 < s.piece) };
}

impl MemorySource {
    ghost use Rattle.outside_io.specs.Memory.{failures_of};

    /// A source of these bytes that gives at most `piece` bytes a call, which is over 0. The calls whose
    /// numbers, from 0, are in `failing` fail; no others do.
    pub fn new(bytes: Vec<u8>, piece: usize, failing: Vec<u64>) -> MemorySource
        requires { 0 < piece }
        ensures { result ≡ record { left = bytes.items; piece = piece; failures = failures_of failing.items; faults = 0 } }
    {
        MemorySource {
            bytes,
            taken: 0,
            piece,
            failing: FailingCalls::new(failing),
            faults: 0,
        }
    }
}

impl Source for MemorySource {
    ghost use Rattle.outside_io.specs.Memory.{FailsNow, failures_after};

    ghost state = { λ s. record { left = Some s.left; faults = s.faults } };

    fn read(&mut self, into: &mut [u8]) -> Result<usize, Failed>
        ensures bound { ReadsAtMost result into.new }
        ensures bytes { ReadConsumes (Some self.old.left) (Some self.new.left) result into.new }
        ensures rest { IfOk result (λ count. drop count into.new ≡ drop count into.old) }
        ensures cause { HasCause self.old.faults self.new.faults result }

        ensures fails { IsErr result ↔ FailsNow self.old.failures }
        ensures count { IfOk result (λ count. count ≡ min (min (length self.old.left) self.old.piece) (length into.old)) }
        ensures after { MatchResult result
            (λ count. self.new ≡ record self.old { left = drop count self.old.left; failures = failures_after self.old.failures })
            (λ _. self.new ≡ record self.old { failures = failures_after self.old.failures; faults = count_after self.old.faults }) }
    {
        if self.failing.fails_now() {
            self.faults = self.faults.saturating_add(1);
            return Err(Failed);
        }
        let left = &self.bytes[self.taken..];
        let count = left.len().min(self.piece).min(into.len());
        into[..count].copy_from_slice(&left[..count]);
        self.taken += count;
        Ok(count)
    }
}

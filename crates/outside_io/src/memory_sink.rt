// A sink in memory.
ghost use Rattle.std.specs.Prelude.{◌≡◌, ◌↔◌, ◌⊎◌, ◌<◌, ◌≤◌, ◌+◌, ◌-◌, ◌++◌, IsErr, IfOk, MatchResult, Some, [], length, vec_len, vec_capacity};
ghost use Rattle.outside_io.specs.Faults.{count_after};
ghost use Rattle.outside_io.specs.States.{PrintsText};

use crate::failures::FailingCalls;
use crate::{Failed, Sink};
use std::alloc::{AllocError, Global};
use std::marker::Model;

/// A sink that keeps the bytes in memory, tells them, and fails at listed calls and where its room is over.
#[derive(Drop)]
pub struct MemorySink {
    bytes: Vec<u8>,
    room: usize,
    failing: FailingCalls,
    faults: u64,
}

impl Model for MemorySink {
    ghost use Rattle.std.specs.Prelude.{◌≤◌, ◌+◌, vec_len, vec_capacity};
    ghost use Rattle.outside_io.specs.Memory.{MemorySinkState};

    ghost Value = { MemorySinkState };

    ghost view = { λ s. record { written = s.bytes.items; room = s.room; failures = s.failing; faults = s.faults } };

    ghost invariant = { λ s. vec_len s.bytes + s.room ≤ vec_capacity s.bytes };
}

impl MemorySink {
    ghost use Rattle.outside_io.specs.Memory.{failures_of};

    /// An empty sink with room for so many bytes, which it takes at once. The calls whose numbers, from 0,
    /// are in `failing` fail, and so does a piece that is longer than the room left; no others do.
    pub fn new(alloc: Global, room: usize, failing: Vec<u64>) -> Result<MemorySink, AllocError>
        ensures { IfOk result (λ sink. sink ≡ record { written = []; room = room; failures = failures_of failing.items; faults = 0 }) }
    {
        let bytes = Vec::with_capacity(alloc, room)?;
        Ok(MemorySink {
            bytes,
            room,
            failing: FailingCalls::new(failing),
            faults: 0,
        })
    }

    /// The bytes that were written.
    pub fn bytes(&self) -> &[u8]
        ensures { result.now ≡ self.now.written }
    {
        &self.bytes
    }
}

impl Sink for MemorySink {
    ghost use Rattle.outside_io.specs.Memory.{FailsNow, failures_after};

    ghost state = { λ s. record { written = Some s.written; faults = s.faults } };

    fn write(&mut self, piece: &[u8]) -> Result<(), Failed>
        ensures prints { PrintsText piece.now (⟦<MemorySink as Sink>⟧.state self.old) (⟦<MemorySink as Sink>⟧.state self.new) result }

        ensures fails { IsErr result ↔ (FailsNow self.old.failures ⊎ (self.old.room < length piece.now)) }
        ensures after { MatchResult result
            (λ _. self.new ≡ record self.old { written = self.old.written ++ piece.now; room = self.old.room - length piece.now; failures = failures_after self.old.failures })
            (λ _. self.new ≡ record self.old { failures = failures_after self.old.failures; faults = count_after self.old.faults }) }
    {
        if self.failing.fails_now() || piece.len() > self.room {
            self.faults = self.faults.saturating_add(1);
            return Err(Failed);
        }
        self.bytes.extend_from_slice(piece).unwrap();
        self.room -= piece.len();
        Ok(())
    }
}

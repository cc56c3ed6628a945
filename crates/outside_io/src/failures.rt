// Which calls of a form over memory fail.
ghost use Rattle.std.specs.Prelude.{◌≡◌, ◌↔◌, IsTrue};

use std::marker::Model;

/// The numbers of the calls that fail, from 0, and the number of the next call.
#[derive(Drop)]
pub struct FailingCalls {
    calls: Vec<u64>,
    next: Option<u64>,
}

impl Model for FailingCalls {
    ghost use Rattle.outside_io.specs.Memory.{Failures};

    ghost Value = { Failures };

    ghost view = { λ f. record { calls = f.calls.items; next = f.next } };
}

impl FailingCalls {
    ghost use Rattle.outside_io.specs.Memory.{failures_of, failures_after, FailsNow};

    /// Before the first call.
    pub fn new(calls: Vec<u64>) -> Self
        ensures { result ≡ failures_of calls.items }
    {
        FailingCalls {
            calls,
            next: Some(0),
        }
    }

    /// Whether the call that is made now fails.
    pub fn fails_now(&mut self) -> bool
        ensures fails { IsTrue result ↔ FailsNow self.old }
        ensures after { self.new ≡ failures_after self.old }
    {
        let Some(now) = self.next else {
            return false;
        };
        self.next = now.checked_add(1);
        self.calls.contains(&now)
    }
}

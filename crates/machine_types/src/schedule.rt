// The timer's schedule.
ghost use Rattle.std.specs.Prelude.{◌≡◌};

use std::marker::Model;

/// The quanta of a run, each with the number of times that it is repeated, in order.
#[derive(Drop)]
pub struct Schedule {
    pairs: Vec<(u64, u64)>,
}

impl Model for Schedule {
    ghost use Rattle.std.specs.Prelude.{List, ℕ};

    ghost Value = { List (ℕ × ℕ) };

    ghost view = { λ s. s.pairs.items };
}

impl Schedule {
    /// The schedule of these pairs of a quantum and its repeats.
    pub fn new(pairs: Vec<(u64, u64)>) -> Schedule
        ensures { result ≡ pairs.items }
    {
        Schedule { pairs }
    }

    /// The pairs of a quantum and its repeats.
    pub fn pairs(&self) -> &[(u64, u64)]
        ensures { result.now ≡ self.now }
    {
        &self.pairs
    }
}

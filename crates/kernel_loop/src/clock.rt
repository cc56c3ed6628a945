// The clock: steps, the current slot with its quantum, and the quanta to come.
ghost use Rattle.std.specs.Prelude.{◌≡◌, ◌<◌, ◌+◌, ◌^◌, if◌then◌else◌, None, Some};
ghost use Rattle.machine.specs.Applying.{head_of, tail_of, quantum_of, less_one, is_spent};
ghost use Rattle.machine_steps.specs.Runs.{quanta_of};
ghost use Rattle.kernel_loop.specs.Quanta.{quanta_from};

use machine::Quantum;
use machine_types::Schedule;
use std::marker::Model;

/// The steps made, the current slot, if one is, what is left of its quantum, the slot dispatched last, and the quanta still to come.
#[derive(Drop)]
pub struct Clock {
    steps: u64,
    current: Option<u32>,
    quantum: Option<u64>,
    last: u32,
    schedule: Schedule,
    // the pair of the schedule that is used, and how often it was
    pair: usize,
    used: u64,
}

impl Model for Clock {
    ghost use Rattle.machine.specs.Machines.{Clock as Times};
    ghost use Rattle.kernel_loop.specs.Quanta.{quanta_from};

    ghost Value = { Times };

    ghost view = { λ c. record { steps = c.steps; current = c.current; quantum = c.quantum; last = c.last; rest = quanta_from c.schedule c.pair c.used } };
}

impl Clock {
    /// A clock that has made no step, with no current slot. The slot dispatched last is this one, and all quanta of the schedule are to come.
    pub fn new(last: u32, schedule: Schedule) -> Clock
        ensures { result ≡ record { steps = 0; current = None; quantum = None; last = last; rest = quanta_of schedule } }
    {
        Clock {
            steps: 0,
            current: None,
            quantum: None,
            last,
            schedule,
            pair: 0,
            used: 0,
        }
    }

    /// The number of steps made.
    pub fn steps(&self) -> u64
        ensures { result ≡ self.now.steps }
    {
        self.steps
    }

    /// The current slot. None where there is none.
    pub fn current(&self) -> Option<u32>
        ensures { result ≡ self.now.current }
    {
        self.current
    }

    /// The slot dispatched last.
    pub fn last(&self) -> u32
        ensures { result ≡ self.now.last }
    {
        self.last
    }

    /// Whether the next step is the last one of the quantum.
    pub fn is_spent(&self) -> bool
        ensures { result ≡ is_spent self.now.quantum }
    {
        match self.quantum {
            Some(left) => left <= 1,
            None => false,
        }
    }

    /// Dispatches a slot: its quantum, which is the answer, is the next one of the schedule. After the last one there is no interrupt.
    pub fn dispatch(&mut self, slot: u32) -> Quantum
        ensures is { self.new ≡ record self.old { current = Some slot; quantum = head_of self.old.rest; last = slot; rest = tail_of self.old.rest } }
        ensures quantum { result ≡ quantum_of (head_of self.old.rest) }
    {
        let next = next_quantum(&self.schedule, &mut self.pair, &mut self.used);
        self.current = Some(slot);
        self.quantum = next;
        self.last = slot;
        match next {
            Some(steps) => Quantum::Steps(steps),
            None => Quantum::Free,
        }
    }

    /// A step was made, and the current slot stops or goes on. Fewer than 2^63 steps were made before.
    pub fn settle(&mut self, stops: bool)
        requires { self.old.steps < 2 ^ 63 }
        ensures { self.new ≡ (if stops then record self.old { steps = self.old.steps + 1; current = None; quantum = None } else record self.old { steps = self.old.steps + 1; quantum = less_one self.old.quantum }) }
    {
        self.steps += 1;
        if stops {
            self.current = None;
            self.quantum = None;
        } else {
            self.quantum = match self.quantum {
                Some(left) => Some(left.saturating_sub(1)),
                None => None,
            };
        }
    }
}

// Takes the next quantum of the schedule, past pairs that are used up.
fn next_quantum(schedule: &Schedule, pair: &mut usize, used: &mut u64) -> Option<u64>
    ensures next { result ≡ head_of (quanta_from schedule.now pair.old used.old) }
    ensures rest { quanta_from schedule.now pair.new used.new ≡ tail_of (quanta_from schedule.now pair.old used.old) }
{
    let pairs = schedule.pairs();
    for place in *pair..pairs.len() {
        let (quantum, repeats) = pairs[place];
        if *used < repeats {
            *pair = place;
            *used += 1;
            return Some(quantum);
        }
        *used = 0;
    }
    *pair = pairs.len();
    None
}

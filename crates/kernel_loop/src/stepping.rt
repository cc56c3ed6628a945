// The parts of a kernel, and one step of it.
ghost use Rattle.std.specs.Prelude.{◌≡◌, ◌+◌, ◌||◌, not, take};
ghost use Rattle.std.specs.List.{list_any};
ghost use Rattle.machine.specs.Machines.{Machine};
ghost use Rattle.machine.specs.Applying.{is_yield};
ghost use Rattle.machine.specs.Processes.{lives};
ghost use Rattle.machine.specs.Readiness.{outcome_as, outcome_of};
ghost use Rattle.machine_steps.specs.Steps.{step_of};

use crate::clock::Clock;
use crate::readiness::remark;
use crate::work::work;
use machine::{Quantum, StepReport, WorkEnd, outcomes_are_exact};
use machine_steps::{dispatches_are_next, machines_stay_machines};
use machine_types::{Config, Outcome};
use process_table::Processes;
use stores::Stores;
use trap_syscalls::World;

/// What a kernel has: its configuration, its world, its space, and its clock.
pub struct Core<S> {
    pub(crate) config: Config,
    pub(crate) world: World,
    pub(crate) space: S,
    pub(crate) clock: Clock,
    // how many bytes the last step printed, which are the front of the world's buffer
    pub(crate) printed: u32,
}

impl<S: Stores> Core<S> {
    ghost use Rattle.kernel_loop.specs.Stands.{CoreStands, SomeMachine, Any, CanStep, IsKept, HasPicked};

    // Makes a step of a machine that runs.
    pub(crate) fn step(&mut self) -> StepReport
        requires can { ∥ SomeMachine S.stands_for self.old CanStep ∥₁ }
        ensures next { (m : Machine) → CoreStands S.stands_for self.old m → CoreStands S.stands_for self.new (step_of m).next }
        ensures report { (m : Machine) → CoreStands S.stands_for self.old m → result ≡ (step_of m).report }
        ensures printed { (m : Machine) → CoreStands S.stands_for self.old m → take self.new.printed self.new.world.buffer.items ≡ (step_of m).printed }
        ensures counted { self.new.clock.steps ≡ self.old.clock.steps + 1 }
        ensures kept { IsKept self.new }
    {
        dispatches_are_next();
        machines_stay_machines();
        let (slot, dispatch) = self.pick();
        let worked = work(&mut self.world, slot, &mut self.space);
        remark(&mut self.world, slot, worked.end);
        let ready = self.world.processes.is_marked(slot);
        let stops = stops(self.clock.is_spent(), ready, worked.end);
        self.clock.settle(stops);
        self.printed = worked.printed;
        let touches = worked.touches;
        StepReport {
            id: worked.id,
            slot,
            dispatch,
            work: worked.work,
            touches,
            printed: worked.printed,
            end: worked.end,
        }
    }

    // How the machine stands. Where a slot is current, it is a ready one.
    pub(crate) fn outcome(&self) -> Outcome
        requires can { ∥ SomeMachine S.stands_for self.now Any ∥₁ }
        ensures { (m : Machine) → CoreStands S.stands_for self.now m → result ≡ outcome_of m }
    {
        outcomes_are_exact();
        if self.clock.current().is_some() {
            return Outcome::Running;
        }
        let next = self.world.processes.next_ready(self.clock.last());
        outcome_by(is_any_live(&self.world.processes), next.is_some())
    }

    // What the last step printed.
    pub(crate) fn printed(&self) -> &[u8]
        requires { ∥ SomeMachine S.stands_for self.now Any ∥₁ }
        ensures { result.now ≡ take self.now.printed self.now.world.buffer.items }
    {
        &self.world.buffer[..self.printed as usize]
    }

    // Its space alone.
    pub(crate) fn into_space(self) -> S
        ensures { result ≡ self.space }
    {
        let Core {
            config: _config,
            world: _world,
            space,
            clock: _clock,
            printed: _printed,
        } = self;
        space
    }

    // The slot that works: the current one, or the next ready one, which is dispatched.
    fn pick(&mut self) -> (u32, Option<Quantum>)
        requires can { ∥ SomeMachine S.stands_for self.old CanStep ∥₁ }
        ensures picked { (m : Machine) → CoreStands S.stands_for self.old m → HasPicked m result (CoreStands S.stands_for self.new) }
        ensures steps { self.new.clock.steps ≡ self.old.clock.steps }
        ensures rest { self.new ≡ record self.old { clock = self.new.clock } }
    {
        if let Some(slot) = self.clock.current() {
            return (slot, None);
        }
        match self.world.processes.next_ready(self.clock.last()) {
            Some(slot) => (slot, Some(self.clock.dispatch(slot))),
            None => (0, None),
        }
    }
}

// Whether a slot stops being current: its quantum is spent, its process isn't ready, or it called yield.
fn stops(spent: bool, ready: bool, end: WorkEnd) -> bool
    ensures { result ≡ (spent || (not ready || is_yield end)) }
{
    spent || !ready || is_yield(end)
}

// yield is known by its answer
fn is_yield(end: WorkEnd) -> bool
    ensures { result ≡ is_yield end }
{
    match end {
        WorkEnd::Answered { number, .. } => number == 12,
        WorkEnd::Plain | WorkEnd::Waiting { .. } | WorkEnd::Forked { .. } | WorkEnd::Ended { .. } =>
            false,
    }
}

// How a machine stands where a process is live or none is, and one is ready or none is.
fn outcome_by(live: bool, ready: bool) -> Outcome
    ensures { result ≡ outcome_as live ready }
{
    match (live, ready) {
        (false, _) => Outcome::Done,
        (true, false) => Outcome::Stuck,
        (true, true) => Outcome::Running,
    }
}

// Whether some process is live.
fn is_any_live(processes: &Processes) -> bool
    ensures { result ≡ list_any lives processes.now.processes }
{
    for slot in 0..processes.slots() {
        if processes.is_live(slot) {
            return true;
        }
    }
    false
}

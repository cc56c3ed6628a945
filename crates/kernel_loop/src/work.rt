// The work of a step: an instruction, or a call that goes on.
ghost use Rattle.std.specs.Prelude.{◌≡◌, ◌<◌, ◌^◌, ◌∷◌, true, false, Some};
ghost use Rattle.cap_format.specs.Numbers.{most_regions};
ghost use Rattle.cheri_step.specs.Effect.{CanStep};
ghost use Rattle.contents.specs.Content.{Content};
ghost use Rattle.machine.specs.declared.process.Process.{Process};
ghost use Rattle.machine.specs.Processes.{process_at, lives};
ghost use Rattle.machine.specs.Machines.{Machine, view_of};
ghost use Rattle.machine_steps.specs.Works.{effect_of, instruction_of};
ghost use Rattle.machine_steps.specs.Steps.{made, three_notes};
ghost use Rattle.stores.specs.Known.{StandsFor};
ghost use Rattle.trap_syscalls.specs.Worlds.{IsWorldOf, SomeWorld};
ghost use Rattle.kernel_loop.specs.Working.{is_making, is_touch, seen_of, HasStepped, HasWorked, MayWork};

use cheri_step::{StepEnd, Stepped, faults_change_nothing, step_instr};
use machine::{State, Work, WorkEnd};
use machine_types::{Note, Touched};
use process_table::Processes;
use stores::Stores;
use trap_syscalls::{World, do_call, kill_process};

// what a step sees of its process
#[derive(Clone, Copy)]
pub(crate) struct Seen {
    pub(crate) id: u64,
    // the address of PCC
    pub(crate) pc: u64,
    // it makes an instruction, and does not go on with a call
    pub(crate) ready: bool,
}

// what the work of a step came to
#[derive(Clone, Copy)]
pub(crate) struct Worked {
    pub(crate) id: u64,
    pub(crate) work: Work,
    pub(crate) touches: [Note; 3],
    pub(crate) printed: u32,
    pub(crate) end: WorkEnd,
}

// Makes the work of the process of a slot.
pub(crate) fn work<S: Stores>(world: &mut World, slot: u32, space: &mut S) -> Worked
    requires forks { world.old.forks < 2 ^ 62 }
    requires may { ∥ SomeWorld S.stands_for world.old space.old (MayWork slot) ∥₁ }
    ensures worked { (m : Machine) (p : Process) → IsWorldOf m world.old → S.stands_for space.old m.content → process_at m.processes slot ≡ Some p
        → HasWorked m slot p (effect_of (view_of m slot p) m.content) result world.new }
    ensures content { (m : Machine) (p : Process) → IsWorldOf m world.old → S.stands_for space.old m.content → process_at m.processes slot ≡ Some p
        → S.stands_for space.new (effect_of (view_of m slot p) m.content).content }
    ensures marks { world.new.processes.marks ≡ world.old.processes.marks }
{
    let seen = seen_at(&world.processes, slot);
    if seen.ready {
        instruct(world, slot, space, seen)
    } else {
        resume(world, slot, space, seen)
    }
}

// what a step sees of the process of a slot, which is there
fn seen_at(processes: &Processes, slot: u32) -> Seen
    requires { lives (process_at processes.now.processes slot) ≡ true }
    ensures { (p : Process) → process_at processes.now.processes slot ≡ Some p → result ≡ seen_of p }
{
    match processes.get(slot) {
        Some(p) => Seen {
            id: p.id,
            pc: p.pcc.address(),
            ready: is_ready(p.state),
        },
        None => Seen {
            id: 0,
            pc: 0,
            ready: false,
        },
    }
}

// whether a process makes instructions
fn is_ready(state: State) -> bool
    ensures { result ≡ is_making state }
{
    match state {
        State::Ready => true,
        State::InRead | State::InWrite { .. } | State::InWait | State::Zombie { .. } => false,
    }
}

// One instruction, and the call that it may be. A fault kills the process.
fn instruct<S: Stores>(world: &mut World, slot: u32, space: &mut S, seen: Seen) -> Worked
    requires forks { world.old.forks < 2 ^ 62 }
    requires may { ∥ SomeWorld S.stands_for world.old space.old (MayWork slot) ∥₁ }
    requires seen { (p : Process) → process_at world.old.processes.processes slot ≡ Some p → seen ≡ seen_of p }
    requires ready { seen.ready ≡ true }
    ensures worked { (m : Machine) (p : Process) → IsWorldOf m world.old → S.stands_for space.old m.content → process_at m.processes slot ≡ Some p
        → HasWorked m slot p (effect_of (view_of m slot p) m.content) result world.new }
    ensures content { (m : Machine) (p : Process) → IsWorldOf m world.old → S.stands_for space.old m.content → process_at m.processes slot ≡ Some p
        → S.stands_for space.new (effect_of (view_of m slot p) m.content).content }
    ensures marks { world.new.processes.marks ≡ world.old.processes.marks }
{
    faults_change_nothing();
    let stepped = step_at(&mut world.processes, slot, space);
    let work = Work::Instr {
        pc: seen.pc,
        word: stepped.word,
    };
    match stepped.end {
        StepEnd::Next => Worked {
            id: seen.id,
            work,
            touches: in_order(stepped.fetched, [stepped.touched, UNTOUCHED]),
            printed: 0,
            end: WorkEnd::Plain,
        },
        StepEnd::Call => {
            let done = do_call(world, slot, space);
            Worked {
                id: seen.id,
                work,
                touches: in_order(stepped.fetched, done.touches),
                printed: done.printed,
                end: done.end,
            }
        }
        StepEnd::Fault(cause) => Worked {
            id: seen.id,
            work,
            touches: in_order(stepped.fetched, [stepped.touched, UNTOUCHED]),
            printed: 0,
            end: WorkEnd::Ended {
                status: kill_process(world, slot, cause, space),
            },
        },
    }
}

// One attempt more of a call that is underway, which fetches nothing.
fn resume<S: Stores>(world: &mut World, slot: u32, space: &mut S, seen: Seen) -> Worked
    requires forks { world.old.forks < 2 ^ 62 }
    requires may { ∥ SomeWorld S.stands_for world.old space.old (MayWork slot) ∥₁ }
    requires seen { (p : Process) → process_at world.old.processes.processes slot ≡ Some p → seen ≡ seen_of p }
    requires underway { seen.ready ≡ false }
    ensures worked { (m : Machine) (p : Process) → IsWorldOf m world.old → S.stands_for space.old m.content → process_at m.processes slot ≡ Some p
        → HasWorked m slot p (effect_of (view_of m slot p) m.content) result world.new }
    ensures content { (m : Machine) (p : Process) → IsWorldOf m world.old → S.stands_for space.old m.content → process_at m.processes slot ≡ Some p
        → S.stands_for space.new (effect_of (view_of m slot p) m.content).content }
    ensures marks { world.new.processes.marks ≡ world.old.processes.marks }
{
    let done = do_call(world, slot, space);
    Worked {
        id: seen.id,
        work: Work::Resume { pc: seen.pc },
        touches: in_order(UNTOUCHED, done.touches),
        printed: done.printed,
        end: done.end,
    }
}

// The instruction of the process of a slot, which may make one.
fn step_at<S: Stores>(processes: &mut Processes, slot: u32, space: &mut S) -> Stepped
    requires live { lives (process_at processes.old.processes slot) ≡ true }
    requires region { (p : Process) → process_at processes.old.processes slot ≡ Some p → p.region < most_regions }
    requires ready { (p : Process) → process_at processes.old.processes slot ≡ Some p → ∥ StandsFor S.stands_for space.old (CanStep p.region p.regs p.pcc) ∥₁ }
    ensures is { (p : Process) (c : Content) → process_at processes.old.processes slot ≡ Some p → S.stands_for space.old c → HasStepped processes.old slot p (instruction_of p c) result processes.new (S.stands_for space.new) }
    ensures marks { processes.new.marks ≡ processes.old.marks }
{
    match processes.get_mut(slot) {
        Some(p) => step_instr(&mut p.regs, &mut p.pcc, p.region, space),
        None => idle(),
    }
}

// no instruction
fn idle() -> Stepped {
    Stepped {
        end: StepEnd::Next,
        word: None,
        fetched: UNTOUCHED,
        touched: UNTOUCHED,
    }
}

// no touch
const UNTOUCHED: Note = Note {
    page: 0,
    touched: Touched::No,
};

// the touches that were made, in their order, and then none
fn in_order(first: Note, rest: [Note; 2]) -> [Note; 3]
    ensures { result ≡ three_notes (made (first ∷ rest)) }
{
    let [second, third] = rest;
    match (is_made(first), is_made(second), is_made(third)) {
        (true, true, true) => [first, second, third],
        (true, true, false) => [first, second, UNTOUCHED],
        (true, false, true) => [first, third, UNTOUCHED],
        (true, false, false) => [first, UNTOUCHED, UNTOUCHED],
        (false, true, true) => [second, third, UNTOUCHED],
        (false, true, false) => [second, UNTOUCHED, UNTOUCHED],
        (false, false, true) => [third, UNTOUCHED, UNTOUCHED],
        (false, false, false) => [UNTOUCHED; 3],
    }
}

// whether a touch was made
fn is_made(note: Note) -> bool
    ensures { result ≡ is_touch note }
{
    match note.touched {
        Touched::No => false,
        Touched::Copied | Touched::Moved => true,
    }
}

// What a call leaves of its process.
ghost use Rattle.std.specs.Prelude.{◌≡◌, ◌<◌, ◌^◌, true, ℕ, List, Some};
ghost use Rattle.machine_types.specs.declared.touches.Note.{Note};
ghost use Rattle.contents.specs.Content.{Content};
ghost use Rattle.contents.specs.Transfers.{two_notes};
ghost use Rattle.machine.specs.declared.process.Process.{Process};
ghost use Rattle.machine.specs.Processes.{process_at, is_live, lives};
ghost use Rattle.machine.specs.Machines.{Machine, view_of};
ghost use Rattle.machine.specs.Effects.{next_pcc, answers, refuses, waits, Gives, Refuses, answer_bits, answer_number};
ghost use Rattle.process_table.specs.Tables.{with_slot};
ghost use Rattle.trap_syscalls.specs.Worlds.{IsWorldOf, HasCalled};
ghost use Rattle.trap_syscalls.specs.Calling.{IsCalling, IsAsked};
ghost use Rattle.trap_syscalls.specs.Asked.{with_answer, with_state};

use crate::call::Call;
use crate::world::{CallDone, World};
use cap_format::Cap;
use machine::{Process, State, WorkEnd};
use machine_types::{Errno, Note, Touched};
use process_table::Processes;

// no touch
pub(crate) const UNTOUCHED: Note = Note {
    page: 0,
    touched: Touched::No,
};

// A call answers a number, after these touches: the number is in x10, and PCC past the call.
pub(crate) fn answer(world: &mut World, call: &Call, value: u64, touches: [Note; 2]) -> CallDone
    requires calling { IsCalling world.old call.now }
    requires asked { IsAsked world.old call.now }
    requires small { value < 2 ^ 63 }
    ensures called { (m : Machine) (p : Process) (c : Content) (notes : List Note) → IsWorldOf m world.old → process_at m.processes call.now.slot ≡ Some p → touches ≡ two_notes notes
        → HasCalled m call.now.slot p (answers (view_of m call.now.slot p) c notes (Gives value)) result world.new }
    ensures buffer { world.new.buffer ≡ world.old.buffer }
    ensures marks { world.new.processes.marks ≡ world.old.processes.marks }
{
    set_answer(&mut world.processes, call.slot, value);
    CallDone {
        end: WorkEnd::Answered {
            number: call.number,
            answer: value as i64,
        },
        touches,
        printed: 0,
    }
}

// A call is refused: the negative of the error's number is in x10, and PCC past the call.
pub(crate) fn refuse(world: &mut World, call: &Call, error: Errno) -> CallDone
    requires calling { IsCalling world.old call.now }
    requires asked { IsAsked world.old call.now }
    ensures called { (m : Machine) (p : Process) (c : Content) → IsWorldOf m world.old → process_at m.processes call.now.slot ≡ Some p
        → HasCalled m call.now.slot p (refuses (view_of m call.now.slot p) c error) result world.new }
    ensures marks { world.new.processes.marks ≡ world.old.processes.marks }
{
    set_answer(&mut world.processes, call.slot, refusal_bits(error));
    CallDone {
        end: WorkEnd::Answered {
            number: call.number,
            answer: refusal_number(error),
        },
        touches: [UNTOUCHED; 2],
        printed: 0,
    }
}

// the negative of an error's number, as it is in a register
fn refusal_bits(error: Errno) -> u64
    ensures { result ≡ answer_bits (Refuses error) }
{
    0u64.wrapping_sub(u64::from(error.number()))
}

// the negative of an error's number
fn refusal_number(error: Errno) -> i64
    ensures { result ≡ answer_number (Refuses error) }
{
    -i64::from(error.number())
}

// A call is not finished: its process goes on with it in this state, and PCC stays at it.
pub(crate) fn wait_in(world: &mut World, call: &Call, state: State, touches: [Note; 2]) -> CallDone
    requires calling { IsCalling world.old call.now }
    requires asked { IsAsked world.old call.now }
    requires live { is_live state ≡ true }
    ensures called { (m : Machine) (p : Process) (c : Content) (notes : List Note) → IsWorldOf m world.old → process_at m.processes call.now.slot ≡ Some p → touches ≡ two_notes notes
        → HasCalled m call.now.slot p (waits (view_of m call.now.slot p) c notes state) result world.new }
    ensures buffer { world.new.buffer ≡ world.old.buffer }
    ensures marks { world.new.processes.marks ≡ world.old.processes.marks }
{
    set_state(&mut world.processes, call.slot, state);
    CallDone {
        end: WorkEnd::Waiting {
            number: call.number,
        },
        touches,
        printed: 0,
    }
}

// the process of a slot, which has one, has a number in x10 and is past its call
pub(crate) fn set_answer(processes: &mut Processes, slot: u32, value: u64)
    requires { lives (process_at processes.old.processes slot) ≡ true }
    ensures is { (p : Process) → process_at processes.old.processes slot ≡ Some p → processes.new ≡ with_slot processes.old slot (Some (with_answer p value)) }
    ensures marks { processes.new.marks ≡ processes.old.marks }
{
    if let Some(p) = processes.get_mut(slot) {
        answer_in(p, value);
    }
}

// a process has a number in x10 and is past its call
pub(crate) fn answer_in(p: &mut Process, value: u64)
    ensures { p.new ≡ with_answer p.old value }
{
    p.regs.put(10, Cap::from_int(value));
    p.pcc = past_call(p.pcc);
    p.state = State::Ready;
}

// PCC past the ecall
pub(crate) fn past_call(pcc: Cap) -> Cap
    ensures { result ≡ next_pcc pcc }
{
    pcc.with_address(pcc.address().wrapping_add(4))
}

// the process of a slot, which has one, is in this state
fn set_state(processes: &mut Processes, slot: u32, state: State)
    requires { lives (process_at processes.old.processes slot) ≡ true }
    ensures is { (p : Process) → process_at processes.old.processes slot ≡ Some p → processes.new ≡ with_slot processes.old slot (Some (with_state p state)) }
    ensures marks { processes.new.marks ≡ processes.old.marks }
{
    if let Some(p) = processes.get_mut(slot) {
        p.state = state;
    }
}

// wait(), after POSIX.1-2024.
ghost use Rattle.std.specs.Prelude.{◌≡◌, true, Some};
ghost use Rattle.contents.specs.Content.{Content};
ghost use Rattle.machine.specs.declared.process.Process.{Process};
ghost use Rattle.machine.specs.Processes.{process_at, lives};
ghost use Rattle.machine.specs.Machines.{Machine, view_of};
ghost use Rattle.machine.specs.Calls.{row_wait};
ghost use Rattle.process_table.specs.Tables.{with_slot};
ghost use Rattle.trap_syscalls.specs.Asked.{with_answer, with_second};
ghost use Rattle.trap_syscalls.specs.Worlds.{IsWorldOf, HasCalled};
ghost use Rattle.trap_syscalls.specs.Calling.{IsCalling, IsAsked, MayReap};

use crate::answers::{UNTOUCHED, answer_in, refuse, wait_in};
use crate::call::Call;
use crate::world::{CallDone, World};
use cap_format::Cap;
use machine::{State, WorkEnd, children_are_found};
use machine_types::Errno;
use process_table::Processes;

// The Zombie child of lowest id is removed: its id is in x10, its status in x11. Without a Zombie the process waits; without a child it is refused.
pub(crate) fn wait(world: &mut World, call: &Call) -> CallDone
    requires calling { IsCalling world.old call.now }
    requires asked { IsAsked world.old call.now }
    requires reap { MayReap world.old call.now }
    ensures called { (m : Machine) (p : Process) (c : Content) → IsWorldOf m world.old → process_at m.processes call.now.slot ≡ Some p
        → HasCalled m call.now.slot p (row_wait (view_of m call.now.slot p) c) result world.new }
    ensures marks { world.new.processes.marks ≡ world.old.processes.marks }
{
    children_are_found();
    if let Some((child, status)) = world.processes.reap(call.id) {
        set_reaped(&mut world.processes, call.slot, child, status);
        return CallDone {
            end: WorkEnd::Answered {
                number: call.number,
                answer: child as i64,
            },
            touches: [UNTOUCHED; 2],
            printed: 0,
        };
    }
    if world.processes.has_child(call.id) {
        wait_in(world, call, State::InWait, [UNTOUCHED; 2])
    } else {
        refuse(world, call, Errno::Echild)
    }
}

// The process of a slot, which has one, has the id of a child in x10 and its status in x11, and is past its call.
fn set_reaped(processes: &mut Processes, slot: u32, child: u64, status: u32)
    requires { lives (process_at processes.old.processes slot) ≡ true }
    ensures is { (p : Process) → process_at processes.old.processes slot ≡ Some p → processes.new ≡ with_slot processes.old slot (Some (with_second (with_answer p child) status)) }
    ensures marks { processes.new.marks ≡ processes.old.marks }
{
    if let Some(p) = processes.get_mut(slot) {
        answer_in(p, child);
        p.regs.put(11, Cap::from_int(u64::from(status)));
    }
}

// The table of calls.
ghost use Rattle.std.specs.Prelude.{◌≡◌, ◌<◌, ◌^◌, ℕ, false, Some, length};
ghost use Rattle.region_plan.specs.Plan.{is_taken};
ghost use Rattle.contents.specs.Content.{Content};
ghost use Rattle.contents.specs.Conditions.{HasStore, HasNoStore};
ghost use Rattle.stores.specs.Known.{StandsFor};
ghost use Rattle.machine.specs.declared.process.Process.{Process};
ghost use Rattle.machine.specs.Processes.{process_at};
ghost use Rattle.machine.specs.Machines.{Machine, view_of};
ghost use Rattle.machine.specs.Calls.{called};
ghost use Rattle.trap_syscalls.specs.Worlds.{IsWorldOf, IsAtCall, HasCalled, SomeWorld};
ghost use Rattle.trap_syscalls.specs.Calling.{IsCalling, IsAsked, MayReap, MayFork};

use crate::answers::{UNTOUCHED, answer, refuse};
use crate::call::{Call, call_at};
use crate::ends::end;
use crate::forks::fork;
use crate::transfers::{read, write};
use crate::waits::wait;
use crate::world::{CallDone, World};
use cap_format::code_goes_on;
use machine::children_are_found;
use machine_types::Errno;
use stores::Stores;

// the numbers of the calls, in x17
const EXIT: u64 = 1;

const FORK: u64 = 2;

const WAIT: u64 = 3;

const GETPID: u64 = 4;

const GETPPID: u64 = 5;

const READ: u64 = 7;

const WRITE: u64 = 8;

const YIELD: u64 = 12;

/// Does the call of the process of a slot, or goes on with it. Some sound machine has this world, and the space stands for a content with its
/// stores, as the fetch of the call left it. In the machine the process is live and at a call, which means that the four bytes at PCC's address lie
/// in its bounds. Fewer than 2^62 forks were made.
///
/// For each such machine and content the world afterwards is that of the machine to which the call's effect is applied, and the space stands for
/// the effect's content. A refused call changes nothing but x10, PCC and the state of its process. It takes no memory.
pub fn do_call<S: Stores>(world: &mut World, slot: u32, space: &mut S) -> CallDone
    requires forks { world.old.forks < 2 ^ 62 }
    requires caller { ∥ SomeWorld S.stands_for world.old space.old (IsAtCall slot) ∥₁ }
    ensures called { (m : Machine) (p : Process) (c : Content) → IsWorldOf m world.old → process_at m.processes slot ≡ Some p → S.stands_for space.old c
        → HasCalled m slot p (called (view_of m slot p) c) result world.new }
    ensures content { (m : Machine) (p : Process) (c : Content) → IsWorldOf m world.old → process_at m.processes slot ≡ Some p → S.stands_for space.old c
        → S.stands_for space.new (called (view_of m slot p) c).content }
    ensures marks { world.new.processes.marks ≡ world.old.processes.marks }
{
    code_goes_on();
    children_are_found();
    let call = call_at(&world.processes, slot);
    serve(world, &call, space)
}

// Does a call, a row of the table for each number.
fn serve<S: Stores>(world: &mut World, call: &Call, space: &mut S) -> CallDone
    requires calling { IsCalling world.old call.now }
    requires asked { IsAsked world.old call.now }
    requires reap { MayReap world.old call.now }
    requires fork { MayFork world.old call.now }
    requires store { ∥ StandsFor S.stands_for space.old (HasStore call.now.region) ∥₁ }
    requires free { (to : ℕ) → to < length world.old.plan → is_taken world.old.plan to ≡ false → ∥ StandsFor S.stands_for space.old (HasNoStore to) ∥₁ }
    ensures called { (m : Machine) (p : Process) (c : Content) → IsWorldOf m world.old → process_at m.processes call.now.slot ≡ Some p → S.stands_for space.old c
        → HasCalled m call.now.slot p (called (view_of m call.now.slot p) c) result world.new }
    ensures content { (m : Machine) (p : Process) (c : Content) → IsWorldOf m world.old → process_at m.processes call.now.slot ≡ Some p → S.stands_for space.old c
        → S.stands_for space.new (called (view_of m call.now.slot p) c).content }
    ensures marks { world.new.processes.marks ≡ world.old.processes.marks }
{
    let number = call.number;
    if number == EXIT {
        return end(
            world,
            call,
            space,
            (call.first % 256) as u32,
            [UNTOUCHED; 2],
        );
    }
    if number == FORK {
        return fork(world, call, space);
    }
    if number == WAIT {
        return wait(world, call);
    }
    if number == GETPID {
        return answer(world, call, call.id, [UNTOUCHED; 2]);
    }
    if number == GETPPID {
        return answer(world, call, call.parent, [UNTOUCHED; 2]);
    }
    if number == READ {
        return read(world, call, space);
    }
    if number == WRITE {
        return write(world, call, space);
    }
    if number == YIELD {
        return answer(world, call, 0, [UNTOUCHED; 2]);
    }
    refuse(world, call, Errno::Enosys)
}

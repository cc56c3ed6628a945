// Ends of processes.
ghost use Rattle.std.specs.Prelude.{◌≡◌, ◌+◌, ◌<◌, ◌^◌, Bool, List, Some};
ghost use Rattle.machine_types.specs.Causes.{cause_number};
ghost use Rattle.machine_types.specs.declared.touches.Note.{Note};
ghost use Rattle.contents.specs.Content.{Content};
ghost use Rattle.contents.specs.Conditions.{HasStore};
ghost use Rattle.contents.specs.Regions.{end_of};
ghost use Rattle.contents.specs.Transfers.{two_notes};
ghost use Rattle.stores.specs.Known.{StandsFor};
ghost use Rattle.machine.specs.declared.process.Process.{Process};
ghost use Rattle.machine.specs.Processes.{process_at};
ghost use Rattle.machine.specs.Machines.{Machine, view_of};
ghost use Rattle.machine.specs.Effects.{ends, killed};
ghost use Rattle.machine.specs.Applying.{applied};
ghost use Rattle.trap_syscalls.specs.Worlds.{IsWorldOf, IsLiveAt, HasCalled, SomeWorld};
ghost use Rattle.trap_syscalls.specs.Calling.{IsCalling, IsAsked};

use crate::answers::UNTOUCHED;
use crate::call::{Call, call_at};
use crate::world::{CallDone, World};
use machine::WorkEnd;
use machine_types::{Cause, Note};
use stores::Stores;

// The process of a call ends, after these touches: its store, its descriptors and its region go, its children are orphans, and its slot is free or has
// a Zombie.
pub(crate) fn end<S: Stores>(
    world: &mut World,
    call: &Call,
    space: &mut S,
    status: u32,
    touches: [Note; 2],
) -> CallDone
    requires calling { IsCalling world.old call.now }
    requires asked { IsAsked world.old call.now }
    requires store { ∥ StandsFor S.stands_for space.old (HasStore call.now.region) ∥₁ }
    ensures called { (m : Machine) (p : Process) (c : Content) (notes : List Note) (lacks : Bool) → IsWorldOf m world.old → process_at m.processes call.now.slot ≡ Some p → touches ≡ two_notes notes
        → HasCalled m call.now.slot p (ends (view_of m call.now.slot p) c notes status lacks) result world.new }
    ensures content { (c : Content) → S.stands_for space.old c → S.stands_for space.new (end_of c call.now.region) }
    ensures marks { world.new.processes.marks ≡ world.old.processes.marks }
{
    space.end(call.region);
    world.plan.free(call.region);
    world.files.end(call.slot);
    world.processes.finish(call.slot, status);
    CallDone {
        end: WorkEnd::Ended { status },
        touches,
        printed: 0,
    }
}

/// Kills the process of a slot: it ends with a status of 256 plus the number of the cause, which is the answer. Some sound machine has this world,
/// and the space stands for a content with its stores; in the machine the process is live. Fewer than 2^62 forks were made. It takes no memory.
pub fn kill_process<S: Stores>(world: &mut World, slot: u32, cause: Cause, space: &mut S) -> u32
    requires forks { world.old.forks < 2 ^ 62 }
    requires live { ∥ SomeWorld S.stands_for world.old space.old (IsLiveAt slot) ∥₁ }
    ensures status { result ≡ 256 + cause_number cause }
    ensures world { (m : Machine) (p : Process) (c : Content) (notes : List Note) (lacks : Bool) → IsWorldOf m world.old → process_at m.processes slot ≡ Some p
        → IsWorldOf (applied m slot p (killed (view_of m slot p) c notes cause lacks)) world.new }
    ensures content { (m : Machine) (p : Process) (c : Content) → IsWorldOf m world.old → process_at m.processes slot ≡ Some p → S.stands_for space.old c → S.stands_for space.new (end_of c p.region) }
    ensures marks { world.new.processes.marks ≡ world.old.processes.marks }
{
    let call = call_at(&world.processes, slot);
    let status = killed_by(cause);
    end(world, &call, space, status, [UNTOUCHED; 2]);
    status
}

// a process is killed: its status is 256 plus the number of the cause
pub(crate) fn killed_by(cause: Cause) -> u32
    ensures { result ≡ 256 + cause_number cause }
{
    256 + cause.number()
}

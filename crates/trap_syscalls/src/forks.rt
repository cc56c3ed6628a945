// fork(), after POSIX.1-2024.
ghost use Rattle.std.specs.Prelude.{◌≡◌, ◌<◌, ℕ, true, false, None, Some, Ok, length, map};
ghost use Rattle.cap_format.specs.Numbers.{most_regions};
ghost use Rattle.cap_format.specs.Moves.{moved};
ghost use Rattle.machine_types.specs.Registers.{IsRegisterFile, AreInside};
ghost use Rattle.region_plan.specs.Plan.{is_taken};
ghost use Rattle.contents.specs.Content.{Content};
ghost use Rattle.contents.specs.Conditions.{HasStore, HasNoStore};
ghost use Rattle.contents.specs.Regions.{fork_of};
ghost use Rattle.stores.specs.Known.{StandsFor};
ghost use Rattle.machine.specs.declared.process.Process.{Process};
ghost use Rattle.machine.specs.Processes.{process_at, lives};
ghost use Rattle.machine.specs.Machines.{Machine, view_of};
ghost use Rattle.machine.specs.Calls.{row_fork, forked};
ghost use Rattle.trap_syscalls.specs.Asked.{child_with, MayMove};
ghost use Rattle.trap_syscalls.specs.Worlds.{IsWorldOf, HasCalled};
ghost use Rattle.trap_syscalls.specs.Calling.{IsCalling, IsAsked, MayFork};

use crate::answers::{UNTOUCHED, past_call, refuse, set_answer};
use crate::call::Call;
use crate::world::{CallDone, World};
use cap_format::Cap;
use machine::{Process, State, WorkEnd, places_are_lowest};
use machine_types::{Errno, Regs};
use process_table::Processes;
use stores::Stores;

// A child in the lowest free slot and region. It is refused where no slot is free, then where no region is, and then where the stores refuse it for
// frames; nothing but the answer changes then.
pub(crate) fn fork<S: Stores>(world: &mut World, call: &Call, space: &mut S) -> CallDone
    requires calling { IsCalling world.old call.now }
    requires asked { IsAsked world.old call.now }
    requires may { MayFork world.old call.now }
    requires store { ∥ StandsFor S.stands_for space.old (HasStore call.now.region) ∥₁ }
    requires free { (to : ℕ) → to < length world.old.plan → is_taken world.old.plan to ≡ false → ∥ StandsFor S.stands_for space.old (HasNoStore to) ∥₁ }
    ensures called { (m : Machine) (p : Process) (c : Content) → IsWorldOf m world.old → process_at m.processes call.now.slot ≡ Some p → S.stands_for space.old c
        → HasCalled m call.now.slot p (row_fork (view_of m call.now.slot p) c) result world.new }
    ensures content { (m : Machine) (p : Process) (c : Content) → IsWorldOf m world.old → process_at m.processes call.now.slot ≡ Some p → S.stands_for space.old c
        → S.stands_for space.new (row_fork (view_of m call.now.slot p) c).content }
    ensures marks { world.new.processes.marks ≡ world.old.processes.marks }
{
    places_are_lowest();
    let Some(slot) = world.processes.lowest_free() else {
        return refuse(world, call, Errno::Eagain);
    };
    let Some(region) = world.plan.lowest_free() else {
        return refuse(world, call, Errno::Enomem);
    };
    match space.fork(call.region, region) {
        Ok(()) => add_child(world, call, slot, region),
        Err(_) => refuse(world, call, Errno::Enomem),
    }
}

// The child is in a slot and a region that are free.
fn add_child(world: &mut World, call: &Call, slot: u32, region: u32) -> CallDone
    requires calling { IsCalling world.old call.now }
    requires asked { IsAsked world.old call.now }
    requires may { MayFork world.old call.now }
    requires slot { slot < length world.old.processes.processes }
    requires none { process_at world.old.processes.processes slot ≡ None }
    requires region { region < length world.old.plan }
    requires free { is_taken world.old.plan region ≡ false }
    ensures called { (m : Machine) (p : Process) (c : Content) → IsWorldOf m world.old → process_at m.processes call.now.slot ≡ Some p
        → HasCalled m call.now.slot p (forked (view_of m call.now.slot p) slot region c (Ok tt)) result world.new }
    ensures marks { world.new.processes.marks ≡ world.old.processes.marks }
{
    let id = world.forks + 2;
    let child = child_at(&world.processes, call.slot, id, region);
    world.forks += 1;
    world.plan.take(region);
    world.files.fork(call.slot, slot);
    set_answer(&mut world.processes, call.slot, id);
    world.processes.place(slot, child);
    CallDone {
        end: WorkEnd::Forked {
            answer: id as i64,
            child: id,
            slot,
            region,
        },
        touches: [UNTOUCHED; 2],
        printed: 0,
    }
}

// the child of the process of a slot, with an id, in a region
fn child_at(processes: &Processes, slot: u32, id: u64, to: u32) -> Process
    requires live { lives (process_at processes.now.processes slot) ≡ true }
    requires file { (p : Process) → process_at processes.now.processes slot ≡ Some p → MayMove p }
    requires to { to < most_regions }
    ensures { (p : Process) → process_at processes.now.processes slot ≡ Some p → result ≡ child_with p id to }
{
    match processes.get(slot) {
        Some(p) => child_of(p, id, to),
        None => nobody(),
    }
}

// The child of a process: each register and PCC is moved to its region, PCC is past the call, and its answer is 0.
fn child_of(p: &Process, id: u64, to: u32) -> Process
    requires may { MayMove p.now }
    requires to { to < most_regions }
    ensures { result ≡ child_with p.now id to }
{
    let mut regs = moved_registers(&p.regs, p.region, to);
    regs.put(10, Cap::from_int(0));
    Process {
        id,
        parent: p.id,
        region: to,
        regs,
        pcc: past_call(p.pcc).moved(p.region, to),
        state: State::Ready,
    }
}

// the registers, each moved from one region to another
fn moved_registers(regs: &Regs, from: u32, to: u32) -> Regs
    requires from { from < most_regions }
    requires to { to < most_regions }
    requires file { IsRegisterFile regs.now }
    requires inside { AreInside regs.now from }
    ensures { result ≡ map (λ r. moved r from to) regs.now }
{
    let mut child = Regs::new();
    for n in 0..32 {
        child.put(n, regs.get(n).moved(from, to));
    }
    child
}

// nobody's process
fn nobody() -> Process {
    Process {
        id: 0,
        parent: 0,
        region: 0,
        regs: Regs::new(),
        pcc: Cap::null(),
        state: State::Ready,
    }
}

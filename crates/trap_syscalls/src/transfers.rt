// read(x10, c11, x12) and write(x10, c11, x12), after POSIX.1-2024.
ghost use Rattle.std.specs.Prelude.{◌≡◌, ◌≢◌, ◌<◌, ◌≤◌, ◌+◌, ◌^◌, not, true, IsTrue, Some, List, [], ◌∷◌, length, take};
ghost use Rattle.cap_format.specs.Numbers.{most_regions, region_bytes};
ghost use Rattle.cap_format.specs.Pattern.{address_of};
ghost use Rattle.cap_format.specs.Region.{IsInside, region_start};
ghost use Rattle.machine_types.specs.declared.cause.Cause.TheVariants as cause;
ghost use Rattle.machine_types.specs.declared.touches.Note.{Note};
ghost use Rattle.machine_types.specs.declared.touches.Access.TheVariants.{Read, Write, Fetch};
ghost use Rattle.contents.specs.Content.{Content};
ghost use Rattle.contents.specs.Conditions.{HasStore, Covers, IsPrepared};
ghost use Rattle.contents.specs.Regions.{end_of};
ghost use Rattle.contents.specs.Transfers.{two_notes, read_bytes_of};
ghost use Rattle.stores.specs.Known.{StandsFor, Any};
ghost use Rattle.machine.specs.declared.process.Process.{Process};
ghost use Rattle.machine.specs.Processes.{process_at};
ghost use Rattle.machine.specs.Machines.{Machine, view_of};
ghost use Rattle.machine.specs.Calls.{is_fault, done_of, console_read, console_write, sent, row_read, row_write};
ghost use Rattle.machine.specs.Effects.{killed};
ghost use Rattle.trap_syscalls.specs.Asked.{call_of, place_asked};
ghost use Rattle.trap_syscalls.specs.Worlds.{IsWorldOf, HasCalled};
ghost use Rattle.trap_syscalls.specs.Calling.{IsCalling, IsAsked, IsPlaced};

use crate::answers::{UNTOUCHED, answer, refuse, wait_in};
use crate::call::Call;
use crate::ends::{end, killed_by};
use crate::world::{CallDone, World};
use cap_format::{LOAD, STORE};
use contents::covers_each_byte;
use machine::{State, Target};
use machine_types::{Access, Cause, Errno, NoFrame, Note};
use region_plan::RegionPlan;
use stores::{MOST_TRANSFER, Stores};

// A read of the console's input. The descriptor is tested first; then a count of 0 is answered; then the bytes are tested.
pub(crate) fn read<S: Stores>(world: &mut World, call: &Call, space: &mut S) -> CallDone
    requires calling { IsCalling world.old call.now }
    requires asked { IsAsked world.old call.now }
    requires store { ∥ StandsFor S.stands_for space.old (HasStore call.now.region) ∥₁ }
    ensures called { (m : Machine) (p : Process) (c : Content) → IsWorldOf m world.old → process_at m.processes call.now.slot ≡ Some p → S.stands_for space.old c
        → HasCalled m call.now.slot p (row_read (view_of m call.now.slot p) c) result world.new }
    ensures content { (m : Machine) (p : Process) (c : Content) → IsWorldOf m world.old → process_at m.processes call.now.slot ≡ Some p → S.stands_for space.old c
        → S.stands_for space.new (row_read (view_of m call.now.slot p) c).content }
    ensures marks { world.new.processes.marks ≡ world.old.processes.marks }
{
    if world.files.look(call.slot, call.first) != Some(Target::ConsoleIn) {
        return refuse(world, call, Errno::Ebadf);
    }
    if call.count == 0 {
        return answer(world, call, 0, [UNTOUCHED; 2]);
    }
    if !may_transfer(space, call, Access::Write) {
        return refuse(world, call, Errno::Efault);
    }
    read_console(world, call, space)
}

// A write to the console's output, tested likewise.
pub(crate) fn write<S: Stores>(world: &mut World, call: &Call, space: &mut S) -> CallDone
    requires calling { IsCalling world.old call.now }
    requires asked { IsAsked world.old call.now }
    requires store { ∥ StandsFor S.stands_for space.old (HasStore call.now.region) ∥₁ }
    ensures called { (m : Machine) (p : Process) (c : Content) → IsWorldOf m world.old → process_at m.processes call.now.slot ≡ Some p → S.stands_for space.old c
        → HasCalled m call.now.slot p (row_write (view_of m call.now.slot p) c) result world.new }
    ensures content { (m : Machine) (p : Process) (c : Content) → IsWorldOf m world.old → process_at m.processes call.now.slot ≡ Some p → S.stands_for space.old c
        → S.stands_for space.new (row_write (view_of m call.now.slot p) c).content }
    ensures marks { world.new.processes.marks ≡ world.old.processes.marks }
{
    if world.files.look(call.slot, call.first) != Some(Target::ConsoleOut) {
        return refuse(world, call, Errno::Ebadf);
    }
    if call.count == 0 {
        return answer(world, call, 0, [UNTOUCHED; 2]);
    }
    if !may_transfer(space, call, Access::Read) {
        return refuse(world, call, Errno::Efault);
    }
    write_console(world, call, space)
}

// Whether the bytes that a transfer is about may be accessed: EFAULT is answered where not.
fn may_transfer<S: Stores>(space: &S, call: &Call, access: Access) -> bool
    requires region { call.now.region < most_regions }
    requires pointer { IsTrue call.now.pointer.tag → IsInside call.now.pointer.bits call.now.region }
    requires some { ∥ StandsFor S.stands_for space.now Any ∥₁ }
    requires transfer { access ≢ Fetch }
    ensures is { (p : Process) (c : Content) → call.now ≡ call_of call.now.slot p → S.stands_for space.now c → result ≡ not (is_fault p c access call.now.count) }
    ensures placed { IsTrue result → IsPlaced call.now }
    ensures covered { IsTrue result → ∥ StandsFor S.stands_for space.now (Covers call.now.region (place_asked call.now) call.now.count access) ∥₁ }
{
    let pointer = call.pointer;
    let permission = match access {
        Access::Read => LOAD,
        Access::Write | Access::Fetch => STORE,
    };
    pointer.tag
        && !pointer.is_entry()
        && pointer.allows(permission)
        && pointer.holds(pointer.address(), call.count)
        && space.covers(call.region, place_of(call), call.count, access)
}

// where in the region the bytes of a transfer lie
fn place_of(call: &Call) -> u64
    requires region { call.now.region < most_regions }
    requires from { region_start call.now.region ≤ address_of call.now.pointer.bits }
    ensures { result ≡ place_asked call.now }
{
    call.pointer.address() - RegionPlan::start(call.region)
}

// Moves as much of the input as is asked for, is left and may be moved at once. At the input's end no page is touched.
fn read_console<S: Stores>(world: &mut World, call: &Call, space: &mut S) -> CallDone
    requires calling { IsCalling world.old call.now }
    requires asked { IsAsked world.old call.now }
    requires some { call.now.count ≢ 0 }
    requires placed { IsPlaced call.now }
    requires covered { ∥ StandsFor S.stands_for space.old (Covers call.now.region (place_asked call.now) call.now.count Write) ∥₁ }
    requires store { ∥ StandsFor S.stands_for space.old (HasStore call.now.region) ∥₁ }
    ensures called { (m : Machine) (p : Process) (c : Content) → IsWorldOf m world.old → process_at m.processes call.now.slot ≡ Some p → S.stands_for space.old c
        → HasCalled m call.now.slot p (console_read (view_of m call.now.slot p) c) result world.new }
    ensures content { (m : Machine) (p : Process) (c : Content) → IsWorldOf m world.old → process_at m.processes call.now.slot ≡ Some p → S.stands_for space.old c
        → S.stands_for space.new (console_read (view_of m call.now.slot p) c).content }
    ensures marks { world.new.processes.marks ≡ world.old.processes.marks }
{
    let left = world.input.len() - world.taken;
    if left == 0 {
        return answer(world, call, 0, [UNTOUCHED; 2]);
    }
    let size = call.count.min(left as u64).min(MOST_TRANSFER as u64) as usize;
    let at = place_of(call);
    match space.prepare(call.region, at, size, Access::Write) {
        Ok(touches) => {
            space.write_bytes(
                call.region,
                at,
                &world.input[world.taken..world.taken + size],
            );
            world.taken += size;
            answer(world, call, size as u64, touches)
        }
        Err(lack) => kill(world, call, space, lack),
    }
}

// Prints what is left of a write, or as much as may be moved at once.
fn write_console<S: Stores>(world: &mut World, call: &Call, space: &mut S) -> CallDone
    requires calling { IsCalling world.old call.now }
    requires asked { IsAsked world.old call.now }
    requires some { call.now.count ≢ 0 }
    requires placed { IsPlaced call.now }
    requires covered { ∥ StandsFor S.stands_for space.old (Covers call.now.region (place_asked call.now) call.now.count Read) ∥₁ }
    requires store { ∥ StandsFor S.stands_for space.old (HasStore call.now.region) ∥₁ }
    ensures called { (m : Machine) (p : Process) (c : Content) → IsWorldOf m world.old → process_at m.processes call.now.slot ≡ Some p → S.stands_for space.old c
        → HasCalled m call.now.slot p (console_write (view_of m call.now.slot p) c (done_of p.state)) result world.new }
    ensures content { (m : Machine) (p : Process) (c : Content) → IsWorldOf m world.old → process_at m.processes call.now.slot ≡ Some p → S.stands_for space.old c
        → S.stands_for space.new (console_write (view_of m call.now.slot p) c (done_of p.state)).content }
    ensures marks { world.new.processes.marks ≡ world.old.processes.marks }
{
    let done = done_of(call.state);
    let size = (call.count - done).min(MOST_TRANSFER as u64) as usize;
    let at = place_of(call) + done;
    match space.prepare(call.region, at, size, Access::Read) {
        Ok(touches) => {
            let sent = sent(world, call, done + size as u64, touches);
            read_front(space, call.region, at, size, &mut world.buffer);
            CallDone {
                printed: size as u32,
                ..sent
            }
        }
        Err(lack) => kill(world, call, space, lack),
    }
}

// The front of a buffer gets so many bytes, which are covered for a read.
fn read_front<S: Stores>(space: &S, region: u32, at: u64, size: usize, buffer: &mut [u8])
    requires region { region < most_regions }
    requires within { at + size ≤ region_bytes }
    requires prepared { ∥ StandsFor S.stands_for space.now (IsPrepared region at size Read) ∥₁ }
    requires fits { size ≤ length buffer.old }
    ensures length { length buffer.new ≡ length buffer.old }
    ensures front { (c : Content) → S.stands_for space.now c → take size buffer.new ≡ read_bytes_of c region at size }
{
    space.read_bytes(region, at, &mut buffer[..size]);
}

// A write of which so many bytes are done answers when all are, and else goes on.
fn sent(world: &mut World, call: &Call, done: u64, touches: [Note; 2]) -> CallDone
    requires calling { IsCalling world.old call.now }
    requires asked { IsAsked world.old call.now }
    requires small { done < 2 ^ 63 }
    ensures called { (m : Machine) (p : Process) (c : Content) (notes : List Note) → IsWorldOf m world.old → process_at m.processes call.now.slot ≡ Some p → touches ≡ two_notes notes
        → HasCalled m call.now.slot p (sent (view_of m call.now.slot p) c notes [] done) result world.new }
    ensures buffer { world.new.buffer ≡ world.old.buffer }
    ensures marks { world.new.processes.marks ≡ world.old.processes.marks }
{
    if done == call.count {
        answer(world, call, done, touches)
    } else {
        wait_in(world, call, State::InWrite { done }, touches)
    }
}

// the bytes that are sent already
fn done_of(state: State) -> u64
    ensures { result ≡ done_of state }
{
    match state {
        State::InWrite { done } => done,
        State::Ready | State::InRead | State::InWait | State::Zombie { .. } => 0,
    }
}

// The process is killed, since a touch finds no frame. The touch that was made before stays.
fn kill<S: Stores>(world: &mut World, call: &Call, space: &mut S, lack: NoFrame) -> CallDone
    requires calling { IsCalling world.old call.now }
    requires asked { IsAsked world.old call.now }
    requires store { ∥ StandsFor S.stands_for space.old (HasStore call.now.region) ∥₁ }
    ensures called { (m : Machine) (p : Process) (c : Content) → IsWorldOf m world.old → process_at m.processes call.now.slot ≡ Some p
        → HasCalled m call.now.slot p (killed (view_of m call.now.slot p) c (lack.before ∷ []) cause.NoFrame true) result world.new }
    ensures content { (c : Content) → S.stands_for space.old c → S.stands_for space.new (end_of c call.now.region) }
    ensures marks { world.new.processes.marks ≡ world.old.processes.marks }
{
    end(
        world,
        call,
        space,
        killed_by(Cause::NoFrame),
        [lack.before, UNTOUCHED],
    )
}

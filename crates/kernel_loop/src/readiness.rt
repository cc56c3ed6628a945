// Which processes are ready, and the marks that say so.
ghost use Rattle.std.specs.Prelude.{◌≡◌, ◌<◌, ℕ, true, false, length, slice_index_or, slice_set};
ghost use Rattle.machine.specs.Machines.{Machine};
ghost use Rattle.machine.specs.Pipes.{pipes_of, table_at};
ghost use Rattle.machine.specs.Processes.{children_of};
ghost use Rattle.machine.specs.Readiness.{is_ready, ready_as, read_goes_on, write_goes_on, wait_goes_on};
ghost use Rattle.pipe_files.specs.Counts.{IsNamed};
ghost use Rattle.kernel_loop.specs.Marks.{HasParts, AreNamed, IsRemarked, AreMarked, changes_others, MarksOthers};

use machine::{PIPE_BUF, PIPES, Process, State, Target, WorkEnd, pipes_are_seen};
use pipe_files::Descriptors;
use process_table::Processes;
use trap_syscalls::World;

// Marks who is ready after a work of the process of a slot, which ended so. Where it may have changed others, each slot is looked at.
pub(crate) fn remark(world: &mut World, slot: u32, end: WorkEnd)
    requires slot { slot < length world.old.processes.processes }
    requires marks { length world.old.processes.marks ≡ length world.old.processes.processes }
    requires named { AreNamed world.old.files }
    ensures rest { IsRemarked world.old world.new }
    ensures long { length world.new.processes.marks ≡ length world.old.processes.marks }
    ensures own { (m : Machine) → HasParts m world.old → slice_index_or world.new.processes.marks slot false ≡ is_ready m slot }
    ensures others { (m : Machine) (k : ℕ) → HasParts m world.old → MarksOthers m world.old.processes.marks world.new.processes.marks slot end k }
{
    if changes_others(end) {
        mark_all(world);
    } else {
        mark(world, slot);
    }
}

// marks each slot by whether its process is ready
fn mark_all(world: &mut World)
    requires marks { length world.old.processes.marks ≡ length world.old.processes.processes }
    requires named { AreNamed world.old.files }
    ensures rest { IsRemarked world.old world.new }
    ensures long { length world.new.processes.marks ≡ length world.old.processes.marks }
    ensures each { (m : Machine) → HasParts m world.old → AreMarked m world.new.processes.marks }
{
    for slot in 0..world.processes.slots() {
        mark(world, slot);
    }
}

// marks a slot by whether its process is ready
fn mark(world: &mut World, slot: u32)
    requires slot { slot < length world.old.processes.processes }
    requires named { AreNamed world.old.files }
    ensures rest { IsRemarked world.old world.new }
    ensures marks { (m : Machine) → HasParts m world.old → world.new.processes.marks ≡ slice_set world.old.processes.marks slot (is_ready m slot) }
    ensures long { length world.new.processes.marks ≡ length world.old.processes.marks }
{
    let ready = is_ready(&world.processes, &world.files, slot);
    world.processes.mark(slot, ready);
}

// Whether a work that ended so may have changed whether others are ready: a process was added or ended. A wait, which may have removed one, is
// counted, too.
fn changes_others(end: WorkEnd) -> bool
    ensures { result ≡ changes_others end }
{
    match end {
        WorkEnd::Plain | WorkEnd::Waiting { .. } => false,
        WorkEnd::Answered { number, .. } => number == 3,
        WorkEnd::Forked { .. } | WorkEnd::Ended { .. } => true,
    }
}

// whether the process of a slot is ready
fn is_ready(processes: &Processes, files: &Descriptors, slot: u32) -> bool
    requires named { AreNamed files.now }
    ensures { (m : Machine) → m.processes ≡ processes.now.processes → m.tables ≡ files.now.tables → m.pipes ≡ files.now.pipes → result ≡ is_ready m slot }
{
    match processes.get(slot) {
        Some(p) => goes_on(p, processes, files, slot),
        None => false,
    }
}

// whether the process of this slot is ready
fn goes_on(p: &Process, processes: &Processes, files: &Descriptors, slot: u32) -> bool
    requires named { AreNamed files.now }
    ensures { result ≡ ready_as p.now (table_at files.now.tables slot) (pipes_of files.now.tables files.now.pipes) (children_of p.now.id processes.now.processes) p.now.state }
{
    let first = p.regs.get(10).address();
    match p.state {
        State::Ready => true,
        State::InRead => may_read(files, files.look(slot, first)),
        State::InWrite { .. } => {
            may_write(files, p.regs.get(12).address(), files.look(slot, first))
        }
        State::InWait => may_go_on(processes, p.id),
        State::Zombie { .. } => false,
    }
}

// whether a read that waits may go on: its pipe has a byte, or no writer
fn may_read(files: &Descriptors, end: Option<Target>) -> bool
    requires named { IsNamed PIPES end }
    requires pipes { length files.now.pipes ≡ PIPES }
    ensures { result ≡ read_goes_on (pipes_of files.now.tables files.now.pipes) end }
{
    pipes_are_seen();
    match end {
        Some(Target::PipeRead(pipe)) => files.stored(pipe) != 0 || files.writers(pipe) == 0,
        Some(Target::ConsoleIn | Target::ConsoleOut | Target::PipeWrite(_)) | None => false,
    }
}

// Whether a write that is underway may go on: on the console, on a pipe without a reader, or where the pipe has room for all of a short one or for a
// byte of a long one.
fn may_write(files: &Descriptors, count: u64, end: Option<Target>) -> bool
    requires named { IsNamed PIPES end }
    requires pipes { length files.now.pipes ≡ PIPES }
    ensures { result ≡ write_goes_on (pipes_of files.now.tables files.now.pipes) count end }
{
    pipes_are_seen();
    match end {
        Some(Target::ConsoleOut) => true,
        Some(Target::PipeWrite(pipe)) => {
            let least = if count <= PIPE_BUF { count } else { 1 };
            files.readers(pipe) == 0 || least <= files.room(pipe) as u64
        }
        Some(Target::ConsoleIn | Target::PipeRead(_)) | None => false,
    }
}

// whether a wait may go on: a child has ended, or there is none
fn may_go_on(processes: &Processes, id: u64) -> bool
    ensures { result ≡ wait_goes_on (children_of id processes.now.processes) }
{
    processes.first_ended(id).is_some() || !processes.has_child(id)
}

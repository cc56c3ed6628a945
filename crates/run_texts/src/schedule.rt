// The text of a schedule.
ghost use Rattle.std.specs.Prelude.{◌≡◌, Ok, All, IfOk, MatchResult};
ghost use Rattle.machine.specs.Sound as sound;
ghost use Rattle.machine_steps.specs.Runs.{quanta_of};
ghost use Rattle.run_texts.specs.Schedules.{schedule_of, IsRefusedAs, IsQuantum};

use machine_types::{ListRefusal, MOST_QUANTUM, Schedule, read_list};
use std::alloc::Global;

/// Why a text wasn't read as a schedule.
#[derive(Clone, Copy, Debug, PartialEq, Eq)]
pub enum ScheduleRefusal {
    /// The number of the first wrong line, from 1; and 0 where the text is longer than [`LIST_BYTES`](machine_types::LIST_BYTES).
    Line(u64),
    /// There was no memory for the schedule.
    NoMemory,
}

/// Reads a schedule: quanta in steps, one a line, as `Q`, or as `Q*K` where the quantum is repeated K times. Q is from 1 to 1000000
/// and K from 1 to 1000000000, in decimal digits without a sign, a space or a leading zero. Lines are parted by line feeds, and one at
/// the end begins no further line. There are at most 100000 lines and 1048576 bytes, and the empty text is the empty schedule. The
/// pairs of a quantum and its repeats stand in the order of the lines, and so each quantum that a run comes to is in its range. The format
/// is this project's own.
///
/// [`ScheduleRefusal::Line`] comes exactly where the text is no schedule, but for want of memory: the number of the first wrong line,
/// from 1, and 0 for a longer text.
pub fn read_schedule(alloc: Global, text: &[u8]) -> Result<Schedule, ScheduleRefusal>
    ensures read { MatchResult result (λ schedule. schedule_of text.now ≡ Ok schedule) (λ refusal. IsRefusedAs (schedule_of text.now) refusal) }
    ensures within { IfOk result (λ schedule. All IsQuantum schedule) }
    ensures quanta { IfOk result (λ schedule. All sound.IsQuantum (quanta_of schedule)) }
{
    match read_list(alloc, text, 1, MOST_QUANTUM) {
        Ok(pairs) => Ok(Schedule::new(pairs)),
        Err(ListRefusal::Line(line)) => Err(ScheduleRefusal::Line(line)),
        Err(ListRefusal::NoMemory) => Err(ScheduleRefusal::NoMemory),
    }
}

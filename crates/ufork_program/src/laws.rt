// Laws of the numbers and of runs: each is a function that states one, does nothing and takes nothing.
ghost use Rattle.ufork_program.specs.Numbers.{ConstantsAreFixed};
ghost use Rattle.ufork_program.specs.Run.{RunsEndAtTheLeast};
ghost use Rattle.ufork_program.specs.Runs.{RunsAreExact};
ghost use Rattle.ufork_program.specs.Laws.{ListingsAreExact, CoursesAreExact};
ghost use Rattle.ufork_program.specs.Telling.{PromisesTell};
ghost use Rattle.ufork_program.specs.Cutting.{CutsTell};
ghost use Rattle.ufork_program.specs.Saying.{PromisesSay};
ghost use Rattle.ufork_program.specs.Examples.{WorkedLinesHold};

use cap_format::long_files_are_none;
use machine_steps::{dispatches_are_next, runs_are_sound, runs_end};

/// The constants of this crate are the numbers that the definitions fix.
pub fn constants_are_fixed()
    ensures { ConstantsAreFixed }
{}

/// A run ends after the least number of steps at which the machine doesn't run, or at the limit. While the parts of a step are
/// written, the machine after it stands.
pub fn runs_end_at_the_least()
    ensures { RunsEndAtTheLeast }
{}

/// A run is that of the machine of all processes: it ends after as many steps as the definition says, which the last line tells, and with the
/// status of the machine there.
pub fn runs_are_exact()
    ensures { RunsAreExact }
{
    runs_are_sound();
    dispatches_are_next();
    runs_end();
    runs_end_at_the_least();
}

/// Lines that were worked out by hand are those.
pub fn worked_lines_hold()
    ensures { WorkedLinesHold }
{}

/// What is listed of an image, word by word.
pub fn listings_are_exact()
    ensures { ListingsAreExact }
{}

/// What the program does, by its words, the files and the input.
pub fn courses_are_exact()
    ensures { CoursesAreExact }
{
    long_files_are_none();
}

/// What a call's promise comes to where the contents of files and the bytes of the input are told: what was run or
/// shown, what was refused, and what failed.
pub fn promises_tell()
    ensures { PromisesTell }
{}

/// What it comes to where a part was cut: which part of which step, line or listing it is, and which board comes back.
pub fn cuts_tell()
    ensures { CutsTell }
{
    runs_end_at_the_least();
}

/// What it says of the status, the bytes and the board whatever is told.
pub fn promises_say()
    ensures { PromisesSay }
{}

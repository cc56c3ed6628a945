// A run, with its parts on two sinks.
ghost use Rattle.std.specs.Prelude.{ℕ, ◌≡◌, ◌≢◌, ◌≤◌, ◌<◌, ◌+◌, ◌-◌, ◌∷◌, [], OnErr, Some};
ghost use Rattle.outside_io.specs.States.{PrintsText, SinkState};
ghost use Rattle.outside_io.specs.Parts.{Prints, Console, console};
ghost use Rattle.outside_io.specs.Moments.{Leaves, Goes};
ghost use Rattle.machine_types.specs.Numbers.{most_steps};
ghost use Rattle.machine_types.specs.declared.config.Outcome.TheVariants.{Running};
ghost use Rattle.machine.specs.Machines.{Machine};
ghost use Rattle.machine.specs.Readiness.{outcome_of};
ghost use Rattle.machine_steps.specs.Numbers.{step_limit};
ghost use Rattle.machine_steps.specs.Steps.{step_of};
ghost use Rattle.machine_steps.specs.Runs.{is_running, status_of};
ghost use Rattle.kernel_loop.specs.Kernels.{KernelStands, steps_of};
ghost use Rattle.run_texts.specs.Endings.{end_line};
ghost use Rattle.ufork_program.specs.declared.run.Show.TheVariants as show;
ghost use Rattle.ufork_program.specs.Run.{parts_as, step_parts, run_moments, run_end, course_from, IsLeftIn};

use kernel_loop::{Kernel, StepReport};
use machine_types::Outcome;
use outside_io::{Failed, Sink};
use run_texts::{write_end, write_last};
use stores::Stores;

/// What a run writes to its output.
#[derive(Clone, Copy, Debug, PartialEq, Eq)]
pub enum Show {
    /// Each piece that is printed on the console, by one write.
    Console,
    /// Nothing.
    Quiet,
}

/// A run that was made, or was cut.
pub struct RunDone<S: Stores> {
    /// The kernel. It stands for the machine at the end of the run; where a part was cut, for that after the step of the part.
    pub kernel: Kernel<S>,
    /// Whether all parts were written.
    pub written: Result<(), Failed>,
}

// Writes a piece by one write, or makes no call where it is empty.
fn print_piece<O: Sink>(piece: &[u8], out: &mut O) -> Result<(), Failed>
    ensures prints { PrintsText piece.now (O.state out.old) (O.state out.new) result }
    ensures some { OnErr result (piece.now ≢ []) }
{
    if piece.is_empty() {
        return Ok(());
    }
    out.write(piece)
}

// Writes the parts of a step: its piece, where it is shown, and then the line of the process that it ended.
fn print_step<O: Sink, E: Sink>(
    show: Show,
    piece: &[u8],
    report: &StepReport,
    out: &mut O,
    err: &mut E,
) -> Result<(), Failed>
    ensures { Prints (parts_as show piece.now (end_line report.now)) (console (O.state out.old) (E.state err.old)) (console (O.state out.new) (E.state err.new)) result }
{
    match show {
        Show::Console => print_piece(piece, out)?,
        Show::Quiet => {}
    }
    write_end(report, err)
}

// Makes a step of a machine that runs, and writes its parts.
fn step_printed<S: Stores, O: Sink, E: Sink>(
    kernel: &mut Kernel<S>,
    show: Show,
    out: &mut O,
    err: &mut E,
) -> Result<(), Failed>
    requires running { (m : Machine) → KernelStands S.stands_for kernel.old m → outcome_of m ≡ Running }
    requires early { steps_of kernel.old < step_limit }
    ensures prints { (m : Machine) → KernelStands S.stands_for kernel.old m → Prints (step_parts show m)
        (console (O.state out.old) (E.state err.old)) (console (O.state out.new) (E.state err.new)) result }
    ensures next { (m : Machine) → KernelStands S.stands_for kernel.old m → KernelStands S.stands_for kernel.new (step_of m).next }
    ensures counted { steps_of kernel.new ≡ steps_of kernel.old + 1 }
{
    let report = kernel.step();
    print_step(show, kernel.printed(), &report, out, err)
}

// Whether a machine that stands so runs.
fn is_running(outcome: Outcome) -> bool
    ensures { result ≡ is_running outcome }
{
    match outcome {
        Outcome::Running => true,
        Outcome::Done | Outcome::Stuck => false,
    }
}

// Makes steps until the machine doesn't run, or as many are made as the limit says, and writes their parts.
fn make_steps<S: Stores, O: Sink, E: Sink>(
    kernel: &mut Kernel<S>,
    show: Show,
    limit: u64,
    out: &mut O,
    err: &mut E,
) -> Result<(), Failed>
    requires { limit ≤ most_steps }
    ensures { (m : Machine) → KernelStands S.stands_for kernel.old m → Leaves (run_moments show m (limit - steps_of kernel.old)) (Some (run_end m (limit - steps_of kernel.old))) (IsLeftIn S.stands_for kernel.new)
        (console (O.state out.old) (E.state err.old)) (console (O.state out.new) (E.state err.new)) result }
{
    while kernel.steps() < limit && is_running(kernel.outcome()) {
        step_printed(kernel, show, out, err)?;
    }
    Ok(())
}

/// Makes steps until the machine doesn't run, or [`steps`](Kernel::steps) is at least the limit, which is at most
/// [`MOST_STEPS`](machine_types::MOST_STEPS), and writes their parts: what `show` says to `out`, and a line for each process that ends to
/// `err`. Within a step `out` comes first.
///
/// A failure comes only where the count of `out` or of `err` rose. All parts before the cut one are written whole then, and of that one a
/// prefix is; the kernel stands for the machine after its step. No memory is taken.
pub fn run_machine<S: Stores, O: Sink, E: Sink>(
    kernel: Kernel<S>,
    show: Show,
    limit: u64,
    out: &mut O,
    err: &mut E,
) -> RunDone<S>
    requires { limit ≤ most_steps }
    ensures { (m : Machine) → KernelStands S.stands_for kernel m → Leaves (run_moments show m (limit - steps_of kernel)) (Some (run_end m (limit - steps_of kernel))) (IsLeftIn S.stands_for result.kernel)
        (console (O.state out.old) (E.state err.old)) (console (O.state out.new) (E.state err.new)) result.written }
{
    let mut kernel = kernel;
    let written = make_steps(&mut kernel, show, limit, out, err);
    RunDone { kernel, written }
}

// The status of a run that ended so.
fn status_of(outcome: Outcome) -> u8
    ensures { result ≡ status_of outcome }
{
    match outcome {
        Outcome::Done => 0,
        Outcome::Running => 8,
        Outcome::Stuck => 9,
    }
}

// Writes the last line of a run whose parts were written, and answers its status.
fn end_run<S: Stores, E: Sink>(
    kernel: &Kernel<S>,
    written: Result<(), Failed>,
    err: &mut E,
) -> Result<u8, Failed>
    ensures { (m : Machine) (left : ℕ) (old : Console) (out : SinkState) → Leaves (run_moments show.Console m left) (Some (run_end m left)) (IsLeftIn S.stands_for kernel.now) old (console out (E.state err.old)) written
        → Goes (course_from show.Console m left) (IsLeftIn S.stands_for kernel.now) old (console out (E.state err.new)) result }
{
    written?;
    let outcome = kernel.outcome();
    write_last(outcome, kernel.steps(), err)?;
    Ok(status_of(outcome))
}

/// A run that ended with its last line, or was cut.
pub struct RunEnded<S: Stores> {
    /// The kernel at the end of the run; where a part was cut, at the moment of the part.
    pub kernel: Kernel<S>,
    /// The status of the run's end.
    pub status: Result<u8, Failed>,
}

/// Makes a run of at most so many steps, as [`run_machine`] does, and writes its last line.
pub fn print_run<S: Stores, O: Sink, E: Sink>(
    kernel: Kernel<S>,
    limit: u64,
    out: &mut O,
    err: &mut E,
) -> RunEnded<S>
    requires { limit ≤ most_steps }
    ensures { (m : Machine) → KernelStands S.stands_for kernel m → Goes (course_from show.Console m (limit - steps_of kernel)) (IsLeftIn S.stands_for result.kernel)
        (console (O.state out.old) (E.state err.old)) (console (O.state out.new) (E.state err.new)) result.status }
{
    let RunDone { kernel, written } = run_machine(kernel, Show::Console, limit, out, err);
    let status = end_run(&kernel, written, err);
    RunEnded { kernel, status }
}

// The lines of a run on the errors.
ghost use Rattle.std.specs.Prelude.{◌≡◌, ◌≢◌, [], OnErr};
ghost use Rattle.outside_io.specs.States.{PrintsText};
ghost use Rattle.run_texts.specs.Endings.{exit_line, done_line, stopped_line, stuck_line, end_line, last_line};

use machine::{StepReport, WorkEnd};
use machine_types::Outcome;
use outside_io::{Failed, Sink};
use text_line::Line;

/// Writes `exit ID STATUS` where the step ended its process, by one write, and else nothing.
///
/// [`Failed`] comes only where a write failed, so only where there is a line.
pub fn write_end<E: Sink>(report: &StepReport, err: &mut E) -> Result<(), Failed>
    ensures prints { PrintsText (end_line report.now) (E.state err.old) (E.state err.new) result }
    ensures some { OnErr result (end_line report.now ≢ []) }
{
    match report.end {
        WorkEnd::Ended { status } => write_exit(report.id, u64::from(status), err),
        WorkEnd::Plain
        | WorkEnd::Answered { .. }
        | WorkEnd::Waiting { .. }
        | WorkEnd::Forked { .. } => Ok(()),
    }
}

// Writes `exit ID STATUS`, by one write.
fn write_exit<E: Sink>(id: u64, status: u64, err: &mut E) -> Result<(), Failed>
    ensures { PrintsText (exit_line id status) (E.state err.old) (E.state err.new) result }
{
    let mut line = Line::new();
    line.put(b"\n");
    line.put_number(status);
    line.put(b" ");
    line.put_number(id);
    line.put(b"exit ");
    err.write(line.text())
}

/// Writes the last line of a run that stands so after so many steps, by one write: `done STEPS` where no process is live, `stuck STEPS` where
/// some are and none is ready, and `stopped STEPS` where one is ready.
///
/// [`Failed`] comes only where the write failed.
pub fn write_last<E: Sink>(outcome: Outcome, steps: u64, err: &mut E) -> Result<(), Failed>
    ensures { PrintsText (last_line outcome steps) (E.state err.old) (E.state err.new) result }
{
    match outcome {
        Outcome::Running => write_stopped(steps, err),
        Outcome::Done => write_done(steps, err),
        Outcome::Stuck => write_stuck(steps, err),
    }
}

// Writes `stopped STEPS`, by one write.
fn write_stopped<E: Sink>(steps: u64, err: &mut E) -> Result<(), Failed>
    ensures { PrintsText (stopped_line steps) (E.state err.old) (E.state err.new) result }
{
    let mut line = Line::new();
    line.put(b"\n");
    line.put_number(steps);
    line.put(b"stopped ");
    err.write(line.text())
}

// Writes `done STEPS`, by one write.
fn write_done<E: Sink>(steps: u64, err: &mut E) -> Result<(), Failed>
    ensures { PrintsText (done_line steps) (E.state err.old) (E.state err.new) result }
{
    let mut line = Line::new();
    line.put(b"\n");
    line.put_number(steps);
    line.put(b"done ");
    err.write(line.text())
}

// Writes `stuck STEPS`, by one write.
fn write_stuck<E: Sink>(steps: u64, err: &mut E) -> Result<(), Failed>
    ensures { PrintsText (stuck_line steps) (E.state err.old) (E.state err.new) result }
{
    let mut line = Line::new();
    line.put(b"\n");
    line.put_number(steps);
    line.put(b"stuck ");
    err.write(line.text())
}

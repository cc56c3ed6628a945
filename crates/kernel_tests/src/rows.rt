// Steps as they have to be, a row each.
use crate::boot::{Seen, run};
use kernel_loop::{Quantum, StepReport, Work, WorkEnd};
use machine_types::{Note, Outcome, Touched};
use std::process::Abort;
use std::test::Fail;

/// A step without a dispatch.
pub const ON: Option<Quantum> = None;

/// A step with a dispatch to which no interrupt comes.
pub const FREE: Option<Quantum> = Some(Quantum::Free);

/// A step with a dispatch for so many steps.
pub fn steps(quantum: u64) -> Option<Quantum> {
    Some(Quantum::Steps(quantum))
}

/// What a step works on, and the address of PCC before it.
#[derive(Clone, Copy, Debug, PartialEq, Eq)]
pub enum Place {
    /// An instruction whose word is fetched.
    At(u64),
    /// An instruction whose word isn't.
    Unfetched(u64),
    /// A call that is underway.
    Again(u64),
}

/// A step: the id of the process and its slot, the quantum where the slot is dispatched, what is worked on, and how that ends.
pub type Row = (u64, u32, Option<Quantum>, Place, WorkEnd);

/// No touch is made where each page has a frame of its own.
pub const UNTOUCHED: [Note; 3] = [Note {
    page: 0,
    touched: Touched::No,
}; 3];

fn place_of(work: Work) -> Place {
    match work {
        Work::Instr { pc, word: Some(_) } => Place::At(pc),
        Work::Instr { pc, word: None } => Place::Unfetched(pc),
        Work::Resume { pc } => Place::Again(pc),
    }
}

fn row_of(report: &StepReport) -> Row {
    (
        report.id,
        report.slot,
        report.dispatch,
        place_of(report.work),
        report.end,
    )
}

/// The steps that were made are these, and no other step was. Each is counted, and the machine runs up to the last of them.
pub fn check_rows(rt: &(impl Abort + AllocGlobal), all: &[Seen], rows: &[Row], outcome: Outcome) {
    assert_eq!(rt; all.len(), rows.len());
    for (number, (seen, row)) in (1_u64..).zip(all.iter().zip(rows)) {
        assert_eq!(rt; row_of(&seen.report), *row, "step {number}");
        assert_eq!(rt; seen.report.touches, UNTOUCHED, "step {number}");
        assert_eq!(rt;
            seen.report.printed as usize,
            seen.piece.len(),
            "step {number}"
        );
        assert_eq!(rt; seen.steps, number);
        let want = if number == rows.len() as u64 {
            outcome
        } else {
            Outcome::Running
        };
        assert_eq!(rt; seen.outcome, want, "step {number}");
    }
}

/// A guest that prints nothing makes these steps by a schedule, and the machine stands so after them.
pub fn check(
    rt: &(impl Abort + AllocGlobal),
    source: &str,
    schedule: &str,
    rows: &[Row],
    outcome: Outcome,
) -> Result<(), Fail> {
    let all = run(rt.alloc(), source, schedule, rows.len())?;
    check_rows(rt, &all, rows, outcome);
    for seen in &all {
        assert!(rt; seen.piece.is_empty());
    }
    Ok(())
}

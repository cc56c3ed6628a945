// The quanta of one process.
use crate::boot::run;
use crate::rows::{FREE, ON, Place, Row, UNTOUCHED, check, steps};
use kernel_loop::{Quantum, StepReport, Work, WorkEnd};
use machine_types::Outcome;
use std::process::Abort;
use std::test::Fail;

// A guest that jumps to itself. Its word has 6f in the low seven bits, and a distance of 0.
const LOOP: &str = ".segment 0 rx
.entry start
start:
    cjal c0, start
";

// The loop's step, with this dispatch.
fn jump(dispatch: Option<Quantum>) -> StepReport {
    StepReport {
        id: 1,
        slot: 0,
        dispatch,
        work: Work::Instr {
            pc: 0x1_0000_0000,
            word: Some(0x6f),
        },
        touches: UNTOUCHED,
        printed: 0,
        end: WorkEnd::Plain,
    }
}

// By this schedule the loop's steps have these dispatches.
fn check_dispatches(
    rt: &(impl Abort + AllocGlobal),
    schedule: &str,
    dispatches: &[Option<Quantum>],
) -> Result<(), Fail> {
    let all = run(rt.alloc(), LOOP, schedule, dispatches.len())?;
    assert_eq!(rt; all.len(), dispatches.len(), "{schedule}");
    for (number, (seen, dispatch)) in (1_u64..).zip(all.iter().zip(dispatches)) {
        assert_eq!(rt; seen.report, jump(*dispatch), "{schedule}: step {number}");
        assert_eq!(rt; seen.steps, number);
        assert_eq!(rt; seen.outcome, Outcome::Running);
    }
    Ok(())
}

#[test]
fn a_quantum_lasts_so_many_steps_and_then_the_next_one_comes(rt: HostRuntime) -> Result<(), Fail> {
    check_dispatches(&rt, "3\n", &[steps(3), ON, ON, FREE, ON, ON, ON])?;
    check_dispatches(&rt, "1\n", &[steps(1), FREE, ON, ON])?;
    check_dispatches(
        &rt,
        "2\n1\n3\n",
        &[steps(2), ON, steps(1), steps(3), ON, ON, FREE, ON, ON],
    )?;
    check_dispatches(&rt, "1000000\n", &[steps(1_000_000), ON, ON, ON])
}

#[test]
fn no_interrupt_comes_after_the_last_number(rt: HostRuntime) -> Result<(), Fail> {
    check_dispatches(&rt, "", &[FREE, ON, ON, ON, ON, ON, ON, ON])
}

#[test]
fn a_repeated_quantum_is_taken_so_often(rt: HostRuntime) -> Result<(), Fail> {
    check_dispatches(
        &rt,
        "2*3\n1\n",
        &[
            steps(2),
            ON,
            steps(2),
            ON,
            steps(2),
            ON,
            steps(1),
            FREE,
            ON,
            ON,
        ],
    )?;
    check_dispatches(
        &rt,
        "1*3\n2*2\n",
        &[
            steps(1),
            steps(1),
            steps(1),
            steps(2),
            ON,
            steps(2),
            ON,
            FREE,
            ON,
        ],
    )?;
    check_dispatches(&rt, "1*1000000000\n", &[steps(1); 50])
}

#[test]
fn a_long_quantum_counts_each_step(rt: HostRuntime) -> Result<(), Fail> {
    let mut dispatches = vec![in rt.alloc(); ON; 400]?;
    for (place, dispatch) in [
        (0, steps(300)),
        (300, steps(98)),
        (398, steps(1)),
        (399, FREE),
    ] {
        if let Some(old) = dispatches.get_mut(place) {
            *old = dispatch;
        }
    }
    check_dispatches(&rt, "300\n98\n1\n", &dispatches)
}

#[test]
fn a_process_may_end_within_its_quantum(rt: HostRuntime) -> Result<(), Fail> {
    let source = ".segment 0 rx
.entry start
start:
    addi x10, x0, 7
    addi x17, x0, 1
    ecall
";
    for (schedule, dispatch) in [("9\n", steps(9)), ("3\n1\n", steps(3)), ("", FREE)] {
        let rows: [Row; 3] = [
            (1, 0, dispatch, Place::At(0x1_0000_0000), WorkEnd::Plain),
            (1, 0, ON, Place::At(0x1_0000_0004), WorkEnd::Plain),
            (
                1,
                0,
                ON,
                Place::At(0x1_0000_0008),
                WorkEnd::Ended { status: 7 },
            ),
        ];
        check(&rt, source, schedule, &rows, Outcome::Done)?;
    }
    Ok(())
}

// A guest that calls yield, and calls it again after a jump.
const YIELDS: &str = ".segment 0 rx
.entry start
start:
    addi x17, x0, 12
again:
    ecall
    cjal c0, again
";

// Its steps by dispatches: the first instruction, and then a call and a jump in turn.
fn check_yields(
    rt: &(impl Abort + AllocGlobal),
    schedule: &str,
    dispatches: &[Option<Quantum>],
) -> Result<(), Fail> {
    let yielded = WorkEnd::Answered {
        number: 12,
        answer: 0,
    };
    let turn = [
        (Place::At(0x1_0000_0004), yielded),
        (Place::At(0x1_0000_0008), WorkEnd::Plain),
    ];
    let first = [(Place::At(0x1_0000_0000), WorkEnd::Plain)];
    let mut rows = Vec::new(rt.alloc());
    let works = first.into_iter().chain(turn.into_iter().cycle());
    for (dispatch, (place, end)) in dispatches.iter().zip(works) {
        rows.push((1, 0, *dispatch, place, end))?;
    }
    check(rt, YIELDS, schedule, &rows, Outcome::Running)
}

#[test]
fn a_yield_ends_the_dispatch_and_the_next_number_is_taken(rt: HostRuntime) -> Result<(), Fail> {
    // Three steps of the first quantum are lost, one of the second, and none of the third.
    check_yields(
        &rt,
        "5\n3\n2\n4\n",
        &[
            steps(5),
            ON,
            steps(3),
            ON,
            steps(2),
            ON,
            steps(4),
            ON,
            FREE,
            ON,
            FREE,
            ON,
            FREE,
        ],
    )
}

#[test]
fn a_yield_as_the_only_step_of_a_quantum_takes_one_number(rt: HostRuntime) -> Result<(), Fail> {
    check_yields(
        &rt,
        "1*4\n7\n",
        &[
            steps(1),
            steps(1),
            steps(1),
            steps(1),
            steps(7),
            ON,
            FREE,
            ON,
        ],
    )
}

#[test]
fn other_calls_go_on_with_the_dispatch(rt: HostRuntime) -> Result<(), Fail> {
    let source = ".segment 0 rx
.entry start
start:
    addi x17, x0, 4      # getpid
    ecall
    addi x17, x0, 5      # getppid
    ecall
    addi x17, x0, 99     # no call
    ecall
    addi x17, x0, 3      # wait, without a child
    ecall
    ebreak
";
    let answered = |number: u64, answer: i64| WorkEnd::Answered { number, answer };
    let rows: [Row; 9] = [
        (1, 0, steps(8), Place::At(0x1_0000_0000), WorkEnd::Plain),
        (1, 0, ON, Place::At(0x1_0000_0004), answered(4, 1)),
        (1, 0, ON, Place::At(0x1_0000_0008), WorkEnd::Plain),
        (1, 0, ON, Place::At(0x1_0000_000c), answered(5, 0)),
        (1, 0, ON, Place::At(0x1_0000_0010), WorkEnd::Plain),
        (1, 0, ON, Place::At(0x1_0000_0014), answered(99, -38)),
        (1, 0, ON, Place::At(0x1_0000_0018), WorkEnd::Plain),
        (1, 0, ON, Place::At(0x1_0000_001c), answered(3, -10)),
        (
            1,
            0,
            FREE,
            Place::At(0x1_0000_0020),
            WorkEnd::Ended { status: 265 },
        ),
    ];
    check(&rt, source, "8\n", &rows, Outcome::Done)
}

// How the steps of a run are counted, and that a schedule changes nothing for one process.
use crate::guests::{guest, letters, slice};
use crate::runs::{Given, check};
use std::alloc::Global;
use std::process::Abort;
use std::test::Fail;

// Reads 4096 bytes of the 5000 that it asks for, yields twice, asks for its id and for a child, and writes 5000 bytes. It makes 25 steps,
// of which the write is two, the 21st and the 22nd.
const CODE: &str = "
    addi x10, x0, 0
    cmove c11, c9
    ld x12, 8(c8)
    addi x17, x0, 7
    ecall
    addi x17, x0, 12
    ecall
    ecall
    addi x17, x0, 4
    ecall
    addi x17, x0, 3
    ecall
    addi x10, x0, 1
    cmove c11, c9
    ld x12, 8(c8)
    addi x17, x0, 8
    ecall
";

// The steps of the whole run, that of the first piece, and that of the second.
const STEPS: u64 = 25;

const FIRST_PIECE: u64 = 21;

const SECOND_PIECE: u64 = 22;

fn file(alloc: Global) -> Result<Vec<u8>, Fail> {
    let room = b"    .segment 0x2000 rw\n    .bss 8192\n";
    guest(alloc, CODE, &[5000], room)
}

// What is printed by the whole run: what was read, and zeros.
fn printed(alloc: Global, input: &[u8]) -> Result<Vec<u8>, Fail> {
    let mut out = Vec::new(alloc);
    out.extend_from_slice(slice(input, 0, 4096)?)?;
    out.resize(5000, 0)?;
    Ok(out)
}

// How many bytes are printed in so many steps.
fn printed_by(limit: u64) -> usize {
    if limit < FIRST_PIECE {
        0
    } else if limit < SECOND_PIECE {
        4096
    } else {
        5000
    }
}

// A run with this limit of steps, and with a schedule if there is one.
fn check_limit(
    rt: &(impl Abort + AllocGlobal),
    limit: u64,
    schedule: Option<&str>,
) -> Result<(), Fail> {
    let guest = file(rt.alloc())?;
    let input = letters(rt.alloc(), 6000)?;
    let all = printed(rt.alloc(), &input)?;
    let option = if schedule.is_some() {
        "--schedule s "
    } else {
        ""
    };
    let words = format!(in rt.alloc(); "run --steps {limit} {option}guest")?;
    let given = Given {
        words: &words,
        schedule: schedule.unwrap_or("").as_bytes(),
        input: &input,
    };
    let case = format!(in rt.alloc(); "{limit} steps by {schedule:?}")?;
    if limit < STEPS {
        let stopped = format!(in rt.alloc(); "stopped {limit}\n")?;
        let out = slice(&all, 0, printed_by(limit))?;
        check(rt, &case, &guest, given, (8, out, stopped.as_bytes()))
    } else {
        check(rt, &case, &guest, given, (0, &all, b"exit 1 0\ndone 25\n"))
    }
}

#[test]
fn a_run_stops_at_its_limit_and_no_step_before(rt: HostRuntime) -> Result<(), Fail> {
    for limit in 0..28 {
        check_limit(&rt, limit, None)?;
    }
    check_limit(&rt, 20_000_000, None)?;
    check_limit(&rt, 1_000_000_000, None)
}

#[test]
fn a_schedule_changes_nothing_for_one_process(rt: HostRuntime) -> Result<(), Fail> {
    let schedules = [
        "",
        "1",
        "1*1000\n",
        "2\n3*4\n",
        "21\n1\n",
        "22\n22\n",
        "7*1000000000\n",
        "1000000\n",
        "1000000*1000000000",
    ];
    for schedule in schedules {
        for limit in [0, 1, 7, 8, 9, 20, 21, 22, 23, 24, 25, 26, 1_000_000] {
            check_limit(&rt, limit, Some(schedule))?;
        }
    }
    Ok(())
}

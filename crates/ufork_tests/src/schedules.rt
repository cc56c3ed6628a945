// Schedules that a run is given: they are read and tested, and what one process prints is the same under each of them.
use crate::images::{HI, image_of};
use crate::runs::{Given, RUN, check_file};
use std::alloc::Global;
use std::process::Abort;
use std::test::Fail;

// The guest says `hi` by this schedule, or it is refused at a line.
fn check_schedule(
    rt: &(impl Abort + AllocGlobal),
    case: &str,
    schedule: &[u8],
    line: Option<u64>,
) -> Result<(), Fail> {
    let given = Given {
        words: "run --schedule s guest",
        schedule,
        ..RUN
    };
    let guest = image_of(rt.alloc(), &HI)?;
    let Some(line) = line else {
        let want: (u8, &[u8], &[u8]) = (0, b"hi\n", b"exit 1 0\ndone 8\n");
        return check_file(rt, case, &guest, given, want);
    };
    let line = format!(in rt.alloc(); "ufork: schedule refused: line {line}\n")?;
    check_file(rt, case, &guest, given, (5, b"", line.as_bytes()))
}

#[test]
fn texts_are_schedules_or_have_a_first_wrong_line(rt: HostRuntime) -> Result<(), Fail> {
    let rows: [(&'static str, Option<u64>); 22] = [
        ("", None),
        ("5", None),
        ("5\n", None),
        ("1*1000000000", None),
        ("1000000\n250*40\n1\n", None),
        ("\n", Some(1)),
        ("10\n0\n", Some(2)),
        ("10\n\n10\n", Some(2)),
        ("10\n0\n0\n", Some(2)),
        ("1*1000000001", Some(1)),
        ("1000001", Some(1)),
        ("1*0", Some(1)),
        ("*5", Some(1)),
        ("5*", Some(1)),
        ("5*5*5", Some(1)),
        ("05", Some(1)),
        ("+5", Some(1)),
        ("5 ", Some(1)),
        ("5\r\n", Some(1)),
        ("10000000000000000000", Some(1)),
        ("5\nfive\n", Some(2)),
        ("5\n5\n\n", Some(3)),
    ];
    for (schedule, line) in rows {
        check_schedule(&rt, schedule, schedule.as_bytes(), line)?;
    }
    Ok(())
}

// A line so many times, and then more.
fn repeated(alloc: Global, line: &[u8], times: usize, more: &[u8]) -> Result<Vec<u8>, Fail> {
    let mut text = Vec::new(alloc);
    for _ in 0..times {
        text.extend_from_slice(line)?;
    }
    text.extend_from_slice(more)?;
    Ok(text)
}

#[test]
fn a_schedule_has_at_most_100000_lines(rt: HostRuntime) -> Result<(), Fail> {
    let most = repeated(rt.alloc(), b"1\n", 100_000, b"")?;
    check_schedule(&rt, "100000 lines", &most, None)?;
    let more = repeated(rt.alloc(), b"1\n", 100_000, b"1")?;
    check_schedule(&rt, "100001 lines", &more, Some(100_001))
}

#[test]
fn a_schedule_has_at_most_1048576_bytes(rt: HostRuntime) -> Result<(), Fail> {
    // 95325 lines of 11 bytes are 1048575 bytes.
    let most = repeated(rt.alloc(), b"1000000*10\n", 95_325, b"1")?;
    assert_eq!(rt; most.len(), 1_048_576);
    check_schedule(&rt, "1048576 bytes", &most, None)?;
    let more = repeated(rt.alloc(), b"1000000*10\n", 95_325, b"1\n")?;
    assert_eq!(rt; more.len(), 1_048_577);
    check_schedule(&rt, "1048577 bytes", &more, Some(0))?;
    let wrong = repeated(rt.alloc(), b"0000000*10\n", 95_325, b"1\n")?;
    check_schedule(&rt, "1048577 bytes of wrong lines", &wrong, Some(0))
}

// The command `run` on one image of one page.
use crate::boards::Left;
use crate::images::{BOUNDS, HI, page_of};
use crate::runs::{Given, RUN, Want, check, check_done};
use std::test::Fail;

const BOTH_LINES: &[u8] = b"exit 1 0\ndone 8\n";

#[test]
fn an_image_of_one_page_writes_hi(rt: HostRuntime) -> Result<(), Fail> {
    check_done(&rt, &HI, b"hi\n", BOTH_LINES)
}

#[test]
fn a_write_past_the_bounds_is_refused(rt: HostRuntime) -> Result<(), Fail> {
    check_done(&rt, &BOUNDS, b"", b"exit 1 242\ndone 8\n")
}

#[test]
fn a_fault_kills_the_process(rt: HostRuntime) -> Result<(), Fail> {
    let rows: [([u32; 2], &'static [u8]); 4] = [
        // Words that are no instruction: zero, and csrrw x0, mstatus, x0.
        ([0, 0], b"exit 1 264\ndone 1\n"),
        ([0x3000_1073, 0], b"exit 1 264\ndone 1\n"),
        // fence, and then ebreak.
        ([0x0ff0_000f, 0x0010_0073], b"exit 1 265\ndone 2\n"),
        // lui x1, 0, and then a word that is none.
        ([0x0000_00b7, 0], b"exit 1 264\ndone 2\n"),
    ];
    for (words, err) in rows {
        check_done(&rt, &page_of(rt.alloc(), &words)?, b"", err)?;
    }
    Ok(())
}

#[test]
fn a_sink_that_fails_ends_the_run(rt: HostRuntime) -> Result<(), Fail> {
    type Row = (
        Option<u64>,
        Option<u64>,
        u8,
        &'static [u8],
        &'static [u8],
        Left,
    );
    let rows: [Row; 6] = [
        (Some(0), None, 7, b"", b"", Left::Page),
        (Some(1), None, 0, b"hi\n", BOTH_LINES, Left::Nothing),
        (Some(2), None, 0, b"hi\n", BOTH_LINES, Left::Nothing),
        (None, Some(0), 7, b"hi\n", b"", Left::Nothing),
        (None, Some(1), 7, b"hi\n", b"exit 1 0\n", Left::Nothing),
        (None, Some(2), 0, b"hi\n", BOTH_LINES, Left::Nothing),
    ];
    for (out_fails, err_fails, status, out, err, left) in rows {
        let given = Given {
            out_fails,
            err_fails,
            ..RUN
        };
        let want = Want {
            status,
            out,
            err,
            left,
        };
        check(&rt, &HI, given, want)?;
    }
    Ok(())
}

#[test]
fn a_refusal_whose_line_is_not_written_is_a_write_fault(rt: HostRuntime) -> Result<(), Fail> {
    let rows: [(&'static str, u64, &'static [u8]); 4] = [
        ("walk", 0, b""),
        ("run five", 0, b""),
        ("run no", 0, b""),
        ("run no", 1, b"ufork: cannot read "),
    ];
    for (words, call, err) in rows {
        let given = Given {
            words,
            err_fails: Some(call),
            ..RUN
        };
        let want = Want {
            status: 7,
            out: b"",
            err,
            left: Left::Nothing,
        };
        check(&rt, &HI, given, want)?;
    }
    Ok(())
}

#[test]
fn an_output_without_room_holds_no_part_of_a_piece(rt: HostRuntime) -> Result<(), Fail> {
    for room in 0..4 {
        let given = Given {
            out_room: room,
            ..RUN
        };
        let want = if room < 3 {
            Want {
                status: 7,
                out: b"",
                err: b"",
                left: Left::Page,
            }
        } else {
            Want {
                status: 0,
                out: b"hi\n",
                err: BOTH_LINES,
                left: Left::Nothing,
            }
        };
        check(&rt, &HI, given, want)?;
    }
    Ok(())
}

#[test]
fn errors_without_room_hold_whole_lines(rt: HostRuntime) -> Result<(), Fail> {
    for room in 0..17 {
        let given = Given {
            err_room: room,
            ..RUN
        };
        let (status, err): (u8, &'static [u8]) = match room {
            0..9 => (7, b""),
            9..16 => (7, b"exit 1 0\n"),
            _ => (0, BOTH_LINES),
        };
        let want = Want {
            status,
            out: b"hi\n",
            err,
            left: Left::Nothing,
        };
        check(&rt, &HI, given, want)?;
    }
    Ok(())
}

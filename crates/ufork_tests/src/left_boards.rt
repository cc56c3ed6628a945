// The boards that come back from runs and refusals.
use crate::boards::Left;
use crate::files::change;
use crate::images::{BOUNDS, HI, image_of, page_of};
use crate::instrs::five_writes;
use crate::runs::{Given, RUN, Want, check, check_done, check_file};
use std::test::Fail;

#[test]
fn a_process_that_ended_leaves_nothing(rt: HostRuntime) -> Result<(), Fail> {
    check_done(&rt, &HI, b"hi\n", b"exit 1 0\ndone 8\n")?;
    check_done(&rt, &BOUNDS, b"", b"exit 1 242\ndone 8\n")?;
    // A word that is no instruction.
    let page = page_of(rt.alloc(), &[0])?;
    check_done(&rt, &page, b"", b"exit 1 264\ndone 1\n")
}

#[test]
fn a_refusal_leaves_nothing(rt: HostRuntime) -> Result<(), Fail> {
    let rows: [(&'static str, u8, &'static [u8]); 6] = [
        ("run", 2, b"ufork: usage: word 2\n"),
        ("run no", 3, b"ufork: cannot read no\n"),
        ("run five", 4, b"ufork: image refused: Truncated at 5\n"),
        ("run --schedule no guest", 3, b"ufork: cannot read no\n"),
        (
            "run --schedule s guest",
            5,
            b"ufork: schedule refused: line 2\n",
        ),
        (
            "run --frames 1 guest",
            12,
            b"ufork: image needs 2 pages, 1 frames\n",
        ),
    ];
    let mut guest = image_of(rt.alloc(), &HI)?;
    change(&mut guest, (104, 8, 8192));
    for (words, status, err) in rows {
        let given = Given {
            words,
            schedule: b"10\n0\n",
            ..RUN
        };
        check_file(&rt, words, &guest, given, (status, b"", err))?;
        // The same where its line is cut.
        let given = Given {
            err_fails: Some(0),
            ..given
        };
        check_file(&rt, words, &guest, given, (7, b"", b""))?;
    }
    Ok(())
}

#[test]
fn a_cut_piece_leaves_the_page(rt: HostRuntime) -> Result<(), Fail> {
    let page = five_writes(rt.alloc(), 1)?;
    let rows: [(u64, &'static [u8]); 3] = [(0, b""), (2, b"ab"), (4, b"abcd")];
    for (call, out) in rows {
        let given = Given {
            out_fails: Some(call),
            ..RUN
        };
        let want = Want {
            status: 7,
            out,
            err: b"",
            left: Left::Page,
        };
        check(&rt, &page, given, want)?;
    }
    Ok(())
}

#[test]
fn a_cut_line_of_a_process_that_ended_leaves_nothing(rt: HostRuntime) -> Result<(), Fail> {
    let page = five_writes(rt.alloc(), 1)?;
    let rows: [(u64, &'static [u8]); 2] = [(0, b""), (1, b"exit 1 0\n")];
    for (call, err) in rows {
        let given = Given {
            err_fails: Some(call),
            ..RUN
        };
        let want = Want {
            status: 7,
            out: b"abcde",
            err,
            left: Left::Nothing,
        };
        check(&rt, &page, given, want)?;
    }
    Ok(())
}

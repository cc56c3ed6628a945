// The console's input: it is read whole before the first instruction, and what stands later in the order of refusals is not asked for.
use crate::boards::{Left, left_on};
use crate::files::change;
use crate::images::{HI, image_of};
use crate::runs::{Given, RUN, Ran, check_file, run_file};
use outside_io::Source;
use std::alloc::Global;
use std::process::Abort;
use std::test::Fail;

// The most bytes that the input may have.
const MOST: usize = 1_048_576;

const TOO_LONG: &[u8] = b"ufork: input too long\n";

const FAILED: &[u8] = b"ufork: input failed\n";

const LACKED: &[u8] = b"ufork: image needs 2 pages, 1 frames\n";

// What has to come of a run: the status, what stands on the errors, and how many bytes of the input were taken.
type Want = (u8, &'static [u8], usize);

const SAYS_HI: Want = (0, b"exit 1 0\ndone 8\n", 0);

// So many bytes of which no two neighbours are the same.
fn bytes(alloc: Global, count: usize) -> Result<Vec<u8>, Fail> {
    let mut bytes = Vec::new(alloc);
    for place in 0..count {
        bytes.push((place % 251) as u8)?;
    }
    Ok(bytes)
}

// The source goes on with these bytes.
fn check_left(
    rt: &(impl Abort + AllocGlobal),
    case: &str,
    ran: Ran,
    left: &[u8],
) -> Result<(), Fail> {
    let Ran { mut input, .. } = ran;
    let mut piece = [0; 4];
    let count = input.read(&mut piece)?;
    assert_eq!(rt; count == 0, left.is_empty(), "{case}");
    assert_eq!(rt; left.get(..count), piece.get(..count), "{case}");
    Ok(())
}

// Makes a run of a guest that says `hi`, and looks at what it wrote, at the board and at what it left of the input.
fn check_input(
    rt: &(impl Abort + AllocGlobal),
    case: &str,
    given: Given<'_>,
    want: Want,
) -> Result<(), Fail> {
    let (status, err, taken) = want;
    let ran = run_file(rt.alloc(), &image_of(rt.alloc(), &HI)?, given)?;
    assert_eq!(rt; ran.err.bytes(), err, "{case}");
    let out: &[u8] = if status == 0 { b"hi\n" } else { b"" };
    assert_eq!(rt; ran.out.bytes(), out, "{case}");
    assert_eq!(rt; ran.status, status, "{case}");
    assert_eq!(rt; left_on(&ran.board, &[]), Some(Left::Nothing), "{case}");
    let left = given.input.get(taken..).ok_or("fewer bytes")?;
    check_left(rt, case, ran, left)
}

#[test]
fn an_input_is_read_to_its_end(rt: HostRuntime) -> Result<(), Fail> {
    for count in [0, 1, 3, 4, 5, 4095, 4096, 4097, 8192, 10000] {
        let input = bytes(rt.alloc(), count)?;
        for input_piece in [1, 4, 4096, 5000] {
            let given = Given {
                input: &input,
                input_piece,
                ..RUN
            };
            let (status, err, _) = SAYS_HI;
            check_input(&rt, "", given, (status, err, count))?;
        }
    }
    Ok(())
}

// Makes a run with an input of so many bytes, of which some are taken.
fn check_long(
    rt: &(impl Abort + AllocGlobal),
    count: usize,
    input_piece: usize,
    want: Want,
) -> Result<(), Fail> {
    let input = bytes(rt.alloc(), count)?;
    let given = Given {
        input: &input,
        input_piece,
        ..RUN
    };
    check_input(rt, "", given, want)
}

#[test]
fn an_input_may_have_1048576_bytes(rt: HostRuntime) -> Result<(), Fail> {
    let (status, err, _) = SAYS_HI;
    for input_piece in [1, 4, 4096] {
        check_long(&rt, MOST - 1, input_piece, (status, err, MOST - 1))?;
        check_long(&rt, MOST, input_piece, (status, err, MOST))?;
    }
    Ok(())
}

#[test]
fn of_a_longer_input_one_byte_more_is_taken(rt: HostRuntime) -> Result<(), Fail> {
    for input_piece in [1, 4, 4096] {
        check_long(&rt, MOST + 1, input_piece, (11, TOO_LONG, MOST + 1))?;
    }
    check_long(&rt, MOST + 2, 4096, (11, TOO_LONG, MOST + 1))?;
    check_long(&rt, 2 * MOST, 5000, (11, TOO_LONG, MOST + 1))
}

// Makes a run with an input of so many bytes, of which a read fails.
fn check_failing(
    rt: &(impl Abort + AllocGlobal),
    case: (usize, usize, u64),
    want: Want,
) -> Result<(), Fail> {
    let (count, input_piece, call) = case;
    let input = bytes(rt.alloc(), count)?;
    let given = Given {
        input: &input,
        input_piece,
        input_fails: Some(call),
        ..RUN
    };
    check_input(rt, "", given, want)
}

#[test]
fn a_read_that_fails_is_told(rt: HostRuntime) -> Result<(), Fail> {
    // The bytes of the input, those of a piece, the read that fails, and the bytes taken by then. The last read of each is the one that
    // tells the end.
    for (count, piece, call, taken) in [
        (0, 4, 0, 0),
        (1, 4, 0, 0),
        (1, 4, 1, 1),
        (10, 4, 0, 0),
        (10, 4, 1, 4),
        (10, 4, 2, 8),
        (10, 4, 3, 10),
        (4096, 4096, 1, 4096),
        (10000, 5000, 2, 8192),
        (MOST, 4096, 255, MOST - 4096),
        (MOST, 4096, 256, MOST),
        (MOST + 1, 4096, 256, MOST),
    ] {
        check_failing(&rt, (count, piece, call), (6, FAILED, taken))?;
    }
    Ok(())
}

#[test]
fn a_source_is_not_asked_again(rt: HostRuntime) -> Result<(), Fail> {
    // The read that would fail comes after the one that told the end.
    let (status, err, _) = SAYS_HI;
    for (count, piece, call) in [(0, 4, 1), (1, 4, 2), (10, 4, 4), (4096, 4096, 2)] {
        let input = bytes(rt.alloc(), count)?;
        let given = Given {
            input: &input,
            input_piece: piece,
            input_fails: Some(call),
            ..RUN
        };
        let ran = run_file(rt.alloc(), &image_of(rt.alloc(), &HI)?, given)?;
        assert_eq!(rt; ran.err.bytes(), err);
        assert_eq!(rt; ran.status, status);
        // So it fails at the test's own.
        let Ran { mut input, .. } = ran;
        assert_eq!(rt; input.read(&mut [0; 4]).is_err(), true);
    }
    // It isn't asked for more once the input is too long.
    let input = bytes(rt.alloc(), MOST + 2)?;
    let given = Given {
        input: &input,
        input_fails: Some(257),
        ..RUN
    };
    let ran = run_file(rt.alloc(), &image_of(rt.alloc(), &HI)?, given)?;
    assert_eq!(rt; ran.err.bytes(), TOO_LONG);
    assert_eq!(rt; ran.status, 11);
    let Ran { mut input, .. } = ran;
    assert_eq!(rt; input.read(&mut [0; 4]).is_err(), true);
    Ok(())
}

#[test]
fn an_earlier_refusal_leaves_the_input(rt: HostRuntime) -> Result<(), Fail> {
    // Each is refused though the first read of the input would fail, and then the test's own read is that one.
    let rows: [(&'static str, u8, &'static [u8]); 6] = [
        ("run", 2, b"ufork: usage: word 2\n"),
        ("run no", 3, b"ufork: cannot read no\n"),
        ("run five", 4, b"ufork: image refused: Truncated at 5\n"),
        ("run --schedule no guest", 3, b"ufork: cannot read no\n"),
        (
            "run --schedule s guest",
            5,
            b"ufork: schedule refused: line 2\n",
        ),
        (
            "run --schedule s --frames 1 guest",
            5,
            b"ufork: schedule refused: line 2\n",
        ),
    ];
    let guest = image_of(rt.alloc(), &HI)?;
    for (words, status, err) in rows {
        let given = Given {
            words,
            schedule: b"10\n0\n",
            input: b"abcdef",
            input_fails: Some(0),
            ..RUN
        };
        let ran = run_file(rt.alloc(), &guest, given)?;
        assert_eq!(rt; ran.err.bytes(), err, "{words}");
        assert_eq!(rt; ran.status, status, "{words}");
        let Ran { mut input, .. } = ran;
        assert_eq!(rt; input.read(&mut [0; 4]).is_err(), true, "{words}");
        assert_eq!(rt; input.read(&mut [0; 9])?, 6, "{words}");
    }
    Ok(())
}

// Makes a run of an image of two pages on one frame, and looks at what it left of the input.
fn check_frames(
    rt: &(impl Abort + AllocGlobal),
    input: &[u8],
    input_fails: Option<u64>,
    want: Want,
) -> Result<(), Fail> {
    let (status, err, taken) = want;
    let mut guest = image_of(rt.alloc(), &HI)?;
    change(&mut guest, (104, 8, 8192));
    let given = Given {
        words: "run --frames 1 guest",
        input,
        input_fails,
        ..RUN
    };
    check_file(rt, "", &guest, given, (status, b"", err))?;
    let ran = run_file(rt.alloc(), &guest, given)?;
    check_left(rt, "", ran, input.get(taken..).ok_or("fewer bytes")?)
}

#[test]
fn frames_are_counted_behind_the_input(rt: HostRuntime) -> Result<(), Fail> {
    check_frames(&rt, b"", None, (12, LACKED, 0))?;
    check_frames(&rt, b"abcde", None, (12, LACKED, 5))?;
    check_frames(&rt, b"abcde", Some(0), (6, FAILED, 0))?;
    let long = bytes(rt.alloc(), MOST + 1)?;
    check_frames(&rt, &long, None, (11, TOO_LONG, MOST + 1))
}

// The line of a refusal of this input is cut.
fn check_cut(
    rt: &(impl Abort + AllocGlobal),
    input: &[u8],
    input_fails: Option<u64>,
) -> Result<(), Fail> {
    let given = Given {
        input,
        input_fails,
        err_fails: Some(0),
        ..RUN
    };
    let guest = image_of(rt.alloc(), &HI)?;
    check_file(rt, "", &guest, given, (7, b"", b""))
}

#[test]
fn a_cut_line_hides_the_refusal_of_an_input(rt: HostRuntime) -> Result<(), Fail> {
    check_cut(&rt, b"abcde", Some(1))?;
    let long = bytes(rt.alloc(), MOST + 1)?;
    check_cut(&rt, &long, None)
}

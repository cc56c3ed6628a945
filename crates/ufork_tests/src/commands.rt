// The words of a run: its options, the places of faults, and the order of the refusals.
use crate::boards::Left;
use crate::files::{change, image_with_code, segment};
use crate::images::{HI, image_of};
use crate::runs::{Given, RUN, Want, check, check_file};
use std::process::Abort;
use std::test::Fail;

const BOTH_LINES: &[u8] = b"exit 1 0\ndone 8\n";

// The words are refused at this place.
fn check_place(rt: &(impl Abort + AllocGlobal), words: &str, place: u64) -> Result<(), Fail> {
    let given = Given { words, ..RUN };
    let line = format!(in rt.alloc(); "ufork: usage: word {place}\n")?;
    let guest = image_of(rt.alloc(), &HI)?;
    check_file(rt, words, &guest, given, (2, b"", line.as_bytes()))
}

// The guest says `hi` by these words.
fn check_hi(rt: &(impl Abort + AllocGlobal), words: &str) -> Result<(), Fail> {
    let given = Given { words, ..RUN };
    let guest = image_of(rt.alloc(), &HI)?;
    check_file(rt, words, &guest, given, (0, b"hi\n", BOTH_LINES))
}

#[test]
fn faults_of_words_have_places(rt: HostRuntime) -> Result<(), Fail> {
    for (words, place) in [
        ("", 1),
        ("walk guest", 1),
        ("run", 2),
        ("run ", 2),
        ("run -guest", 2),
        ("run --steps=5 guest", 2),
        ("run --frames 5000 guest", 3),
        ("run --frames 010 guest", 3),
        ("run --frames", 3),
        ("run guest five", 3),
        ("run guest --frames 1", 3),
        ("run --frames 1", 4),
        ("run --frames 1 --frames 1 guest", 4),
        ("run --frames 1 --regions 65 guest", 5),
    ] {
        check_place(&rt, words, place)?;
    }
    Ok(())
}

#[test]
fn each_option_has_limits(rt: HostRuntime) -> Result<(), Fail> {
    for words in [
        "run --frames 1 guest",
        "run --frames 4096 guest",
        "run --regions 1 guest",
        "run --regions 64 guest",
        "run --slots 1 guest",
        "run --slots 64 guest",
        "run --steps 8 guest",
        "run --steps 1000000000 guest",
        "run --copy full guest",
        "run --schedule s guest",
    ] {
        check_hi(&rt, words)?;
    }
    for words in [
        "run --frames 0 guest",
        "run --frames 4097 guest",
        "run --regions 0 guest",
        "run --regions 65 guest",
        "run --slots 0 guest",
        "run --slots 65 guest",
        "run --steps 1000000001 guest",
        "run --steps 18446744073709551617 guest",
        "run --copy none guest",
        "run --schedule -s guest",
        "run --schedule  guest",
    ] {
        check_place(&rt, words, 3)?;
    }
    Ok(())
}

#[test]
fn options_stand_in_any_order(rt: HostRuntime) -> Result<(), Fail> {
    check_hi(
        &rt,
        "run --frames 1 --regions 1 --slots 1 --steps 8 --copy full --schedule s guest",
    )?;
    check_hi(
        &rt,
        "run --schedule s --copy full --steps 8 --slots 1 --regions 1 --frames 1 guest",
    )
}

#[test]
fn a_run_has_the_steps_that_are_configured(rt: HostRuntime) -> Result<(), Fail> {
    let rows: [(&'static str, &'static [u8], &'static [u8]); 4] = [
        ("run --steps 0 guest", b"", b"stopped 0\n"),
        ("run --steps 4 guest", b"", b"stopped 4\n"),
        ("run --steps 5 guest", b"hi\n", b"stopped 5\n"),
        ("run --steps 7 guest", b"hi\n", b"stopped 7\n"),
    ];
    for (words, out, err) in rows {
        let given = Given { words, ..RUN };
        let want = Want {
            status: 8,
            out,
            err,
            left: Left::Page,
        };
        check(&rt, &HI, given, want)?;
    }
    Ok(())
}

#[test]
fn an_image_has_a_frame_for_each_page(rt: HostRuntime) -> Result<(), Fail> {
    // The size in memory of the one segment, the words, and the line; or none, where it runs.
    let rows: [(u64, &'static str, &'static [u8]); 7] = [
        (
            8192,
            "run --frames 1 guest",
            b"ufork: image needs 2 pages, 1 frames\n",
        ),
        (
            4097,
            "run --frames 1 guest",
            b"ufork: image needs 2 pages, 1 frames\n",
        ),
        (4096, "run --frames 1 guest", b""),
        (8192, "run --frames 2 guest", b""),
        (
            1048576,
            "run --frames 255 guest",
            b"ufork: image needs 256 pages, 255 frames\n",
        ),
        (1048576, "run --frames 256 guest", b""),
        (1048576, "run guest", b""),
    ];
    for (size, words, refused) in rows {
        let given = Given { words, ..RUN };
        let mut guest = image_of(rt.alloc(), &HI)?;
        change(&mut guest, (104, 8, size));
        let want: (u8, &[u8], &[u8]) = if refused.is_empty() {
            (0, b"hi\n", BOTH_LINES)
        } else {
            (12, b"", refused)
        };
        check_file(&rt, words, &guest, given, want)?;
    }
    Ok(())
}

#[test]
fn the_pages_of_all_segments_are_counted(rt: HostRuntime) -> Result<(), Fail> {
    let parts = [segment(8192, 6, b"a", 4097), segment(40960, 4, b"b", 1)];
    let guest = image_with_code(rt.alloc(), &HI, &parts, &[])?;
    let words = "run --frames 3 guest";
    let line: &[u8] = b"ufork: image needs 4 pages, 3 frames\n";
    check_file(&rt, words, &guest, Given { words, ..RUN }, (12, b"", line))?;
    let words = "run --frames 4 guest";
    let want: (u8, &[u8], &[u8]) = (0, b"hi\n", BOTH_LINES);
    check_file(&rt, words, &guest, Given { words, ..RUN }, want)
}

// What fails: the words, the schedule's text, and the read of a file.
type Fails = (&'static str, &'static [u8], Option<u64>);

#[test]
fn refusals_come_in_their_order(rt: HostRuntime) -> Result<(), Fail> {
    // Of each two neighbours in the order both fail: the words, the image's file, the image, the schedule's file, the schedule, the frames.
    let rows: [(Fails, u8, &'static [u8]); 12] = [
        (
            ("run --frames 0 no", b"0", Some(0)),
            2,
            b"ufork: usage: word 3\n",
        ),
        (("run no", b"", None), 3, b"ufork: cannot read no\n"),
        (
            ("run guest", b"", Some(0)),
            3,
            b"ufork: cannot read guest\n",
        ),
        (("run five", b"", Some(0)), 3, b"ufork: cannot read five\n"),
        (
            ("run --schedule no five", b"", None),
            4,
            b"ufork: image refused: Truncated at 5\n",
        ),
        (
            ("run --schedule s five", b"0", Some(1)),
            4,
            b"ufork: image refused: Truncated at 5\n",
        ),
        (
            ("run --schedule s --frames 1 guest", b"0", Some(1)),
            3,
            b"ufork: cannot read s\n",
        ),
        (
            ("run --schedule no --frames 1 guest", b"0", None),
            3,
            b"ufork: cannot read no\n",
        ),
        (
            ("run --schedule s --frames 1 guest", b"0", None),
            5,
            b"ufork: schedule refused: line 1\n",
        ),
        (
            ("run --frames 1 --schedule s guest", b"1\n2\n", None),
            12,
            b"ufork: image needs 2 pages, 1 frames\n",
        ),
        (
            ("run --frames 1 --steps 0 guest", b"", None),
            12,
            b"ufork: image needs 2 pages, 1 frames\n",
        ),
        (
            ("run --schedule guest guest", b"", None),
            5,
            b"ufork: schedule refused: line 1\n",
        ),
    ];
    let mut guest = image_of(rt.alloc(), &HI)?;
    change(&mut guest, (104, 8, 8192));
    for ((words, schedule, file_fails), status, err) in rows {
        let given = Given {
            words,
            schedule,
            file_fails,
            ..RUN
        };
        check_file(&rt, words, &guest, given, (status, b"", err))?;
    }
    Ok(())
}

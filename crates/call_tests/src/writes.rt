// Writes to the console: what they print and answer, in pieces of at most 4096 bytes, and where they are stopped.
use crate::guests::{guest, letters, push_answer, push_count, room_of, slice};
use crate::runs::{Given, check, check_done, with_input};
use std::process::Abort;
use std::test::Fail;

// The bytes of the room, which is three pages.
const ROOM: usize = 12288;

// Writes so many bytes from a place of the room on, and prints the answer. It makes 20 steps and those of the write, which begin with the
// tenth.
const WRITES_ONCE: &str = "
    ld x6, 8(c8)
    cincoffset c11, c9, x6
    ld x12, 16(c8)
    addi x10, x0, 1
    addi x17, x0, 8
    ecall
    cjal c1, show
";

// The same from the room's start on, with bounds of so many bytes.
const WRITES_BOUNDED: &str = "
    ld x6, 8(c8)
    csetbounds c11, c9, x6
    ld x12, 16(c8)
    addi x10, x0, 1
    addi x17, x0, 8
    ecall
    cjal c1, show
";

// A run of this code with two numbers, of which the second is the count. It prints these places of the room, if it isn't refused.
fn check_write(
    rt: &(impl Abort + AllocGlobal),
    code: &str,
    numbers: [u64; 2],
    printed: Option<(usize, usize)>,
    steps: u64,
) -> Result<(), Fail> {
    let room = letters(rt.alloc(), ROOM)?;
    let lines = room_of(rt.alloc(), &room)?;
    let guest = guest(rt.alloc(), code, &numbers, &lines)?;
    let mut out = Vec::new(rt.alloc());
    match printed {
        Some((from, past)) => {
            out.extend_from_slice(slice(&room, from, past)?)?;
            push_count(&mut out, past.saturating_sub(from))?;
        }
        None => push_answer(&mut out, -14)?,
    }
    let [first, count] = numbers;
    let case = format!(in rt.alloc(); "{first} {count}")?;
    check_done(rt, &case, &guest, b"", (&out, steps))
}

#[test]
fn a_write_prints_and_answers_all_its_bytes(rt: HostRuntime) -> Result<(), Fail> {
    // The first byte, the one past the last, and the steps.
    let rows: [(usize, usize, u64); 16] = [
        (0, 0, 21),
        (0, 1, 21),
        (0, 4095, 21),
        (0, 4096, 21),
        (0, 4097, 22),
        (0, 5000, 22),
        (0, 8192, 22),
        (0, 8193, 23),
        (0, 12288, 23),
        (1, 12288, 23),
        (4046, 4146, 21),
        (4095, 4097, 21),
        (4095, 8191, 21),
        (4095, 8192, 22),
        (8191, 8193, 21),
        (12287, 12288, 21),
    ];
    for (from, past, steps) in rows {
        let numbers = [from as u64, past.saturating_sub(from) as u64];
        check_write(&rt, WRITES_ONCE, numbers, Some((from, past)), steps)?;
    }
    Ok(())
}

#[test]
fn a_write_past_its_pages_prints_nothing(rt: HostRuntime) -> Result<(), Fail> {
    // In the first four rows the first 4096 bytes, or the one byte, are there.
    let rows: [[u64; 2]; 8] = [
        [0, 12289],
        [1, 12288],
        [4096, 8193],
        [12287, 2],
        [12288, 1],
        [0, 1_048_577],
        [4096, 0x8000_0000_0000_0000],
        [0, 0xffff_ffff_ffff_ffff],
    ];
    for numbers in rows {
        check_write(&rt, WRITES_ONCE, numbers, None, 21)?;
    }
    Ok(())
}

#[test]
fn a_write_past_its_bounds_prints_nothing(rt: HostRuntime) -> Result<(), Fail> {
    // The bounds, which are exact, the count, and the steps if it isn't refused.
    let rows: [(u64, usize, Option<u64>); 12] = [
        (0, 0, Some(21)),
        (0, 1, None),
        (1, 1, Some(21)),
        (1, 2, None),
        (4095, 4095, Some(21)),
        (4095, 4096, None),
        (4096, 4096, Some(21)),
        (4096, 4097, None),
        (4992, 4992, Some(22)),
        (4992, 5000, None),
        (8192, 8192, Some(22)),
        (8192, 8193, None),
    ];
    for (bounds, count, steps) in rows {
        let numbers = [bounds, count as u64];
        match steps {
            Some(steps) => check_write(&rt, WRITES_BOUNDED, numbers, Some((0, count)), steps)?,
            None => check_write(&rt, WRITES_BOUNDED, numbers, None, 21)?,
        }
    }
    Ok(())
}

#[test]
fn a_write_is_stopped_between_its_pieces(rt: HostRuntime) -> Result<(), Fail> {
    // The count, the limit of steps, and how many bytes are printed by then.
    let rows: [(u64, u64, usize); 9] = [
        (5000, 9, 0),
        (5000, 10, 4096),
        (5000, 11, 5000),
        (5000, 12, 5000),
        (10000, 9, 0),
        (10000, 10, 4096),
        (10000, 11, 8192),
        (10000, 12, 10000),
        (10000, 13, 10000),
    ];
    let room = letters(rt.alloc(), ROOM)?;
    let lines = room_of(rt.alloc(), &room)?;
    for (count, limit, printed) in rows {
        let guest = guest(rt.alloc(), WRITES_ONCE, &[0, count], &lines)?;
        let words = format!(in rt.alloc(); "run --steps {limit} guest")?;
        let stopped = format!(in rt.alloc(); "stopped {limit}\n")?;
        let given = Given {
            words: &words,
            ..with_input(b"")
        };
        let want = (8, slice(&room, 0, printed)?, stopped.as_bytes());
        check(&rt, &words, &guest, given, want)?;
    }
    Ok(())
}

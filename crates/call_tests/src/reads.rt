// Reads of the console's input: what they answer and take, and which bytes of the memory they change.
use crate::guests::{
    answers_of, guest, letters, push_answer, push_count, put_over, room_of, slice,
};
use crate::runs::check_done;
use std::process::Abort;
use std::test::Fail;

// Asks for so many bytes until none is left, each time behind those of the last read, prints each answer, and at last all bytes. It makes 12
// steps, 16 for each read, and those of the last write.
const READS_ALL: &str = "
    cmove c20, c9
next:
    addi x10, x0, 0
    cmove c11, c20
    ld x12, 8(c8)
    addi x17, x0, 7
    ecall
    addi x21, x10, 0
    cjal c1, show
    cincoffset c20, c20, x21
    bne x21, x0, next
    addi x10, x0, 1
    cmove c11, c9
    csub x12, c20, c9
    addi x17, x0, 8
    ecall
";

// The bytes of the input, those asked for by each read, the answers, and the steps.
type Whole = (usize, u64, &'static [i64], u64);

fn check_whole(rt: &(impl Abort + AllocGlobal), row: Whole) -> Result<(), Fail> {
    let (given, asked, answers, steps) = row;
    let room = b"    .segment 0x2000 rw\n    .bss 32768\n";
    let guest = guest(rt.alloc(), READS_ALL, &[asked], room)?;
    let input = letters(rt.alloc(), given)?;
    let mut out = answers_of(rt.alloc(), answers)?;
    out.extend_from_slice(&input)?;
    let case = format!(in rt.alloc(); "{asked} of {given}")?;
    check_done(rt, &case, &guest, &input, (&out, steps))
}

#[test]
fn a_read_goes_on_where_the_last_stopped(rt: HostRuntime) -> Result<(), Fail> {
    let rows: [Whole; 13] = [
        (0, 1, &[0], 29),
        (0, 4097, &[0], 29),
        (1, 4096, &[1, 0], 45),
        (3, 1, &[1, 1, 1, 0], 77),
        (5, 2, &[2, 2, 1, 0], 77),
        (4095, 4096, &[4095, 0], 45),
        (4096, 4096, &[4096, 0], 45),
        (4096, 4097, &[4096, 0], 45),
        (4097, 4096, &[4096, 1, 0], 62),
        (4097, 4097, &[4096, 1, 0], 62),
        (8192, 8192, &[4096, 4096, 0], 62),
        (10000, 4095, &[4095, 4095, 1810, 0], 79),
        (10000, 20000, &[4096, 4096, 1808, 0], 79),
    ];
    for row in rows {
        check_whole(&rt, row)?;
    }
    Ok(())
}

// Asks for so many bytes at a place of the room, prints the answer, and then the 8192 bytes of the room. It makes 27 steps.
const READS_ONCE: &str = "
    ld x6, 8(c8)
    cincoffset c11, c9, x6
    ld x12, 16(c8)
    addi x10, x0, 0
    addi x17, x0, 7
    ecall
    cjal c1, show
    addi x10, x0, 1
    cmove c11, c9
    lui x12, 2
    addi x17, x0, 8
    ecall
";

// The bytes of the input, the place in the room, the bytes asked for, and how many are read, if it isn't refused.
type Once = (usize, usize, u64, Option<usize>);

fn check_once(rt: &(impl Abort + AllocGlobal), row: Once) -> Result<(), Fail> {
    let (given, place, asked, read) = row;
    let mut room = vec![in rt.alloc(); b'.'; 8192]?;
    let lines = room_of(rt.alloc(), &room)?;
    let guest = guest(rt.alloc(), READS_ONCE, &[place as u64, asked], &lines)?;
    let input = letters(rt.alloc(), given)?;
    let mut out = Vec::new(rt.alloc());
    match read {
        Some(count) => {
            put_over(&mut room, place, slice(&input, 0, count)?);
            push_count(&mut out, count)?;
        }
        None => push_answer(&mut out, -14)?,
    }
    out.extend_from_slice(&room)?;
    let case = format!(in rt.alloc(); "{asked} of {given} at {place}")?;
    check_done(rt, &case, &guest, &input, (&out, 27))
}

#[test]
fn a_read_changes_the_bytes_that_it_answers(rt: HostRuntime) -> Result<(), Fail> {
    let rows: [Once; 12] = [
        (5000, 0, 0, Some(0)),
        (5000, 0, 1, Some(1)),
        (0, 0, 1, Some(0)),
        (5000, 0, 8192, Some(4096)),
        (5000, 1, 8191, Some(4096)),
        (5000, 4046, 100, Some(100)),
        (99, 4046, 100, Some(99)),
        (5000, 4095, 2, Some(2)),
        (1, 4095, 2, Some(1)),
        (5000, 4095, 4097, Some(4096)),
        (5000, 4096, 4096, Some(4096)),
        (5000, 8191, 1, Some(1)),
    ];
    for row in rows {
        check_once(&rt, row)?;
    }
    Ok(())
}

#[test]
fn a_read_is_refused_for_all_that_it_asks_for(rt: HostRuntime) -> Result<(), Fail> {
    // The bytes of the input would fit each time but the last two, and behind the room there is no page.
    let rows: [Once; 7] = [
        (5, 0, 8193, None),
        (5, 1, 8192, None),
        (1, 8191, 2, None),
        (0, 8191, 2, None),
        (5, 0, 0xffff_ffff_ffff_ffff, None),
        (5, 8190, 5, None),
        (5, 8192, 1, None),
    ];
    for row in rows {
        check_once(&rt, row)?;
    }
    Ok(())
}

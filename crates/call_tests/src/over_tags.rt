// Reads over capabilities in memory: the bytes that are stored take away the tags of all places of 16 bytes that they overlap.
use crate::guests::{answers_of, guest, letters};
use crate::runs::{check, check_done, with_input};
use std::process::Abort;
use std::test::Fail;

// A room that begins with three capabilities to its first 16 bytes.
const CAPABILITIES: &[u8] = b"
    .segment 0x2000 rw
room:
    .cap room, 16, 0, 0x3c
    .cap room, 16, 0, 0x3c
    .cap room, 16, 0, 0x3c
";

// Reads so many bytes to a place of the room, and prints the answer and the three tags. It makes 51 steps.
const READS_OVER: &str = "
    ld x6, 8(c8)
    cincoffset c11, c9, x6
    ld x12, 16(c8)
    addi x10, x0, 0
    addi x17, x0, 7
    ecall
    cjal c1, show
    clc c7, 0(c9)
    cgettag x10, c7
    cjal c1, show
    clc c7, 16(c9)
    cgettag x10, c7
    cjal c1, show
    clc c7, 32(c9)
    cgettag x10, c7
    cjal c1, show
";

// The bytes of the input, the place in the room, the bytes asked for, and the answer with the three tags.
type Row = (usize, u64, u64, [i64; 4]);

fn check_tags(rt: &(impl Abort + AllocGlobal), row: Row) -> Result<(), Fail> {
    let (given, place, asked, wanted) = row;
    let guest = guest(rt.alloc(), READS_OVER, &[place, asked], CAPABILITIES)?;
    let input = letters(rt.alloc(), given)?;
    let out = answers_of(rt.alloc(), &wanted)?;
    let case = format!(in rt.alloc(); "{asked} of {given} at {place}")?;
    check_done(rt, &case, &guest, &input, (&out, 51))
}

#[test]
fn a_read_clears_the_tags_that_it_overlaps(rt: HostRuntime) -> Result<(), Fail> {
    let rows: [Row; 13] = [
        (100, 0, 1, [1, 0, 1, 1]),
        (100, 0, 16, [16, 0, 1, 1]),
        (100, 0, 17, [17, 0, 0, 1]),
        (100, 15, 1, [1, 0, 1, 1]),
        (100, 15, 2, [2, 0, 0, 1]),
        (100, 15, 18, [18, 0, 0, 0]),
        (100, 16, 16, [16, 1, 0, 1]),
        (100, 31, 1, [1, 1, 0, 1]),
        (100, 31, 2, [2, 1, 0, 0]),
        (100, 32, 1, [1, 1, 1, 0]),
        (100, 47, 1, [1, 1, 1, 0]),
        (100, 48, 16, [16, 1, 1, 1]),
        (100, 0, 48, [48, 0, 0, 0]),
    ];
    for row in rows {
        check_tags(&rt, row)?;
    }
    Ok(())
}

#[test]
fn bytes_that_are_not_read_keep_their_tags(rt: HostRuntime) -> Result<(), Fail> {
    // The input is shorter than what is asked for, or at its end, or nothing is asked for, or the read is refused.
    let rows: [Row; 6] = [
        (3, 0, 4096, [3, 0, 1, 1]),
        (3, 14, 4000, [3, 0, 0, 1]),
        (1, 31, 4000, [1, 1, 0, 1]),
        (0, 0, 48, [0, 1, 1, 1]),
        (100, 0, 0, [0, 1, 1, 1]),
        (100, 0, 4097, [-14, 1, 1, 1]),
    ];
    for row in rows {
        check_tags(&rt, row)?;
    }
    Ok(())
}

#[test]
fn a_load_through_bytes_that_were_read_dies(rt: HostRuntime) -> Result<(), Fail> {
    let code = "
    addi x10, x0, 0
    cmove c11, c9
    addi x12, x0, 1
    addi x17, x0, 7
    ecall
    clc c7, 0(c9)
    ld x6, 0(c7)
";
    let guest = guest(rt.alloc(), code, &[], CAPABILITIES)?;
    let want: (u8, &[u8], &[u8]) = (0, b"", b"exit 1 257\ndone 11\n");
    check(&rt, "a byte", &guest, with_input(b"a"), want)?;
    let want: (u8, &[u8], &[u8]) = (0, b"", b"exit 1 0\ndone 14\n");
    check(&rt, "no byte", &guest, with_input(b""), want)
}

#[test]
fn the_bytes_of_a_capability_bring_no_tag(rt: HostRuntime) -> Result<(), Fail> {
    // What is read over the capability are its own bytes. It is equal to the old one without its tag, and not to the old one.
    let code = "
    clc c6, 0(c9)
    addi x10, x0, 0
    cmove c11, c9
    addi x12, x0, 16
    addi x17, x0, 7
    ecall
    cjal c1, show
    clc c7, 0(c9)
    cseqx x10, c6, c7
    cjal c1, show
    ccleartag c6, c6
    cseqx x10, c6, c7
    cjal c1, show
";
    let guest = guest(rt.alloc(), code, &[], CAPABILITIES)?;
    // The address 0x100002000, the permissions 0x3c, the top 0x010 in 12 bits and the base 0x2000 in 14.
    let input = [
        0x00, 0x20, 0x00, 0x00, 0x01, 0x00, 0x00, 0x00, 0x00, 0x20, 0x04, 0x00, 0x00, 0x00, 0x3c,
        0x00,
    ];
    let out = answers_of(rt.alloc(), &[16, 0, 1])?;
    check_done(&rt, "", &guest, &input, (&out, 41))
}

// By which capabilities bytes may be read to memory and written from it, and that what is refused takes nothing of the input.
use crate::guests::{guest, push_answer, put_over};
use crate::runs::check_done;
use std::alloc::Global;
use std::process::Abort;
use std::test::Fail;

// A room of one page, and behind it a page that may only be read, with a capability to the room that has all permissions. Behind that there
// is no page.
const SEGMENTS: &[u8] = b"
    .segment 0x2000 rw
room:
    .ascii \"vwxyz\"
    .segment 0x3000 r
    .ascii \"stuvw\"
    .align 16
    .cap room, 4096, 0, 0x3e
";

// Reads by c11 so many bytes as are in x12, and then 5 to the room's start, and prints both answers and the room. It makes 36 steps and those
// that prepare the registers.
const READS: &str = "
    addi x10, x0, 0
    addi x17, x0, 7
    ecall
    cjal c1, show
    addi x10, x0, 0
    cmove c11, c9
    addi x12, x0, 5
    addi x17, x0, 7
    ecall
    cjal c1, show
    addi x10, x0, 1
    cmove c11, c9
    lui x12, 1
    addi x17, x0, 8
    ecall
";

// Writes by c11 so many bytes as are in x12, and prints the answer. It makes 18 steps and those that prepare the registers.
const WRITES: &str = "
    addi x10, x0, 1
    addi x17, x0, 8
    ecall
    cjal c1, show
";

// What prepares c11 and x12, and its steps; where in the room a read stores its 5 bytes, if it isn't refused; and the 5 bytes that a write
// prints, if it isn't refused.
type Row<'a> = (&'a str, u64, Option<usize>, Option<&'static [u8]>);

// A guest with the lines that prepare the registers.
fn prepared(alloc: Global, prepares: &str, then: &str) -> Result<Vec<u8>, Fail> {
    let code = format!(in alloc; "{prepares}\n{then}")?;
    guest(alloc, &code, &[], SEGMENTS)
}

// A read with an input of 10 bytes: what was refused takes none of them.
fn check_read(rt: &(impl Abort + AllocGlobal), row: Row<'_>) -> Result<(), Fail> {
    let (prepares, steps, read, _) = row;
    let guest = prepared(rt.alloc(), prepares, READS)?;
    let mut room = vec![in rt.alloc(); 0_u8; 4096]?;
    put_over(&mut room, 0, b"vwxyz");
    let mut out = Vec::new(rt.alloc());
    match read {
        Some(place) => {
            put_over(&mut room, place, b"abcde");
            put_over(&mut room, 0, b"fghij");
            push_answer(&mut out, 5)?;
        }
        None => {
            put_over(&mut room, 0, b"abcde");
            push_answer(&mut out, -14)?;
        }
    }
    push_answer(&mut out, 5)?;
    out.extend_from_slice(&room)?;
    let want = (out.as_slice(), steps.saturating_add(36));
    check_done(rt, prepares, &guest, b"abcdefghij", want)
}

// A read at the input's end: it is refused all the same.
fn check_read_at_end(rt: &(impl Abort + AllocGlobal), row: Row<'_>) -> Result<(), Fail> {
    let (prepares, steps, read, _) = row;
    let guest = prepared(rt.alloc(), prepares, READS)?;
    let mut room = vec![in rt.alloc(); 0_u8; 4096]?;
    put_over(&mut room, 0, b"vwxyz");
    let mut out = Vec::new(rt.alloc());
    push_answer(&mut out, if read.is_some() { 0 } else { -14 })?;
    push_answer(&mut out, 0)?;
    out.extend_from_slice(&room)?;
    let want = (out.as_slice(), steps.saturating_add(36));
    check_done(rt, prepares, &guest, b"", want)
}

fn check_write(rt: &(impl Abort + AllocGlobal), row: Row<'_>) -> Result<(), Fail> {
    let (prepares, steps, _, printed) = row;
    let guest = prepared(rt.alloc(), prepares, WRITES)?;
    let mut out = Vec::new(rt.alloc());
    match printed {
        Some(bytes) => {
            out.extend_from_slice(bytes)?;
            push_answer(&mut out, 5)?;
        }
        None => push_answer(&mut out, -14)?,
    }
    let want = (out.as_slice(), steps.saturating_add(18));
    check_done(rt, prepares, &guest, b"", want)
}

fn check_row(rt: &(impl Abort + AllocGlobal), row: Row<'_>) -> Result<(), Fail> {
    check_read(rt, row)?;
    check_read_at_end(rt, row)?;
    check_write(rt, row)
}

// The first bytes of the room.
const START: Option<&'static [u8]> = Some(b"vwxyz");

// Bytes of the room behind them.
const ZEROS: Option<&'static [u8]> = Some(&[0; 5]);

#[test]
fn a_read_asks_to_store_and_a_write_to_load(rt: HostRuntime) -> Result<(), Fail> {
    // The permissions are 4 to load, 8 to store, and 0x10 and 0x20 to do so with capabilities.
    for (permissions, read, printed) in [
        (0x3c, Some(0), START),
        (0x0c, Some(0), START),
        (0x08, Some(0), None),
        (0x38, Some(0), None),
        (0x04, None, START),
        (0x34, None, START),
        (0x30, None, None),
        (0, None, None),
    ] {
        let prepares = format!(in rt.alloc();
            "addi x5, x0, {permissions}\n candperm c11, c9, x5\n addi x12, x0, 5\n"
        )?;
        check_row(&rt, (&prepares, 3, read, printed))?;
    }
    Ok(())
}

// The capability with all permissions.
const ALL: &str = "
    lui x5, 3
    cincoffset c6, c2, x5
    clc c11, 16(c6)
    addi x12, x0, 5
";

// The same sealed.
const SEALED: &str = "
    lui x5, 3
    cincoffset c6, c2, x5
    clc c11, 16(c6)
    csealentry c11, c11
    addi x12, x0, 5
";

#[test]
fn a_number_or_a_sealed_entry_is_no_authority(rt: HostRuntime) -> Result<(), Fail> {
    check_row(&rt, (ALL, 4, Some(0), START))?;
    check_row(&rt, (SEALED, 5, None, None))?;
    for prepares in [
        "ccleartag c11, c9\n addi x12, x0, 5",
        "cgetaddr x11, c9\n addi x12, x0, 5",
        "cmove c11, c0\n addi x12, x0, 5",
    ] {
        check_row(&rt, (prepares, 2, None, None))?;
    }
    Ok(())
}

#[test]
fn the_pages_of_all_bytes_have_to_allow_it(rt: HostRuntime) -> Result<(), Fail> {
    // A page and a place from its start on. Page 0 has the code: lui x5, 1 and the first byte of what follows.
    let rows: [(u32, i32, Option<usize>, Option<&'static [u8]>); 9] = [
        (0, 0, None, Some(&[0xb7, 0x12, 0, 0, 0x5b])),
        (2, 0, Some(0), START),
        (3, -5, Some(4091), ZEROS),
        (3, -4, None, Some(b"\0\0\0\0s")),
        (3, 0, None, Some(b"stuvw")),
        (4, -5, None, ZEROS),
        (4, -4, None, None),
        (4, 0, None, None),
        // The region's end.
        (256, 0, None, None),
    ];
    for (page, place, read, printed) in rows {
        let prepares = format!(in rt.alloc();
            "lui x5, {page}\n cincoffset c11, c2, x5\n cincoffsetimm c11, c11, {place}\n addi x12, x0, 5\n"
        )?;
        check_row(&rt, (&prepares, 4, read, printed))?;
    }
    Ok(())
}

#[test]
fn all_bytes_have_to_lie_in_the_bounds(rt: HostRuntime) -> Result<(), Fail> {
    // The bounds from the room's start on, the place, and the count.
    let rows: [(u32, i32, i32, Option<usize>, Option<&'static [u8]>); 10] = [
        (5, 0, 5, Some(0), START),
        (4, 0, 5, None, None),
        (0, 0, 5, None, None),
        (16, 11, 5, Some(11), ZEROS),
        (16, 12, 5, None, None),
        (16, 16, 5, None, None),
        (16, 16, 1, None, None),
        (16, -1, 5, None, None),
        (16, -1, 1, None, None),
        // A count of 2^64 - 1.
        (16, 0, -1, None, None),
    ];
    for (bounds, place, count, read, printed) in rows {
        let prepares = format!(in rt.alloc();
            "csetboundsimm c11, c9, {bounds}\n cincoffsetimm c11, c11, {place}\n addi x12, x0, {count}\n"
        )?;
        check_row(&rt, (&prepares, 3, read, printed))?;
    }
    Ok(())
}

// Writes of more than a page: they go out in pieces of at most 4096 bytes, one in each step, and are answered with the last.
use crate::boards::{Left, left_on};
use crate::cut_lines::run_with_room;
use crate::files::{image_with_code, segment};
use crate::instrs::{EXIT, WRITE, addi, bytes_of, cincoffset, csetbounds, lui, write_and_exit};
use crate::runs::{Given, RUN, check_file, run_file};
use riscv_decode::Instr;
use std::alloc::Global;
use std::process::Abort;
use std::test::Fail;

// A number as so many times 4096 and a rest.
type Number = (u32, i32);

// 10000
const COUNT: Number = (2, 1808);

// A run whose output has room for the three pages of data.
const LONG: Given = Given {
    out_room: 12288,
    ..RUN
};

// The bytes of pages 1 to 3.
fn data(alloc: Global) -> Result<Vec<u8>, Fail> {
    let mut bytes = Vec::new(alloc);
    for place in 0..12288_u32 {
        bytes.push((place % 251) as u8)?;
    }
    Ok(bytes)
}

// The image of a guest with pages 1 to 3, which may only be read, and this code.
fn with_data(alloc: Global, code: &[u8], data: &[u8]) -> Result<Vec<u8>, Fail> {
    image_with_code(alloc, code, &[segment(4096, 4, data, 12288)], &[])
}

// The page of a guest that asks once for a write of so many bytes from a place on. It makes 9 steps besides those of the write.
fn one_write(alloc: Global, from: Number, count: Number) -> Result<Vec<u8>, Fail> {
    let prepares = [
        lui(5, from.0),
        addi(5, 5, from.1),
        cincoffset(11, 2, 5),
        addi(10, 0, 1),
        lui(12, count.0),
        addi(12, 12, count.1),
    ];
    write_and_exit(alloc, &prepares)
}

// The bytes of the data from one place up to another.
fn slice(data: &[u8], from: usize, past: usize) -> Result<&[u8], Fail> {
    Ok(data.get(from..past).ok_or("not in the data")?)
}

#[test]
fn a_long_write_prints_all_its_bytes(rt: HostRuntime) -> Result<(), Fail> {
    // The place and the count of a write, the bytes of the data from one place up to another, and the two lines.
    let rows: [(Number, Number, usize, usize, &'static [u8]); 9] = [
        ((1, 0), (1, -1), 0, 4095, b"exit 1 255\ndone 10\n"),
        ((1, 0), (1, 0), 0, 4096, b"exit 1 0\ndone 10\n"),
        ((1, 0), (1, 1), 0, 4097, b"exit 1 1\ndone 11\n"),
        ((1, 0), (2, 0), 0, 8192, b"exit 1 0\ndone 11\n"),
        ((1, 0), (2, 1), 0, 8193, b"exit 1 1\ndone 12\n"),
        ((1, 0), COUNT, 0, 10000, b"exit 1 16\ndone 12\n"),
        ((1, 100), COUNT, 100, 10100, b"exit 1 16\ndone 12\n"),
        ((2, -1808), COUNT, 2288, 12288, b"exit 1 16\ndone 12\n"),
        ((1, 0), (3, 0), 0, 12288, b"exit 1 0\ndone 12\n"),
    ];
    let data = data(rt.alloc())?;
    for (from, count, first, past, err) in rows {
        let code = one_write(rt.alloc(), from, count)?;
        let file = with_data(rt.alloc(), &code, &data)?;
        let out = slice(&data, first, past)?;
        check_file(&rt, "", &file, LONG, (0, out, err))?;
    }
    Ok(())
}

#[test]
fn a_long_write_over_an_absent_page_is_refused_at_once(rt: HostRuntime) -> Result<(), Fail> {
    let data = data(rt.alloc())?;
    // The last byte is the first one behind page 3, or the last bytes are the page behind it.
    let rows: [(Number, Number); 3] = [((2, -1807), COUNT), ((1, 0), (3, 1)), ((3, 0), (3, 0))];
    for (from, count) in rows {
        let code = one_write(rt.alloc(), from, count)?;
        let file = with_data(rt.alloc(), &code, &data)?;
        check_file(&rt, "", &file, LONG, (0, b"", b"exit 1 242\ndone 10\n"))?;
    }
    // Pages 1 and 3 are there, and page 2 is not.
    let code = one_write(rt.alloc(), (1, 0), COUNT)?;
    let parts = [
        segment(4096, 6, &[7; 100], 4096),
        segment(12288, 6, &[7], 4096),
    ];
    let file = image_with_code(rt.alloc(), &code, &parts, &[])?;
    check_file(&rt, "", &file, LONG, (0, b"", b"exit 1 242\ndone 10\n"))
}

#[test]
fn a_long_write_past_its_bounds_is_refused_at_once(rt: HostRuntime) -> Result<(), Fail> {
    // The bounds have 4096 bytes, or 8192.
    let data = data(rt.alloc())?;
    let rows: [(u32, Number, usize, &'static [u8]); 4] = [
        (1, (1, 0), 4096, b"exit 1 0\ndone 11\n"),
        (1, (1, 1), 0, b"exit 1 242\ndone 11\n"),
        (2, (2, 0), 8192, b"exit 1 0\ndone 12\n"),
        (2, (2, 1), 0, b"exit 1 242\ndone 11\n"),
    ];
    for (bounds, (pages, rest), printed, err) in rows {
        let prepares = [
            lui(5, 1),
            cincoffset(11, 2, 5),
            lui(6, bounds),
            csetbounds(11, 11, 6),
            addi(10, 0, 1),
            lui(12, pages),
            addi(12, 12, rest),
        ];
        let code = write_and_exit(rt.alloc(), &prepares)?;
        let file = with_data(rt.alloc(), &code, &data)?;
        let out = slice(&data, 0, printed)?;
        check_file(&rt, "", &file, LONG, (0, out, err))?;
    }
    Ok(())
}

#[test]
fn the_write_after_a_long_one_begins_anew(rt: HostRuntime) -> Result<(), Fail> {
    // Two writes of the same 4097 bytes, each in two steps, and 9 others.
    let code = [
        lui(5, 1),
        cincoffset(11, 2, 5),
        lui(12, 1),
        addi(12, 12, 1),
        addi(17, 0, WRITE),
        addi(10, 0, 1),
        Instr::Ecall,
        addi(10, 0, 1),
        Instr::Ecall,
        addi(17, 0, EXIT),
        Instr::Ecall,
    ];
    let data = data(rt.alloc())?;
    let file = with_data(rt.alloc(), &bytes_of(rt.alloc(), &code)?, &data)?;
    let once = slice(&data, 0, 4097)?;
    let mut out = Vec::new(rt.alloc());
    out.extend_from_slice(once)?;
    out.extend_from_slice(once)?;
    check_file(&rt, "", &file, LONG, (0, &out, b"exit 1 1\ndone 13\n"))
}

// A write of 10000 bytes to this output, which has so many bytes afterwards. Where they are not all the guest's four pages are left.
fn check_cut(rt: &(impl Abort + AllocGlobal), given: Given, printed: usize) -> Result<(), Fail> {
    let data = data(rt.alloc())?;
    let code = one_write(rt.alloc(), (1, 0), COUNT)?;
    let file = with_data(rt.alloc(), &code, &data)?;
    let ran = run_file(rt.alloc(), &file, given)?;
    assert_eq!(rt; ran.out.bytes(), slice(&data, 0, printed)?);
    if printed == 10000 {
        assert_eq!(rt; ran.status, 0);
        assert_eq!(rt; ran.err.bytes(), b"exit 1 16\ndone 12\n".as_slice());
        assert_eq!(rt; left_on(&ran.board, &[]), Some(Left::Nothing));
    } else {
        assert_eq!(rt; ran.status, 7);
        assert_eq!(rt; ran.err.bytes(), b"".as_slice());
        assert_eq!(rt; ran.board.pool.used(), 4);
    }
    Ok(())
}

#[test]
fn an_output_that_fails_has_the_pieces_before(rt: HostRuntime) -> Result<(), Fail> {
    for (call, printed) in [(0, 0), (1, 4096), (2, 8192), (3, 10000)] {
        let given = Given {
            out_fails: Some(call),
            ..LONG
        };
        check_cut(&rt, given, printed)?;
    }
    Ok(())
}

#[test]
fn an_output_without_room_has_whole_pieces(rt: HostRuntime) -> Result<(), Fail> {
    let rows = [
        (0, 0),
        (4095, 0),
        (4096, 4096),
        (8191, 4096),
        (8192, 8192),
        (9999, 8192),
        (10000, 10000),
    ];
    for (room, printed) in rows {
        let given = Given {
            out_room: room,
            ..LONG
        };
        check_cut(&rt, given, printed)?;
    }
    Ok(())
}

#[test]
fn an_output_that_takes_a_part_has_the_bytes_up_to_there(rt: HostRuntime) -> Result<(), Fail> {
    let data = data(rt.alloc())?;
    let code = one_write(rt.alloc(), (1, 0), COUNT)?;
    let file = with_data(rt.alloc(), &code, &data)?;
    for count in [0, 1, 4095, 4096, 4097, 8192, 9999] {
        let mut out = vec![in rt.alloc(); 0xff_u8; count]?;
        let mut err = [0; 18];
        let ended = run_with_room(rt.alloc(), &file, out.as_mut_slice(), &mut err)?;
        assert_eq!(rt; ended.status, 7, "{count}");
        assert_eq!(rt; out.as_slice(), slice(&data, 0, count)?, "{count}");
        assert_eq!(rt; err, [0; 18]);
        assert_eq!(rt; ended.board.pool.used(), 4);
    }
    Ok(())
}

#[test]
fn a_long_write_may_be_stopped_between_its_pieces(rt: HostRuntime) -> Result<(), Fail> {
    // The write is the eighth step to the tenth, each with one piece.
    let data = data(rt.alloc())?;
    let code = one_write(rt.alloc(), (1, 0), COUNT)?;
    let file = with_data(rt.alloc(), &code, &data)?;
    let rows: [(&'static str, u8, usize, &'static [u8]); 6] = [
        ("run --steps 7 guest", 8, 0, b"stopped 7\n"),
        ("run --steps 8 guest", 8, 4096, b"stopped 8\n"),
        ("run --steps 9 guest", 8, 8192, b"stopped 9\n"),
        ("run --steps 10 guest", 8, 10000, b"stopped 10\n"),
        ("run --steps 11 guest", 8, 10000, b"stopped 11\n"),
        ("run --steps 12 guest", 0, 10000, b"exit 1 16\ndone 12\n"),
    ];
    for (words, status, printed, err) in rows {
        let given = Given { words, ..LONG };
        let ran = run_file(rt.alloc(), &file, given)?;
        assert_eq!(rt; ran.status, status, "{words}");
        assert_eq!(rt; ran.out.bytes(), slice(&data, 0, printed)?, "{words}");
        assert_eq!(rt; ran.err.bytes(), err, "{words}");
        let used = if status == 8 { 4 } else { 0 };
        assert_eq!(rt; ran.board.pool.used(), used, "{words}");
    }
    Ok(())
}

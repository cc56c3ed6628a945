// Runs of images of several segments: the pages that a guest has, their bytes and their rights.
use crate::files::{Change, Part, change, image_with, image_with_code, segment};
use crate::instrs::{
    EXIT, WRITE, addi, auipcc, bne, bytes_of, cincoffset, cincoffsetimm, cjalr, cmove, load, lui,
    one, store, write_and_exit,
};
use crate::runs::{RUN, check_file};
use riscv_decode::{Instr, LoadOp, OneOp, StoreOp};
use std::alloc::Global;
use std::process::Abort;
use std::test::Fail;

// What a guest does before it asks for a write, what is printed, and the two lines. Its status is the answer, modulo 256.
type Row<'a> = (&'a [Instr], &'static [u8], &'static [u8]);

// Each guest has this segment behind its code.
fn check_writes(
    rt: &(impl Abort + AllocGlobal),
    data: Part<'_>,
    rows: &[Row<'_>],
) -> Result<(), Fail> {
    for (number, (prepares, out, err)) in rows.iter().enumerate() {
        let case = format!(in rt.alloc(); "row {number}")?;
        let code = write_and_exit(rt.alloc(), prepares)?;
        let file = image_with_code(rt.alloc(), &code, &[data], &[])?;
        check_file(rt, case.as_str(), &file, RUN, (0, *out, *err))?;
    }
    Ok(())
}

// Each guest has this code and segment, prints nothing and ends so.
fn check_ends(
    rt: &(impl Abort + AllocGlobal),
    rows: &[(&[Instr], Part<'_>, &'static [u8])],
) -> Result<(), Fail> {
    for (number, (code, data, err)) in rows.iter().enumerate() {
        let case = format!(in rt.alloc(); "row {number}")?;
        let code = bytes_of(rt.alloc(), code)?;
        let file = image_with_code(rt.alloc(), &code, &[*data], &[])?;
        check_file(rt, case.as_str(), &file, RUN, (0, b"", *err))?;
    }
    Ok(())
}

#[test]
fn pages_without_bytes_in_the_file_are_zeros_that_may_be_stored_to(
    rt: HostRuntime,
) -> Result<(), Fail> {
    // Pages 1 to 3, of which the file has the first three bytes.
    let data = segment(4096, 6, b"abc", 12288);
    let rows: [Row<'_>; 3] = [
        (
            &[
                lui(5, 1),
                cincoffset(11, 2, 5),
                addi(10, 0, 1),
                addi(12, 0, 6),
            ],
            b"abc\0\0\0",
            b"exit 1 6\ndone 8\n",
        ),
        // 90 is stored to page 2, loaded, and stored behind it.
        (
            &[
                lui(5, 2),
                cincoffset(11, 2, 5),
                addi(6, 0, 90),
                store(StoreOp::Sb, 6, 11, 1),
                load(LoadOp::Lbu, 7, 11, 1),
                store(StoreOp::Sb, 7, 11, 2),
                addi(10, 0, 1),
                addi(12, 0, 4),
            ],
            b"\0ZZ\0",
            b"exit 1 4\ndone 12\n",
        ),
        // The last four bytes of page 3.
        (
            &[
                lui(5, 4),
                cincoffset(11, 2, 5),
                cincoffsetimm(11, 11, -4),
                addi(10, 0, 1),
                addi(12, 0, 4),
            ],
            b"\0\0\0\0",
            b"exit 1 4\ndone 9\n",
        ),
    ];
    check_writes(&rt, data, &rows)
}

#[test]
fn the_tail_of_a_page_may_be_stored_to(rt: HostRuntime) -> Result<(), Fail> {
    // The last byte of page 1.
    let rows: [Row<'_>; 1] = [(
        &[
            lui(5, 2),
            cincoffset(11, 2, 5),
            cincoffsetimm(11, 11, -2),
            addi(6, 0, 90),
            store(StoreOp::Sb, 6, 11, 1),
            addi(10, 0, 1),
            addi(12, 0, 2),
        ],
        b"\0Z",
        b"exit 1 2\ndone 11\n",
    )];
    check_writes(&rt, segment(4096, 6, b"abc", 3), &rows)
}

#[test]
fn a_segment_has_the_pages_of_its_size(rt: HostRuntime) -> Result<(), Fail> {
    // The last byte of a page, and the first one behind it.
    let page_1: &[Instr] = &[
        lui(5, 2),
        cincoffset(8, 2, 5),
        store(StoreOp::Sb, 0, 8, -1),
        load(LoadOp::Lbu, 6, 8, 0),
    ];
    let page_2: &[Instr] = &[
        lui(5, 3),
        cincoffset(8, 2, 5),
        store(StoreOp::Sb, 0, 8, -1),
        load(LoadOp::Lbu, 6, 8, 0),
    ];
    check_ends(
        &rt,
        &[
            (page_1, segment(4096, 6, b"a", 1), b"exit 1 262\ndone 4\n"),
            (
                page_1,
                segment(4096, 6, b"a", 4096),
                b"exit 1 262\ndone 4\n",
            ),
            (
                page_2,
                segment(4096, 6, b"a", 4097),
                b"exit 1 262\ndone 4\n",
            ),
            (
                page_2,
                segment(4096, 6, b"a", 8192),
                b"exit 1 262\ndone 4\n",
            ),
        ],
    )
}

#[test]
fn a_segment_may_be_the_whole_region(rt: HostRuntime) -> Result<(), Fail> {
    // The last byte of page 255 is stored to and printed, or the one behind it is loaded.
    let last = [lui(5, 256), addi(5, 5, -1), cincoffset(11, 2, 5)];
    let mut prints = Vec::new(rt.alloc());
    prints.extend_from_slice(&last)?;
    prints.extend_from_slice(&[
        addi(6, 0, 90),
        store(StoreOp::Sb, 6, 11, 0),
        addi(10, 0, 1),
        addi(12, 0, 1),
    ])?;
    let code = write_and_exit(rt.alloc(), &prints)?;
    let file = image_with(rt.alloc(), 0, &[segment(0, 7, &code, 1048576)], &[])?;
    check_file(&rt, "", &file, RUN, (0, b"Z", b"exit 1 1\ndone 11\n"))?;
    let mut loads = Vec::new(rt.alloc());
    loads.extend_from_slice(&last)?;
    loads.push(load(LoadOp::Lbu, 6, 11, 1))?;
    let code = bytes_of(rt.alloc(), &loads)?;
    let file = image_with(rt.alloc(), 0, &[segment(0, 7, &code, 1048576)], &[])?;
    check_file(&rt, "", &file, RUN, (0, b"", b"exit 1 260\ndone 4\n"))
}

// A guest that prints the first six bytes of page 1, in an image of three segments: its code, page 5, and page 1's six letters.
// The headers stand at 64, 120 and 176, and the letters at 12288.
fn with_letters(alloc: Global) -> Result<Vec<u8>, Fail> {
    let prepares = [
        lui(5, 1),
        cincoffset(11, 2, 5),
        addi(10, 0, 1),
        addi(12, 0, 6),
    ];
    let code = write_and_exit(alloc, &prepares)?;
    let parts = [segment(20480, 6, b"no", 2), segment(4096, 6, b"abcdef", 6)];
    let mut file = image_with_code(alloc, &code, &parts, &[])?;
    change(&mut file, (120, 4, 0));
    Ok(file)
}

// After these changes the guest with letters prints this.
fn check_letters(
    rt: &(impl Abort + AllocGlobal),
    changes: &[Change],
    out: &[u8],
) -> Result<(), Fail> {
    let mut file = with_letters(rt.alloc())?;
    for field in changes {
        change(&mut file, *field);
    }
    check_file(rt, "", &file, RUN, (0, out, b"exit 1 6\ndone 8\n"))
}

#[test]
fn a_header_of_type_0_is_skipped(rt: HostRuntime) -> Result<(), Fail> {
    // All its other fields may be anything.
    let fields: [Change; 7] = [
        (124, 4, u64::MAX),
        (128, 8, u64::MAX),
        (136, 8, u64::MAX),
        (144, 8, u64::MAX),
        (152, 8, u64::MAX),
        (160, 8, u64::MAX),
        (168, 8, u64::MAX),
    ];
    check_letters(&rt, &[], b"abcdef")?;
    check_letters(&rt, &fields, b"abcdef")
}

#[test]
fn fields_that_are_not_read_may_be_anything(rt: HostRuntime) -> Result<(), Fail> {
    let fields: [Change; 8] = [
        (40, 8, u64::MAX), // shoff
        (58, 2, u64::MAX), // the section fields
        (60, 2, u64::MAX),
        (62, 2, u64::MAX),
        (88, 8, u64::MAX), // paddr and align of the code
        (112, 8, u64::MAX),
        (200, 8, u64::MAX), // and of the letters
        (224, 8, u64::MAX),
    ];
    check_letters(&rt, &fields, b"abcdef")
}

#[test]
fn bytes_between_the_parts_may_be_anything(rt: HostRuntime) -> Result<(), Fail> {
    // Behind the headers, behind the code's 32 bytes, before the letters and behind them.
    let mut file = with_letters(rt.alloc())?;
    for place in (232..4096).chain(4128..8192).chain(8192..12288) {
        change(&mut file, (place, 1, 0xff));
    }
    file.extend_from_slice(&[0xff; 100])?;
    check_file(&rt, "", &file, RUN, (0, b"abcdef", b"exit 1 6\ndone 8\n"))
}

#[test]
fn bytes_behind_the_part_in_the_file_are_zeros(rt: HostRuntime) -> Result<(), Fail> {
    check_letters(&rt, &[(208, 8, 3)], b"abc\0\0\0")?;
    check_letters(&rt, &[(208, 8, 0)], b"\0\0\0\0\0\0")
}

#[test]
fn a_part_may_begin_at_any_byte_of_the_file(rt: HostRuntime) -> Result<(), Fail> {
    // Within the letters, and at the file header.
    check_letters(&rt, &[(184, 8, 12291), (208, 8, 3)], b"def\0\0\0")?;
    check_letters(&rt, &[(184, 8, 0), (208, 8, 6)], b"\x7fELF\x02\x01")
}

#[test]
fn sixteen_segments_are_all_there(rt: HostRuntime) -> Result<(), Fail> {
    // Pages 1 to 15 have each a segment of one letter. The rights are 4 to 7 in turn.
    let letters = b"bcdefghijklmnop";
    let code = [
        addi(5, 0, 15),
        lui(6, 1),
        cincoffset(11, 2, 6),
        addi(10, 0, 1),
        addi(12, 0, 1),
        addi(17, 0, WRITE),
        Instr::Ecall,
        cincoffset(11, 11, 6),
        addi(5, 5, -1),
        bne(5, 0, -24),
        addi(10, 0, 0),
        addi(17, 0, EXIT),
        Instr::Ecall,
    ];
    let code = bytes_of(rt.alloc(), &code)?;
    let mut parts = Vec::new(rt.alloc());
    let starts = (4096..65536_u64).step_by(4096);
    for ((letter, start), rights) in letters.chunks(1).zip(starts).zip((4..8_u8).cycle()) {
        parts.push(segment(start, rights, letter, 1))?;
    }
    assert_eq!(rt; parts.len(), 15);
    let file = image_with_code(rt.alloc(), &code, &parts, &[])?;
    // 3 steps, 15 times 7, and 3.
    check_file(&rt, "", &file, RUN, (0, letters, b"exit 1 0\ndone 111\n"))
}

#[test]
fn the_entry_may_be_in_the_tail_of_a_page(rt: HostRuntime) -> Result<(), Fail> {
    // The word there is zero, which is no instruction.
    let code = bytes_of(rt.alloc(), &[addi(17, 0, EXIT), Instr::Ecall])?;
    for entry in [8, 4092] {
        let file = image_with(rt.alloc(), entry, &[segment(0, 5, &code, 8)], &[])?;
        check_file(&rt, "", &file, RUN, (0, b"", b"exit 1 264\ndone 1\n"))?;
    }
    let file = image_with(rt.alloc(), 4, &[segment(0, 5, &code, 8)], &[])?;
    // Number 0 is no call, and then the page's zeros come.
    check_file(&rt, "", &file, RUN, (0, b"", b"exit 1 264\ndone 2\n"))
}

#[test]
fn the_entry_may_be_on_any_page_that_is_executed(rt: HostRuntime) -> Result<(), Fail> {
    let code = bytes_of(
        rt.alloc(),
        &[addi(10, 0, 9), addi(17, 0, EXIT), Instr::Ecall],
    )?;
    for start in [0, 4096, 1044480] {
        let file = image_with(rt.alloc(), start, &[segment(start, 5, &code, 12)], &[])?;
        check_file(&rt, "", &file, RUN, (0, b"", b"exit 1 9\ndone 3\n"))?;
    }
    Ok(())
}

// A guest with data on page 0, to which register 2 points, and this code on page 1, where it begins.
fn with_data_first(alloc: Global, code: &[Instr]) -> Result<Vec<u8>, Fail> {
    let code = write_and_exit(alloc, code)?;
    let parts = [
        segment(0, 6, b"", 512),
        segment(4096, 5, &code, code.len() as u64),
    ];
    image_with(alloc, 4096, &parts, &[])
}

#[test]
fn all_registers_but_the_second_are_null_at_the_start(rt: HostRuntime) -> Result<(), Fail> {
    // All are stored, each with 16 bytes, and printed.
    let mut code = Vec::new(rt.alloc());
    for n in 0..32_u8 {
        code.push(store(StoreOp::Csc, n, 2, i32::from(n).wrapping_mul(16)))?;
    }
    code.extend_from_slice(&[addi(10, 0, 1), cmove(11, 2), addi(12, 0, 512)])?;
    let file = with_data_first(rt.alloc(), &code)?;
    let mut out = Vec::new(rt.alloc());
    out.extend_from_slice(&[0; 32])?;
    let bits = 0x003c_0000_0400_4000_0000_0001_0000_0000_u128;
    out.extend_from_slice(&bits.to_le_bytes())?;
    out.resize(512, 0)?;
    check_file(&rt, "", &file, RUN, (0, &out, b"exit 1 0\ndone 39\n"))
}

#[test]
fn the_second_register_and_pcc_are_the_whole_region_at_the_start(
    rt: HostRuntime,
) -> Result<(), Fail> {
    // The row is asked of the register, and gives that. Register 7 is PCC at the entry, and 1 and 3 are null.
    let rows: [(OneOp, u8, u64); 18] = [
        (OneOp::CGetTag, 2, 1),
        (OneOp::CGetSealed, 2, 0),
        (OneOp::CGetPerm, 2, 0x3c),
        (OneOp::CGetBase, 2, 0x1_0000_0000),
        (OneOp::CGetLen, 2, 0x10_0000),
        (OneOp::CGetAddr, 2, 0x1_0000_0000),
        (OneOp::CGetOffset, 2, 0),
        (OneOp::CGetTag, 7, 1),
        (OneOp::CGetSealed, 7, 0),
        (OneOp::CGetPerm, 7, 0x16),
        (OneOp::CGetBase, 7, 0x1_0000_0000),
        (OneOp::CGetLen, 7, 0x10_0000),
        (OneOp::CGetAddr, 7, 0x1_0000_1000),
        (OneOp::CGetOffset, 7, 0x1000),
        (OneOp::CGetTag, 1, 0),
        (OneOp::CGetAddr, 1, 0),
        (OneOp::CGetTag, 3, 0),
        (OneOp::CGetAddr, 3, 0),
    ];
    let mut code = Vec::new(rt.alloc());
    let mut out = Vec::new(rt.alloc());
    code.push(auipcc(7, 0))?;
    for ((op, rs1, want), place) in rows.into_iter().zip((0..144_i32).step_by(8)) {
        code.push(one(op, 6, rs1))?;
        code.push(store(StoreOp::Sd, 6, 2, place))?;
        out.extend_from_slice(&want.to_le_bytes())?;
    }
    code.extend_from_slice(&[addi(10, 0, 1), cmove(11, 2), addi(12, 0, 144)])?;
    let file = with_data_first(rt.alloc(), &code)?;
    // 1 step, 18 times 2, 3, and 4.
    check_file(&rt, "", &file, RUN, (0, &out, b"exit 1 144\ndone 44\n"))
}

#[test]
fn the_bits_of_pcc_are_those_of_the_format(rt: HostRuntime) -> Result<(), Fail> {
    let code = [
        auipcc(7, 0),
        store(StoreOp::Csc, 7, 2, 0),
        addi(10, 0, 1),
        cmove(11, 2),
        addi(12, 0, 16),
    ];
    let file = with_data_first(rt.alloc(), &code)?;
    let bits = 0x0016_0000_0400_4000_0000_0001_0000_1000_u128;
    let out = bits.to_le_bytes();
    check_file(&rt, "", &file, RUN, (0, &out, b"exit 1 16\ndone 9\n"))
}

#[test]
fn the_flags_of_a_segment_are_the_rights_of_its_pages(rt: HostRuntime) -> Result<(), Fail> {
    let stores: &[Instr] = &[
        lui(5, 1),
        cincoffset(8, 2, 5),
        store(StoreOp::Sb, 0, 8, 12),
        addi(10, 0, 3),
        addi(17, 0, EXIT),
        Instr::Ecall,
    ];
    let jumps: &[Instr] = &[auipcc(7, 1), cjalr(0, 7, 0)];
    let nine = bytes_of(
        rt.alloc(),
        &[addi(10, 0, 9), addi(17, 0, EXIT), Instr::Ecall],
    )?;
    check_ends(
        &rt,
        &[
            (stores, segment(4096, 4, &nine, 12), b"exit 1 263\ndone 3\n"),
            (stores, segment(4096, 5, &nine, 12), b"exit 1 263\ndone 3\n"),
            (stores, segment(4096, 6, &nine, 12), b"exit 1 3\ndone 6\n"),
            (stores, segment(4096, 7, &nine, 12), b"exit 1 3\ndone 6\n"),
            (jumps, segment(4096, 4, &nine, 12), b"exit 1 267\ndone 3\n"),
            (jumps, segment(4096, 5, &nine, 12), b"exit 1 9\ndone 5\n"),
            (jumps, segment(4096, 6, &nine, 12), b"exit 1 267\ndone 3\n"),
            (jumps, segment(4096, 7, &nine, 12), b"exit 1 9\ndone 5\n"),
        ],
    )
}

#[test]
fn pages_between_segments_are_absent(rt: HostRuntime) -> Result<(), Fail> {
    // Page 1, where page 2 is there.
    let data = segment(8192, 7, b"", 1);
    check_ends(
        &rt,
        &[
            (
                &[lui(5, 1), cincoffset(8, 2, 5), load(LoadOp::Lbu, 6, 8, 0)],
                data,
                b"exit 1 262\ndone 3\n",
            ),
            (
                &[lui(5, 1), cincoffset(8, 2, 5), store(StoreOp::Sb, 0, 8, 0)],
                data,
                b"exit 1 262\ndone 3\n",
            ),
            (
                &[auipcc(7, 1), cjalr(0, 7, 0)],
                data,
                b"exit 1 267\ndone 3\n",
            ),
        ],
    )
}

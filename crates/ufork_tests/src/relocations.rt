// Runs of images with relocations: the capabilities that a guest finds in its pages.
use crate::files::{Part, image_with_code, relocation, segment};
use crate::instrs::{
    EXIT, addi, bytes_of, cincoffset, cincoffsetimm, cjalr, cmove, load, lui, one, store,
    write_and_exit,
};
use crate::runs::{RUN, check_file};
use elf_loader::Reloc;
use riscv_decode::{Instr, LoadOp, OneOp, StoreOp};
use std::process::Abort;
use std::test::Fail;

// The bytes of page 1: two granules for relocations, and a text at place 4128.
const TEXT: &[u8] = b"----------------++++++++++++++++hello";

// Page 1 as a segment that may be read and written.
const DATA: Part<'static> = Part {
    start: 4096,
    rights: 6,
    bytes: TEXT,
    size: 37,
};

// The same without the right to write.
const READ_ONLY: Part<'static> = Part { rights: 4, ..DATA };

// Page 1, relocations, what a guest does before it asks for a write, what is printed, and the two lines. Its status is the answer,
// modulo 256.
type Row<'a> = (
    Part<'static>,
    &'a [Reloc],
    &'a [Instr],
    &'static [u8],
    &'static [u8],
);

fn check_rows(rt: &(impl Abort + AllocGlobal), rows: &[Row<'_>]) -> Result<(), Fail> {
    for (number, (data, relocs, prepares, out, err)) in rows.iter().enumerate() {
        let case = format!(in rt.alloc(); "row {number}")?;
        let code = write_and_exit(rt.alloc(), prepares)?;
        let file = image_with_code(rt.alloc(), &code, &[*data], relocs)?;
        check_file(rt, case.as_str(), &file, RUN, (0, *out, *err))?;
    }
    Ok(())
}

fn clc(rd: u8, rs1: u8, imm: i32) -> Instr {
    load(LoadOp::Clc, rd, rs1, imm)
}

// Loads register 11 from page 1's first granule and counts so many bytes, in 5 steps.
fn by_the_first(count: i32) -> [Instr; 5] {
    [
        lui(5, 1),
        cincoffset(8, 2, 5),
        clc(11, 8, 0),
        addi(10, 0, 1),
        addi(12, 0, count),
    ]
}

#[test]
fn a_relocation_points_to_its_bytes_alone(rt: HostRuntime) -> Result<(), Fail> {
    let relocs = [relocation(4096, 4128, 5, 0)];
    check_rows(
        &rt,
        &[
            (
                DATA,
                &relocs,
                &by_the_first(5),
                b"hello",
                b"exit 1 5\ndone 9\n",
            ),
            (
                DATA,
                &relocs,
                &by_the_first(6),
                b"",
                b"exit 1 242\ndone 9\n",
            ),
            // Without it there are the file's bytes, which are no capability.
            (DATA, &[], &by_the_first(5), b"", b"exit 1 242\ndone 9\n"),
        ],
    )
}

#[test]
fn the_address_of_a_relocation_is_base_plus_offset(rt: HostRuntime) -> Result<(), Fail> {
    let third = [relocation(4096, 4128, 5, 2)];
    let end = [relocation(4096, 4128, 5, 5)];
    check_rows(
        &rt,
        &[
            (
                DATA,
                &third,
                &by_the_first(3),
                b"llo",
                b"exit 1 3\ndone 9\n",
            ),
            (DATA, &third, &by_the_first(4), b"", b"exit 1 242\ndone 9\n"),
            (DATA, &end, &by_the_first(0), b"", b"exit 1 0\ndone 9\n"),
            (DATA, &end, &by_the_first(1), b"", b"exit 1 242\ndone 9\n"),
        ],
    )
}

#[test]
fn a_relocation_has_its_permissions(rt: HostRuntime) -> Result<(), Fail> {
    // To load numbers, to store numbers, and none.
    let loads = [Reloc {
        perms: 4,
        ..relocation(4096, 4128, 5, 0)
    }];
    let stores = [Reloc {
        perms: 8,
        ..relocation(4096, 4128, 5, 0)
    }];
    let none = [Reloc {
        perms: 0,
        ..relocation(4096, 4128, 5, 0)
    }];
    check_rows(
        &rt,
        &[
            (
                DATA,
                &loads,
                &by_the_first(5),
                b"hello",
                b"exit 1 5\ndone 9\n",
            ),
            (
                DATA,
                &stores,
                &by_the_first(5),
                b"",
                b"exit 1 242\ndone 9\n",
            ),
            (DATA, &none, &by_the_first(5), b"", b"exit 1 242\ndone 9\n"),
        ],
    )
}

#[test]
fn a_relocation_replaces_its_granule_alone(rt: HostRuntime) -> Result<(), Fail> {
    // The second granule is printed as bytes, between the first and the text.
    let relocs = [relocation(4112, 4128, 5, 0)];
    let prints_all = [
        lui(5, 1),
        cincoffset(11, 2, 5),
        addi(10, 0, 1),
        addi(12, 0, 37),
    ];
    // Length 5 from 0x1_0000_1020 on: B is 0x1020 and T is 0x025.
    let out = b"----------------\x20\x10\0\0\x01\0\0\0\x20\x50\x09\0\0\0\x3c\0hello";
    check_rows(
        &rt,
        &[(DATA, &relocs, &prints_all, out, b"exit 1 37\ndone 8\n")],
    )
}

#[test]
fn a_relocation_may_be_in_the_tail_of_a_page(rt: HostRuntime) -> Result<(), Fail> {
    // The last granule of page 1, whose segment has 37 bytes.
    let relocs = [relocation(8176, 4128, 5, 0)];
    let prepares = [
        lui(5, 2),
        cincoffset(8, 2, 5),
        clc(11, 8, -16),
        addi(10, 0, 1),
        addi(12, 0, 5),
    ];
    check_rows(
        &rt,
        &[(DATA, &relocs, &prepares, b"hello", b"exit 1 5\ndone 9\n")],
    )
}

#[test]
fn a_relocation_may_be_on_a_page_that_is_not_written(rt: HostRuntime) -> Result<(), Fail> {
    let on_data = [relocation(4096, 4128, 5, 0)];
    let on_code = [relocation(64, 4128, 5, 0)];
    let by_code = [clc(11, 2, 64), addi(10, 0, 1), addi(12, 0, 5)];
    check_rows(
        &rt,
        &[
            (
                READ_ONLY,
                &on_data,
                &by_the_first(5),
                b"hello",
                b"exit 1 5\ndone 9\n",
            ),
            (
                READ_ONLY,
                &on_code,
                &by_code,
                b"hello",
                b"exit 1 5\ndone 7\n",
            ),
        ],
    )
}

#[test]
fn relocations_lead_to_one_another(rt: HostRuntime) -> Result<(), Fail> {
    // The first one points to the second, and that to the text.
    let relocs = [relocation(4096, 4112, 16, 0), relocation(4112, 4128, 5, 0)];
    let prepares = [
        lui(5, 1),
        cincoffset(8, 2, 5),
        clc(8, 8, 0),
        clc(11, 8, 0),
        addi(10, 0, 1),
        addi(12, 0, 5),
    ];
    check_rows(
        &rt,
        &[(DATA, &relocs, &prepares, b"hello", b"exit 1 5\ndone 10\n")],
    )
}

#[test]
fn empty_bounds_at_the_end_of_the_region_are_kept(rt: HostRuntime) -> Result<(), Fail> {
    // The granule is printed, and behind it its tag and its length.
    let relocs = [relocation(4096, 1048576, 0, 0)];
    let prepares = [
        lui(5, 1),
        cincoffset(8, 2, 5),
        clc(7, 8, 0),
        one(OneOp::CGetTag, 6, 7),
        store(StoreOp::Sb, 6, 8, 16),
        one(OneOp::CGetLen, 6, 7),
        store(StoreOp::Sb, 6, 8, 17),
        cmove(11, 8),
        addi(10, 0, 1),
        addi(12, 0, 18),
    ];
    let out = b"\0\0\x10\0\x01\0\0\0\0\0\0\0\0\0\x3c\0\x01\0";
    check_rows(
        &rt,
        &[(DATA, &relocs, &prepares, out, b"exit 1 18\ndone 14\n")],
    )
}

#[test]
fn fields_of_a_relocation_are_those_of_the_table(rt: HostRuntime) -> Result<(), Fail> {
    // Tag, kind, permissions, the low bytes of base, length and address, and the offset, as bytes behind the first granule.
    let rows = [
        (OneOp::CGetTag, 1),
        (OneOp::CGetSealed, 0),
        (OneOp::CGetPerm, 0x2e),
        (OneOp::CGetBase, 0x30),
        (OneOp::CGetLen, 0x70),
        (OneOp::CGetAddr, 0x77),
        (OneOp::CGetOffset, 0x47),
    ];
    let relocs = [Reloc {
        perms: 0x2e,
        ..relocation(4096, 0x3030, 0x70, 0x47)
    }];
    let mut prepares = Vec::new(rt.alloc());
    let mut out = Vec::new(rt.alloc());
    prepares.extend_from_slice(&[lui(5, 1), cincoffset(8, 2, 5), clc(7, 8, 0)])?;
    for ((op, byte), place) in rows.into_iter().zip(16..23) {
        prepares.push(one(op, 6, 7))?;
        prepares.push(store(StoreOp::Sb, 6, 8, place))?;
        out.push(byte)?;
    }
    prepares.extend_from_slice(&[cincoffsetimm(11, 8, 16), addi(10, 0, 1), addi(12, 0, 7)])?;
    let code = write_and_exit(rt.alloc(), &prepares)?;
    let file = image_with_code(rt.alloc(), &code, &[DATA], &relocs)?;
    check_file(&rt, "", &file, RUN, (0, &out, b"exit 1 7\ndone 24\n"))
}

#[test]
fn a_relocation_for_code_is_jumped_through(rt: HostRuntime) -> Result<(), Fail> {
    // Register 7 leads to the sixth instruction, past a word that ends the process.
    let code = bytes_of(
        rt.alloc(),
        &[
            lui(5, 1),
            cincoffset(8, 2, 5),
            clc(7, 8, 0),
            cjalr(0, 7, 0),
            Instr::Ebreak,
            addi(10, 0, 7),
            addi(17, 0, EXIT),
            Instr::Ecall,
        ],
    )?;
    let relocs = [Reloc {
        perms: 0x16,
        ..relocation(4096, 0, 4096, 20)
    }];
    let file = image_with_code(rt.alloc(), &code, &[DATA], &relocs)?;
    check_file(&rt, "", &file, RUN, (0, b"", b"exit 1 7\ndone 7\n"))
}

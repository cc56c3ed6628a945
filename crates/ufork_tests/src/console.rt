// The calls exit and write of whole guests: what they answer and print.
use crate::instrs::{
    EXIT, WRITE, addi, auipcc, bytes_of, candperm, cincoffset, cincoffsetimm, cjal, cmove,
    csealentry, lui, slli, srli, write_and_exit,
};
use crate::runs::check_done;
use riscv_decode::Instr;
use std::process::Abort;
use std::test::Fail;

// What a guest does before it asks for a write, what is printed, and the two lines. Its status is the answer, modulo 256.
type Row<'a> = (&'a [Instr], &'static [u8], &'static [u8]);

fn check_writes(rt: &(impl Abort + AllocGlobal), rows: &[Row<'_>]) -> Result<(), Fail> {
    for (prepares, out, err) in rows {
        check_done(rt, &write_and_exit(rt.alloc(), prepares)?, out, err)?;
    }
    Ok(())
}

#[test]
fn a_write_at_an_absent_page_is_refused(rt: HostRuntime) -> Result<(), Fail> {
    check_writes(
        &rt,
        &[
            // One byte of page 1, and one of page 0 with one of page 1.
            (
                &[
                    addi(10, 0, 1),
                    lui(5, 1),
                    cincoffset(11, 2, 5),
                    addi(12, 0, 1),
                ],
                b"",
                b"exit 1 242\ndone 8\n",
            ),
            (
                &[
                    addi(10, 0, 1),
                    lui(5, 1),
                    addi(5, 5, -1),
                    cincoffset(11, 2, 5),
                    addi(12, 0, 2),
                ],
                b"",
                b"exit 1 242\ndone 9\n",
            ),
        ],
    )
}

#[test]
fn the_last_byte_of_the_page_is_printed(rt: HostRuntime) -> Result<(), Fail> {
    check_writes(
        &rt,
        &[(
            &[
                addi(10, 0, 1),
                lui(5, 1),
                addi(5, 5, -1),
                cincoffset(11, 2, 5),
                addi(12, 0, 1),
            ],
            b"\0",
            b"exit 1 1\ndone 9\n",
        )],
    )
}

#[test]
fn a_write_of_no_bytes_needs_no_authority(rt: HostRuntime) -> Result<(), Fail> {
    check_writes(
        &rt,
        &[
            (
                &[addi(10, 0, 1), addi(12, 0, 0)],
                b"",
                b"exit 1 0\ndone 6\n",
            ),
            (
                &[addi(10, 0, 1), addi(12, 0, 1)],
                b"",
                b"exit 1 242\ndone 6\n",
            ),
        ],
    )
}

#[test]
fn a_descriptor_that_is_not_the_output_is_refused(rt: HostRuntime) -> Result<(), Fail> {
    check_writes(
        &rt,
        &[
            (
                &[addi(10, 0, 0), cmove(11, 2), addi(12, 0, 1)],
                b"",
                b"exit 1 247\ndone 7\n",
            ),
            (
                &[addi(10, 0, 2), cmove(11, 2), addi(12, 0, 1)],
                b"",
                b"exit 1 247\ndone 7\n",
            ),
            // It comes before a count of 0 and before a missing authority.
            (
                &[addi(10, 0, 2), addi(12, 0, 0)],
                b"",
                b"exit 1 247\ndone 6\n",
            ),
            (
                &[addi(10, 0, 0), addi(12, 0, 1)],
                b"",
                b"exit 1 247\ndone 6\n",
            ),
            // 2^32 + 1
            (
                &[
                    addi(10, 0, 1),
                    slli(10, 10, 32),
                    addi(10, 10, 1),
                    cmove(11, 2),
                    addi(12, 0, 1),
                ],
                b"",
                b"exit 1 247\ndone 9\n",
            ),
        ],
    )
}

#[test]
fn other_calls_are_refused(rt: HostRuntime) -> Result<(), Fail> {
    for number in [-1, 0, 6, 9, 10, 11, 13, 99] {
        let code = [
            addi(17, 0, number),
            Instr::Ecall,
            addi(17, 0, EXIT),
            Instr::Ecall,
        ];
        let page = bytes_of(rt.alloc(), &code)?;
        check_done(&rt, &page, b"", b"exit 1 218\ndone 4\n")?;
    }
    Ok(())
}

#[test]
fn an_exit_has_the_low_8_bits_of_its_status(rt: HostRuntime) -> Result<(), Fail> {
    let rows: [(i32, &'static [u8]); 4] = [
        (255, b"exit 1 255\ndone 3\n"),
        (256, b"exit 1 0\ndone 3\n"),
        (300, b"exit 1 44\ndone 3\n"),
        (-1, b"exit 1 255\ndone 3\n"),
    ];
    for (status, err) in rows {
        let code = [addi(10, 0, status), addi(17, 0, EXIT), Instr::Ecall];
        check_done(&rt, &bytes_of(rt.alloc(), &code)?, b"", err)?;
    }
    Ok(())
}

#[test]
fn a_write_of_a_whole_page_is_one_piece(rt: HostRuntime) -> Result<(), Fail> {
    // The status is the answer divided by 32.
    let code = [
        addi(10, 0, 1),
        cmove(11, 2),
        lui(12, 1),
        addi(17, 0, WRITE),
        Instr::Ecall,
        srli(10, 10, 5),
        addi(17, 0, EXIT),
        Instr::Ecall,
    ];
    let mut page = bytes_of(rt.alloc(), &code)?;
    for place in 32..4096_u32 {
        page.push((place % 251) as u8)?;
    }
    check_done(&rt, &page, &page, b"exit 1 128\ndone 8\n")
}

#[test]
fn a_write_of_more_than_the_page_is_refused(rt: HostRuntime) -> Result<(), Fail> {
    check_writes(
        &rt,
        &[
            (
                &[addi(10, 0, 1), cmove(11, 2), lui(12, 1), addi(12, 12, 1)],
                b"",
                b"exit 1 242\ndone 8\n",
            ),
            // 2^64 - 1
            (
                &[addi(10, 0, 1), cmove(11, 2), addi(12, 0, -1)],
                b"",
                b"exit 1 242\ndone 7\n",
            ),
        ],
    )
}

#[test]
fn a_write_before_the_bounds_is_refused(rt: HostRuntime) -> Result<(), Fail> {
    check_writes(
        &rt,
        &[(
            &[addi(10, 0, 1), cincoffsetimm(11, 2, -1), addi(12, 0, 2)],
            b"",
            b"exit 1 242\ndone 7\n",
        )],
    )
}

#[test]
fn a_sealed_entry_is_no_authority_for_a_write(rt: HostRuntime) -> Result<(), Fail> {
    check_writes(
        &rt,
        &[
            (
                &[
                    auipcc(11, 0),
                    csealentry(11, 11),
                    addi(10, 0, 1),
                    addi(12, 0, 1),
                ],
                b"",
                b"exit 1 242\ndone 8\n",
            ),
            // The way back of a jump to the next instruction.
            (
                &[cjal(11, 4), addi(10, 0, 1), addi(12, 0, 1)],
                b"",
                b"exit 1 242\ndone 7\n",
            ),
            // Without the seal the first byte of the word 00000597 is printed.
            (
                &[auipcc(11, 0), addi(10, 0, 1), addi(12, 0, 1)],
                b"\x97",
                b"exit 1 1\ndone 7\n",
            ),
        ],
    )
}

#[test]
fn a_write_asks_for_the_permission_to_load(rt: HostRuntime) -> Result<(), Fail> {
    check_writes(
        &rt,
        &[
            // All permissions of register 2 but to load.
            (
                &[
                    addi(10, 0, 1),
                    addi(5, 0, 0x38),
                    candperm(11, 2, 5),
                    addi(12, 0, 1),
                ],
                b"",
                b"exit 1 242\ndone 8\n",
            ),
            // To load alone: the first byte of the word 00100513.
            (
                &[
                    addi(10, 0, 1),
                    addi(5, 0, 4),
                    candperm(11, 2, 5),
                    addi(12, 0, 1),
                ],
                b"\x13",
                b"exit 1 1\ndone 8\n",
            ),
        ],
    )
}

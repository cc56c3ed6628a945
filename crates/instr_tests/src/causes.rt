// The causes of faults: each once, and which comes where two tests fail. A fault changes nothing.
use crate::caps::{CODE, DATA, LOADED, NUMBERS, STORED, WHOLE, at, bare, int, sealed, tagged};
use crate::guests::{Guest, changes};
use cap_format::Cap;
use cheri_step::{StepEnd, Stepped};
use machine_types::Cause;
use riscv_decode::{BranchOp, Instr, LoadOp, StoreOp};
use std::alloc::Global;
use std::process::Abort;
use std::test::Fail;

// One instruction, PCC, the registers 10 and 11, and the number of the cause.
type Row = (Instr, Cap, Cap, Cap, u32);

// How the instruction ends. Registers, PCC and memory are as before.
fn unchanged(alloc: Global, code: &[Instr], pcc: Cap, a: Cap, b: Cap) -> Result<Stepped, Fail> {
    let mut guest = Guest::new(alloc, code, pcc, &[(10, a), (11, b), (12, int(12))])?;
    let (registers, memory) = (guest.registers(alloc)?, guest.memory(alloc)?);
    let stepped = guest.step();
    if guest.pcc() != pcc {
        return Err(Fail::from("PCC changed"));
    }
    if changes(&registers, &guest.registers(alloc)?) != 0 {
        return Err(Fail::from("a register changed"));
    }
    if changes(&memory, &guest.memory(alloc)?) != 0 {
        return Err(Fail::from("memory changed"));
    }
    Ok(stepped)
}

// The number of the cause of an end, and 0 where it is no fault.
fn cause_of(end: StepEnd) -> u32 {
    match end {
        StepEnd::Fault(cause) => cause.number(),
        _ => 0,
    }
}

// Each is a fault of its cause, and its word is fetched.
fn check(rt: &(impl Abort + AllocGlobal), rows: &[Row]) -> Result<(), Fail> {
    for &(instr, pcc, a, b, cause) in rows {
        let stepped = unchanged(rt.alloc(), &[instr], pcc, a, b)?;
        assert_eq!(rt;
            cause_of(stepped.end),
            cause,
            "{instr:?} at {pcc:?} with {a:?} and {b:?}"
        );
        assert!(rt; stepped.word.is_some(), "{instr:?}");
    }
    Ok(())
}

// Each has no word, and is a fault of its cause.
fn check_unfetched(rt: &(impl Abort + AllocGlobal), rows: &[(Cap, u32)]) -> Result<(), Fail> {
    for &(pcc, cause) in rows {
        let stepped = unchanged(
            rt.alloc(),
            &[Instr::Fence; 2],
            pcc,
            Cap::null(),
            Cap::null(),
        )?;
        assert_eq!(rt; cause_of(stepped.end), cause, "at {pcc:?}");
        assert_eq!(rt; stepped.word, None, "at {pcc:?}");
    }
    Ok(())
}

// A load of four bytes by register 10.
fn lw(imm: i32) -> Instr {
    Instr::Load {
        op: LoadOp::Lw,
        rd: 12,
        rs1: 10,
        imm,
    }
}

// A load of a capability by register 10.
fn clc(imm: i32) -> Instr {
    Instr::Load {
        op: LoadOp::Clc,
        rd: 12,
        rs1: 10,
        imm,
    }
}

// A store of four bytes of register 11 by register 10.
fn sw(imm: i32) -> Instr {
    Instr::Store {
        op: StoreOp::Sw,
        rs1: 10,
        rs2: 11,
        imm,
    }
}

// A store of register 11 by register 10.
fn csc(imm: i32) -> Instr {
    Instr::Store {
        op: StoreOp::Csc,
        rs1: 10,
        rs2: 11,
        imm,
    }
}

fn cjal(imm: i32) -> Instr {
    Instr::Jal { rd: 12, imm }
}

fn cjalr(imm: i32) -> Instr {
    Instr::Jalr {
        rd: 12,
        rs1: 10,
        imm,
    }
}

// A branch on equal registers 10 and 11.
fn beq(imm: i32) -> Instr {
    Instr::Branch {
        op: BranchOp::Beq,
        rs1: 10,
        rs2: 11,
        imm,
    }
}

// PCC with the bounds of the first 256 bytes of the region, at their start.
const SHORT: Cap = Cap {
    bits: 0x0016_0000_0040_0000_0000_0001_0000_0000,
    tag: true,
};

// PCC with the bounds of the first 8 bytes of the region, at their end.
const ENDED: Cap = Cap {
    bits: 0x0016_0000_0002_0000_0000_0001_0000_0008,
    tag: true,
};

// PCC with the bounds of page 3, at their end, where page 4 is absent.
const ABSENT: Cap = Cap {
    bits: 0x0016_0000_0400_3000_0000_0001_0000_4000,
    tag: true,
};

#[test]
fn loads_end_by_each_of_their_causes(rt: HostRuntime) -> Result<(), Fail> {
    let null = Cap::null();
    check(
        &rt,
        &[
            (lw(0), CODE, bare(DATA), null, 1),
            (lw(0), CODE, sealed(DATA), null, 2),
            (lw(0), CODE, STORED, null, 3),
            (clc(0), CODE, STORED, null, 3),
            (lw(0x100), CODE, DATA, null, 4),
            (lw(-4), CODE, DATA, null, 4),
            (clc(0x100), CODE, DATA, null, 4),
            (lw(2), CODE, DATA, null, 5),
            (clc(8), CODE, DATA, null, 5),
            (lw(0), CODE, at(WHOLE, 0x4000), null, 6),
            (clc(0), CODE, at(WHOLE, 0x4000), null, 6),
            (lw(0), CODE, at(WHOLE, 0x3000), null, 7),
            (clc(0), CODE, at(WHOLE, 0x3000), null, 7),
            (lw(0), CODE, WHOLE, null, 7),
        ],
    )
}

#[test]
fn stores_end_by_each_of_their_causes(rt: HostRuntime) -> Result<(), Fail> {
    let null = Cap::null();
    check(
        &rt,
        &[
            (sw(0), CODE, bare(DATA), null, 1),
            (sw(0), CODE, sealed(DATA), null, 2),
            (sw(0), CODE, LOADED, null, 3),
            (csc(0), CODE, LOADED, null, 3),
            (csc(0), CODE, NUMBERS, DATA, 3),
            (sw(0xfd), CODE, DATA, null, 4),
            (csc(-16), CODE, DATA, DATA, 4),
            (sw(6), CODE, DATA, null, 5),
            (csc(24), CODE, DATA, DATA, 5),
            (sw(0), CODE, at(WHOLE, 0xf_f000), null, 6),
            (csc(0), CODE, at(WHOLE, 0x4000), DATA, 6),
            (sw(0), CODE, at(WHOLE, 0x2000), null, 7),
            (csc(0), CODE, at(WHOLE, 0x2000), DATA, 7),
        ],
    )
}

#[test]
fn jumps_end_by_each_of_their_causes(rt: HostRuntime) -> Result<(), Fail> {
    let null = Cap::null();
    let entry = sealed(at(CODE, 8));
    let other = tagged(at(CODE, 8).bits | 2 << 91);
    check(
        &rt,
        &[
            (cjalr(0), CODE, bare(CODE), null, 1),
            (cjalr(0), CODE, int(0x1_0000_0000), null, 1),
            (cjalr(4), CODE, entry, null, 2),
            (cjalr(0), CODE, other, null, 2),
            (cjalr(0), CODE, DATA, null, 3),
            (cjalr(2), CODE, CODE, null, 5),
            (cjal(2), CODE, null, null, 5),
            (beq(-2), CODE, null, null, 5),
            (cjalr(0x100), CODE, SHORT, null, 10),
            (cjalr(-4), CODE, CODE, null, 10),
            (cjal(0x100), SHORT, null, null, 10),
            (beq(-4), CODE, null, null, 10),
        ],
    )
}

#[test]
fn a_jump_may_go_to_the_last_word_of_the_bounds(rt: HostRuntime) -> Result<(), Fail> {
    let mut guest = Guest::new(rt.alloc(), &[cjal(0xfc)], SHORT, &[])?;
    assert!(rt; guest.step().end == StepEnd::Next);
    assert_eq!(rt; guest.pcc(), at(SHORT, 0xfc));
    Ok(())
}

#[test]
fn breakpoints_and_other_words_end_the_process(rt: HostRuntime) -> Result<(), Fail> {
    let null = Cap::null();
    check(&rt, &[(Instr::Ebreak, CODE, null, null, 9)])?;
    let stepped = unchanged(rt.alloc(), &[], CODE, null, null)?;
    assert!(rt; stepped.end == StepEnd::Fault(Cause::BadInstruction));
    assert_eq!(rt; cause_of(stepped.end), 8);
    assert_eq!(rt; stepped.word, Some(0));
    Ok(())
}

#[test]
fn a_fetch_ends_by_its_causes(rt: HostRuntime) -> Result<(), Fail> {
    check_unfetched(
        &rt,
        &[
            (ENDED, 10),
            (at(CODE, 0x10_0000), 10),
            // An absent page, and pages that may not be fetched.
            (at(CODE, 0x4000), 11),
            (at(CODE, 0x1000), 11),
            (at(CODE, 0x2000), 11),
            (at(CODE, 0x3000), 11),
        ],
    )
}

#[test]
fn a_call_changes_nothing(rt: HostRuntime) -> Result<(), Fail> {
    let stepped = unchanged(rt.alloc(), &[Instr::Ecall], CODE, DATA, CODE)?;
    assert!(rt; stepped.end == StepEnd::Call);
    assert_eq!(rt; stepped.word, Some(0x73));
    Ok(())
}

#[test]
fn the_first_test_of_an_access_that_fails_gives_the_cause(rt: HostRuntime) -> Result<(), Fail> {
    let null = Cap::null();
    check(
        &rt,
        &[
            // No tag, and sealed; no tag, and out of bounds.
            (lw(0), CODE, bare(sealed(DATA)), null, 1),
            (lw(0x100), CODE, bare(DATA), null, 1),
            // Sealed, and without the permission; sealed, and out of bounds.
            (lw(0), CODE, sealed(STORED), null, 2),
            (sw(0x100), CODE, sealed(DATA), null, 2),
            // Without a permission, and out of bounds; and without the page.
            (csc(0x100), CODE, NUMBERS, DATA, 3),
            (lw(0x100), CODE, STORED, null, 3),
            (sw(0), CODE, at(CODE, 0x4000), null, 3),
            // Out of bounds, and misaligned; out of bounds, and no page.
            (lw(0xfe), CODE, DATA, null, 4),
            (csc(0xf8), CODE, DATA, DATA, 4),
            (lw(0), CODE, at(WHOLE, 0x10_0000), null, 4),
            // Misaligned, and no page; misaligned, and without the right.
            (lw(2), CODE, at(WHOLE, 0x4000), null, 5),
            (sw(1), CODE, at(WHOLE, 0x2000), null, 5),
            // No page, so no right either; the page without the right.
            (sw(0), CODE, at(WHOLE, 0x5000), null, 6),
            (sw(0), CODE, at(WHOLE, 0x2000), null, 7),
        ],
    )
}

#[test]
fn the_first_test_of_a_jump_that_fails_gives_the_cause(rt: HostRuntime) -> Result<(), Fail> {
    let null = Cap::null();
    check(
        &rt,
        &[
            // No tag, sealed, and not executable.
            (cjalr(4), CODE, bare(sealed(DATA)), null, 1),
            // Sealed with an immediate, and not executable.
            (cjalr(4), CODE, sealed(DATA), null, 2),
            // A sealed entry that is not executable.
            (cjalr(0), CODE, sealed(DATA), null, 3),
            // Not executable, and misaligned; and out of bounds.
            (cjalr(2), CODE, DATA, null, 3),
            (cjalr(0x100), CODE, DATA, null, 3),
            // Misaligned, and out of bounds.
            (cjalr(0x102), CODE, SHORT, null, 5),
            (cjal(0x102), SHORT, null, null, 5),
            (beq(-2), SHORT, null, null, 5),
            // A target within the bounds on an absent page is no fault of the jump, but one outside them is.
            (cjal(0x100), SHORT, null, null, 10),
        ],
    )
}

#[test]
fn a_jump_to_an_absent_page_is_a_fault_of_the_fetch(rt: HostRuntime) -> Result<(), Fail> {
    let mut guest = Guest::new(rt.alloc(), &[cjal(0x4000)], CODE, &[])?;
    assert!(rt; guest.step().end == StepEnd::Next);
    assert_eq!(rt; guest.pcc(), at(CODE, 0x4000));
    assert_eq!(rt; cause_of(guest.step().end), 11);
    assert_eq!(rt; guest.pcc(), at(CODE, 0x4000));
    Ok(())
}

#[test]
fn the_first_test_of_a_fetch_that_fails_gives_the_cause(rt: HostRuntime) -> Result<(), Fail> {
    // Out of the bounds and at an absent page; on a page without the right, where no instruction stands.
    check_unfetched(&rt, &[(ABSENT, 10), (at(CODE, 0x1000), 11)])
}

// What the rows without a load, a store or a jump give.
use crate::caps::{
    CODE, DATA, LOADED, NUMBERS, START, WHOLE, at, bare, int, sealed, tagged, untagged,
};
use crate::guests::Guest;
use cap_format::Cap;
use cheri_step::StepEnd;
use machine_types::Touched;
use riscv_decode::{ImmOp, Instr, OneOp, RegOp, UpperOp};
use std::alloc::Global;
use std::process::Abort;
use std::test::Fail;

// An instruction, the registers 10 and 11 before it, and register 12 after it.
type Row = (Instr, Cap, Cap, Cap);

fn reg(op: RegOp) -> Instr {
    Instr::Reg {
        op,
        rd: 12,
        rs1: 10,
        rs2: 11,
    }
}

fn imm(op: ImmOp, imm: i32) -> Instr {
    Instr::Imm {
        op,
        rd: 12,
        rs1: 10,
        imm,
    }
}

fn one(op: OneOp) -> Instr {
    Instr::One {
        op,
        rd: 12,
        rs1: 10,
    }
}

fn upper(op: UpperOp, imm: u32) -> Instr {
    Instr::Upper { op, rd: 12, imm }
}

// Register 12 after an instruction that is done, which touches no page and goes on to the next.
fn given(alloc: Global, instr: Instr, a: Cap, b: Cap) -> Result<Cap, Fail> {
    let mut guest = Guest::new(alloc, &[instr], CODE, &[(10, a), (11, b)])?;
    let stepped = guest.step();
    if stepped.end != StepEnd::Next
        || stepped.fetched.touched != Touched::No
        || stepped.touched.touched != Touched::No
        || guest.pcc() != at(CODE, 4)
    {
        return Err(Fail::from("not done"));
    }
    Ok(guest.reg(12))
}

fn check(rt: &(impl Abort + AllocGlobal), rows: &[Row]) -> Result<(), Fail> {
    for &(instr, a, b, want) in rows {
        assert_eq!(rt;
            given(rt.alloc(), instr, a, b)?,
            want,
            "{instr:?} of {a:?} and {b:?}"
        );
    }
    Ok(())
}

#[test]
fn integer_rows_give_integers_of_addresses(rt: HostRuntime) -> Result<(), Fail> {
    let minus = int(0xffff_ffff_ffff_fff9);
    let null = Cap::null();
    check(
        &rt,
        &[
            (reg(RegOp::Add), DATA, int(5), int(0x1_0000_1005)),
            (reg(RegOp::Sub), int(3), int(5), int(0xffff_ffff_ffff_fffe)),
            (reg(RegOp::Mulhu), minus, int(16), int(15)),
            (reg(RegOp::Div), minus, int(2), int(0xffff_ffff_ffff_fffd)),
            (reg(RegOp::Remu), int(7), int(0), int(7)),
            (
                reg(RegOp::Addw),
                int(0x7fff_ffff),
                int(1),
                int(0xffff_ffff_8000_0000),
            ),
            (
                imm(ImmOp::Addi, -1),
                int(0),
                null,
                int(0xffff_ffff_ffff_ffff),
            ),
            (imm(ImmOp::Andi, 0x7f0), DATA, null, int(0)),
            (imm(ImmOp::Srai, 4), minus, null, int(0xffff_ffff_ffff_ffff)),
            (
                imm(ImmOp::Slliw, 31),
                int(1),
                null,
                int(0xffff_ffff_8000_0000),
            ),
            (Instr::Fence, DATA, null, null),
        ],
    )
}

#[test]
fn upper_rows_give_integers_and_places_of_pcc(rt: HostRuntime) -> Result<(), Fail> {
    let null = Cap::null();
    check(
        &rt,
        &[
            (upper(UpperOp::Lui, 0x12345), null, null, int(0x1234_5000)),
            (
                upper(UpperOp::Lui, 0x80000),
                null,
                null,
                int(0xffff_ffff_8000_0000),
            ),
            (upper(UpperOp::Auipcc, 1), null, null, at(CODE, 0x1000)),
            (
                upper(UpperOp::Auipcc, 0x100),
                null,
                null,
                at(CODE, 0x10_0000),
            ),
            // Outside the bounds, but near enough.
            (
                upper(UpperOp::Auipcc, 0xfffff),
                null,
                null,
                tagged(0x0016_0000_0400_4000_0000_0000_ffff_f000),
            ),
            // Too far outside the bounds.
            (
                upper(UpperOp::Auipcc, 0x400),
                null,
                null,
                untagged(0x0016_0000_0400_4000_0000_0001_0040_0000),
            ),
            (
                upper(UpperOp::Auipcc, 0x80000),
                null,
                null,
                untagged(0x0016_0000_0400_4000_0000_0000_8000_0000),
            ),
        ],
    )
}

#[test]
fn addresses_move_and_tags_stay_where_bounds_do(rt: HostRuntime) -> Result<(), Fail> {
    let offset = reg(RegOp::CIncOffset);
    let address = reg(RegOp::CSetAddr);
    let null = Cap::null();
    let entry = sealed(at(CODE, 8));
    check(
        &rt,
        &[
            (offset, DATA, int(0x20), at(DATA, 0x1020)),
            (offset, DATA, int(0x100), at(DATA, 0x1100)),
            (offset, DATA, int(0xffff_ffff_ffff_ffff), at(DATA, 0xfff)),
            (offset, DATA, int(0x10_0000), bare(at(DATA, 0x10_1000))),
            (offset, entry, int(4), bare(sealed(at(CODE, 12)))),
            (offset, int(7), DATA, int(0x1_0000_1007)),
            (imm(ImmOp::CIncOffsetImm, -16), DATA, null, at(DATA, 0xff0)),
            (
                imm(ImmOp::CIncOffsetImm, 2047),
                DATA,
                null,
                at(DATA, 0x17ff),
            ),
            (
                imm(ImmOp::CIncOffsetImm, -8),
                bare(DATA),
                null,
                bare(at(DATA, 0xff8)),
            ),
            (address, DATA, int(0x1_0000_10ff), at(DATA, 0x10ff)),
            (address, DATA, WHOLE, bare(at(DATA, 0))),
            (
                address,
                DATA,
                int(0),
                untagged(0x003c_0000_0040_1000_0000_0000_0000_0000),
            ),
            (address, entry, int(START), bare(sealed(CODE))),
        ],
    )
}

#[test]
fn bounds_are_set_within_the_old_ones(rt: HostRuntime) -> Result<(), Fail> {
    let bounds = reg(RegOp::CSetBounds);
    let exact = reg(RegOp::CSetBoundsExact);
    let short = tagged(0x003c_0000_0010_1000_0000_0001_0000_1000);
    let long = untagged(0x003c_0000_0040_5000_0000_0001_0000_1000);
    // 0x1001 bytes from 4 on are rounded to those from 0 to 0x1008.
    let rounded = 0x003e_0000_0402_0000_0000_0001_0000_0004;
    let whole = at(WHOLE, 4);
    let null = Cap::null();
    let entry = sealed(at(CODE, 8));
    check(
        &rt,
        &[
            (bounds, DATA, int(0x40), short),
            (bounds, DATA, int(0x101), long),
            (bounds, whole, int(0x1001), tagged(rounded)),
            (
                bounds,
                WHOLE,
                int(0x2000),
                tagged(0x003e_0000_0400_0001_0000_0001_0000_0000),
            ),
            (
                bounds,
                entry,
                int(4),
                untagged(0x0016_0000_0803_0008_0000_0001_0000_0008),
            ),
            (bounds, bare(DATA), int(0x40), bare(short)),
            (exact, DATA, int(0x40), short),
            (exact, DATA, int(0x101), long),
            (exact, whole, int(0x1001), untagged(rounded)),
            (
                exact,
                WHOLE,
                int(0x2000),
                tagged(0x003e_0000_0400_0001_0000_0001_0000_0000),
            ),
            (
                exact,
                WHOLE,
                int(0x12345),
                untagged(0x003e_0000_048e_0004_0000_0001_0000_0000),
            ),
            (
                imm(ImmOp::CSetBoundsImm, 16),
                DATA,
                null,
                tagged(0x003c_0000_0004_1000_0000_0001_0000_1000),
            ),
            (
                imm(ImmOp::CSetBoundsImm, 4095),
                DATA,
                null,
                untagged(0x003c_0000_03ff_d000_0000_0001_0000_1000),
            ),
        ],
    )
}

#[test]
fn permissions_are_taken_by_the_low_16_bits(rt: HostRuntime) -> Result<(), Fail> {
    let perms = reg(RegOp::CAndPerm);
    let entry = sealed(at(CODE, 8));
    check(
        &rt,
        &[
            (
                perms,
                DATA,
                int(0xffff_0014),
                tagged(0x0014_0000_0040_1000_0000_0001_0000_1000),
            ),
            (perms, DATA, int(0xc), NUMBERS),
            (perms, DATA, int(0xffff), DATA),
            (perms, entry, int(0xffff), bare(entry)),
            (perms, bare(DATA), int(0xc), bare(NUMBERS)),
        ],
    )
}

#[test]
fn capabilities_are_compared(rt: HostRuntime) -> Result<(), Fail> {
    let less = reg(RegOp::CSub);
    let subset = reg(RegOp::CTestSubset);
    let same = reg(RegOp::CSeqx);
    check(
        &rt,
        &[
            (less, at(DATA, 0x1020), DATA, int(0x20)),
            (less, DATA, at(DATA, 0x1020), int(0xffff_ffff_ffff_ffe0)),
            (subset, WHOLE, DATA, int(1)),
            (subset, DATA, at(DATA, 0x1020), int(1)),
            (subset, DATA, WHOLE, int(0)),
            (subset, CODE, DATA, int(0)),
            (subset, NUMBERS, DATA, int(0)),
            (subset, DATA, NUMBERS, int(1)),
            (subset, bare(WHOLE), DATA, int(0)),
            (subset, WHOLE, bare(DATA), int(0)),
            (same, DATA, DATA, int(1)),
            (same, DATA, bare(DATA), int(0)),
            (same, bare(DATA), bare(DATA), int(1)),
            (same, DATA, NUMBERS, int(0)),
            (same, DATA, at(DATA, 0x1001), int(0)),
        ],
    )
}

#[test]
fn fields_of_a_capability_are_shown(rt: HostRuntime) -> Result<(), Fail> {
    let null = Cap::null();
    let entry = sealed(at(CODE, 8));
    let middle = at(DATA, 0x1020);
    check(
        &rt,
        &[
            (one(OneOp::CGetPerm), DATA, null, int(0x3c)),
            (one(OneOp::CGetPerm), bare(CODE), null, int(0x16)),
            (one(OneOp::CGetBase), middle, null, int(0x1_0000_1000)),
            (one(OneOp::CGetBase), bare(middle), null, int(0)),
            (one(OneOp::CGetLen), middle, null, int(0x100)),
            (one(OneOp::CGetLen), WHOLE, null, int(0x10_0000)),
            (one(OneOp::CGetLen), bare(middle), null, int(0)),
            (one(OneOp::CGetTag), DATA, null, int(1)),
            (one(OneOp::CGetTag), bare(DATA), null, int(0)),
            (one(OneOp::CGetSealed), entry, null, int(1)),
            (one(OneOp::CGetSealed), DATA, null, int(0)),
            (one(OneOp::CGetOffset), middle, null, int(0x20)),
            (
                one(OneOp::CGetOffset),
                bare(middle),
                null,
                int(0x1_0000_1020),
            ),
            (one(OneOp::CGetAddr), middle, null, int(0x1_0000_1020)),
            (one(OneOp::CGetAddr), entry, null, int(0x1_0000_0008)),
        ],
    )
}

#[test]
fn lengths_are_rounded_for_exact_bounds(rt: HostRuntime) -> Result<(), Fail> {
    let null = Cap::null();
    let length = one(OneOp::Crrl);
    let mask = one(OneOp::Cram);
    let most = int(0xffff_ffff_ffff_ffff);
    check(
        &rt,
        &[
            (length, int(100), null, int(100)),
            (length, int(4096), null, int(4096)),
            (length, int(0x1001), null, int(0x1008)),
            (length, int(0x12_3456), null, int(0x12_3800)),
            (length, most, null, int(0)),
            (mask, int(4095), null, most),
            (mask, int(0x1001), null, int(0xffff_ffff_ffff_fff8)),
            (mask, int(0x12_3456), null, int(0xffff_ffff_ffff_f800)),
            (mask, most, null, int(0xff80_0000_0000_0000)),
        ],
    )
}

#[test]
fn capabilities_are_copied_cleared_and_sealed(rt: HostRuntime) -> Result<(), Fail> {
    let null = Cap::null();
    let entry = sealed(at(CODE, 8));
    check(
        &rt,
        &[
            (one(OneOp::CMove), DATA, null, DATA),
            (one(OneOp::CMove), entry, null, entry),
            (one(OneOp::CMove), bare(DATA), null, bare(DATA)),
            (one(OneOp::CClearTag), DATA, null, bare(DATA)),
            (one(OneOp::CSealEntry), at(CODE, 8), null, entry),
            (one(OneOp::CSealEntry), DATA, null, bare(sealed(DATA))),
            (one(OneOp::CSealEntry), LOADED, null, bare(sealed(LOADED))),
            (one(OneOp::CSealEntry), entry, null, bare(entry)),
        ],
    )
}

#[test]
fn register_0_stays_null(rt: HostRuntime) -> Result<(), Fail> {
    let instr = Instr::One {
        op: OneOp::CMove,
        rd: 0,
        rs1: 10,
    };
    let mut guest = Guest::new(rt.alloc(), &[instr], CODE, &[(10, DATA)])?;
    assert!(rt; guest.step().end == StepEnd::Next);
    assert_eq!(rt; guest.reg(0), Cap::null());
    assert_eq!(rt; guest.reg(10), DATA);
    Ok(())
}

// Branches and jumps: where they go, and their ways back.
use crate::caps::{CODE, DATA, at, int, sealed, tagged};
use crate::guests::Guest;
use cap_format::Cap;
use cheri_step::StepEnd;
use riscv_decode::{BranchOp, ImmOp, Instr};
use std::alloc::Global;
use std::test::Fail;

// The minus one of 64 bits.
const MINUS: u64 = 0xffff_ffff_ffff_ffff;

// A guest at place 0x40, whose instruction there is this one, behind sixteen fences.
fn guest_at(alloc: Global, instr: Instr, values: &[(u8, Cap)]) -> Result<Guest, Fail> {
    let mut code = Vec::new(alloc);
    for _ in 0..16 {
        code.push(Instr::Fence)?;
    }
    code.push(instr)?;
    Guest::new(alloc, &code, at(CODE, 0x40), values)
}

// PCC and register 1 after a jump that is done.
fn jumped(alloc: Global, instr: Instr, from: Cap) -> Result<(Cap, Cap), Fail> {
    let mut guest = guest_at(alloc, instr, &[(10, from)])?;
    if guest.step().end != StepEnd::Next {
        return Err(Fail::from("not done"));
    }
    Ok((guest.pcc(), guest.reg(1)))
}

fn jal(rd: u8, imm: i32) -> Instr {
    Instr::Jal { rd, imm }
}

fn jalr(rd: u8, rs1: u8, imm: i32) -> Instr {
    Instr::Jalr { rd, rs1, imm }
}

fn addi(rd: u8, imm: i32) -> Instr {
    Instr::Imm {
        op: ImmOp::Addi,
        rd,
        rs1: 0,
        imm,
    }
}

// PCC after a branch on two registers, which changes neither.
fn branched(alloc: Global, op: BranchOp, a: Cap, b: Cap, imm: i32) -> Result<Cap, Fail> {
    let instr = Instr::Branch {
        op,
        rs1: 10,
        rs2: 11,
        imm,
    };
    let mut guest = guest_at(alloc, instr, &[(10, a), (11, b)])?;
    if guest.step().end != StepEnd::Next || guest.reg(10) != a || guest.reg(11) != b {
        return Err(Fail::from("not done"));
    }
    Ok(guest.pcc())
}

#[test]
fn branches_are_taken_where_their_comparison_holds(rt: HostRuntime) -> Result<(), Fail> {
    let rows: [(BranchOp, u64, u64, bool); 16] = [
        (BranchOp::Beq, 5, 5, true),
        (BranchOp::Beq, 5, 6, false),
        (BranchOp::Bne, 5, 6, true),
        (BranchOp::Bne, 5, 5, false),
        (BranchOp::Blt, MINUS, 1, true),
        (BranchOp::Blt, 1, MINUS, false),
        (BranchOp::Blt, 5, 5, false),
        (BranchOp::Bge, 1, MINUS, true),
        (BranchOp::Bge, MINUS, 1, false),
        (BranchOp::Bge, 5, 5, true),
        (BranchOp::Bltu, 1, MINUS, true),
        (BranchOp::Bltu, MINUS, 1, false),
        (BranchOp::Bltu, 5, 5, false),
        (BranchOp::Bgeu, MINUS, 1, true),
        (BranchOp::Bgeu, 1, MINUS, false),
        (BranchOp::Bgeu, 5, 5, true),
    ];
    for (op, a, b, taken) in rows {
        let ahead = branched(rt.alloc(), op, int(a), int(b), 8)?;
        let back = branched(rt.alloc(), op, int(a), int(b), -12)?;
        let next = at(CODE, 0x44);
        assert_eq!(rt;
            ahead,
            if taken { at(CODE, 0x48) } else { next },
            "{op:?} of {a} and {b}"
        );
        assert_eq!(rt;
            back,
            if taken { at(CODE, 0x34) } else { next },
            "{op:?} of {a} and {b}"
        );
    }
    Ok(())
}

#[test]
fn a_branch_compares_the_addresses_of_capabilities(rt: HostRuntime) -> Result<(), Fail> {
    let pcc = branched(rt.alloc(), BranchOp::Beq, DATA, int(0x1_0000_1000), 8)?;
    assert_eq!(rt; pcc, at(CODE, 0x48));
    Ok(())
}

#[test]
fn a_branch_that_is_not_taken_tests_no_target(rt: HostRuntime) -> Result<(), Fail> {
    let misaligned = branched(rt.alloc(), BranchOp::Bne, int(5), int(5), 2)?;
    let outside = branched(rt.alloc(), BranchOp::Bne, int(5), int(5), -0x80)?;
    assert_eq!(rt; misaligned, at(CODE, 0x44));
    assert_eq!(rt; outside, at(CODE, 0x44));
    Ok(())
}

#[test]
fn a_jump_leaves_a_sealed_way_back(rt: HostRuntime) -> Result<(), Fail> {
    let link = sealed(at(CODE, 0x44));
    let back = at(CODE, 0x20);
    let rows: [(Instr, u64); 6] = [
        (jal(1, -0x40), 0),
        (jal(1, 0x400), 0x440),
        (jal(1, 0), 0x40),
        (jalr(1, 10, 0), 0x20),
        (jalr(1, 10, 8), 0x28),
        (jalr(1, 10, -4), 0x1c),
    ];
    for (instr, place) in rows {
        assert_eq!(rt;
            jumped(rt.alloc(), instr, back)?,
            (at(CODE, place), link),
            "{instr:?}"
        );
    }
    Ok(())
}

#[test]
fn a_jump_with_register_0_leaves_no_way_back(rt: HostRuntime) -> Result<(), Fail> {
    let rows: [(Instr, u64); 2] = [(jal(0, 12), 0x4c), (jalr(0, 10, 4), 0x24)];
    for (instr, place) in rows {
        let mut guest = guest_at(rt.alloc(), instr, &[(10, at(CODE, 0x20))])?;
        assert!(rt; guest.step().end == StepEnd::Next);
        assert_eq!(rt; guest.pcc(), at(CODE, place));
        assert_eq!(rt; guest.reg(0), Cap::null());
    }
    Ok(())
}

#[test]
fn a_jump_by_its_own_destination_reads_it_first(rt: HostRuntime) -> Result<(), Fail> {
    let mut guest = guest_at(rt.alloc(), jalr(10, 10, 0), &[(10, at(CODE, 0x20))])?;
    assert!(rt; guest.step().end == StepEnd::Next);
    assert_eq!(rt; guest.pcc(), at(CODE, 0x20));
    assert_eq!(rt; guest.reg(10), sealed(at(CODE, 0x44)));
    Ok(())
}

#[test]
fn a_jump_by_a_register_clears_bit_0(rt: HostRuntime) -> Result<(), Fail> {
    let link = sealed(at(CODE, 0x44));
    let rows: [(Cap, i32, u64); 4] = [
        (at(CODE, 0x21), 0, 0x20),
        (at(CODE, 0x20), 1, 0x20),
        (at(CODE, 0x21), -1, 0x20),
        (at(CODE, 0x21), 4, 0x24),
    ];
    for (from, imm, place) in rows {
        let after = jumped(rt.alloc(), jalr(1, 10, imm), from)?;
        assert_eq!(rt; after, (at(CODE, place), link), "{imm} from {from:?}");
    }
    Ok(())
}

#[test]
fn a_jump_by_a_register_takes_its_bounds(rt: HostRuntime) -> Result<(), Fail> {
    // The bytes from 0x20 to 0x30.
    let part = tagged(0x0016_0000_000c_0020_0000_0001_0000_0020);
    let link = sealed(at(CODE, 0x44));
    assert_eq!(rt; jumped(rt.alloc(), jalr(1, 10, 0), part)?, (part, link));
    assert_eq!(rt;
        jumped(rt.alloc(), jalr(1, 10, 12), part)?,
        (at(part, 0x2c), link)
    );
    Ok(())
}

#[test]
fn a_jump_by_a_sealed_entry_goes_to_it_unsealed(rt: HostRuntime) -> Result<(), Fail> {
    let entry = sealed(at(CODE, 0x20));
    let link = sealed(at(CODE, 0x44));
    assert_eq!(rt;
        jumped(rt.alloc(), jalr(1, 10, 0), entry)?,
        (at(CODE, 0x20), link)
    );
    Ok(())
}

#[test]
fn a_way_back_comes_back(rt: HostRuntime) -> Result<(), Fail> {
    let code = [
        jal(1, 12),
        addi(5, 7),
        Instr::Ecall,
        addi(6, 9),
        jalr(0, 1, 0),
    ];
    let mut guest = Guest::new(rt.alloc(), &code, CODE, &[])?;
    let (count, end) = guest.run(10);
    assert!(rt; end == StepEnd::Call);
    assert_eq!(rt; count, 4);
    assert_eq!(rt; guest.reg(5), int(7));
    assert_eq!(rt; guest.reg(6), int(9));
    assert_eq!(rt; guest.reg(1), sealed(at(CODE, 4)));
    assert_eq!(rt; guest.pcc(), at(CODE, 8));
    Ok(())
}

// A small guest that loops over memory.
use crate::caps::{CODE, DATA, at, int};
use crate::guests::Guest;
use cap_format::Cap;
use cheri_step::StepEnd;
use riscv_decode::{BranchOp, ImmOp, Instr, LoadOp, RegOp, StoreOp};
use std::test::Fail;

fn imm(op: ImmOp, rd: u8, rs1: u8, imm: i32) -> Instr {
    Instr::Imm { op, rd, rs1, imm }
}

// Adds 10, 9 and so on to 1: each sum is stored, loaded again and added to, and register 7 is the last.
fn sums() -> [Instr; 9] {
    [
        imm(ImmOp::Addi, 5, 0, 10),
        imm(ImmOp::Addi, 7, 0, 0),
        Instr::Reg {
            op: RegOp::Add,
            rd: 6,
            rs1: 7,
            rs2: 5,
        },
        Instr::Store {
            op: StoreOp::Sd,
            rs1: 10,
            rs2: 6,
            imm: 0,
        },
        Instr::Load {
            op: LoadOp::Ld,
            rd: 7,
            rs1: 10,
            imm: 0,
        },
        imm(ImmOp::CIncOffsetImm, 10, 10, 8),
        imm(ImmOp::Addi, 5, 5, -1),
        Instr::Branch {
            op: BranchOp::Bne,
            rs1: 5,
            rs2: 0,
            imm: -20,
        },
        Instr::Ecall,
    ]
}

#[test]
fn a_guest_stores_the_sums_of_a_loop(rt: HostRuntime) -> Result<(), Fail> {
    let mut guest = Guest::new(rt.alloc(), &sums(), CODE, &[(10, DATA)])?;
    let (count, end) = guest.run(100);
    assert!(rt; end == StepEnd::Call);
    assert_eq!(rt; count, 62);
    assert_eq!(rt; guest.pcc(), at(CODE, 32));
    assert_eq!(rt; guest.reg(5), int(0));
    assert_eq!(rt; guest.reg(6), int(55));
    assert_eq!(rt; guest.reg(7), int(55));
    assert_eq!(rt; guest.reg(10), at(DATA, 0x1050));
    let pairs: [(u64, u64); 5] = [(10, 19), (27, 34), (40, 45), (49, 52), (54, 55)];
    for granule in 0..5_u32 {
        let (low, high) = pairs[granule as usize];
        let want = Cap {
            bits: u128::from(high) << 64 | u128::from(low),
            tag: false,
        };
        assert_eq!(rt; guest.granule(1, granule), Some(want), "granule {granule}");
    }
    Ok(())
}

#[test]
fn a_guest_that_loops_by_a_pointer_past_its_bounds_ends(rt: HostRuntime) -> Result<(), Fail> {
    // Register 5 counts from 100, so the store past the 256 bytes comes at the 33rd time.
    let mut code = sums();
    code[0] = imm(ImmOp::Addi, 5, 0, 100);
    let mut guest = Guest::new(rt.alloc(), &code, CODE, &[(10, DATA)])?;
    let (count, end) = guest.run(1000);
    assert_eq!(rt; count, 2 + 32 * 6 + 1);
    assert!(rt; end == StepEnd::Fault(machine_types::Cause::Bounds));
    assert_eq!(rt; guest.pcc(), at(CODE, 12));
    assert_eq!(rt; guest.reg(10), at(DATA, 0x1100));
    Ok(())
}

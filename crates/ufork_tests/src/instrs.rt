// Instructions by the names of their rows, and the pages of guests that are written in them.
use riscv_decode::{BranchOp, ImmOp, Instr, LoadOp, OneOp, RegOp, StoreOp, UpperOp, encode};
use std::alloc::Global;
use std::test::Fail;

/// The number of the call that ends the process.
pub const EXIT: i32 = 1;

/// The number of the call that writes.
pub const WRITE: i32 = 8;

/// The words of instructions, each of four bytes, the lowest first.
pub fn bytes_of(alloc: Global, code: &[Instr]) -> Result<Vec<u8>, Fail> {
    let mut bytes = Vec::new(alloc);
    for instr in code {
        let word = encode(instr).ok_or("no word")?;
        bytes.extend_from_slice(&word.to_le_bytes())?;
    }
    Ok(bytes)
}

pub fn addi(rd: u8, rs1: u8, imm: i32) -> Instr {
    Instr::Imm {
        op: ImmOp::Addi,
        rd,
        rs1,
        imm,
    }
}

pub fn slli(rd: u8, rs1: u8, imm: i32) -> Instr {
    Instr::Imm {
        op: ImmOp::Slli,
        rd,
        rs1,
        imm,
    }
}

pub fn srli(rd: u8, rs1: u8, imm: i32) -> Instr {
    Instr::Imm {
        op: ImmOp::Srli,
        rd,
        rs1,
        imm,
    }
}

pub fn cincoffsetimm(rd: u8, rs1: u8, imm: i32) -> Instr {
    Instr::Imm {
        op: ImmOp::CIncOffsetImm,
        rd,
        rs1,
        imm,
    }
}

pub fn cincoffset(rd: u8, rs1: u8, rs2: u8) -> Instr {
    Instr::Reg {
        op: RegOp::CIncOffset,
        rd,
        rs1,
        rs2,
    }
}

pub fn candperm(rd: u8, rs1: u8, rs2: u8) -> Instr {
    Instr::Reg {
        op: RegOp::CAndPerm,
        rd,
        rs1,
        rs2,
    }
}

pub fn cmove(rd: u8, rs1: u8) -> Instr {
    Instr::One {
        op: OneOp::CMove,
        rd,
        rs1,
    }
}

pub fn csealentry(rd: u8, rs1: u8) -> Instr {
    Instr::One {
        op: OneOp::CSealEntry,
        rd,
        rs1,
    }
}

pub fn lui(rd: u8, imm: u32) -> Instr {
    Instr::Upper {
        op: UpperOp::Lui,
        rd,
        imm,
    }
}

pub fn auipcc(rd: u8, imm: u32) -> Instr {
    Instr::Upper {
        op: UpperOp::Auipcc,
        rd,
        imm,
    }
}

pub fn bne(rs1: u8, rs2: u8, imm: i32) -> Instr {
    Instr::Branch {
        op: BranchOp::Bne,
        rs1,
        rs2,
        imm,
    }
}

pub fn cjal(rd: u8, imm: i32) -> Instr {
    Instr::Jal { rd, imm }
}

pub fn cjalr(rd: u8, rs1: u8, imm: i32) -> Instr {
    Instr::Jalr { rd, rs1, imm }
}

pub fn csetbounds(rd: u8, rs1: u8, rs2: u8) -> Instr {
    Instr::Reg {
        op: RegOp::CSetBounds,
        rd,
        rs1,
        rs2,
    }
}

/// A row of one source.
pub fn one(op: OneOp, rd: u8, rs1: u8) -> Instr {
    Instr::One { op, rd, rs1 }
}

/// A load by the authority of `rs1`.
pub fn load(op: LoadOp, rd: u8, rs1: u8, imm: i32) -> Instr {
    Instr::Load { op, rd, rs1, imm }
}

/// A store of `rs2` by the authority of `rs1`.
pub fn store(op: StoreOp, rs2: u8, rs1: u8, imm: i32) -> Instr {
    Instr::Store { op, rs1, rs2, imm }
}

/// The page of a guest that prepares a write by these instructions, asks for it, and exits with the answer.
pub fn write_and_exit(alloc: Global, prepares: &[Instr]) -> Result<Vec<u8>, Fail> {
    let mut code = Vec::new(alloc);
    code.extend_from_slice(prepares)?;
    code.extend_from_slice(&[
        addi(17, 0, WRITE),
        Instr::Ecall,
        addi(17, 0, EXIT),
        Instr::Ecall,
    ])?;
    bytes_of(alloc, &code)
}

/// The page of a guest that prints the byte behind its code, and then moves the pointer by so much, five times. It makes 32 steps:
/// 4, five times 5, and 3.
pub fn five_writes(alloc: Global, step: i32) -> Result<Vec<u8>, Fail> {
    let code = [
        addi(5, 0, 5),
        cincoffsetimm(11, 2, 48),
        addi(12, 0, 1),
        addi(17, 0, WRITE),
        addi(10, 0, 1),
        Instr::Ecall,
        cincoffsetimm(11, 11, step),
        addi(5, 5, -1),
        bne(5, 0, -16),
        addi(10, 0, 0),
        addi(17, 0, EXIT),
        Instr::Ecall,
    ];
    let mut page = bytes_of(alloc, &code)?;
    page.extend_from_slice(b"abcde")?;
    Ok(page)
}

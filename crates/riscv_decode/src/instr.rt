// Instructions.

/// An operation on two registers: opcodes 33 and 3b, and the rows of two sources of opcode 5b.
#[derive(Clone, Copy, Debug, PartialEq, Eq)]
pub enum RegOp {
    Add,
    Sub,
    Sll,
    Slt,
    Sltu,
    Xor,
    Srl,
    Sra,
    Or,
    And,
    Mul,
    Mulh,
    Mulhsu,
    Mulhu,
    Div,
    Divu,
    Rem,
    Remu,
    Addw,
    Subw,
    Sllw,
    Srlw,
    Sraw,
    Mulw,
    Divw,
    Divuw,
    Remw,
    Remuw,
    CSetBounds,
    CSetBoundsExact,
    CAndPerm,
    CSetAddr,
    CIncOffset,
    CSub,
    CTestSubset,
    CSeqx,
}

/// An operation on a register and an immediate: opcodes 13 and 1b, and the rows of format I of opcode 5b.
#[derive(Clone, Copy, Debug, PartialEq, Eq)]
pub enum ImmOp {
    Addi,
    Slti,
    Sltiu,
    Xori,
    Ori,
    Andi,
    Slli,
    Srli,
    Srai,
    Addiw,
    Slliw,
    Srliw,
    Sraiw,
    CIncOffsetImm,
    CSetBoundsImm,
}

/// A load: opcode 03, and the capability load of opcode 0f.
#[derive(Clone, Copy, Debug, PartialEq, Eq)]
pub enum LoadOp {
    Lb,
    Lh,
    Lw,
    Ld,
    Lbu,
    Lhu,
    Lwu,
    Clc,
}

/// A store: opcode 23, the capability store among them.
#[derive(Clone, Copy, Debug, PartialEq, Eq)]
pub enum StoreOp {
    Sb,
    Sh,
    Sw,
    Sd,
    Csc,
}

/// A branch: opcode 63.
#[derive(Clone, Copy, Debug, PartialEq, Eq)]
pub enum BranchOp {
    Beq,
    Bne,
    Blt,
    Bge,
    Bltu,
    Bgeu,
}

/// An operation with an upper immediate: opcodes 37 and 17.
#[derive(Clone, Copy, Debug, PartialEq, Eq)]
pub enum UpperOp {
    Lui,
    Auipcc,
}

/// An operation of opcode 5b on one register.
#[derive(Clone, Copy, Debug, PartialEq, Eq)]
pub enum OneOp {
    CGetPerm,
    CGetBase,
    CGetLen,
    CGetTag,
    CGetSealed,
    CGetOffset,
    Crrl,
    Cram,
    CMove,
    CClearTag,
    CGetAddr,
    CSealEntry,
}

/// An instruction. Registers are 0 to 31; immediates have the range of their row.
#[derive(Clone, Copy, Debug, PartialEq, Eq)]
pub enum Instr {
    Reg {
        op: RegOp,
        rd: u8,
        rs1: u8,
        rs2: u8,
    },
    /// The immediate is from -2048 to 2047, or a shift amount from 0 to 63 or to 31, or for csetboundsimm from
    /// 0 to 4095.
    Imm {
        op: ImmOp,
        rd: u8,
        rs1: u8,
        imm: i32,
    },
    /// The immediate is from -2048 to 2047, in bytes.
    Load {
        op: LoadOp,
        rd: u8,
        rs1: u8,
        imm: i32,
    },
    /// The immediate is from -2048 to 2047, in bytes.
    Store {
        op: StoreOp,
        rs1: u8,
        rs2: u8,
        imm: i32,
    },
    /// The distance is even, from -4096 to 4094, in bytes.
    Branch {
        op: BranchOp,
        rs1: u8,
        rs2: u8,
        imm: i32,
    },
    /// The immediate is the 20 bits, below `2^20`.
    Upper {
        op: UpperOp,
        rd: u8,
        imm: u32,
    },
    /// cjal. The distance is even, from -1048576 to 1048574, in bytes.
    Jal {
        rd: u8,
        imm: i32,
    },
    /// cjalr. The immediate is from -2048 to 2047, in bytes.
    Jalr {
        rd: u8,
        rs1: u8,
        imm: i32,
    },
    One {
        op: OneOp,
        rd: u8,
        rs1: u8,
    },
    Ecall,
    Ebreak,
    Fence,
}

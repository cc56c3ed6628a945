// The row of each operation.
ghost use Rattle.std.specs.Prelude.{◌≡◌, IsTrue};
ghost use Rattle.riscv_decode.specs.Rows.{matches, reg_row, imm_row, load_row, store_row, branch_row, upper_row, one_row};
ghost use Rattle.riscv_decode.specs.Code.{as_row, is_small};

use crate::fields::{field, funct3_of, funct7_of, joined, opcode_of, rs2_of};
use crate::instr::{BranchOp, ImmOp, LoadOp, OneOp, RegOp, StoreOp, UpperOp};

/// What a row fixes of a word: the opcode, and then as its format has them funct3, funct7 or its higher six
/// bits, and rs2.
#[derive(Clone, Copy)]
pub enum Row {
    R(u32, u32, u32),
    I(u32, u32),
    Unsigned(u32, u32),
    Shift6(u32, u32, u32),
    Shift5(u32, u32, u32),
    S(u32, u32),
    B(u32, u32),
    U(u32),
    J(u32),
    One(u32, u32, u32, u32),
    Whole(u32, u32, u32, u32),
}

impl Row {
    /// The opcode.
    pub fn opcode(self) -> u32
        ensures { result ≡ (as_row self).opcode }
    {
        match self {
            Row::R(opcode, _, _) => opcode,
            Row::I(opcode, _) | Row::Unsigned(opcode, _) => opcode,
            Row::Shift6(opcode, _, _) | Row::Shift5(opcode, _, _) => opcode,
            Row::S(opcode, _) | Row::B(opcode, _) => opcode,
            Row::U(opcode) | Row::J(opcode) => opcode,
            Row::One(opcode, _, _, _) | Row::Whole(opcode, _, _, _) => opcode,
        }
    }

    /// The value of funct3, or 0.
    pub fn funct3(self) -> u32
        ensures { result ≡ (as_row self).funct3 }
    {
        match self {
            Row::R(_, funct3, _) => funct3,
            Row::I(_, funct3) | Row::Unsigned(_, funct3) => funct3,
            Row::Shift6(_, funct3, _) | Row::Shift5(_, funct3, _) => funct3,
            Row::S(_, funct3) | Row::B(_, funct3) => funct3,
            Row::U(_) | Row::J(_) => 0,
            Row::One(_, funct3, _, _) | Row::Whole(_, funct3, _, _) => funct3,
        }
    }

    /// The value of funct7, or 0.
    pub fn funct7(self) -> u32
        requires { IsTrue (is_small (as_row self)) }
        ensures { result ≡ (as_row self).funct7 }
    {
        match self {
            Row::R(_, _, funct7) | Row::Shift5(_, _, funct7) => funct7,
            Row::Shift6(_, _, funct6) => 2 * funct6,
            Row::One(_, _, funct7, _) | Row::Whole(_, _, funct7, _) => funct7,
            _ => 0,
        }
    }

    /// The bits of rs2, or 0.
    pub fn rs2(self) -> u32
        ensures { result ≡ (as_row self).rs2 }
    {
        match self {
            Row::One(_, _, _, rs2) | Row::Whole(_, _, _, rs2) => rs2,
            _ => 0,
        }
    }

    /// Whether a word has what the row fixes.
    pub fn matches(self, word: u32) -> bool
        requires { IsTrue (is_small (as_row self)) }
        ensures { result ≡ matches (as_row self) word }
    {
        match self {
            Row::R(opcode, funct3, funct7) | Row::Shift5(opcode, funct3, funct7) => {
                opcode_of(word) == opcode && funct3_of(word) == funct3 && funct7_of(word) == funct7
            }
            Row::I(opcode, funct3)
            | Row::Unsigned(opcode, funct3)
            | Row::S(opcode, funct3)
            | Row::B(opcode, funct3) => opcode_of(word) == opcode && funct3_of(word) == funct3,
            Row::Shift6(opcode, funct3, funct6) => {
                opcode_of(word) == opcode
                    && funct3_of(word) == funct3
                    && field(word, 26, 6) == funct6
            }
            Row::U(opcode) | Row::J(opcode) => opcode_of(word) == opcode,
            Row::One(opcode, funct3, funct7, rs2) => {
                opcode_of(word) == opcode
                    && funct3_of(word) == funct3
                    && funct7_of(word) == funct7
                    && rs2_of(word) as u32 == rs2
            }
            Row::Whole(opcode, funct3, funct7, rs2) => {
                word == joined(opcode, 0, funct3, 0, rs2, funct7)
            }
        }
    }
}

impl RegOp {
    /// The row of an operation on two registers.
    pub fn row(self) -> Row
        ensures { as_row result ≡ reg_row self }
    {
        match self {
            RegOp::Add => Row::R(0x33, 0, 0x00),
            RegOp::Sub => Row::R(0x33, 0, 0x20),
            RegOp::Sll => Row::R(0x33, 1, 0x00),
            RegOp::Slt => Row::R(0x33, 2, 0x00),
            RegOp::Sltu => Row::R(0x33, 3, 0x00),
            RegOp::Xor => Row::R(0x33, 4, 0x00),
            RegOp::Srl => Row::R(0x33, 5, 0x00),
            RegOp::Sra => Row::R(0x33, 5, 0x20),
            RegOp::Or => Row::R(0x33, 6, 0x00),
            RegOp::And => Row::R(0x33, 7, 0x00),
            RegOp::Mul => Row::R(0x33, 0, 0x01),
            RegOp::Mulh => Row::R(0x33, 1, 0x01),
            RegOp::Mulhsu => Row::R(0x33, 2, 0x01),
            RegOp::Mulhu => Row::R(0x33, 3, 0x01),
            RegOp::Div => Row::R(0x33, 4, 0x01),
            RegOp::Divu => Row::R(0x33, 5, 0x01),
            RegOp::Rem => Row::R(0x33, 6, 0x01),
            RegOp::Remu => Row::R(0x33, 7, 0x01),
            RegOp::Addw => Row::R(0x3b, 0, 0x00),
            RegOp::Subw => Row::R(0x3b, 0, 0x20),
            RegOp::Sllw => Row::R(0x3b, 1, 0x00),
            RegOp::Srlw => Row::R(0x3b, 5, 0x00),
            RegOp::Sraw => Row::R(0x3b, 5, 0x20),
            RegOp::Mulw => Row::R(0x3b, 0, 0x01),
            RegOp::Divw => Row::R(0x3b, 4, 0x01),
            RegOp::Divuw => Row::R(0x3b, 5, 0x01),
            RegOp::Remw => Row::R(0x3b, 6, 0x01),
            RegOp::Remuw => Row::R(0x3b, 7, 0x01),
            RegOp::CSetBounds => Row::R(0x5b, 0, 0x08),
            RegOp::CSetBoundsExact => Row::R(0x5b, 0, 0x09),
            RegOp::CAndPerm => Row::R(0x5b, 0, 0x0d),
            RegOp::CSetAddr => Row::R(0x5b, 0, 0x10),
            RegOp::CIncOffset => Row::R(0x5b, 0, 0x11),
            RegOp::CSub => Row::R(0x5b, 0, 0x14),
            RegOp::CTestSubset => Row::R(0x5b, 0, 0x20),
            RegOp::CSeqx => Row::R(0x5b, 0, 0x21),
        }
    }
}

impl ImmOp {
    /// The row of an operation on an immediate.
    pub fn row(self) -> Row
        ensures { as_row result ≡ imm_row self }
    {
        match self {
            ImmOp::Addi => Row::I(0x13, 0),
            ImmOp::Slti => Row::I(0x13, 2),
            ImmOp::Sltiu => Row::I(0x13, 3),
            ImmOp::Xori => Row::I(0x13, 4),
            ImmOp::Ori => Row::I(0x13, 6),
            ImmOp::Andi => Row::I(0x13, 7),
            ImmOp::Slli => Row::Shift6(0x13, 1, 0x00),
            ImmOp::Srli => Row::Shift6(0x13, 5, 0x00),
            ImmOp::Srai => Row::Shift6(0x13, 5, 0x10),
            ImmOp::Addiw => Row::I(0x1b, 0),
            ImmOp::Slliw => Row::Shift5(0x1b, 1, 0x00),
            ImmOp::Srliw => Row::Shift5(0x1b, 5, 0x00),
            ImmOp::Sraiw => Row::Shift5(0x1b, 5, 0x20),
            ImmOp::CIncOffsetImm => Row::I(0x5b, 1),
            ImmOp::CSetBoundsImm => Row::Unsigned(0x5b, 2),
        }
    }
}

impl LoadOp {
    /// The row of a load.
    pub fn row(self) -> Row
        ensures { as_row result ≡ load_row self }
    {
        match self {
            LoadOp::Lb => Row::I(0x03, 0),
            LoadOp::Lh => Row::I(0x03, 1),
            LoadOp::Lw => Row::I(0x03, 2),
            LoadOp::Ld => Row::I(0x03, 3),
            LoadOp::Lbu => Row::I(0x03, 4),
            LoadOp::Lhu => Row::I(0x03, 5),
            LoadOp::Lwu => Row::I(0x03, 6),
            LoadOp::Clc => Row::I(0x0f, 2),
        }
    }
}

impl StoreOp {
    /// The row of a store.
    pub fn row(self) -> Row
        ensures { as_row result ≡ store_row self }
    {
        match self {
            StoreOp::Sb => Row::S(0x23, 0),
            StoreOp::Sh => Row::S(0x23, 1),
            StoreOp::Sw => Row::S(0x23, 2),
            StoreOp::Sd => Row::S(0x23, 3),
            StoreOp::Csc => Row::S(0x23, 4),
        }
    }
}

impl BranchOp {
    /// The row of a branch.
    pub fn row(self) -> Row
        ensures { as_row result ≡ branch_row self }
    {
        match self {
            BranchOp::Beq => Row::B(0x63, 0),
            BranchOp::Bne => Row::B(0x63, 1),
            BranchOp::Blt => Row::B(0x63, 4),
            BranchOp::Bge => Row::B(0x63, 5),
            BranchOp::Bltu => Row::B(0x63, 6),
            BranchOp::Bgeu => Row::B(0x63, 7),
        }
    }
}

impl UpperOp {
    /// The row of an operation on an upper immediate.
    pub fn row(self) -> Row
        ensures { as_row result ≡ upper_row self }
    {
        match self {
            UpperOp::Lui => Row::U(0x37),
            UpperOp::Auipcc => Row::U(0x17),
        }
    }
}

impl OneOp {
    /// The row of an operation of one register.
    pub fn row(self) -> Row
        ensures { as_row result ≡ one_row self }
    {
        match self {
            OneOp::CGetPerm => Row::One(0x5b, 0, 0x7f, 0x00),
            OneOp::CGetBase => Row::One(0x5b, 0, 0x7f, 0x02),
            OneOp::CGetLen => Row::One(0x5b, 0, 0x7f, 0x03),
            OneOp::CGetTag => Row::One(0x5b, 0, 0x7f, 0x04),
            OneOp::CGetSealed => Row::One(0x5b, 0, 0x7f, 0x05),
            OneOp::CGetOffset => Row::One(0x5b, 0, 0x7f, 0x06),
            OneOp::Crrl => Row::One(0x5b, 0, 0x7f, 0x08),
            OneOp::Cram => Row::One(0x5b, 0, 0x7f, 0x09),
            OneOp::CMove => Row::One(0x5b, 0, 0x7f, 0x0a),
            OneOp::CClearTag => Row::One(0x5b, 0, 0x7f, 0x0b),
            OneOp::CGetAddr => Row::One(0x5b, 0, 0x7f, 0x0f),
            OneOp::CSealEntry => Row::One(0x5b, 0, 0x7f, 0x11),
        }
    }
}

// Operations of every kind: the instructions without their operands.
ghost use Rattle.std.specs.Prelude.{◌≡◌, IsTrue};
ghost use Rattle.std.specs.List.{find};
ghost use Rattle.riscv_decode.specs.Rows.{matches, imm_row};
ghost use Rattle.riscv_decode.specs.Table.{immediate_in};
ghost use Rattle.riscv_decode.specs.Code.{as_row, is_small, row_of, op_of, instr_of};
ghost use Rattle.riscv_decode.specs.Opcodes.{ops_of};
ghost use Rattle.riscv_decode.specs.Words.{opcode_of};

use crate::fields::{
    field, immediate_b, immediate_i, immediate_j, immediate_s, immediate_u, opcode_of, rd_of,
    rs1_of, rs2_of,
};
use crate::instr::{BranchOp, ImmOp, Instr, LoadOp, OneOp, RegOp, StoreOp, UpperOp};
use crate::rows::Row;

/// An operation.
#[derive(Clone, Copy)]
pub enum Op {
    Reg(RegOp),
    Imm(ImmOp),
    Load(LoadOp),
    Store(StoreOp),
    Branch(BranchOp),
    Upper(UpperOp),
    One(OneOp),
    Jal,
    Jalr,
    Ecall,
    Ebreak,
    Fence,
}

/// Loads of opcode 03.
pub const LOADS: [Op; 7] = [
    Op::Load(LoadOp::Lb),
    Op::Load(LoadOp::Lh),
    Op::Load(LoadOp::Lw),
    Op::Load(LoadOp::Ld),
    Op::Load(LoadOp::Lbu),
    Op::Load(LoadOp::Lhu),
    Op::Load(LoadOp::Lwu),
];

/// The fence, and the capability load of its opcode.
pub const FENCES: [Op; 2] = [Op::Load(LoadOp::Clc), Op::Fence];

/// Operations on an immediate.
pub const IMMEDIATES: [Op; 9] = [
    Op::Imm(ImmOp::Addi),
    Op::Imm(ImmOp::Slti),
    Op::Imm(ImmOp::Sltiu),
    Op::Imm(ImmOp::Xori),
    Op::Imm(ImmOp::Ori),
    Op::Imm(ImmOp::Andi),
    Op::Imm(ImmOp::Slli),
    Op::Imm(ImmOp::Srli),
    Op::Imm(ImmOp::Srai),
];

/// The upper immediate on the program counter.
pub const UPPER_TO_CAPABILITY: [Op; 1] = [Op::Upper(UpperOp::Auipcc)];

/// Operations of 32 bits on an immediate.
pub const WORD_IMMEDIATES: [Op; 4] = [
    Op::Imm(ImmOp::Addiw),
    Op::Imm(ImmOp::Slliw),
    Op::Imm(ImmOp::Srliw),
    Op::Imm(ImmOp::Sraiw),
];

/// Stores.
pub const STORES: [Op; 5] = [
    Op::Store(StoreOp::Sb),
    Op::Store(StoreOp::Sh),
    Op::Store(StoreOp::Sw),
    Op::Store(StoreOp::Sd),
    Op::Store(StoreOp::Csc),
];

/// Operations on two registers.
pub const REGISTERS: [Op; 18] = [
    Op::Reg(RegOp::Add),
    Op::Reg(RegOp::Sub),
    Op::Reg(RegOp::Sll),
    Op::Reg(RegOp::Slt),
    Op::Reg(RegOp::Sltu),
    Op::Reg(RegOp::Xor),
    Op::Reg(RegOp::Srl),
    Op::Reg(RegOp::Sra),
    Op::Reg(RegOp::Or),
    Op::Reg(RegOp::And),
    Op::Reg(RegOp::Mul),
    Op::Reg(RegOp::Mulh),
    Op::Reg(RegOp::Mulhsu),
    Op::Reg(RegOp::Mulhu),
    Op::Reg(RegOp::Div),
    Op::Reg(RegOp::Divu),
    Op::Reg(RegOp::Rem),
    Op::Reg(RegOp::Remu),
];

/// The upper immediate.
pub const UPPER: [Op; 1] = [Op::Upper(UpperOp::Lui)];

/// Operations of 32 bits on two registers.
pub const WORD_REGISTERS: [Op; 10] = [
    Op::Reg(RegOp::Addw),
    Op::Reg(RegOp::Subw),
    Op::Reg(RegOp::Sllw),
    Op::Reg(RegOp::Srlw),
    Op::Reg(RegOp::Sraw),
    Op::Reg(RegOp::Mulw),
    Op::Reg(RegOp::Divw),
    Op::Reg(RegOp::Divuw),
    Op::Reg(RegOp::Remw),
    Op::Reg(RegOp::Remuw),
];

/// Operations on capabilities.
pub const CAPABILITIES: [Op; 22] = [
    Op::Reg(RegOp::CSetBounds),
    Op::Reg(RegOp::CSetBoundsExact),
    Op::Reg(RegOp::CAndPerm),
    Op::Reg(RegOp::CSetAddr),
    Op::Reg(RegOp::CIncOffset),
    Op::Reg(RegOp::CSub),
    Op::Reg(RegOp::CTestSubset),
    Op::Reg(RegOp::CSeqx),
    Op::Imm(ImmOp::CIncOffsetImm),
    Op::Imm(ImmOp::CSetBoundsImm),
    Op::One(OneOp::CGetPerm),
    Op::One(OneOp::CGetBase),
    Op::One(OneOp::CGetLen),
    Op::One(OneOp::CGetTag),
    Op::One(OneOp::CGetSealed),
    Op::One(OneOp::CGetOffset),
    Op::One(OneOp::Crrl),
    Op::One(OneOp::Cram),
    Op::One(OneOp::CMove),
    Op::One(OneOp::CClearTag),
    Op::One(OneOp::CGetAddr),
    Op::One(OneOp::CSealEntry),
];

/// Branches.
pub const BRANCHES: [Op; 6] = [
    Op::Branch(BranchOp::Beq),
    Op::Branch(BranchOp::Bne),
    Op::Branch(BranchOp::Blt),
    Op::Branch(BranchOp::Bge),
    Op::Branch(BranchOp::Bltu),
    Op::Branch(BranchOp::Bgeu),
];

/// The jump to a register.
pub const JUMPS_TO_REGISTER: [Op; 1] = [Op::Jalr];

/// The jump.
pub const JUMPS: [Op; 1] = [Op::Jal];

/// The calls of the environment.
pub const CALLS: [Op; 2] = [Op::Ecall, Op::Ebreak];

impl Op {
    /// The operation of an instruction.
    pub fn of(i: &Instr) -> Op
        ensures { result ≡ op_of i.now }
    {
        match *i {
            Instr::Reg { op, .. } => Op::Reg(op),
            Instr::Imm { op, .. } => Op::Imm(op),
            Instr::Load { op, .. } => Op::Load(op),
            Instr::Store { op, .. } => Op::Store(op),
            Instr::Branch { op, .. } => Op::Branch(op),
            Instr::Upper { op, .. } => Op::Upper(op),
            Instr::Jal { .. } => Op::Jal,
            Instr::Jalr { .. } => Op::Jalr,
            Instr::One { op, .. } => Op::One(op),
            Instr::Ecall => Op::Ecall,
            Instr::Ebreak => Op::Ebreak,
            Instr::Fence => Op::Fence,
        }
    }

    /// The row of the operation.
    pub fn row(self) -> Row
        ensures row { as_row result ≡ row_of self }
        ensures small { IsTrue (is_small (as_row result)) }
    {
        match self {
            Op::Reg(op) => op.row(),
            Op::Imm(op) => op.row(),
            Op::Load(op) => op.row(),
            Op::Store(op) => op.row(),
            Op::Branch(op) => op.row(),
            Op::Upper(op) => op.row(),
            Op::One(op) => op.row(),
            Op::Jal => Row::J(0x6f),
            Op::Jalr => Row::I(0x67, 0),
            Op::Ecall => Row::Whole(0x73, 0, 0x00, 0x00),
            Op::Ebreak => Row::Whole(0x73, 0, 0x00, 0x01),
            Op::Fence => Row::Whole(0x0f, 0, 0x07, 0x1f),
        }
    }

    /// Whether a word is in the row of the operation.
    pub fn has(self, word: u32) -> bool
        ensures { result ≡ matches (row_of self) word }
    {
        self.row().matches(word)
    }

    /// The operations of an opcode.
    fn with_opcode(opcode: u32) -> &'static [Op]
        ensures { result.now ≡ ops_of opcode }
    {
        match opcode {
            0x03 => &LOADS,
            0x0f => &FENCES,
            0x13 => &IMMEDIATES,
            0x17 => &UPPER_TO_CAPABILITY,
            0x1b => &WORD_IMMEDIATES,
            0x23 => &STORES,
            0x33 => &REGISTERS,
            0x37 => &UPPER,
            0x3b => &WORD_REGISTERS,
            0x5b => &CAPABILITIES,
            0x63 => &BRANCHES,
            0x67 => &JUMPS_TO_REGISTER,
            0x6f => &JUMPS,
            0x73 => &CALLS,
            _ => &[],
        }
    }

    /// The operation in whose row a word is.
    pub fn find(word: u32) -> Option<Op>
        ensures { result ≡ find (λ op. matches (row_of op) word) (ops_of (opcode_of word)) }
    {
        Op::with_opcode(opcode_of(word))
            .iter()
            .copied()
            .find(|op| op.has(word))
    }

    /// The instruction of the operation that has the fields of a word.
    pub fn with_fields(self, word: u32) -> Instr
        ensures { result ≡ instr_of self word }
    {
        let (rd, rs1, rs2) = (rd_of(word), rs1_of(word), rs2_of(word));
        let imm = immediate_i(word);
        match self {
            Op::Reg(op) => Instr::Reg { op, rd, rs1, rs2 },
            Op::Imm(op) => {
                let imm = op.immediate(word);
                Instr::Imm { op, rd, rs1, imm }
            }
            Op::Load(op) => Instr::Load { op, rd, rs1, imm },
            Op::Store(op) => {
                let imm = immediate_s(word);
                Instr::Store { op, rs1, rs2, imm }
            }
            Op::Branch(op) => {
                let imm = immediate_b(word);
                Instr::Branch { op, rs1, rs2, imm }
            }
            Op::Upper(op) => {
                let imm = immediate_u(word);
                Instr::Upper { op, rd, imm }
            }
            Op::Jal => {
                let imm = immediate_j(word);
                Instr::Jal { rd, imm }
            }
            Op::Jalr => Instr::Jalr { rd, rs1, imm },
            Op::One(op) => Instr::One { op, rd, rs1 },
            Op::Ecall => Instr::Ecall,
            Op::Ebreak => Instr::Ebreak,
            Op::Fence => Instr::Fence,
        }
    }
}

impl ImmOp {
    /// The immediate of a word, as the row of the operation has it.
    fn immediate(self, word: u32) -> i32
        ensures { result ≡ immediate_in (imm_row self).format word }
    {
        match self.row() {
            Row::Unsigned(_, _) => field(word, 20, 12) as i32,
            Row::Shift6(_, _, _) => field(word, 20, 6) as i32,
            Row::Shift5(_, _, _) => field(word, 20, 5) as i32,
            _ => immediate_i(word),
        }
    }
}

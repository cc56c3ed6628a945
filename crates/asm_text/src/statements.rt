// The statements of the language: their names and the list of them.
ghost use Rattle.std.specs.Prelude.{◌≡◌};
ghost use Rattle.asm_text.specs.Statements.{data_name, bytes_of, name_of, statement_named};

use crate::mnemonics::mnemonic;
use riscv_decode::{BranchOp, ImmOp, Instr, LoadOp, OneOp, RegOp, StoreOp, UpperOp};

/// The size of the numbers of a directive for data.
#[derive(Clone, Copy, Debug, PartialEq, Eq)]
pub enum DataSize {
    Byte,
    Half,
    Word,
    Quad,
}

impl DataSize {
    // The name of the directive.
    fn name(self) -> &'static [u8]
        ensures { result.now ≡ data_name self }
    {
        match self {
            DataSize::Byte => b".byte",
            DataSize::Half => b".half",
            DataSize::Word => b".word",
            DataSize::Quad => b".quad",
        }
    }

    /// The bytes of a number.
    pub fn bytes(self) -> u8
        ensures { result ≡ bytes_of self }
    {
        match self {
            DataSize::Byte => 1,
            DataSize::Half => 2,
            DataSize::Word => 4,
            DataSize::Quad => 8,
        }
    }
}

/// A statement without its operands. An instruction has zeros for them.
#[derive(Clone, Copy, Debug, PartialEq, Eq)]
pub enum Statement {
    Instr(Instr),
    Segment,
    Entry,
    Data(DataSize),
    Ascii,
    Space,
    Align,
    Bss,
    Cap,
}

/// All statements: an instruction of each row of the table, and the directives.
pub const STATEMENTS: [Statement; 100] = [
    Statement::Instr(Instr::Reg {
        op: RegOp::Add,
        rd: 0,
        rs1: 0,
        rs2: 0,
    }),
    Statement::Instr(Instr::Reg {
        op: RegOp::Sub,
        rd: 0,
        rs1: 0,
        rs2: 0,
    }),
    Statement::Instr(Instr::Reg {
        op: RegOp::Sll,
        rd: 0,
        rs1: 0,
        rs2: 0,
    }),
    Statement::Instr(Instr::Reg {
        op: RegOp::Slt,
        rd: 0,
        rs1: 0,
        rs2: 0,
    }),
    Statement::Instr(Instr::Reg {
        op: RegOp::Sltu,
        rd: 0,
        rs1: 0,
        rs2: 0,
    }),
    Statement::Instr(Instr::Reg {
        op: RegOp::Xor,
        rd: 0,
        rs1: 0,
        rs2: 0,
    }),
    Statement::Instr(Instr::Reg {
        op: RegOp::Srl,
        rd: 0,
        rs1: 0,
        rs2: 0,
    }),
    Statement::Instr(Instr::Reg {
        op: RegOp::Sra,
        rd: 0,
        rs1: 0,
        rs2: 0,
    }),
    Statement::Instr(Instr::Reg {
        op: RegOp::Or,
        rd: 0,
        rs1: 0,
        rs2: 0,
    }),
    Statement::Instr(Instr::Reg {
        op: RegOp::And,
        rd: 0,
        rs1: 0,
        rs2: 0,
    }),
    Statement::Instr(Instr::Reg {
        op: RegOp::Mul,
        rd: 0,
        rs1: 0,
        rs2: 0,
    }),
    Statement::Instr(Instr::Reg {
        op: RegOp::Mulh,
        rd: 0,
        rs1: 0,
        rs2: 0,
    }),
    Statement::Instr(Instr::Reg {
        op: RegOp::Mulhsu,
        rd: 0,
        rs1: 0,
        rs2: 0,
    }),
    Statement::Instr(Instr::Reg {
        op: RegOp::Mulhu,
        rd: 0,
        rs1: 0,
        rs2: 0,
    }),
    Statement::Instr(Instr::Reg {
        op: RegOp::Div,
        rd: 0,
        rs1: 0,
        rs2: 0,
    }),
    Statement::Instr(Instr::Reg {
        op: RegOp::Divu,
        rd: 0,
        rs1: 0,
        rs2: 0,
    }),
    Statement::Instr(Instr::Reg {
        op: RegOp::Rem,
        rd: 0,
        rs1: 0,
        rs2: 0,
    }),
    Statement::Instr(Instr::Reg {
        op: RegOp::Remu,
        rd: 0,
        rs1: 0,
        rs2: 0,
    }),
    Statement::Instr(Instr::Reg {
        op: RegOp::Addw,
        rd: 0,
        rs1: 0,
        rs2: 0,
    }),
    Statement::Instr(Instr::Reg {
        op: RegOp::Subw,
        rd: 0,
        rs1: 0,
        rs2: 0,
    }),
    Statement::Instr(Instr::Reg {
        op: RegOp::Sllw,
        rd: 0,
        rs1: 0,
        rs2: 0,
    }),
    Statement::Instr(Instr::Reg {
        op: RegOp::Srlw,
        rd: 0,
        rs1: 0,
        rs2: 0,
    }),
    Statement::Instr(Instr::Reg {
        op: RegOp::Sraw,
        rd: 0,
        rs1: 0,
        rs2: 0,
    }),
    Statement::Instr(Instr::Reg {
        op: RegOp::Mulw,
        rd: 0,
        rs1: 0,
        rs2: 0,
    }),
    Statement::Instr(Instr::Reg {
        op: RegOp::Divw,
        rd: 0,
        rs1: 0,
        rs2: 0,
    }),
    Statement::Instr(Instr::Reg {
        op: RegOp::Divuw,
        rd: 0,
        rs1: 0,
        rs2: 0,
    }),
    Statement::Instr(Instr::Reg {
        op: RegOp::Remw,
        rd: 0,
        rs1: 0,
        rs2: 0,
    }),
    Statement::Instr(Instr::Reg {
        op: RegOp::Remuw,
        rd: 0,
        rs1: 0,
        rs2: 0,
    }),
    Statement::Instr(Instr::Reg {
        op: RegOp::CSetBounds,
        rd: 0,
        rs1: 0,
        rs2: 0,
    }),
    Statement::Instr(Instr::Reg {
        op: RegOp::CSetBoundsExact,
        rd: 0,
        rs1: 0,
        rs2: 0,
    }),
    Statement::Instr(Instr::Reg {
        op: RegOp::CAndPerm,
        rd: 0,
        rs1: 0,
        rs2: 0,
    }),
    Statement::Instr(Instr::Reg {
        op: RegOp::CSetAddr,
        rd: 0,
        rs1: 0,
        rs2: 0,
    }),
    Statement::Instr(Instr::Reg {
        op: RegOp::CIncOffset,
        rd: 0,
        rs1: 0,
        rs2: 0,
    }),
    Statement::Instr(Instr::Reg {
        op: RegOp::CSub,
        rd: 0,
        rs1: 0,
        rs2: 0,
    }),
    Statement::Instr(Instr::Reg {
        op: RegOp::CTestSubset,
        rd: 0,
        rs1: 0,
        rs2: 0,
    }),
    Statement::Instr(Instr::Reg {
        op: RegOp::CSeqx,
        rd: 0,
        rs1: 0,
        rs2: 0,
    }),
    Statement::Instr(Instr::Imm {
        op: ImmOp::Addi,
        rd: 0,
        rs1: 0,
        imm: 0,
    }),
    Statement::Instr(Instr::Imm {
        op: ImmOp::Slti,
        rd: 0,
        rs1: 0,
        imm: 0,
    }),
    Statement::Instr(Instr::Imm {
        op: ImmOp::Sltiu,
        rd: 0,
        rs1: 0,
        imm: 0,
    }),
    Statement::Instr(Instr::Imm {
        op: ImmOp::Xori,
        rd: 0,
        rs1: 0,
        imm: 0,
    }),
    Statement::Instr(Instr::Imm {
        op: ImmOp::Ori,
        rd: 0,
        rs1: 0,
        imm: 0,
    }),
    Statement::Instr(Instr::Imm {
        op: ImmOp::Andi,
        rd: 0,
        rs1: 0,
        imm: 0,
    }),
    Statement::Instr(Instr::Imm {
        op: ImmOp::Slli,
        rd: 0,
        rs1: 0,
        imm: 0,
    }),
    Statement::Instr(Instr::Imm {
        op: ImmOp::Srli,
        rd: 0,
        rs1: 0,
        imm: 0,
    }),
    Statement::Instr(Instr::Imm {
        op: ImmOp::Srai,
        rd: 0,
        rs1: 0,
        imm: 0,
    }),
    Statement::Instr(Instr::Imm {
        op: ImmOp::Addiw,
        rd: 0,
        rs1: 0,
        imm: 0,
    }),
    Statement::Instr(Instr::Imm {
        op: ImmOp::Slliw,
        rd: 0,
        rs1: 0,
        imm: 0,
    }),
    Statement::Instr(Instr::Imm {
        op: ImmOp::Srliw,
        rd: 0,
        rs1: 0,
        imm: 0,
    }),
    Statement::Instr(Instr::Imm {
        op: ImmOp::Sraiw,
        rd: 0,
        rs1: 0,
        imm: 0,
    }),
    Statement::Instr(Instr::Imm {
        op: ImmOp::CIncOffsetImm,
        rd: 0,
        rs1: 0,
        imm: 0,
    }),
    Statement::Instr(Instr::Imm {
        op: ImmOp::CSetBoundsImm,
        rd: 0,
        rs1: 0,
        imm: 0,
    }),
    Statement::Instr(Instr::Load {
        op: LoadOp::Lb,
        rd: 0,
        rs1: 0,
        imm: 0,
    }),
    Statement::Instr(Instr::Load {
        op: LoadOp::Lh,
        rd: 0,
        rs1: 0,
        imm: 0,
    }),
    Statement::Instr(Instr::Load {
        op: LoadOp::Lw,
        rd: 0,
        rs1: 0,
        imm: 0,
    }),
    Statement::Instr(Instr::Load {
        op: LoadOp::Ld,
        rd: 0,
        rs1: 0,
        imm: 0,
    }),
    Statement::Instr(Instr::Load {
        op: LoadOp::Lbu,
        rd: 0,
        rs1: 0,
        imm: 0,
    }),
    Statement::Instr(Instr::Load {
        op: LoadOp::Lhu,
        rd: 0,
        rs1: 0,
        imm: 0,
    }),
    Statement::Instr(Instr::Load {
        op: LoadOp::Lwu,
        rd: 0,
        rs1: 0,
        imm: 0,
    }),
    Statement::Instr(Instr::Load {
        op: LoadOp::Clc,
        rd: 0,
        rs1: 0,
        imm: 0,
    }),
    Statement::Instr(Instr::Store {
        op: StoreOp::Sb,
        rs1: 0,
        rs2: 0,
        imm: 0,
    }),
    Statement::Instr(Instr::Store {
        op: StoreOp::Sh,
        rs1: 0,
        rs2: 0,
        imm: 0,
    }),
    Statement::Instr(Instr::Store {
        op: StoreOp::Sw,
        rs1: 0,
        rs2: 0,
        imm: 0,
    }),
    Statement::Instr(Instr::Store {
        op: StoreOp::Sd,
        rs1: 0,
        rs2: 0,
        imm: 0,
    }),
    Statement::Instr(Instr::Store {
        op: StoreOp::Csc,
        rs1: 0,
        rs2: 0,
        imm: 0,
    }),
    Statement::Instr(Instr::Branch {
        op: BranchOp::Beq,
        rs1: 0,
        rs2: 0,
        imm: 0,
    }),
    Statement::Instr(Instr::Branch {
        op: BranchOp::Bne,
        rs1: 0,
        rs2: 0,
        imm: 0,
    }),
    Statement::Instr(Instr::Branch {
        op: BranchOp::Blt,
        rs1: 0,
        rs2: 0,
        imm: 0,
    }),
    Statement::Instr(Instr::Branch {
        op: BranchOp::Bge,
        rs1: 0,
        rs2: 0,
        imm: 0,
    }),
    Statement::Instr(Instr::Branch {
        op: BranchOp::Bltu,
        rs1: 0,
        rs2: 0,
        imm: 0,
    }),
    Statement::Instr(Instr::Branch {
        op: BranchOp::Bgeu,
        rs1: 0,
        rs2: 0,
        imm: 0,
    }),
    Statement::Instr(Instr::Upper {
        op: UpperOp::Lui,
        rd: 0,
        imm: 0,
    }),
    Statement::Instr(Instr::Upper {
        op: UpperOp::Auipcc,
        rd: 0,
        imm: 0,
    }),
    Statement::Instr(Instr::One {
        op: OneOp::CGetPerm,
        rd: 0,
        rs1: 0,
    }),
    Statement::Instr(Instr::One {
        op: OneOp::CGetBase,
        rd: 0,
        rs1: 0,
    }),
    Statement::Instr(Instr::One {
        op: OneOp::CGetLen,
        rd: 0,
        rs1: 0,
    }),
    Statement::Instr(Instr::One {
        op: OneOp::CGetTag,
        rd: 0,
        rs1: 0,
    }),
    Statement::Instr(Instr::One {
        op: OneOp::CGetSealed,
        rd: 0,
        rs1: 0,
    }),
    Statement::Instr(Instr::One {
        op: OneOp::CGetOffset,
        rd: 0,
        rs1: 0,
    }),
    Statement::Instr(Instr::One {
        op: OneOp::Crrl,
        rd: 0,
        rs1: 0,
    }),
    Statement::Instr(Instr::One {
        op: OneOp::Cram,
        rd: 0,
        rs1: 0,
    }),
    Statement::Instr(Instr::One {
        op: OneOp::CMove,
        rd: 0,
        rs1: 0,
    }),
    Statement::Instr(Instr::One {
        op: OneOp::CClearTag,
        rd: 0,
        rs1: 0,
    }),
    Statement::Instr(Instr::One {
        op: OneOp::CGetAddr,
        rd: 0,
        rs1: 0,
    }),
    Statement::Instr(Instr::One {
        op: OneOp::CSealEntry,
        rd: 0,
        rs1: 0,
    }),
    Statement::Instr(Instr::Jal { rd: 0, imm: 0 }),
    Statement::Instr(Instr::Jalr {
        rd: 0,
        rs1: 0,
        imm: 0,
    }),
    Statement::Instr(Instr::Ecall),
    Statement::Instr(Instr::Ebreak),
    Statement::Instr(Instr::Fence),
    Statement::Segment,
    Statement::Entry,
    Statement::Data(DataSize::Byte),
    Statement::Data(DataSize::Half),
    Statement::Data(DataSize::Word),
    Statement::Data(DataSize::Quad),
    Statement::Ascii,
    Statement::Space,
    Statement::Align,
    Statement::Bss,
    Statement::Cap,
];

// The name of a statement.
fn name(statement: &Statement) -> &'static [u8]
    ensures { result.now ≡ name_of statement.now }
{
    match statement {
        Statement::Instr(instr) => mnemonic(instr),
        Statement::Segment => b".segment",
        Statement::Entry => b".entry",
        Statement::Data(size) => size.name(),
        Statement::Ascii => b".ascii",
        Statement::Space => b".space",
        Statement::Align => b".align",
        Statement::Bss => b".bss",
        Statement::Cap => b".cap",
    }
}

/// The statement of this name.
pub fn statement_named(word: &[u8]) -> Option<Statement>
    ensures { result ≡ statement_named word.now }
{
    STATEMENTS
        .iter()
        .find(|statement| name(statement) == word)
        .copied()
}

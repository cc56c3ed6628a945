// Words and instructions, from the formats of the RISC-V manual and from the table of `docs/FORMATS.md`.
use super::*;

/// A word of each row, and its instruction.
const ROWS: [(u32, Instr); 98] = [
    (
        0x00100513,
        Instr::Imm {
            op: ImmOp::Addi,
            rd: 10,
            rs1: 0,
            imm: 1,
        },
    ),
    (
        0x020115db,
        Instr::Imm {
            op: ImmOp::CIncOffsetImm,
            rd: 11,
            rs1: 2,
            imm: 32,
        },
    ),
    (
        0x0025a5db,
        Instr::Imm {
            op: ImmOp::CSetBoundsImm,
            rd: 11,
            rs1: 11,
            imm: 2,
        },
    ),
    (
        0x00014503,
        Instr::Load {
            op: LoadOp::Lbu,
            rd: 10,
            rs1: 2,
            imm: 0,
        },
    ),
    (
        0x00010023,
        Instr::Store {
            op: StoreOp::Sb,
            rs1: 2,
            rs2: 0,
            imm: 0,
        },
    ),
    (
        0x013303b3,
        Instr::Reg {
            op: RegOp::Add,
            rd: 7,
            rs1: 6,
            rs2: 19,
        },
    ),
    (
        0x40048733,
        Instr::Reg {
            op: RegOp::Sub,
            rd: 14,
            rs1: 9,
            rs2: 0,
        },
    ),
    (
        0x00d61ab3,
        Instr::Reg {
            op: RegOp::Sll,
            rd: 21,
            rs1: 12,
            rs2: 13,
        },
    ),
    (
        0x01a7ae33,
        Instr::Reg {
            op: RegOp::Slt,
            rd: 28,
            rs1: 15,
            rs2: 26,
        },
    ),
    (
        0x007931b3,
        Instr::Reg {
            op: RegOp::Sltu,
            rd: 3,
            rs1: 18,
            rs2: 7,
        },
    ),
    (
        0x014ac533,
        Instr::Reg {
            op: RegOp::Xor,
            rd: 10,
            rs1: 21,
            rs2: 20,
        },
    ),
    (
        0x001c58b3,
        Instr::Reg {
            op: RegOp::Srl,
            rd: 17,
            rs1: 24,
            rs2: 1,
        },
    ),
    (
        0x40eddc33,
        Instr::Reg {
            op: RegOp::Sra,
            rd: 24,
            rs1: 27,
            rs2: 14,
        },
    ),
    (
        0x01bf6fb3,
        Instr::Reg {
            op: RegOp::Or,
            rd: 31,
            rs1: 30,
            rs2: 27,
        },
    ),
    (
        0x0080f333,
        Instr::Reg {
            op: RegOp::And,
            rd: 6,
            rs1: 1,
            rs2: 8,
        },
    ),
    (
        0x035206b3,
        Instr::Reg {
            op: RegOp::Mul,
            rd: 13,
            rs1: 4,
            rs2: 21,
        },
    ),
    (
        0x02239a33,
        Instr::Reg {
            op: RegOp::Mulh,
            rd: 20,
            rs1: 7,
            rs2: 2,
        },
    ),
    (
        0x02f52db3,
        Instr::Reg {
            op: RegOp::Mulhsu,
            rd: 27,
            rs1: 10,
            rs2: 15,
        },
    ),
    (
        0x03c6b133,
        Instr::Reg {
            op: RegOp::Mulhu,
            rd: 2,
            rs1: 13,
            rs2: 28,
        },
    ),
    (
        0x029844b3,
        Instr::Reg {
            op: RegOp::Div,
            rd: 9,
            rs1: 16,
            rs2: 9,
        },
    ),
    (
        0x0369d833,
        Instr::Reg {
            op: RegOp::Divu,
            rd: 16,
            rs1: 19,
            rs2: 22,
        },
    ),
    (
        0x023b6bb3,
        Instr::Reg {
            op: RegOp::Rem,
            rd: 23,
            rs1: 22,
            rs2: 3,
        },
    ),
    (
        0x030cff33,
        Instr::Reg {
            op: RegOp::Remu,
            rd: 30,
            rs1: 25,
            rs2: 16,
        },
    ),
    (
        0x01de02bb,
        Instr::Reg {
            op: RegOp::Addw,
            rd: 5,
            rs1: 28,
            rs2: 29,
        },
    ),
    (
        0x40af863b,
        Instr::Reg {
            op: RegOp::Subw,
            rd: 12,
            rs1: 31,
            rs2: 10,
        },
    ),
    (
        0x017119bb,
        Instr::Reg {
            op: RegOp::Sllw,
            rd: 19,
            rs1: 2,
            rs2: 23,
        },
    ),
    (
        0x0042dd3b,
        Instr::Reg {
            op: RegOp::Srlw,
            rd: 26,
            rs1: 5,
            rs2: 4,
        },
    ),
    (
        0x411450bb,
        Instr::Reg {
            op: RegOp::Sraw,
            rd: 1,
            rs1: 8,
            rs2: 17,
        },
    ),
    (
        0x03e5843b,
        Instr::Reg {
            op: RegOp::Mulw,
            rd: 8,
            rs1: 11,
            rs2: 30,
        },
    ),
    (
        0x02b747bb,
        Instr::Reg {
            op: RegOp::Divw,
            rd: 15,
            rs1: 14,
            rs2: 11,
        },
    ),
    (
        0x0388db3b,
        Instr::Reg {
            op: RegOp::Divuw,
            rd: 22,
            rs1: 17,
            rs2: 24,
        },
    ),
    (
        0x025a6ebb,
        Instr::Reg {
            op: RegOp::Remw,
            rd: 29,
            rs1: 20,
            rs2: 5,
        },
    ),
    (
        0x032bf23b,
        Instr::Reg {
            op: RegOp::Remuw,
            rd: 4,
            rs1: 23,
            rs2: 18,
        },
    ),
    (
        0x11fd05db,
        Instr::Reg {
            op: RegOp::CSetBounds,
            rd: 11,
            rs1: 26,
            rs2: 31,
        },
    ),
    (
        0x12ce895b,
        Instr::Reg {
            op: RegOp::CSetBoundsExact,
            rd: 18,
            rs1: 29,
            rs2: 12,
        },
    ),
    (
        0x1b900cdb,
        Instr::Reg {
            op: RegOp::CAndPerm,
            rd: 25,
            rs1: 0,
            rs2: 25,
        },
    ),
    (
        0x2061805b,
        Instr::Reg {
            op: RegOp::CSetAddr,
            rd: 0,
            rs1: 3,
            rs2: 6,
        },
    ),
    (
        0x233303db,
        Instr::Reg {
            op: RegOp::CIncOffset,
            rd: 7,
            rs1: 6,
            rs2: 19,
        },
    ),
    (
        0x2804875b,
        Instr::Reg {
            op: RegOp::CSub,
            rd: 14,
            rs1: 9,
            rs2: 0,
        },
    ),
    (
        0x40d60adb,
        Instr::Reg {
            op: RegOp::CTestSubset,
            rd: 21,
            rs1: 12,
            rs2: 13,
        },
    ),
    (
        0x43a78e5b,
        Instr::Reg {
            op: RegOp::CSeqx,
            rd: 28,
            rs1: 15,
            rs2: 26,
        },
    ),
    (
        0xfff90193,
        Instr::Imm {
            op: ImmOp::Addi,
            rd: 3,
            rs1: 18,
            imm: -1,
        },
    ),
    (
        0x800aa513,
        Instr::Imm {
            op: ImmOp::Slti,
            rd: 10,
            rs1: 21,
            imm: -2048,
        },
    ),
    (
        0x7ffc3893,
        Instr::Imm {
            op: ImmOp::Sltiu,
            rd: 17,
            rs1: 24,
            imm: 2047,
        },
    ),
    (
        0xaabdcc13,
        Instr::Imm {
            op: ImmOp::Xori,
            rd: 24,
            rs1: 27,
            imm: -1365,
        },
    ),
    (
        0x555f6f93,
        Instr::Imm {
            op: ImmOp::Ori,
            rd: 31,
            rs1: 30,
            imm: 1365,
        },
    ),
    (
        0x0ff0f313,
        Instr::Imm {
            op: ImmOp::Andi,
            rd: 6,
            rs1: 1,
            imm: 255,
        },
    ),
    (
        0xffe2069b,
        Instr::Imm {
            op: ImmOp::Addiw,
            rd: 13,
            rs1: 4,
            imm: -2,
        },
    ),
    (
        0xfe039a5b,
        Instr::Imm {
            op: ImmOp::CIncOffsetImm,
            rd: 20,
            rs1: 7,
            imm: -32,
        },
    ),
    (
        0xfff52ddb,
        Instr::Imm {
            op: ImmOp::CSetBoundsImm,
            rd: 27,
            rs1: 10,
            imm: 4095,
        },
    ),
    (
        0x03f69113,
        Instr::Imm {
            op: ImmOp::Slli,
            rd: 2,
            rs1: 13,
            imm: 63,
        },
    ),
    (
        0x02085493,
        Instr::Imm {
            op: ImmOp::Srli,
            rd: 9,
            rs1: 16,
            imm: 32,
        },
    ),
    (
        0x4219d813,
        Instr::Imm {
            op: ImmOp::Srai,
            rd: 16,
            rs1: 19,
            imm: 33,
        },
    ),
    (
        0x01fb1b9b,
        Instr::Imm {
            op: ImmOp::Slliw,
            rd: 23,
            rs1: 22,
            imm: 31,
        },
    ),
    (
        0x001cdf1b,
        Instr::Imm {
            op: ImmOp::Srliw,
            rd: 30,
            rs1: 25,
            imm: 1,
        },
    ),
    (
        0x411e529b,
        Instr::Imm {
            op: ImmOp::Sraiw,
            rd: 5,
            rs1: 28,
            imm: 17,
        },
    ),
    (
        0x800f8603,
        Instr::Load {
            op: LoadOp::Lb,
            rd: 12,
            rs1: 31,
            imm: -2048,
        },
    ),
    (
        0x7ff11983,
        Instr::Load {
            op: LoadOp::Lh,
            rd: 19,
            rs1: 2,
            imm: 2047,
        },
    ),
    (
        0xffc2ad03,
        Instr::Load {
            op: LoadOp::Lw,
            rd: 26,
            rs1: 5,
            imm: -4,
        },
    ),
    (
        0x00843083,
        Instr::Load {
            op: LoadOp::Ld,
            rd: 1,
            rs1: 8,
            imm: 8,
        },
    ),
    (
        0x0005c403,
        Instr::Load {
            op: LoadOp::Lbu,
            rd: 8,
            rs1: 11,
            imm: 0,
        },
    ),
    (
        0xffe75783,
        Instr::Load {
            op: LoadOp::Lhu,
            rd: 15,
            rs1: 14,
            imm: -2,
        },
    ),
    (
        0x5548eb03,
        Instr::Load {
            op: LoadOp::Lwu,
            rd: 22,
            rs1: 17,
            imm: 1364,
        },
    ),
    (
        0xff0a2e8f,
        Instr::Load {
            op: LoadOp::Clc,
            rd: 29,
            rs1: 20,
            imm: -16,
        },
    ),
    (
        0x81720023,
        Instr::Store {
            op: StoreOp::Sb,
            rs1: 4,
            rs2: 23,
            imm: -2048,
        },
    ),
    (
        0x7fa59fa3,
        Instr::Store {
            op: StoreOp::Sh,
            rs1: 11,
            rs2: 26,
            imm: 2047,
        },
    ),
    (
        0xfdd92e23,
        Instr::Store {
            op: StoreOp::Sw,
            rs1: 18,
            rs2: 29,
            imm: -36,
        },
    ),
    (
        0x3e0cb423,
        Instr::Store {
            op: StoreOp::Sd,
            rs1: 25,
            rs2: 0,
            imm: 1000,
        },
    ),
    (
        0xfe304823,
        Instr::Store {
            op: StoreOp::Csc,
            rs1: 0,
            rs2: 3,
            imm: -16,
        },
    ),
    (
        0x80638063,
        Instr::Branch {
            op: BranchOp::Beq,
            rs1: 7,
            rs2: 6,
            imm: -4096,
        },
    ),
    (
        0x7e971fe3,
        Instr::Branch {
            op: BranchOp::Bne,
            rs1: 14,
            rs2: 9,
            imm: 4094,
        },
    ),
    (
        0xfecacfe3,
        Instr::Branch {
            op: BranchOp::Blt,
            rs1: 21,
            rs2: 12,
            imm: -2,
        },
    ),
    (
        0x00fe50e3,
        Instr::Branch {
            op: BranchOp::Bge,
            rs1: 28,
            rs2: 15,
            imm: 2048,
        },
    ),
    (
        0xab21e5e3,
        Instr::Branch {
            op: BranchOp::Bltu,
            rs1: 3,
            rs2: 18,
            imm: -1366,
        },
    ),
    (
        0x03557f63,
        Instr::Branch {
            op: BranchOp::Bgeu,
            rs1: 10,
            rs2: 21,
            imm: 62,
        },
    ),
    (
        0xfffff8b7,
        Instr::Upper {
            op: UpperOp::Lui,
            rd: 17,
            imm: 0xfffff,
        },
    ),
    (
        0x12345c17,
        Instr::Upper {
            op: UpperOp::Auipcc,
            rd: 24,
            imm: 0x12345,
        },
    ),
    (
        0x80000fef,
        Instr::Jal {
            rd: 31,
            imm: -1048576,
        },
    ),
    (
        0x7ffff36f,
        Instr::Jal {
            rd: 6,
            imm: 1048574,
        },
    ),
    (0xfffff6ef, Instr::Jal { rd: 13, imm: -2 }),
    (0x00100a6f, Instr::Jal { rd: 20, imm: 2048 }),
    (
        0x2abaadef,
        Instr::Jal {
            rd: 27,
            imm: 699050,
        },
    ),
    (
        0xffc68167,
        Instr::Jalr {
            rd: 2,
            rs1: 13,
            imm: -4,
        },
    ),
    (
        0xfe0804db,
        Instr::One {
            op: OneOp::CGetPerm,
            rd: 9,
            rs1: 16,
        },
    ),
    (
        0xfe29885b,
        Instr::One {
            op: OneOp::CGetBase,
            rd: 16,
            rs1: 19,
        },
    ),
    (
        0xfe3b0bdb,
        Instr::One {
            op: OneOp::CGetLen,
            rd: 23,
            rs1: 22,
        },
    ),
    (
        0xfe4c8f5b,
        Instr::One {
            op: OneOp::CGetTag,
            rd: 30,
            rs1: 25,
        },
    ),
    (
        0xfe5e02db,
        Instr::One {
            op: OneOp::CGetSealed,
            rd: 5,
            rs1: 28,
        },
    ),
    (
        0xfe6f865b,
        Instr::One {
            op: OneOp::CGetOffset,
            rd: 12,
            rs1: 31,
        },
    ),
    (
        0xfe8109db,
        Instr::One {
            op: OneOp::Crrl,
            rd: 19,
            rs1: 2,
        },
    ),
    (
        0xfe928d5b,
        Instr::One {
            op: OneOp::Cram,
            rd: 26,
            rs1: 5,
        },
    ),
    (
        0xfea400db,
        Instr::One {
            op: OneOp::CMove,
            rd: 1,
            rs1: 8,
        },
    ),
    (
        0xfeb5845b,
        Instr::One {
            op: OneOp::CClearTag,
            rd: 8,
            rs1: 11,
        },
    ),
    (
        0xfef707db,
        Instr::One {
            op: OneOp::CGetAddr,
            rd: 15,
            rs1: 14,
        },
    ),
    (
        0xff188b5b,
        Instr::One {
            op: OneOp::CSealEntry,
            rd: 22,
            rs1: 17,
        },
    ),
    (0x00000073, Instr::Ecall),
    (0x00100073, Instr::Ebreak),
    (0x0ff0000f, Instr::Fence),
];

/// Words just outside a row.
const OUTSIDE: [u32; 48] = [
    0x00000000, // all zeros
    0xffffffff, // all ones
    0x0202119b, // slliw with bit 25 set
    0x0202519b, // srliw with bit 25 set
    0x4202519b, // sraiw with bit 25 set
    0x043100b3, // add with funct7 off by one bit
    0x803100b3, // add with bit 31
    0x403110b3, // sll with bit 30
    0x423150b3, // sra and divu at once
    0x403170b3, // and with bit 30
    0x003120bb, // opcode 3b, funct3 2
    0x023110bb, // no mulhw
    0xc03150bb, // sraw with bit 31
    0x48525193, // srai with bit 27 set
    0x40521193, // slli with bit 30
    0x80525193, // srli with bit 31
    0x0052219b, // opcode 1b, funct3 2
    0x0000000f, // fence with no sets
    0x0ff0008f, // fence with rd
    0x0ff0800f, // fence with rs1
    0x0ff0100f, // fence.i's funct3
    0x1ff0000f, // fence with fm
    0x0fe0000f, // fence with another set
    0x000000f3, // ecall with rd
    0x00008073, // ecall with rs1
    0x001000f3, // ebreak with rd
    0x00108073, // ebreak with rs1
    0x00200073, // rs2 of 2
    0x00001073, // csrrw
    0x000130db, // opcode 5b, funct3 3
    0x000170db, // opcode 5b, funct3 7
    0xfe1100db, // no operation on one register of code 1
    0xfe7100db, // no operation on one register of code 7
    0xfec100db, // no operation on one register of code 12
    0xfee100db, // no operation on one register of code 14
    0xff0100db, // no operation on one register of code 16
    0xff2100db, // no operation on one register of code 18
    0xfff100db, // no operation on one register of code 31
    0xfc0100db, // opcode 5b, funct7 7e
    0x140100db, // opcode 5b, funct7 0a
    0x00017083, // no load of funct3 7
    0x0020d023, // no store of funct3 5
    0x0020a263, // no branch of funct3 2
    0x0020b263, // no branch of funct3 3
    0x000110e7, // cjalr with funct3 1
    0x0001308f, // opcode 0f, funct3 3
    0x000010d7, // opcode 57
    0x00100512, // opcode of two low bits 2
];

/// Instructions with no word.
const REFUSED: [Instr; 43] = [
    Instr::Reg {
        op: RegOp::Add,
        rd: 32,
        rs1: 1,
        rs2: 1,
    },
    Instr::Reg {
        op: RegOp::Add,
        rd: 1,
        rs1: 32,
        rs2: 1,
    },
    Instr::Reg {
        op: RegOp::Add,
        rd: 1,
        rs1: 1,
        rs2: 32,
    },
    Instr::Imm {
        op: ImmOp::Addi,
        rd: 1,
        rs1: 2,
        imm: -2049,
    },
    Instr::Imm {
        op: ImmOp::Addi,
        rd: 1,
        rs1: 2,
        imm: 2048,
    },
    Instr::Imm {
        op: ImmOp::CIncOffsetImm,
        rd: 1,
        rs1: 2,
        imm: -2049,
    },
    Instr::Imm {
        op: ImmOp::CIncOffsetImm,
        rd: 1,
        rs1: 2,
        imm: 2048,
    },
    Instr::Imm {
        op: ImmOp::CSetBoundsImm,
        rd: 1,
        rs1: 2,
        imm: -1,
    },
    Instr::Imm {
        op: ImmOp::CSetBoundsImm,
        rd: 1,
        rs1: 2,
        imm: 4096,
    },
    Instr::Imm {
        op: ImmOp::Slli,
        rd: 1,
        rs1: 2,
        imm: -1,
    },
    Instr::Imm {
        op: ImmOp::Slli,
        rd: 1,
        rs1: 2,
        imm: 64,
    },
    Instr::Imm {
        op: ImmOp::Srai,
        rd: 1,
        rs1: 2,
        imm: -1,
    },
    Instr::Imm {
        op: ImmOp::Srai,
        rd: 1,
        rs1: 2,
        imm: 64,
    },
    Instr::Imm {
        op: ImmOp::Slliw,
        rd: 1,
        rs1: 2,
        imm: -1,
    },
    Instr::Imm {
        op: ImmOp::Slliw,
        rd: 1,
        rs1: 2,
        imm: 32,
    },
    Instr::Imm {
        op: ImmOp::Sraiw,
        rd: 1,
        rs1: 2,
        imm: -1,
    },
    Instr::Imm {
        op: ImmOp::Sraiw,
        rd: 1,
        rs1: 2,
        imm: 32,
    },
    Instr::Imm {
        op: ImmOp::Addi,
        rd: 32,
        rs1: 2,
        imm: 0,
    },
    Instr::Imm {
        op: ImmOp::Addi,
        rd: 1,
        rs1: 255,
        imm: 0,
    },
    Instr::Load {
        op: LoadOp::Lw,
        rd: 1,
        rs1: 2,
        imm: -2049,
    },
    Instr::Store {
        op: StoreOp::Sw,
        rs1: 1,
        rs2: 2,
        imm: -2049,
    },
    Instr::Jalr {
        rd: 1,
        rs1: 2,
        imm: -2049,
    },
    Instr::Load {
        op: LoadOp::Lw,
        rd: 1,
        rs1: 2,
        imm: 2048,
    },
    Instr::Store {
        op: StoreOp::Sw,
        rs1: 1,
        rs2: 2,
        imm: 2048,
    },
    Instr::Jalr {
        rd: 1,
        rs1: 2,
        imm: 2048,
    },
    Instr::Load {
        op: LoadOp::Lw,
        rd: 1,
        rs1: 32,
        imm: 0,
    },
    Instr::Store {
        op: StoreOp::Sw,
        rs1: 1,
        rs2: 32,
        imm: 0,
    },
    Instr::Jalr {
        rd: 32,
        rs1: 2,
        imm: 0,
    },
    Instr::Branch {
        op: BranchOp::Beq,
        rs1: 1,
        rs2: 2,
        imm: -4098,
    },
    Instr::Branch {
        op: BranchOp::Beq,
        rs1: 1,
        rs2: 2,
        imm: -4097,
    },
    Instr::Branch {
        op: BranchOp::Beq,
        rs1: 1,
        rs2: 2,
        imm: 4096,
    },
    Instr::Branch {
        op: BranchOp::Beq,
        rs1: 1,
        rs2: 2,
        imm: 3,
    },
    Instr::Branch {
        op: BranchOp::Beq,
        rs1: 1,
        rs2: 2,
        imm: -1,
    },
    Instr::Branch {
        op: BranchOp::Beq,
        rs1: 1,
        rs2: 32,
        imm: 4,
    },
    Instr::Jal {
        rd: 1,
        imm: -1048578,
    },
    Instr::Jal {
        rd: 1,
        imm: 1048576,
    },
    Instr::Jal { rd: 1, imm: 1 },
    Instr::Jal { rd: 1, imm: -3 },
    Instr::Jal { rd: 32, imm: 4 },
    Instr::Upper {
        op: UpperOp::Lui,
        rd: 1,
        imm: 0x100000,
    },
    Instr::Upper {
        op: UpperOp::Lui,
        rd: 32,
        imm: 1,
    },
    Instr::One {
        op: OneOp::CMove,
        rd: 32,
        rs1: 1,
    },
    Instr::One {
        op: OneOp::CMove,
        rd: 1,
        rs1: 32,
    },
];

#[test]
fn a_word_of_each_row_and_back(rt: HostRuntime) {
    for (word, i) in ROWS.iter() {
        assert_eq!(rt; decode(*word), Some(*i));
        assert_eq!(rt; encode(i), Some(*word));
    }
}

#[test]
fn words_of_no_row(rt: HostRuntime) {
    for word in OUTSIDE.iter() {
        assert_eq!(rt; decode(*word), None);
    }
}

#[test]
fn instructions_with_no_word(rt: HostRuntime) {
    for i in REFUSED.iter() {
        assert_eq!(rt; encode(i), None);
    }
}

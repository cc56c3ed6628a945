// From an instruction to its word.
ghost use Rattle.std.specs.Prelude.{◌≡◌, ◌↔◌, ◌<◌, ◌^◌, ℕ, IsSome, IfSome, Some, IsTrue};
ghost use Rattle.riscv_decode.specs.Table.{IsRow, IsInRange, IsImmediateIn};
ghost use Rattle.riscv_decode.specs.Code.{as_row, is_small};
ghost use Rattle.riscv_decode.specs.Encoded.{word_of, bits_in, word_r, word_i, word_s, word_u, word_one};

use crate::fields::{joined, placed_b, placed_j, unsigned_of};
use crate::instr::Instr;
use crate::ops::Op;
use crate::ranges::is_in_range;
use crate::rows::Row;

/// The word of an instruction: None exactly where a register is over 31, the immediate is out of the range of
/// its row, or the distance of a branch or of cjal is odd.
pub fn encode(i: &Instr) -> Option<u32>
    ensures word { (word : ℕ) → word < 2 ^ 32 → (IsRow word i.now ↔ (result ≡ Some word)) }
    ensures is { IfSome result (λ word. word ≡ word_of i.now) }
    ensures some { IsSome result ↔ IsInRange i.now }
{
    if is_in_range(i) {
        Some(word_of(i))
    } else {
        None
    }
}

/// The word of an instruction in range.
fn word_of(i: &Instr) -> u32
    requires { IsInRange i.now }
    ensures { result ≡ word_of i.now }
{
    let row = Op::of(i).row();
    match *i {
        Instr::Reg { rd, rs1, rs2, .. } => row.word_r(rd, rs1, rs2),
        Instr::Imm { rd, rs1, imm, .. } => row.word_i(rd, rs1, row.bits(imm)),
        Instr::Load { rd, rs1, imm, .. } => row.word_i(rd, rs1, unsigned_of(4096, imm)),
        Instr::Store { rs1, rs2, imm, .. } => row.word_s(rs1, rs2, unsigned_of(4096, imm)),
        Instr::Branch { rs1, rs2, imm, .. } => row.word_s(
            rs1,
            rs2,
            placed_b(unsigned_of(8192, imm)),
        ),
        Instr::Upper { rd, imm, .. } => row.word_u(rd, imm),
        Instr::Jal { rd, imm } => row.word_u(rd, placed_j(unsigned_of(2097152, imm))),
        Instr::Jalr { rd, rs1, imm } => row.word_i(rd, rs1, unsigned_of(4096, imm)),
        Instr::One { rd, rs1, .. } => row.word_one(rd, rs1),
        Instr::Ecall | Instr::Ebreak | Instr::Fence => row.word_one(0, 0),
    }
}

impl Row {
    /// The word of the row with three registers.
    fn word_r(self, rd: u8, rs1: u8, rs2: u8) -> u32
        requires row { IsTrue (is_small (as_row self)) }
        requires rd { rd < 32 }
        requires rs1 { rs1 < 32 }
        requires rs2 { rs2 < 32 }
        ensures { result ≡ word_r (as_row self) rd rs1 rs2 }
    {
        joined(
            self.opcode(),
            rd as u32,
            self.funct3(),
            rs1 as u32,
            rs2 as u32,
            self.funct7(),
        )
    }

    /// The word of the row with two registers and the highest 12 bits.
    fn word_i(self, rd: u8, rs1: u8, bits: u32) -> u32
        requires row { IsTrue (is_small (as_row self)) }
        requires rd { rd < 32 }
        requires rs1 { rs1 < 32 }
        requires bits { bits < 2 ^ 12 }
        ensures { result ≡ word_i (as_row self) rd rs1 bits }
    {
        joined(
            self.opcode(),
            rd as u32,
            self.funct3(),
            rs1 as u32,
            bits % 32,
            bits / 32,
        )
    }

    /// The word of the row with two sources and 12 bits around them.
    fn word_s(self, rs1: u8, rs2: u8, bits: u32) -> u32
        requires row { IsTrue (is_small (as_row self)) }
        requires rs1 { rs1 < 32 }
        requires rs2 { rs2 < 32 }
        requires bits { bits < 2 ^ 12 }
        ensures { result ≡ word_s (as_row self) rs1 rs2 bits }
    {
        joined(
            self.opcode(),
            bits % 32,
            self.funct3(),
            rs1 as u32,
            rs2 as u32,
            bits / 32,
        )
    }

    /// The word of the row with a destination and the highest 20 bits.
    fn word_u(self, rd: u8, bits: u32) -> u32
        requires row { IsTrue (is_small (as_row self)) }
        requires rd { rd < 32 }
        requires bits { bits < 2 ^ 20 }
        ensures { result ≡ word_u (as_row self) rd bits }
    {
        joined(
            self.opcode(),
            rd as u32,
            bits % 8,
            bits / 8 % 32,
            bits / 256 % 32,
            bits / 8192,
        )
    }

    /// The word of the row with a destination and a source, and all else as the row fixes it.
    fn word_one(self, rd: u8, rs1: u8) -> u32
        requires row { IsTrue (is_small (as_row self)) }
        requires rd { rd < 32 }
        requires rs1 { rs1 < 32 }
        ensures { result ≡ word_one (as_row self) rd rs1 }
    {
        joined(
            self.opcode(),
            rd as u32,
            self.funct3(),
            rs1 as u32,
            self.rs2(),
            self.funct7(),
        )
    }

    /// The 12 bits of an immediate, where a shift amount stands below what the row fixes.
    fn bits(self, imm: i32) -> u32
        requires row { IsTrue (is_small (as_row self)) }
        requires range { IsImmediateIn (as_row self).format imm }
        ensures value { result ≡ bits_in (as_row self).format (as_row self).funct7 imm }
        ensures below { result < 2 ^ 12 }
    {
        let amount = unsigned_of(4096, imm);
        match self {
            Row::Shift6(_, _, funct6) => amount + funct6 * 64,
            Row::Shift5(_, _, funct7) => amount + funct7 * 32,
            _ => amount,
        }
    }
}

// Which instructions have a word.
ghost use Rattle.std.specs.Prelude.{◌↔◌, IsTrue, ℤ, pos, ◌-ℤ◌, ◌≤ℤ◌};
ghost use Rattle.riscv_decode.specs.Rows.{imm_row};
ghost use Rattle.riscv_decode.specs.Table.{IsInRange, IsFrom, IsEven, IsSigned12, IsImmediateIn};

use crate::instr::{ImmOp, Instr};
use crate::rows::Row;

/// Whether the registers, the immediate and the distance of an instruction are in their ranges.
pub fn is_in_range(i: &Instr) -> bool
    ensures { IsTrue result ↔ IsInRange i.now }
{
    match *i {
        Instr::Reg { rd, rs1, rs2, .. } => rd < 32 && rs1 < 32 && rs2 < 32,
        Instr::Imm { op, rd, rs1, imm } => rd < 32 && rs1 < 32 && op.takes(imm),
        Instr::Load { rd, rs1, imm, .. } => rd < 32 && rs1 < 32 && is_signed12(imm),
        Instr::Store { rs1, rs2, imm, .. } => rs1 < 32 && rs2 < 32 && is_signed12(imm),
        Instr::Branch { rs1, rs2, imm, .. } => rs1 < 32 && rs2 < 32 && is_distance(4096, imm),
        Instr::Upper { rd, imm, .. } => rd < 32 && imm < 1 << 20,
        Instr::Jal { rd, imm } => rd < 32 && is_distance(1048576, imm),
        Instr::Jalr { rd, rs1, imm } => rd < 32 && rs1 < 32 && is_signed12(imm),
        Instr::One { rd, rs1, .. } => rd < 32 && rs1 < 32,
        Instr::Ecall | Instr::Ebreak | Instr::Fence => true,
    }
}

/// Whether a number is from the least on, below the other.
fn is_from(least: i32, past: i32, number: i32) -> bool
    ensures { IsTrue result ↔ IsFrom least past number }
{
    least <= number && number < past
}

/// Whether a number is one of 12 bits with a sign.
fn is_signed12(number: i32) -> bool
    ensures { IsTrue result ↔ IsSigned12 number }
{
    is_from(-2048, 2048, number)
}

/// Whether a distance is even, from so far back on, and below so far ahead.
fn is_distance(reach: i32, number: i32) -> bool
    requires { pos 0 ≤ℤ reach }
    ensures { IsTrue result ↔ (IsFrom (pos 0 -ℤ reach) reach number × IsEven number) }
{
    is_from(-reach, reach, number) && number.rem_euclid(2) == 0
}

impl ImmOp {
    /// Whether an immediate is in the range of the operation's row.
    fn takes(self, imm: i32) -> bool
        ensures { IsTrue result ↔ IsImmediateIn (imm_row self).format imm }
    {
        match self.row() {
            Row::Unsigned(_, _) => is_from(0, 4096, imm),
            Row::Shift6(_, _, _) => is_from(0, 64, imm),
            Row::Shift5(_, _, _) => is_from(0, 32, imm),
            _ => is_signed12(imm),
        }
    }
}

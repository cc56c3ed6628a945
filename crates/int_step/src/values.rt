// The values of 64 bits.
ghost use Rattle.std.specs.Prelude.{◌≡◌, ◌%◌, ◌^◌, pos, ◌*ℤ◌, IsTrue};
ghost use Rattle.riscv_decode.specs.Words.{signed};
ghost use Rattle.int_step.specs.Values.{quotient, remainder, high_half, shifted_signed, extended, is_integer, reg_value, register_row, operand, imm_value, taken};

use crate::words::word_value;
use riscv_decode::{BranchOp, ImmOp, RegOp};

/// The value of an integer row of two registers, for its operands: opcodes 33 and 3b, without the rows of capabilities.
///
/// Sums, differences and products wrap. A shift goes by the low 6 bits of the second operand, and in the rows of 32 bits by the
/// low 5. Division rounds toward zero; by zero the quotient is all ones and the remainder the dividend, and in the overflow of
/// signed division the quotient is the dividend and the remainder 0. The rows of 32 bits work on the low 32 bits of their
/// operands and extend the sign of the result. After the RISC-V unprivileged ISA.
pub fn reg_value(op: RegOp, a: u64, b: u64) -> u64
    requires integer { IsTrue (is_integer op) }
    ensures value { result ≡ reg_value op a b }
{
    match op {
        RegOp::Add => a.wrapping_add(b),
        RegOp::Sub => a.wrapping_sub(b),
        RegOp::Sll => a << (b % 64),
        RegOp::Slt => u64::from(a.cast_signed() < b.cast_signed()),
        RegOp::Sltu => u64::from(a < b),
        RegOp::Xor => a ^ b,
        RegOp::Srl => a >> (b % 64),
        RegOp::Sra => shifted_signed(a, b),
        RegOp::Or => a | b,
        RegOp::And => a & b,
        RegOp::Mul => a.wrapping_mul(b),
        RegOp::Mulh => high_signed(a, b),
        RegOp::Mulhsu => high_mixed(a, b),
        RegOp::Mulhu => high_unsigned(a, b),
        RegOp::Div => quotient(a, b),
        RegOp::Divu => a.checked_div(b).unwrap_or(u64::MAX),
        RegOp::Rem => remainder(a, b),
        RegOp::Remu => a.checked_rem(b).unwrap_or(a),
        _ => extended(word_value(op, low_word(a), low_word(b))),
    }
}

/// The value of an integer row of a register and an immediate, for the register's operand: that of the row of two registers that
/// does the same, with the immediate as the second operand. After the RISC-V unprivileged ISA.
pub fn imm_value(op: ImmOp, a: u64, imm: i32) -> u64
    requires integer { IsTrue (is_integer (register_row op)) }
    ensures value { result ≡ imm_value op a imm }
{
    reg_value(register_row(op), a, operand(imm))
}

/// The row of two registers that does the same as a row of a register and an immediate.
pub fn register_row(op: ImmOp) -> RegOp
    ensures { result ≡ register_row op }
{
    match op {
        ImmOp::Addi => RegOp::Add,
        ImmOp::Slti => RegOp::Slt,
        ImmOp::Sltiu => RegOp::Sltu,
        ImmOp::Xori => RegOp::Xor,
        ImmOp::Ori => RegOp::Or,
        ImmOp::Andi => RegOp::And,
        ImmOp::Slli => RegOp::Sll,
        ImmOp::Srli => RegOp::Srl,
        ImmOp::Srai => RegOp::Sra,
        ImmOp::Addiw => RegOp::Addw,
        ImmOp::Slliw => RegOp::Sllw,
        ImmOp::Srliw => RegOp::Srlw,
        ImmOp::Sraiw => RegOp::Sraw,
        ImmOp::CIncOffsetImm => RegOp::CIncOffset,
        ImmOp::CSetBoundsImm => RegOp::CSetBounds,
    }
}

/// Whether a row of two registers has an integer value: all but those of capabilities have.
pub fn is_integer(op: RegOp) -> bool
    ensures { result ≡ is_integer op }
{
    !matches!(
        op,
        RegOp::CSetBounds
            | RegOp::CSetBoundsExact
            | RegOp::CAndPerm
            | RegOp::CSetAddr
            | RegOp::CIncOffset
            | RegOp::CSub
            | RegOp::CTestSubset
            | RegOp::CSeqx
    )
}

/// An immediate as an operand: its sign is extended to 64 bits.
pub fn operand(imm: i32) -> u64
    ensures { result ≡ operand imm }
{
    i64::from(imm).cast_unsigned()
}

/// A number of 32 bits as one of 64 with the same sign.
pub fn extended(n: u32) -> u64
    ensures { result ≡ extended n }
{
    i64::from(n.cast_signed()).cast_unsigned()
}

/// Whether a branch is taken, for its operands. After the RISC-V unprivileged ISA.
pub fn taken(op: BranchOp, a: u64, b: u64) -> bool
    ensures { result ≡ taken op a b }
{
    match op {
        BranchOp::Beq => a == b,
        BranchOp::Bne => a != b,
        BranchOp::Blt => a.cast_signed() < b.cast_signed(),
        BranchOp::Bge => a.cast_signed() >= b.cast_signed(),
        BranchOp::Bltu => a < b,
        BranchOp::Bgeu => a >= b,
    }
}

// The low 32 bits.
fn low_word(n: u64) -> u32
    ensures { result ≡ n % 2 ^ 32 }
{
    (n % (1 << 32)) as u32
}

// To the right, with copies of the sign coming in.
fn shifted_signed(a: u64, b: u64) -> u64
    ensures { result ≡ shifted_signed 64 a b }
{
    (a.cast_signed() >> (b % 64)).cast_unsigned()
}

// The high half of the product of two signed integers.
fn high_signed(a: u64, b: u64) -> u64
    ensures { result ≡ high_half 64 (signed 64 a *ℤ signed 64 b) }
{
    let product = i128::from(a.cast_signed()) * i128::from(b.cast_signed());
    (product.cast_unsigned() >> 64) as u64
}

// The high half of the product of a signed and an unsigned integer.
fn high_mixed(a: u64, b: u64) -> u64
    ensures { result ≡ high_half 64 (signed 64 a *ℤ pos b) }
{
    let product = i128::from(a.cast_signed()) * i128::from(b);
    (product.cast_unsigned() >> 64) as u64
}

// The high half of the product of two unsigned integers.
fn high_unsigned(a: u64, b: u64) -> u64
    ensures { result ≡ high_half 64 (pos a *ℤ pos b) }
{
    ((u128::from(a) * u128::from(b)) >> 64) as u64
}

// The quotient of two signed integers, rounded toward zero.
fn quotient(a: u64, b: u64) -> u64
    ensures { result ≡ quotient 64 a b }
{
    if b == 0 {
        return u64::MAX;
    }
    a.cast_signed()
        .wrapping_div(b.cast_signed())
        .cast_unsigned()
}

// The remainder of that division.
fn remainder(a: u64, b: u64) -> u64
    ensures { result ≡ remainder 64 a b }
{
    if b == 0 {
        return a;
    }
    a.cast_signed()
        .wrapping_rem(b.cast_signed())
        .cast_unsigned()
}

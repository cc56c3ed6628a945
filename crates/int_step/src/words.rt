// The values of 32 bits.
ghost use Rattle.std.specs.Prelude.{◌≡◌, IsTrue};
ghost use Rattle.int_step.specs.Values.{quotient, remainder, shifted_signed};
ghost use Rattle.int_step.specs.Words.{is_word_row, word_value};

use riscv_decode::RegOp;

/// What a row of 32 bits gives before the sign is extended.
pub fn word_value(op: RegOp, a: u32, b: u32) -> u32
    requires word { IsTrue (is_word_row op) }
    ensures value { result ≡ word_value op a b }
{
    match op {
        RegOp::Addw => a.wrapping_add(b),
        RegOp::Subw => a.wrapping_sub(b),
        RegOp::Sllw => a << (b % 32),
        RegOp::Srlw => a >> (b % 32),
        RegOp::Sraw => (a.cast_signed() >> (b % 32)).cast_unsigned(),
        RegOp::Mulw => a.wrapping_mul(b),
        RegOp::Divw => quotient(a, b),
        RegOp::Divuw => a.checked_div(b).unwrap_or(u32::MAX),
        RegOp::Remw => remainder(a, b),
        _ => a.checked_rem(b).unwrap_or(a),
    }
}

// The quotient of two signed integers, rounded toward zero.
fn quotient(a: u32, b: u32) -> u32
    ensures { result ≡ quotient 32 a b }
{
    if b == 0 {
        return u32::MAX;
    }
    a.cast_signed()
        .wrapping_div(b.cast_signed())
        .cast_unsigned()
}

// The remainder of that division.
fn remainder(a: u32, b: u32) -> u32
    ensures { result ≡ remainder 32 a b }
{
    if b == 0 {
        return a;
    }
    a.cast_signed()
        .wrapping_rem(b.cast_signed())
        .cast_unsigned()
}

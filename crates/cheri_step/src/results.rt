// What instructions on capabilities and integers give.
ghost use Rattle.std.specs.Prelude.{◌≡◌, ◌<◌, ◌^◌};
ghost use Rattle.cheri_step.specs.Results.{reg_result, imm_result, upper_result, one_result, exact_bounds, is_around, is_subset, truth_cap, shown_base, shown_length};
ghost use Rattle.int_step.specs.Values.{wrapped};

use cap_format::{Cap, align_mask, rounded_length};
use int_step::{extended, operand, reg_value, register_row};
use riscv_decode::{ImmOp, OneOp, RegOp, UpperOp};

/// What a row of two sources gives.
pub fn reg_result(op: RegOp, a: Cap, b: Cap) -> Cap
    ensures { result ≡ reg_result op a b }
{
    match op {
        RegOp::CSetBounds => a.set_bounds(b.address()).cap,
        RegOp::CSetBoundsExact => exact_bounds(a, b.address()),
        RegOp::CAndPerm => a.and_perms((b.address() % (1 << 16)) as u16),
        RegOp::CSetAddr => a.with_address(b.address()),
        RegOp::CIncOffset => a.with_address(a.address().wrapping_add(b.address())),
        RegOp::CSub => Cap::from_int(a.address().wrapping_sub(b.address())),
        RegOp::CTestSubset => truth(is_subset(a, b)),
        RegOp::CSeqx => truth(a == b),
        _ => Cap::from_int(reg_value(op, a.address(), b.address())),
    }
}

/// What a row of a source and an immediate gives: what the row of two sources does, with the immediate as an integer.
pub fn imm_result(op: ImmOp, a: Cap, imm: i32) -> Cap
    ensures { result ≡ imm_result op a imm }
{
    reg_result(register_row(op), a, Cap::from_int(operand(imm)))
}

/// What a row of an upper immediate, below `2^20`, gives at PCC.
pub fn upper_result(op: UpperOp, pcc: Cap, imm: u32) -> Cap
    requires { imm < 2 ^ 20 }
    ensures { result ≡ upper_result op pcc imm }
{
    let upper = extended(imm * 4096);
    match op {
        UpperOp::Lui => Cap::from_int(upper),
        UpperOp::Auipcc => pcc.with_address(pcc.address().wrapping_add(upper)),
    }
}

/// What a row of one source gives.
pub fn one_result(op: OneOp, a: Cap) -> Cap
    ensures { result ≡ one_result op a }
{
    match op {
        OneOp::CGetPerm => Cap::from_int(u64::from(a.perms())),
        OneOp::CGetBase => Cap::from_int(shown_base(a)),
        OneOp::CGetLen => Cap::from_int(shown_length(a)),
        OneOp::CGetTag => truth(a.tag),
        OneOp::CGetSealed => truth(a.kind() != 0),
        OneOp::CGetOffset => Cap::from_int(a.address().wrapping_sub(shown_base(a))),
        OneOp::Crrl => Cap::from_int(rounded_length(a.address())),
        OneOp::Cram => Cap::from_int(align_mask(a.address())),
        OneOp::CMove => a,
        OneOp::CClearTag => Cap {
            bits: a.bits,
            tag: false,
        },
        OneOp::CGetAddr => Cap::from_int(a.address()),
        OneOp::CSealEntry => a.seal_entry(),
    }
}

// A truth value as an integer.
fn truth(holds: bool) -> Cap
    ensures { result ≡ truth_cap holds }
{
    Cap::from_int(u64::from(holds))
}

// The bounds that are asked for, without the tag where they were rounded.
fn exact_bounds(a: Cap, size: u64) -> Cap
    ensures { result ≡ exact_bounds a size }
{
    let bounded = a.set_bounds(size);
    Cap {
        bits: bounded.cap.bits,
        tag: bounded.cap.tag && bounded.exact,
    }
}

// Whether both are tagged, and the bounds and the permissions of the second are among those of the first.
fn is_subset(a: Cap, b: Cap) -> bool
    ensures { result ≡ is_subset a b }
{
    a.tag && b.tag && is_around(a, b) && a.allows(b.perms())
}

// Whether the bounds of the second lie in those of the first.
fn is_around(a: Cap, b: Cap) -> bool
    ensures { result ≡ is_around a b }
{
    a.base() <= b.base() && b.top() <= a.top()
}

// An integer without a bound modulo 2^64.
fn wrapped(value: i128) -> u64
    ensures { result ≡ wrapped 64 value }
{
    value.rem_euclid(1 << 64).unsigned_abs() as u64
}

// The base of a tagged capability, and 0 of an untagged one.
fn shown_base(a: Cap) -> u64
    ensures { result ≡ shown_base a }
{
    if a.tag { wrapped(a.base()) } else { 0 }
}

// The length of a tagged capability, and 0 of an untagged one.
fn shown_length(a: Cap) -> u64
    ensures { result ≡ shown_length a }
{
    if a.tag {
        (a.length() % (1 << 64)) as u64
    } else {
        0
    }
}

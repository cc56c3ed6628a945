// Values worked out by hand from the text of the RISC-V unprivileged ISA, RV64I and M.
use super::*;
use riscv_decode::{BranchOp, ImmOp, RegOp};

/// -1.
const ONES: u64 = u64::MAX;

/// The least signed integer of 64 bits.
const LEAST: u64 = 1 << 63;

/// The least signed integer of 32 bits, as an operand and as a result.
const LEAST_WORD: u64 = 1 << 31;

const LEAST_EXTENDED: u64 = 0xffffffff80000000;

#[test]
fn sums_and_differences_wrap(rt: HostRuntime) {
    let cases = [
        (RegOp::Add, 2, 3, 5),
        (RegOp::Add, ONES, 1, 0),
        (RegOp::Add, 0x7fffffffffffffff, 1, LEAST),
        (RegOp::Sub, 5, 3, 2),
        (RegOp::Sub, 0, 1, ONES),
        (RegOp::Sub, LEAST, 1, 0x7fffffffffffffff),
    ];
    for (op, a, b, want) in cases {
        assert!(rt; is_integer(op));
        assert_eq!(rt; reg_value(op, a, b), want, "{op:?} of {a:#x} and {b:#x}");
    }
}

#[test]
fn bits_are_combined(rt: HostRuntime) {
    let cases = [
        (
            RegOp::Xor,
            0xff00ff00ff00ff00,
            0x0ff00ff00ff00ff0,
            0xf0f0f0f0f0f0f0f0,
        ),
        (
            RegOp::Or,
            0xff00ff00ff00ff00,
            0x0ff00ff00ff00ff0,
            0xfff0fff0fff0fff0,
        ),
        (
            RegOp::And,
            0xff00ff00ff00ff00,
            0x0ff00ff00ff00ff0,
            0x0f000f000f000f00,
        ),
    ];
    for (op, a, b, want) in cases {
        assert!(rt; is_integer(op));
        assert_eq!(rt; reg_value(op, a, b), want, "{op:?} of {a:#x} and {b:#x}");
    }
}

#[test]
fn a_negative_integer_is_less_but_not_unsigned(rt: HostRuntime) {
    let cases = [
        (RegOp::Slt, ONES, 0, 1),
        (RegOp::Slt, 0, ONES, 0),
        (RegOp::Slt, LEAST, LEAST - 1, 1),
        (RegOp::Slt, 5, 5, 0),
        (RegOp::Sltu, ONES, 0, 0),
        (RegOp::Sltu, 0, ONES, 1),
        (RegOp::Sltu, LEAST, LEAST - 1, 0),
        (RegOp::Sltu, 5, 5, 0),
    ];
    for (op, a, b, want) in cases {
        assert!(rt; is_integer(op));
        assert_eq!(rt; reg_value(op, a, b), want, "{op:?} of {a:#x} and {b:#x}");
    }
}

#[test]
fn shifts_go_by_the_low_6_bits(rt: HostRuntime) {
    let cases = [
        (RegOp::Sll, 3, 63, LEAST),
        (RegOp::Sll, 3, 64, 3),
        (RegOp::Sll, 3, 32, 0x300000000),
        (RegOp::Sll, 3, 31, 0x180000000),
        (RegOp::Sll, 3, ONES, LEAST),
        (RegOp::Srl, LEAST, 63, 1),
        (RegOp::Srl, LEAST, 64, LEAST),
        (RegOp::Srl, LEAST, 32, 0x80000000),
        (RegOp::Srl, LEAST, 31, 0x100000000),
        (RegOp::Srl, LEAST, ONES, 1),
        (RegOp::Sra, LEAST, 63, ONES),
        (RegOp::Sra, LEAST, 64, LEAST),
        (RegOp::Sra, LEAST, 32, 0xffffffff80000000),
        (RegOp::Sra, LEAST, 31, 0xffffffff00000000),
        (RegOp::Sra, LEAST - 1, 62, 1),
        (RegOp::Sra, ONES - 6, 1, ONES - 3),
    ];
    for (op, a, b, want) in cases {
        assert!(rt; is_integer(op));
        assert_eq!(rt; reg_value(op, a, b), want, "{op:?} of {a:#x} and {b:#x}");
    }
}

#[test]
fn products_have_two_halves(rt: HostRuntime) {
    let cases = [
        (RegOp::Mul, ONES, ONES, 1),
        (RegOp::Mul, ONES - 1, 3, ONES - 5),
        (RegOp::Mul, 0x100000001, 0x100000001, 0x200000001),
        (RegOp::Mul, LEAST, 2, 0),
        (RegOp::Mulh, ONES, ONES, 0),
        (RegOp::Mulh, ONES - 1, 3, ONES),
        (RegOp::Mulh, 3, ONES - 1, ONES),
        (RegOp::Mulh, LEAST, LEAST, 1 << 62),
        (RegOp::Mulh, LEAST, ONES, 0),
        (RegOp::Mulh, LEAST, 1, ONES),
        (RegOp::Mulh, 1 << 62, 8, 2),
        (RegOp::Mulhsu, ONES, ONES, ONES),
        (RegOp::Mulhsu, ONES, 1, ONES),
        (RegOp::Mulhsu, 1, ONES, 0),
        (RegOp::Mulhsu, 5, ONES, 4),
        (RegOp::Mulhsu, LEAST, LEAST, 0xc000000000000000),
        (RegOp::Mulhsu, LEAST, ONES, LEAST),
        (RegOp::Mulhu, ONES, ONES, ONES - 1),
        (RegOp::Mulhu, ONES, 2, 1),
        (RegOp::Mulhu, 2, ONES, 1),
        (RegOp::Mulhu, LEAST, LEAST, 1 << 62),
    ];
    for (op, a, b, want) in cases {
        assert!(rt; is_integer(op));
        assert_eq!(rt; reg_value(op, a, b), want, "{op:?} of {a:#x} and {b:#x}");
    }
}

#[test]
fn division_rounds_toward_zero(rt: HostRuntime) {
    let cases = [
        (RegOp::Div, 7, 2, 3),
        (RegOp::Div, ONES - 6, 2, ONES - 2),
        (RegOp::Div, 7, ONES - 1, ONES - 2),
        (RegOp::Div, ONES - 6, ONES - 1, 3),
        (RegOp::Div, LEAST, 1, LEAST),
        (RegOp::Div, LEAST, LEAST, 1),
        (RegOp::Rem, 7, 2, 1),
        (RegOp::Rem, ONES - 6, 2, ONES),
        (RegOp::Rem, 7, ONES - 1, 1),
        (RegOp::Rem, ONES - 6, ONES - 1, ONES),
        (RegOp::Rem, LEAST, 1, 0),
        (RegOp::Rem, LEAST, LEAST, 0),
        (RegOp::Divu, 7, 2, 3),
        (RegOp::Divu, ONES - 6, 2, 0x7ffffffffffffffc),
        (RegOp::Divu, 7, ONES - 1, 0),
        (RegOp::Divu, LEAST, ONES, 0),
        (RegOp::Divu, ONES, ONES, 1),
        (RegOp::Remu, 7, 2, 1),
        (RegOp::Remu, ONES - 6, 2, 1),
        (RegOp::Remu, 7, ONES - 1, 7),
        (RegOp::Remu, LEAST, ONES, LEAST),
        (RegOp::Remu, ONES, ONES, 0),
    ];
    for (op, a, b, want) in cases {
        assert!(rt; is_integer(op));
        assert_eq!(rt; reg_value(op, a, b), want, "{op:?} of {a:#x} and {b:#x}");
    }
}

#[test]
fn division_by_zero_and_the_overflow_have_values(rt: HostRuntime) {
    let cases = [
        (RegOp::Div, 5, 0, ONES),
        (RegOp::Div, 0, 0, ONES),
        (RegOp::Div, LEAST, 0, ONES),
        (RegOp::Div, LEAST, ONES, LEAST),
        (RegOp::Rem, 5, 0, 5),
        (RegOp::Rem, 0, 0, 0),
        (RegOp::Rem, LEAST, 0, LEAST),
        (RegOp::Rem, LEAST, ONES, 0),
        (RegOp::Divu, 5, 0, ONES),
        (RegOp::Divu, 0, 0, ONES),
        (RegOp::Divu, LEAST, 0, ONES),
        (RegOp::Remu, 5, 0, 5),
        (RegOp::Remu, 0, 0, 0),
        (RegOp::Remu, LEAST, 0, LEAST),
        (RegOp::Divw, 5, 0, ONES),
        (RegOp::Divw, 5, 1 << 32, ONES),
        (RegOp::Divw, LEAST_WORD, 0, ONES),
        (RegOp::Divw, LEAST_WORD, 0xffffffff, LEAST_EXTENDED),
        (RegOp::Divw, LEAST_EXTENDED, ONES, LEAST_EXTENDED),
        (RegOp::Remw, 5, 0, 5),
        (RegOp::Remw, 5, 1 << 32, 5),
        (RegOp::Remw, LEAST_WORD, 0, LEAST_EXTENDED),
        (RegOp::Remw, LEAST_WORD, 0xffffffff, 0),
        (RegOp::Remw, LEAST_EXTENDED, ONES, 0),
        (RegOp::Divuw, 5, 0, ONES),
        (RegOp::Divuw, 5, 1 << 32, ONES),
        (RegOp::Divuw, LEAST_WORD, 0, ONES),
        (RegOp::Remuw, 5, 0, 5),
        (RegOp::Remuw, 5, 1 << 32, 5),
        (RegOp::Remuw, LEAST_WORD, 0, LEAST_EXTENDED),
    ];
    for (op, a, b, want) in cases {
        assert!(rt; is_integer(op));
        assert_eq!(rt; reg_value(op, a, b), want, "{op:?} of {a:#x} and {b:#x}");
    }
}

#[test]
fn rows_of_32_bits_extend_their_sign(rt: HostRuntime) {
    let cases = [
        (RegOp::Addw, 0x7fffffff, 1, LEAST_EXTENDED),
        (RegOp::Addw, ONES, 1, 0),
        (RegOp::Addw, 0x700000001, 0x900000002, 3),
        (RegOp::Subw, 0, 1, ONES),
        (RegOp::Subw, 0, LEAST_WORD, LEAST_EXTENDED),
        (RegOp::Subw, LEAST_WORD, 1, 0x7fffffff),
        (RegOp::Subw, 0x700000005, 0x900000002, 3),
        (RegOp::Mulw, 0x40000000, 2, LEAST_EXTENDED),
        (RegOp::Mulw, 0xffffffff, 0xffffffff, 1),
        (RegOp::Mulw, 0x10000, 0x10000, 0),
        (RegOp::Mulw, 0x700000005, 0x900000002, 10),
        (RegOp::Divw, 0xfffffff9, 2, ONES - 2),
        (RegOp::Divw, 7, 0xfffffffe, ONES - 2),
        (RegOp::Divw, 0xfffffff9, 0xfffffffe, 3),
        (RegOp::Divw, LEAST_WORD, 1, LEAST_EXTENDED),
        (RegOp::Divw, 0x900000007, 0x700000002, 3),
        (RegOp::Remw, 0xfffffff9, 2, ONES),
        (RegOp::Remw, 7, 0xfffffffe, 1),
        (RegOp::Remw, 0xfffffff9, 0xfffffffe, ONES),
        (RegOp::Remw, 0x900000007, 0x700000002, 1),
        (RegOp::Divuw, 0xfffffff9, 2, 0x7ffffffc),
        (RegOp::Divuw, LEAST_WORD, 1, LEAST_EXTENDED),
        (RegOp::Divuw, LEAST_WORD, 0xffffffff, 0),
        (RegOp::Divuw, 0x900000007, 0x700000002, 3),
        (RegOp::Remuw, 0xfffffff9, 2, 1),
        (RegOp::Remuw, LEAST_WORD, 0xffffffff, LEAST_EXTENDED),
        (RegOp::Remuw, 0x900000007, 0x700000002, 1),
    ];
    for (op, a, b, want) in cases {
        assert!(rt; is_integer(op));
        assert_eq!(rt; reg_value(op, a, b), want, "{op:?} of {a:#x} and {b:#x}");
    }
}

#[test]
fn shifts_of_32_bits_go_by_the_low_5_bits(rt: HostRuntime) {
    let cases = [
        (RegOp::Sllw, 1, 31, LEAST_EXTENDED),
        (RegOp::Sllw, 1, 32, 1),
        (RegOp::Sllw, 1, 63, LEAST_EXTENDED),
        (RegOp::Sllw, 1, 64, 1),
        (RegOp::Sllw, 0x7c0000000, 1, LEAST_EXTENDED),
        (RegOp::Srlw, LEAST_WORD, 31, 1),
        (RegOp::Srlw, LEAST_WORD, 32, LEAST_EXTENDED),
        (RegOp::Srlw, LEAST_WORD, 63, 1),
        (RegOp::Srlw, LEAST_WORD, 64, LEAST_EXTENDED),
        (RegOp::Srlw, ONES, 1, 0x7fffffff),
        (RegOp::Sraw, LEAST_WORD, 31, ONES),
        (RegOp::Sraw, LEAST_WORD, 32, LEAST_EXTENDED),
        (RegOp::Sraw, LEAST_WORD, 63, ONES),
        (RegOp::Sraw, LEAST_WORD, 64, LEAST_EXTENDED),
        (RegOp::Sraw, 0x940000000, 30, 1),
    ];
    for (op, a, b, want) in cases {
        assert!(rt; is_integer(op));
        assert_eq!(rt; reg_value(op, a, b), want, "{op:?} of {a:#x} and {b:#x}");
    }
}

#[test]
fn immediates_are_extended_before_they_are_compared(rt: HostRuntime) {
    let cases = [
        (ImmOp::Slti, ONES, 0, 1),
        (ImmOp::Slti, 0, -1, 0),
        (ImmOp::Slti, ONES - 2, -2, 1),
        (ImmOp::Slti, 5, 6, 1),
        (ImmOp::Sltiu, 0, -1, 1),
        (ImmOp::Sltiu, ONES, -1, 0),
        (ImmOp::Sltiu, 0xffffffff, -1, 1),
        (ImmOp::Sltiu, ONES, 0, 0),
        (ImmOp::Sltiu, 0, 1, 1),
        (ImmOp::Sltiu, 1, 1, 0),
    ];
    for (op, a, imm, want) in cases {
        assert!(rt; is_integer(register_row(op)));
        assert_eq!(rt; imm_value(op, a, imm), want, "{op:?} of {a:#x} and {imm}");
    }
}

#[test]
fn a_row_of_an_immediate_does_what_its_row_of_two_registers_does(rt: HostRuntime) {
    let cases = [
        (ImmOp::Addi, 5, -7, ONES - 1),
        (ImmOp::Addi, ONES, 1, 0),
        (ImmOp::Xori, 0xff, -1, 0xffffffffffffff00),
        (ImmOp::Ori, 1, -2048, 0xfffffffffffff801),
        (ImmOp::Andi, ONES, -16, 0xfffffffffffffff0),
        (ImmOp::Slli, 3, 63, LEAST),
        (ImmOp::Slli, 3, 32, 0x300000000),
        (ImmOp::Srli, LEAST, 63, 1),
        (ImmOp::Srli, LEAST, 32, 0x80000000),
        (ImmOp::Srai, LEAST, 63, ONES),
        (ImmOp::Srai, LEAST, 32, 0xffffffff80000000),
        (ImmOp::Addiw, 0x7fffffff, 1, LEAST_EXTENDED),
        (ImmOp::Addiw, 0x100000005, -6, ONES),
        (ImmOp::Addiw, LEAST_WORD, 0, LEAST_EXTENDED),
        (ImmOp::Slliw, 1, 31, LEAST_EXTENDED),
        (ImmOp::Srliw, LEAST_WORD, 31, 1),
        (ImmOp::Srliw, LEAST_WORD, 0, LEAST_EXTENDED),
        (ImmOp::Sraiw, LEAST_WORD, 31, ONES),
        (ImmOp::Sraiw, 0x40000000, 30, 1),
    ];
    for (op, a, imm, want) in cases {
        assert!(rt; is_integer(register_row(op)));
        assert_eq!(rt; imm_value(op, a, imm), want, "{op:?} of {a:#x} and {imm}");
    }
}

#[test]
fn branches_compare_signed_and_unsigned(rt: HostRuntime) {
    // Two operands, and whether beq, blt and bltu are taken; bne, bge and bgeu are taken where those are not.
    let cases = [
        (5, 5, true, false, false),
        (4, 5, false, true, true),
        (5, 4, false, false, false),
        (ONES, 0, false, true, false),
        (0, ONES, false, false, true),
        (LEAST, LEAST - 1, false, true, false),
        (LEAST - 1, LEAST, false, false, true),
        (1 << 32, 0, false, false, false),
    ];
    for (a, b, equal, less, below) in cases {
        assert_eq!(rt;
            taken(BranchOp::Beq, a, b),
            equal,
            "beq of {a:#x} and {b:#x}"
        );
        assert_eq!(rt;
            taken(BranchOp::Bne, a, b),
            !equal,
            "bne of {a:#x} and {b:#x}"
        );
        assert_eq!(rt;
            taken(BranchOp::Blt, a, b),
            less,
            "blt of {a:#x} and {b:#x}"
        );
        assert_eq!(rt;
            taken(BranchOp::Bge, a, b),
            !less,
            "bge of {a:#x} and {b:#x}"
        );
        assert_eq!(rt;
            taken(BranchOp::Bltu, a, b),
            below,
            "bltu of {a:#x} and {b:#x}"
        );
        assert_eq!(rt;
            taken(BranchOp::Bgeu, a, b),
            !below,
            "bgeu of {a:#x} and {b:#x}"
        );
    }
}

#[test]
fn signs_are_extended(rt: HostRuntime) {
    assert_eq!(rt; operand(-1), ONES);
    assert_eq!(rt; operand(2047), 2047);
    assert_eq!(rt; extended(0x80000000), LEAST_EXTENDED);
    assert_eq!(rt; extended(0x7fffffff), 0x7fffffff);
}

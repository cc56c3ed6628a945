// Which operands are capabilities.
ghost use Rattle.std.specs.Prelude.{◌≡◌};
ghost use Rattle.trace_tools.specs.Statements.{derives, compares, takes, derives_by_immediate, derives_from_one, takes_one};

use riscv_decode::{ImmOp, OneOp, RegOp};

// Whether an operation on two registers derives a capability.
pub fn derives(op: RegOp) -> bool
    ensures { result ≡ derives op }
{
    matches!(
        op,
        RegOp::CSetBounds
            | RegOp::CSetBoundsExact
            | RegOp::CAndPerm
            | RegOp::CSetAddr
            | RegOp::CIncOffset
    )
}

// Whether it compares two.
pub fn compares(op: RegOp) -> bool
    ensures { result ≡ compares op }
{
    matches!(op, RegOp::CSub | RegOp::CTestSubset | RegOp::CSeqx)
}

// Whether its first source is a capability.
pub fn takes(op: RegOp) -> bool
    ensures { result ≡ takes op }
{
    derives(op) || compares(op)
}

// Whether an operation on a register and an immediate derives a capability.
pub fn derives_by_immediate(op: ImmOp) -> bool
    ensures { result ≡ derives_by_immediate op }
{
    matches!(op, ImmOp::CIncOffsetImm | ImmOp::CSetBoundsImm)
}

// Whether one on one register derives a capability.
pub fn derives_from_one(op: OneOp) -> bool
    ensures { result ≡ derives_from_one op }
{
    matches!(op, OneOp::CMove | OneOp::CClearTag | OneOp::CSealEntry)
}

// Whether its source is a capability.
pub fn takes_one(op: OneOp) -> bool
    ensures { result ≡ takes_one op }
{
    !matches!(op, OneOp::Crrl | OneOp::Cram)
}

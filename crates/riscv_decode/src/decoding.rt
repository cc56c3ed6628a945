// From a word to its instruction.
ghost use Rattle.std.specs.Prelude.{◌≡◌, ◌↔◌, Some, IfSome};
ghost use Rattle.riscv_decode.specs.declared.instr.Instr.{Instr};
ghost use Rattle.riscv_decode.specs.Table.{IsRow, IsInRange};
ghost use Rattle.riscv_decode.specs.Decoded.{decoded};

use crate::instr::Instr;
use crate::ops::Op;

/// The instruction of a word: None exactly where no row of the table has the word. Its registers and its
/// immediate are in the ranges of its row.
pub fn decode(word: u32) -> Option<Instr>
    ensures row { (i : Instr) → (IsRow word i ↔ (result ≡ Some i)) }
    ensures is { result ≡ decoded word }
    ensures range { IfSome result IsInRange }
{
    let op = Op::find(word)?;
    Some(op.with_fields(word))
}

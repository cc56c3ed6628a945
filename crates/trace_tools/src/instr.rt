// The line of an instruction word.
ghost use Rattle.std.specs.Prelude.{◌≡◌, ◌+◌, ◌<◌, ◌≤◌, ◌++◌, length};
ghost use Rattle.cap_format.specs.Numbers.{region_bytes};
ghost use Rattle.outside_io.specs.States.{PrintsText};
ghost use Rattle.text_line.specs.Texts.{line_bytes};
ghost use Rattle.trace_tools.specs.Statements.{instr_text, statement, instr_line};

use crate::operands::put_operands;
use asm_text::mnemonic;
use outside_io::{Failed, Sink};
use riscv_decode::{Instr, decode};
use text_line::Line;

// Puts the statement of an instruction.
fn put_instr(instr: &Instr, line: &mut Line)
    requires { 90 + length line.old ≤ line_bytes }
    ensures text { line.new ≡ instr_text instr.now ++ line.old }
    ensures room { length line.new ≤ 90 + length line.old }
{
    put_operands(instr, line);
    line.put(mnemonic(instr));
}

// Puts the statement of a word.
fn put_statement(word: u32, line: &mut Line)
    requires { 90 + length line.old ≤ line_bytes }
    ensures text { line.new ≡ statement word ++ line.old }
    ensures room { length line.new ≤ 90 + length line.old }
{
    match decode(word) {
        Some(instr) => put_instr(&instr, line),
        None => {
            line.put_hexadecimal(u128::from(word), 8);
            line.put(b".word 0x");
        }
    }
}

/// Writes the line of an instruction word, by one write: `OFFSET: WORD STATEMENT`.
///
/// `offset` is the word's place in the region, in bytes, which are below [`REGION_BYTES`](cap_format::REGION_BYTES); it is written in five
/// hexadecimal digits, and the word in eight. The statement is one of the assembler's, with its operands in decimal: registers that are used
/// as capabilities are named `c0` to `c31` and the others `x0` to `x31`, and a branch has its distance as a number. A word that is no
/// instruction is `.word 0x` and its eight digits.
///
/// `Failed` comes only where the sink's count of faults rose; a front of the line may be written then.
pub fn write_instr<O: Sink>(offset: u64, word: u32, out: &mut O) -> Result<(), Failed>
    requires { offset < region_bytes }
    ensures { PrintsText (instr_line offset word) (O.state out.old) (O.state out.new) result }
{
    let mut line = Line::new();
    line.put(b"\n");
    put_statement(word, &mut line);
    line.put(b" ");
    line.put_hexadecimal(u128::from(word), 8);
    line.put(b": ");
    line.put_hexadecimal(u128::from(offset), 5);
    out.write(line.text())
}

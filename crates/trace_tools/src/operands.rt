// The operands of an instruction, put into a line from the last one on.
ghost use Rattle.std.specs.Prelude.{◌≡◌, ◌+◌, ◌≤◌, ◌++◌, length};
ghost use Rattle.text_line.specs.Texts.{line_bytes};
ghost use Rattle.trace_tools.specs.Statements.{register, comma, place, operands};

use crate::kinds::{compares, derives, derives_by_immediate, derives_from_one, takes, takes_one};
use riscv_decode::{Instr, LoadOp, StoreOp, UpperOp};
use text_line::Line;

// Puts a register, as a capability or as an integer.
fn put_register(capability: bool, number: u8, line: &mut Line)
    requires { 21 + length line.old ≤ line_bytes }
    ensures text { line.new ≡ register capability number ++ line.old }
    ensures room { length line.new ≤ 21 + length line.old }
{
    line.put_number(u64::from(number));
    line.put(if capability { b"c" } else { b"x" });
}

// Puts a register before another operand.
fn put_before(capability: bool, number: u8, line: &mut Line)
    requires { 23 + length line.old ≤ line_bytes }
    ensures text { line.new ≡ register capability number ++ (comma ++ line.old) }
    ensures room { length line.new ≤ 23 + length line.old }
{
    line.put(b", ");
    put_register(capability, number, line);
}

// Puts a place in memory.
fn put_place(distance: i32, rs1: u8, line: &mut Line)
    requires { 44 + length line.old ≤ line_bytes }
    ensures text { line.new ≡ place distance rs1 ++ line.old }
    ensures room { length line.new ≤ 44 + length line.old }
{
    line.put(b")");
    put_register(true, rs1, line);
    line.put(b"(");
    line.put_integer(distance);
}

// Puts the operands of an instruction, and a space before them.
pub fn put_operands(instr: &Instr, line: &mut Line)
    requires { 75 + length line.old ≤ line_bytes }
    ensures text { line.new ≡ operands instr.now ++ line.old }
    ensures room { length line.new ≤ 75 + length line.old }
{
    match *instr {
        Instr::Reg { op, rd, rs1, rs2 } => {
            put_register(compares(op), rs2, line);
            put_before(takes(op), rs1, line);
            put_before(derives(op), rd, line);
        }
        Instr::Imm { op, rd, rs1, imm } => {
            line.put_integer(imm);
            put_before(derives_by_immediate(op), rs1, line);
            put_before(derives_by_immediate(op), rd, line);
        }
        Instr::Load { op, rd, rs1, imm } => {
            put_place(imm, rs1, line);
            put_before(op == LoadOp::Clc, rd, line);
        }
        Instr::Store { op, rs1, rs2, imm } => {
            put_place(imm, rs1, line);
            put_before(op == StoreOp::Csc, rs2, line);
        }
        Instr::Branch { rs1, rs2, imm, .. } => {
            line.put_integer(imm);
            put_before(false, rs2, line);
            put_before(false, rs1, line);
        }
        Instr::Upper { op, rd, imm } => {
            line.put_number(u64::from(imm));
            put_before(op == UpperOp::Auipcc, rd, line);
        }
        Instr::Jal { rd, imm } => {
            line.put_integer(imm);
            put_before(true, rd, line);
        }
        Instr::Jalr { rd, rs1, imm } => {
            line.put_integer(imm);
            put_before(true, rs1, line);
            put_before(true, rd, line);
        }
        Instr::One { op, rd, rs1 } => {
            put_register(takes_one(op), rs1, line);
            put_before(derives_from_one(op), rd, line);
        }
        Instr::Ecall | Instr::Ebreak | Instr::Fence => return,
    }
    line.put(b" ");
}

// The operands of a statement, as its form asks for them.
ghost use Rattle.std.specs.Prelude.{◌≡◌, MatchOption, Some, None, option_and_then};
ghost use Rattle.asm_text.specs.Cursors.{IsPlaced, GoesOn};
ghost use Rattle.asm_text.specs.Statements.{statement_named, form_of, instr_form, register_of, register_number, rights_of, is_label_name, said, with_registers, no_operands, word_in, label_in, value_in, register_in, number_from, natural_from, text_from, filled};

use crate::cursor::Cursor;
use crate::listing::{Span, Value, What};
use crate::statements::{Statement, statement_named};
use crate::tokens::{Lexeme, Token};
use riscv_decode::Instr;

/// What a token of a form has to be.
#[derive(Clone, Copy, Debug, PartialEq, Eq)]
pub enum Slot {
    Rd,
    Rs1,
    Rs2,
    Value,
    Comma,
    Open,
    Close,
    Label,
    Text,
    Number,
    /// A number that isn't negative.
    Natural,
    Rights,
    Length,
    Offset,
    Perms,
}

/// What the operands of a statement say. What its form doesn't name is zero.
#[derive(Clone, Copy, Debug, PartialEq, Eq)]
pub struct Operands {
    pub rd: u8,
    pub rs1: u8,
    pub rs2: u8,
    pub value: Value,
    /// The place of a label or of a string.
    pub name: Span,
    pub number: i128,
    pub rights: u8,
    pub length: i128,
    pub offset: i128,
    pub perms: i128,
}

const NO_OPERANDS: Operands = Operands {
    rd: 0,
    rs1: 0,
    rs2: 0,
    value: Value::Number(0),
    name: Span { first: 0, past: 0 },
    number: 0,
    rights: 0,
    length: 0,
    offset: 0,
    perms: 0,
};

// The form of an instruction.
fn instr_form(instr: &Instr) -> &'static [Slot]
    ensures { result.now ≡ instr_form instr.now }
{
    match instr {
        Instr::Reg { .. } => &[Slot::Rd, Slot::Comma, Slot::Rs1, Slot::Comma, Slot::Rs2],
        Instr::Imm { .. } | Instr::Jalr { .. } => {
            &[Slot::Rd, Slot::Comma, Slot::Rs1, Slot::Comma, Slot::Value]
        }
        Instr::Load { .. } => &[
            Slot::Rd,
            Slot::Comma,
            Slot::Value,
            Slot::Open,
            Slot::Rs1,
            Slot::Close,
        ],
        Instr::Store { .. } => &[
            Slot::Rs2,
            Slot::Comma,
            Slot::Value,
            Slot::Open,
            Slot::Rs1,
            Slot::Close,
        ],
        Instr::Branch { .. } => &[Slot::Rs1, Slot::Comma, Slot::Rs2, Slot::Comma, Slot::Value],
        Instr::Upper { .. } | Instr::Jal { .. } => &[Slot::Rd, Slot::Comma, Slot::Value],
        Instr::One { .. } => &[Slot::Rd, Slot::Comma, Slot::Rs1],
        Instr::Ecall | Instr::Ebreak | Instr::Fence => &[],
    }
}

// The form of a statement.
fn form(statement: &Statement) -> &'static [Slot]
    ensures { result.now ≡ form_of statement.now }
{
    match statement {
        Statement::Instr(instr) => instr_form(instr),
        Statement::Segment => &[Slot::Natural, Slot::Rights],
        Statement::Entry => &[Slot::Label],
        Statement::Data(_) => &[Slot::Value],
        Statement::Ascii => &[Slot::Text],
        Statement::Space | Statement::Bss => &[Slot::Natural],
        Statement::Align => &[Slot::Number],
        Statement::Cap => &[
            Slot::Label,
            Slot::Comma,
            Slot::Length,
            Slot::Comma,
            Slot::Offset,
            Slot::Comma,
            Slot::Perms,
        ],
    }
}

// The number of a register: from 0 to 31, without a leading zero.
fn register_number(digits: &[u8]) -> Option<u8>
    ensures { result ≡ register_number digits.now }
{
    match digits {
        [digit] if digit.is_ascii_digit() => Some(*digit - b'0'),
        [tens, ones] if tens.is_ascii_digit() && ones.is_ascii_digit() && *tens != b'0' => {
            let number = (*tens - b'0') * 10 + (*ones - b'0');
            if number <= 31 { Some(number) } else { None }
        }
        _ => None,
    }
}

// The register of this name.
fn register_of(name: &[u8]) -> Option<u8>
    ensures { result ≡ register_of name.now }
{
    match name {
        [b'x' | b'c', digits @ ..] => register_number(digits),
        _ => None,
    }
}

// The rights that flags say.
fn rights_of(name: &[u8]) -> Option<u8>
    ensures { result ≡ rights_of name.now }
{
    match name {
        b"r" => Some(4),
        b"rw" => Some(6),
        b"rx" => Some(5),
        b"rwx" => Some(7),
        _ => None,
    }
}

// A label is a word without `.`.
fn is_label_name(name: &[u8]) -> bool
    ensures { result ≡ is_label_name name.now }
{
    name.iter().all(|byte| *byte != b'.')
}

// The word that a token is.
fn word_in(text: &[u8], lexeme: Lexeme) -> Option<&[u8]>
    requires { IsPlaced text.now lexeme.span }
    ensures { MatchOption result (word_in text.now lexeme ≡ None) (λ word. word_in text.now lexeme ≡ Some word.now) }
{
    if lexeme.token == Token::Word {
        Some(lexeme.span.slice(text))
    } else {
        None
    }
}

/// The statement whose name a token is.
pub fn statement_in(text: &[u8], lexeme: Lexeme) -> Option<Statement>
    requires { IsPlaced text.now lexeme.span }
    ensures { result ≡ option_and_then statement_named (word_in text.now lexeme) }
{
    statement_named(word_in(text, lexeme)?)
}

/// The label that a token is.
pub fn label_in(text: &[u8], lexeme: Lexeme) -> Option<Span>
    requires { IsPlaced text.now lexeme.span }
    ensures { result ≡ label_in text.now lexeme }
{
    let name = word_in(text, lexeme)?;
    if is_label_name(name) {
        Some(lexeme.span)
    } else {
        None
    }
}

/// The value that a token is.
pub fn value_in(text: &[u8], lexeme: Lexeme) -> Option<Value>
    requires { IsPlaced text.now lexeme.span }
    ensures { result ≡ value_in text.now lexeme }
{
    if let Token::Number(n) = lexeme.token {
        return Some(Value::Number(n));
    }
    Some(Value::Name(label_in(text, lexeme)?))
}

// The register that a token is.
fn register_in(text: &[u8], lexeme: Lexeme) -> Option<u8>
    requires { IsPlaced text.now lexeme.span }
    ensures { result ≡ register_in text.now lexeme }
{
    register_of(word_in(text, lexeme)?)
}

// The rights that a token says.
fn rights_in(text: &[u8], lexeme: Lexeme) -> Option<u8>
    requires { IsPlaced text.now lexeme.span }
    ensures { result ≡ option_and_then rights_of (word_in text.now lexeme) }
{
    rights_of(word_in(text, lexeme)?)
}

// The number that a token is.
fn number_in(lexeme: Lexeme) -> Option<i128>
    ensures { result ≡ number_from lexeme.token }
{
    if let Token::Number(n) = lexeme.token {
        Some(n)
    } else {
        None
    }
}

// The number that a token is, where it isn't negative.
fn natural_in(lexeme: Lexeme) -> Option<i128>
    ensures { result ≡ natural_from lexeme.token }
{
    let n = number_in(lexeme)?;
    if n >= 0 { Some(n) } else { None }
}

// The string that a token is.
fn text_in(lexeme: Lexeme) -> Option<Span>
    ensures { result ≡ text_from lexeme.token lexeme.span }
{
    if lexeme.token == Token::Text {
        Some(lexeme.span)
    } else {
        None
    }
}

impl Operands {
    ghost use Rattle.asm_text.specs.Statements.{put, marked};

    // These operands, where a condition holds.
    fn only_if(self, condition: bool) -> Option<Operands>
        ensures { result ≡ marked condition self }
    {
        if condition { Some(self) } else { None }
    }

    // These operands, with the one that a token says.
    fn put(self, text: &[u8], slot: Slot, lexeme: Lexeme) -> Option<Operands>
        requires { IsPlaced text.now lexeme.span }
        ensures { result ≡ put text.now slot lexeme self }
    {
        let mut operands = self;
        match slot {
            Slot::Comma => return self.only_if(lexeme.token == Token::Comma),
            Slot::Open => return self.only_if(lexeme.token == Token::Open),
            Slot::Close => return self.only_if(lexeme.token == Token::Close),
            Slot::Rd => operands.rd = register_in(text, lexeme)?,
            Slot::Rs1 => operands.rs1 = register_in(text, lexeme)?,
            Slot::Rs2 => operands.rs2 = register_in(text, lexeme)?,
            Slot::Value => operands.value = value_in(text, lexeme)?,
            Slot::Label => operands.name = label_in(text, lexeme)?,
            Slot::Text => operands.name = text_in(lexeme)?,
            Slot::Number => operands.number = number_in(lexeme)?,
            Slot::Natural => operands.number = natural_in(lexeme)?,
            Slot::Rights => operands.rights = rights_in(text, lexeme)?,
            Slot::Length => operands.length = number_in(lexeme)?,
            Slot::Offset => operands.offset = number_in(lexeme)?,
            Slot::Perms => operands.perms = number_in(lexeme)?,
        }
        Some(operands)
    }
}

/// The operands of a statement, which are the rest of a line.
pub fn read_operands(cursor: &mut Cursor<'_>, statement: &Statement) -> Option<Operands>
    ensures is { result ≡ filled cursor.old.text (form_of statement.now) cursor.old.left.lexemes no_operands }
    ensures on { GoesOn cursor.old cursor.new }
{
    let mut operands = NO_OPERANDS;
    for slot in form(statement) {
        let lexeme = cursor.next()?;
        operands = operands.put(cursor.text(), *slot, lexeme)?;
    }
    if cursor.next().is_some() {
        return None;
    }
    Some(operands)
}

// An instruction with these registers, and with the immediate 0.
fn with_registers(instr: Instr, operands: &Operands) -> Instr
    ensures { result ≡ with_registers instr operands.now }
{
    let Operands { rd, rs1, rs2, .. } = *operands;
    match instr {
        Instr::Reg { op, .. } => Instr::Reg { op, rd, rs1, rs2 },
        Instr::Imm { op, .. } => Instr::Imm {
            op,
            rd,
            rs1,
            imm: 0,
        },
        Instr::Load { op, .. } => Instr::Load {
            op,
            rd,
            rs1,
            imm: 0,
        },
        Instr::Store { op, .. } => Instr::Store {
            op,
            rs1,
            rs2,
            imm: 0,
        },
        Instr::Branch { op, .. } => Instr::Branch {
            op,
            rs1,
            rs2,
            imm: 0,
        },
        Instr::Upper { op, .. } => Instr::Upper { op, rd, imm: 0 },
        Instr::Jal { .. } => Instr::Jal { rd, imm: 0 },
        Instr::Jalr { .. } => Instr::Jalr { rd, rs1, imm: 0 },
        Instr::One { op, .. } => Instr::One { op, rd, rs1 },
        Instr::Ecall => Instr::Ecall,
        Instr::Ebreak => Instr::Ebreak,
        Instr::Fence => Instr::Fence,
    }
}

/// What a statement says by its operands.
pub fn said(statement: Statement, operands: &Operands) -> What
    ensures { result ≡ said statement operands.now }
{
    match statement {
        Statement::Instr(instr) => What::Instr {
            instr: with_registers(instr, operands),
            value: operands.value,
        },
        Statement::Segment => What::Segment {
            at: operands.number,
            rights: operands.rights,
        },
        Statement::Entry => What::Entry {
            name: operands.name,
        },
        Statement::Data(size) => What::Bytes {
            size: size.bytes(),
            value: operands.value,
        },
        Statement::Ascii => What::Ascii {
            text: operands.name,
        },
        Statement::Space => What::Space {
            count: operands.number,
        },
        Statement::Align => What::Align {
            to: operands.number,
        },
        Statement::Bss => What::Bss {
            count: operands.number,
        },
        Statement::Cap => What::Cap {
            base: operands.name,
            length: operands.length,
            offset: operands.offset,
            perms: operands.perms,
        },
    }
}

// A cursor over the tokens of a line.
ghost use Rattle.std.specs.Prelude.{◌≡◌, ◌≤◌, IfSome, length};
ghost use Rattle.asm_text.specs.Bytes.{is_blank, is_text, are};
ghost use Rattle.asm_text.specs.Scanning.{run_length};
ghost use Rattle.asm_text.specs.Cursors.{HasFront};

use crate::SOURCE_BYTES;
use crate::bytes::{is_blank, is_text};
use crate::listing::Span;
use crate::tokens::{Lexeme, Token, lexeme_length, token_of};
use std::marker::Model;

// What stands at a place of a line, behind blanks.
#[derive(Clone, Copy, Debug, PartialEq, Eq)]
enum Front {
    Token(Lexeme),
    // The line's end, or a comment.
    End,
    // Neither.
    Fault,
}

// How many of the first bytes are blanks.
fn blanks(bytes: &[u8]) -> usize
    ensures { result ≡ run_length is_blank bytes.now }
{
    let mut count = 0;
    while count < bytes.len() && is_blank(bytes[count]) {
        count += 1;
    }
    count
}

// All of the bytes may stand in a line.
fn are_text(bytes: &[u8]) -> bool
    ensures { result ≡ are is_text bytes.now }
{
    for byte in bytes {
        if !is_text(*byte) {
            return false;
        }
    }
    true
}

// What stands from one place of the text up to another.
fn front_of(text: &[u8], at: usize, past: usize) -> Front
    requires from { at ≤ past }
    requires to { past ≤ length text.now }
    requires fits { length text.now ≤ SOURCE_BYTES }
    ensures { HasFront text.now at past result }
{
    let first = at + blanks(&text[at..past]);
    let bytes = &text[first..past];
    if bytes.is_empty() {
        return Front::End;
    }
    if bytes[0] == b'#' {
        return if are_text(bytes) {
            Front::End
        } else {
            Front::Fault
        };
    }
    let length = lexeme_length(bytes);
    match token_of(&bytes[..length]) {
        Some(token) => Front::Token(Lexeme {
            token,
            span: Span {
                first: first as u32,
                past: (first + length) as u32,
            },
        }),
        None => Front::Fault,
    }
}

/// The tokens of a line that are still to be read, up to the first place where there is none.
#[derive(Drop)]
pub struct Cursor<'a> {
    text: &'a [u8],
    at: usize,
    past: usize,
    whole: bool,
}

impl<'a> Model for Cursor<'a> {
    ghost use Rattle.std.specs.Prelude.{◌≡◌, ◌≤◌, false, length};
    ghost use Rattle.asm_text.specs.Numbers.{source_bytes};
    ghost use Rattle.asm_text.specs.Cursors.{Reading, left_from};

    ghost Value = { Reading };

    ghost view = { λ c. record { text = c.text.now; left = left_from c.text.now c.at c.past c.whole } };

    ghost invariant = { λ c. (c.at ≤ c.past) × (c.past ≤ length c.text.now) × (length c.text.now ≤ source_bytes) × (c.whole ≡ false → c.at ≡ c.past) };
}

impl<'a> Cursor<'a> {
    ghost use Rattle.std.specs.Prelude.{true, if◌then◌else◌};
    ghost use Rattle.asm_text.specs.Cursors.{first_of, behind, left_from, IsPlaced, is_at_colon};

    /// A cursor over the line that stands from one place of the text up to another.
    pub fn new(text: &'a [u8], at: usize, past: usize) -> Cursor<'a>
        requires from { at ≤ past }
        requires to { past ≤ length text.now }
        requires fits { length text.now ≤ SOURCE_BYTES }
        ensures { result ≡ record { text = text.now; left = left_from text.now at past true } }
    {
        Cursor {
            text,
            at,
            past,
            whole: true,
        }
    }

    /// The text in which the line stands.
    pub fn text(&self) -> &'a [u8]
        ensures { result.now ≡ self.now.text }
    {
        self.text
    }

    /// The next token, if there is one.
    pub fn next(&mut self) -> Option<Lexeme>
        ensures is { result ≡ first_of self.old.left.lexemes }
        ensures left { self.new ≡ behind self.old }
        ensures placed { IfSome result (λ lexeme. IsPlaced self.old.text lexeme.span) }
    {
        match front_of(self.text, self.at, self.past) {
            Front::Token(lexeme) => {
                self.at = lexeme.span.past as usize;
                Some(lexeme)
            }
            Front::End => {
                self.at = self.past;
                None
            }
            Front::Fault => {
                self.at = self.past;
                self.whole = false;
                None
            }
        }
    }

    /// Whether the next token is a colon, which is then passed over.
    pub fn takes_colon(&mut self) -> bool
        ensures is { result ≡ is_at_colon self.old.left.lexemes }
        ensures left { self.new ≡ (if result then behind self.old else self.old) }
    {
        match front_of(self.text, self.at, self.past) {
            Front::Token(
                Lexeme {
                    token: Token::Colon,
                    span,
                },
            ) => {
                self.at = span.past as usize;
                true
            }
            _ => false,
        }
    }

    /// Whether the rest of the line has tokens alone.
    pub fn is_whole(&mut self) -> bool
        ensures { result ≡ self.old.left.whole }
    {
        loop {
            match front_of(self.text, self.at, self.past) {
                Front::Token(lexeme) => self.at = lexeme.span.past as usize,
                Front::End => return self.whole,
                Front::Fault => return false,
            }
        }
    }
}

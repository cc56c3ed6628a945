// The lines of a source, read one after another.
ghost use Rattle.std.specs.Prelude.{◌≡◌, ◌≤◌, ◌-◌, Ok, IfOk, MatchResult, ◌∷◌, length, take, drop};
ghost use Rattle.asm_text.specs.Source.{fault, data_items, statement_items, line_items, line_of, source_of};
ghost use Rattle.asm_text.specs.Cursors.{IsPlaced, GoesOn, HasRead, HasLine, IsLineEnd};
ghost use Rattle.asm_text.specs.Spans.{HasSpans, IsRefusedAs};

use crate::SOURCE_BYTES;
use crate::cursor::Cursor;
use crate::laws::sources_have_spans;
use crate::listing::{Item, Listing, What};
use crate::operands::{label_in, read_operands, said, statement_in, value_in};
use crate::statements::{DataSize, Statement};
use crate::tokens::{Lexeme, Token};
use std::alloc::{AllocError, Global};

/// Why a source is refused: the reasons of a text, of the places of its statements, of their values, and of the entry. [`read_source`] finds
/// the first three.
#[derive(Clone, Copy, Debug, PartialEq, Eq)]
pub enum SourceReason {
    /// It has over [`SOURCE_BYTES`] bytes.
    TooLong,
    /// A line has bytes or tokens that are none.
    BadText,
    /// A line is no labels and at most one statement.
    BadStatement,
    /// A label or content stands before the first segment.
    NoSegment,
    /// A segment's address isn't that of a page of the region, or lies below the end of the segment before it.
    BadSegment,
    /// There are 15 segments already.
    TooMany,
    /// `.align` has no power of two from 1 to 4096.
    BadAlign,
    /// Content stands behind `.bss` in its segment.
    AfterBss,
    /// An instruction isn't at a multiple of 4, or `.cap` not at one of 16.
    Misplaced,
    /// Content ends behind the region.
    TooLarge,
    /// A segment has no bytes.
    Empty,
    /// A label or `.entry` stands in the text already.
    Twice,
    /// No line has the label.
    UnknownLabel,
    /// A value is out of its range, or the distance of a branch or of `cjal` is odd.
    OutOfRange,
    /// The bounds of `.cap` don't lie in the region or aren't exact, its address lies behind them, or it has a permission that there
    /// isn't.
    BadCap,
    /// There is no entry, or it is at no instruction of a page that may be executed.
    NoEntry,
}

/// A refusal, and the number of the line, from 1; 0 where it isn't that of a line.
#[derive(Clone, Copy, Debug, PartialEq, Eq)]
pub struct SourceFault {
    pub line: u64,
    pub reason: SourceReason,
}

/// Why there is no listing.
#[derive(Clone, Copy, Debug, PartialEq, Eq)]
pub enum SourceRefusal {
    Fault(SourceFault),
    /// There was no memory for it.
    NoMemory,
}

impl From<AllocError> for SourceRefusal {
    ghost use Rattle.std.specs.Prelude.{◌≡◌};
    ghost use Rattle.asm_text.specs.declared.source.SourceRefusal.TheVariants.{NoMemory};

    ghost from_gives = { λ _ refusal. refusal ≡ NoMemory };

    fn from(_error: AllocError) -> SourceRefusal {
        SourceRefusal::NoMemory
    }
}

// Reads the values of data, which are the rest of a line. The answer is whether they are that.
fn read_data(
    line: u64,
    size: DataSize,
    cursor: &mut Cursor<'_>,
    items: &mut Vec<Item>,
) -> Result<bool, AllocError>
    ensures read { IfOk result (λ is. HasRead (data_items cursor.old.text line size cursor.old.left.lexemes) items.old.items items.new.items is) }
    ensures on { IfOk result (λ _. GoesOn cursor.old cursor.new) }
{
    while let Some(lexeme) = cursor.next() {
        let Some(value) = value_in(cursor.text(), lexeme) else {
            return Ok(false);
        };
        items.push(Item {
            line,
            what: What::Bytes {
                size: size.bytes(),
                value,
            },
        })?;
        match cursor.next() {
            None => return Ok(true),
            Some(lexeme) if lexeme.token == Token::Comma => {}
            Some(_) => return Ok(false),
        }
    }
    Ok(false)
}

// Reads a statement whose name is a token, and whose operands are the rest of a line. The answer is whether it is one.
fn read_statement(
    line: u64,
    lexeme: Lexeme,
    cursor: &mut Cursor<'_>,
    items: &mut Vec<Item>,
) -> Result<bool, AllocError>
    requires { IsPlaced cursor.old.text lexeme.span }
    ensures read { IfOk result (λ is. HasRead (statement_items cursor.old.text line (lexeme ∷ cursor.old.left.lexemes)) items.old.items items.new.items is) }
    ensures on { IfOk result (λ _. GoesOn cursor.old cursor.new) }
{
    let Some(statement) = statement_in(cursor.text(), lexeme) else {
        return Ok(false);
    };
    if let Statement::Data(size) = statement {
        return read_data(line, size, cursor, items);
    }
    let Some(operands) = read_operands(cursor, &statement) else {
        return Ok(false);
    };
    items.push(Item {
        line,
        what: said(statement, &operands),
    })?;
    Ok(true)
}

// Reads labels, each with a colon, and then at most one statement. The answer is whether the line is that.
fn read_items(line: u64, cursor: &mut Cursor<'_>, items: &mut Vec<Item>) -> Result<bool, AllocError>
    ensures read { IfOk result (λ is. HasRead (line_items cursor.old.text line cursor.old.left.lexemes) items.old.items items.new.items is) }
    ensures on { IfOk result (λ _. GoesOn cursor.old cursor.new) }
{
    while let Some(lexeme) = cursor.next() {
        let Some(name) = label_in(cursor.text(), lexeme) else {
            return read_statement(line, lexeme, cursor, items);
        };
        if !cursor.takes_colon() {
            return read_statement(line, lexeme, cursor, items);
        }
        items.push(Item {
            line,
            what: What::Label { name },
        })?;
    }
    Ok(true)
}

// Reads a line, which stands from one place of the text up to another. The answer is why it is none, if it is none.
fn read_line(
    text: &[u8],
    line: u64,
    at: usize,
    past: usize,
    items: &mut Vec<Item>,
) -> Result<Option<SourceReason>, AllocError>
    requires from { at ≤ past }
    requires to { past ≤ length text.now }
    requires fits { length text.now ≤ SOURCE_BYTES }
    ensures { IfOk result (λ reason. HasLine (line_of text.now line (record { place = at; bytes = take (past - at) (drop at text.now) })) items.old.items items.new.items reason) }
{
    let mut cursor = Cursor::new(text, at, past);
    let is = read_items(line, &mut cursor, items)?;
    if !cursor.is_whole() {
        return Ok(Some(SourceReason::BadText));
    }
    Ok(if is {
        None
    } else {
        Some(SourceReason::BadStatement)
    })
}

// The place of the first line feed from a place on, or the end of the text.
fn line_end(text: &[u8], at: usize) -> usize
    requires { at ≤ length text.now }
    ensures { IsLineEnd text.now at result }
{
    let mut end = at;
    while end < text.len() && text[end] != b'\n' {
        end += 1;
    }
    end
}

/// Reads a source, which has any number of labels and at most one statement on each line. A line ends at a line feed, or where the text
/// does. What the lines say stands in their order, with the places of names and strings in the text.
///
/// [`SourceRefusal::Fault`] comes exactly where the text is no source, but for want of memory: TooLong at line 0 where it has over
/// [`SOURCE_BYTES`] bytes, and else the fault of the first line that has one. On a line BadText comes first. The language is this
/// project's own.
pub fn read_source(alloc: Global, text: &[u8]) -> Result<Listing, SourceRefusal>
    ensures read { MatchResult result (λ listing. source_of text.now ≡ Ok listing) (λ refusal. IsRefusedAs (source_of text.now) refusal) }
    ensures spans { IfOk result (λ listing. HasSpans text.now listing) }
{
    sources_have_spans();
    if text.len() > SOURCE_BYTES {
        return Err(fault(0, SourceReason::TooLong));
    }
    let mut items = Vec::new(alloc);
    let mut line = 1;
    let mut at = 0;
    while at < text.len() {
        let past = line_end(text, at);
        if let Some(reason) = read_line(text, line, at, past, &mut items)? {
            return Err(fault(line, reason));
        }
        line += 1;
        at = past + 1;
    }
    Ok(Listing::new(items))
}

// A refusal at a line.
fn fault(line: u64, reason: SourceReason) -> SourceRefusal
    ensures { result ≡ SourceRefusal.Fault (fault line reason) }
{
    SourceRefusal::Fault(SourceFault { line, reason })
}

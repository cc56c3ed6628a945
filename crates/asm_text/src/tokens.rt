// Tokens: how long the one at the front of some bytes is, and what it is.
ghost use Rattle.std.specs.Prelude.{◌≡◌, ◌≤◌, ◌<◌, IsTrue, All, length};
ghost use Rattle.asm_text.specs.Bytes.{is_hex_digit};
ghost use Rattle.asm_text.specs.Tokens.{mark_of, digit_of, digits_behind, is_magnitude, magnitude_of, is_number, integer_of, number_token, token_of, lexeme_length};
ghost use Rattle.asm_text.specs.Scanning.{is_in_class, run_length, magnitude_length, number_length, string_length, IsCapped};

use crate::bytes::{begins_word, is_digit, is_escape, is_hex_digit, is_in_word, is_text};
use crate::listing::Span;

/// A token.
#[derive(Clone, Copy, Debug, PartialEq, Eq)]
pub enum Token {
    /// A letter, `_` or `.`, and then letters, digits, `_` and `.`.
    Word,
    /// A number from `-2^63` to `2^64 - 1`.
    Number(i128),
    /// A string, with its quotes.
    Text,
    Comma,
    Colon,
    Open,
    Close,
}

/// A token and its place in the text.
#[derive(Clone, Copy, Debug, PartialEq, Eq)]
pub struct Lexeme {
    pub token: Token,
    pub span: Span,
}

// The classes of bytes that stand in a row.
#[derive(Clone, Copy, Debug, PartialEq, Eq)]
enum Class {
    InWord,
    Digit,
    HexDigit,
}

impl Class {
    // The byte is of the class.
    fn has(self, byte: u8) -> bool
        ensures { result ≡ is_in_class self byte }
    {
        match self {
            Class::InWord => is_in_word(byte),
            Class::Digit => is_digit(byte),
            Class::HexDigit => is_hex_digit(byte),
        }
    }
}

// How many of the first bytes are of a class.
fn run(class: Class, bytes: &[u8]) -> usize
    ensures { result ≡ run_length (is_in_class class) bytes.now }
{
    let mut count = 0;
    while count < bytes.len() && class.has(bytes[count]) {
        count += 1;
    }
    count
}

// The length of the number without a sign at the front, or 0.
fn magnitude_length(bytes: &[u8]) -> usize
    ensures { result ≡ magnitude_length bytes.now }
{
    if bytes.len() >= 2 && bytes[0] == b'0' && bytes[1] == b'x' {
        let digits = run(Class::HexDigit, &bytes[2..]);
        if digits > 0 {
            return digits + 2;
        }
    }
    run(Class::Digit, bytes)
}

// The length of the number at the front, or 0.
fn number_length(bytes: &[u8]) -> usize
    ensures { result ≡ number_length bytes.now }
{
    if bytes.is_empty() || bytes[0] != b'-' {
        return magnitude_length(bytes);
    }
    let digits = magnitude_length(&bytes[1..]);
    if digits == 0 { 0 } else { digits + 1 }
}

// The length of the string whose first quote stands at the front, or 0 where it doesn't end.
fn string_length(bytes: &[u8]) -> usize
    requires { 0 < length bytes.now }
    ensures { result ≡ string_length bytes.now }
{
    let mut at = 1;
    while at < bytes.len() {
        let byte = bytes[at];
        if byte == b'"' {
            return at + 1;
        }
        if byte == b'\\' {
            if at + 1 == bytes.len() || !is_escape(bytes[at + 1]) {
                return 0;
            }
            at += 2;
        } else if is_text(byte) {
            at += 1;
        } else {
            return 0;
        }
    }
    0
}

// The mark that a byte is.
fn mark_of(byte: u8) -> Option<Token>
    ensures { result ≡ mark_of byte }
{
    match byte {
        b',' => Some(Token::Comma),
        b':' => Some(Token::Colon),
        b'(' => Some(Token::Open),
        b')' => Some(Token::Close),
        _ => None,
    }
}

/// The length of the longest token at the front, by its form, or 0 where there is none.
pub fn lexeme_length(bytes: &[u8]) -> usize
    ensures is { result ≡ lexeme_length bytes.now }
    ensures within { result ≤ length bytes.now }
{
    if bytes.is_empty() {
        return 0;
    }
    let first = bytes[0];
    if begins_word(first) {
        return run(Class::InWord, bytes);
    }
    if first == b'"' {
        return string_length(bytes);
    }
    if mark_of(first).is_some() {
        return 1;
    }
    number_length(bytes)
}

// What stands for a digit.
fn digit_of(byte: u8) -> u8
    requires { IsTrue (is_hex_digit byte) }
    ensures is { result ≡ digit_of byte }
    ensures within { result < 16 }
{
    if byte <= b'9' {
        byte - b'0'
    } else if byte <= b'F' {
        byte - b'A' + 10
    } else {
        byte - b'a' + 10
    }
}

// The number of some digits, where it is below `2^64`, and else a number from there on.
fn digits_value(base: u128, bytes: &[u8]) -> u128
    requires base { base ≤ 16 }
    requires digits { All (λ byte. IsTrue (is_hex_digit byte)) bytes.now }
    ensures { IsCapped (digits_behind base 0 bytes.now) result }
{
    let mut value: u128 = 0;
    for byte in bytes {
        if value <= u128::from(u64::MAX) {
            value = value * base + u128::from(digit_of(*byte));
        }
    }
    value
}

// The number of digits without a sign, where it is below `2^64`, and else a number from there on.
fn magnitude_of(bytes: &[u8]) -> u128
    requires { IsTrue (is_magnitude bytes.now) }
    ensures { IsCapped (magnitude_of bytes.now) result }
{
    if bytes.len() >= 2 && bytes[0] == b'0' && bytes[1] == b'x' {
        digits_value(16, &bytes[2..])
    } else {
        digits_value(10, bytes)
    }
}

// The number that some bytes are, where it is in the range.
fn number_token(bytes: &[u8]) -> Option<Token>
    requires { IsTrue (is_number bytes.now) }
    ensures { result ≡ number_token (integer_of bytes.now) }
{
    if bytes[0] == b'-' {
        let magnitude = magnitude_of(&bytes[1..]);
        if magnitude > 1 << 63 {
            return None;
        }
        return Some(Token::Number(-(magnitude as i128)));
    }
    let magnitude = magnitude_of(bytes);
    if magnitude > u128::from(u64::MAX) {
        return None;
    }
    Some(Token::Number(magnitude as i128))
}

/// The token that the first bytes are, as many as the longest one has.
pub fn token_of(bytes: &[u8]) -> Option<Token>
    requires { lexeme_length bytes.now ≡ length bytes.now }
    ensures { result ≡ token_of bytes.now }
{
    if bytes.is_empty() {
        return None;
    }
    let first = bytes[0];
    if begins_word(first) {
        return Some(Token::Word);
    }
    if first == b'"' {
        return Some(Token::Text);
    }
    match mark_of(first) {
        Some(mark) => Some(mark),
        None => number_token(bytes),
    }
}

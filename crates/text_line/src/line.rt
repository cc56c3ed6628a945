// A line that is put together from its end.
ghost use Rattle.std.specs.Prelude.{◌≡◌, ◌+◌, ◌≤◌, ◌++◌, length, decimal};
ghost use Rattle.std.specs.Fmt.{signed_decimal};
ghost use Rattle.text_line.specs.Texts.{line_bytes, hexadecimal};

use crate::LINE_BYTES;
use hex::encode_to_slice;
use itoa::write_digits;
use std::marker::Model;

/// A line of at most [`LINE_BYTES`] bytes, which takes no memory. Contracts see its text.
///
/// It stands at the end of a buffer and grows at its front, as numbers are written from their last digit on.
#[derive(Drop)]
pub struct Line {
    bytes: [u8; LINE_BYTES],
    start: usize,
}

impl Model for Line {
    ghost use Rattle.std.specs.Prelude.{List, ℕ, drop, ◌≤◌};

    ghost Value = { List ℕ };

    ghost view = { λ line. drop line.start line.bytes };

    ghost invariant = { λ line. line.start ≤ 128 };
}

impl Line {
    ghost use Rattle.std.specs.Prelude.{[]};

    /// The empty line.
    pub fn new() -> Line
        ensures { result ≡ [] }
    {
        Line {
            bytes: [0; LINE_BYTES],
            start: LINE_BYTES,
        }
    }

    /// Puts a text before what is there.
    pub fn put(&mut self, text: &[u8])
        requires { length text.now + length self.old ≤ line_bytes }
        ensures { self.new ≡ text.now ++ self.old }
    {
        let start = self.start - text.len();
        self.bytes[start..self.start].copy_from_slice(text);
        self.start = start;
    }

    /// Puts a number in decimal digits, at most 20, before what is there.
    pub fn put_number(&mut self, n: u64)
        requires { 20 + length self.old ≤ line_bytes }
        ensures text { self.new ≡ decimal n ++ self.old }
        ensures room { length self.new ≤ 20 + length self.old }
    {
        self.start = write_digits(n, &mut self.bytes, self.start);
    }

    /// Puts a number, with `-` where it is negative, in at most 21 bytes before what is there.
    pub fn put_integer(&mut self, n: i32)
        requires { 21 + length self.old ≤ line_bytes }
        ensures text { self.new ≡ signed_decimal n ++ self.old }
        ensures room { length self.new ≤ 21 + length self.old }
    {
        self.put_number(u64::from(n.unsigned_abs()));
        if n < 0 {
            self.put(b"-");
        }
    }

    /// Puts so many hexadecimal digits of a number, at most 32 and the lowest, before what is there. They are of lower case.
    pub fn put_hexadecimal(&mut self, n: u128, count: usize)
        requires few { count ≤ 32 }
        requires room { count + length self.old ≤ line_bytes }
        ensures { self.new ≡ hexadecimal count n ++ self.old }
    {
        let mut digits = [0; 32];
        encode_to_slice(n.to_be_bytes(), &mut digits).unwrap();
        self.put(&digits[32 - count..]);
    }

    /// The text.
    pub fn text(&self) -> &[u8]
        ensures { result.now ≡ self.now }
    {
        &self.bytes[self.start..]
    }
}

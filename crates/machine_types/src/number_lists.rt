// Lists of numbers in text.
ghost use Rattle.std.specs.Prelude.{ℕ, ◌≡◌, ◌≢◌, ◌≤◌, ◌<◌, ◌^◌, Ok, MatchResult, length, slice_index};
ghost use Rattle.machine_types.specs.NumberLists.{entry_of, list_of, IsRefusedAs};

use crate::numbers::read_number;
use crate::{LIST_BYTES, MOST_LINES, MOST_REPEATS};
use std::alloc::Global;

/// Why a text wasn't read as a list.
#[derive(Clone, Copy, Debug, PartialEq, Eq)]
pub enum ListRefusal {
    /// The number of the first wrong line, from 1; and 0 where the text is longer than [`LIST_BYTES`].
    Line(u64),
    /// There was no memory for the list.
    NoMemory,
}

// The place of the first such byte, or the length where there is none.
fn first_place(text: &[u8], byte: u8) -> usize
    ensures within { result ≤ length text.now }
    ensures before { (k : ℕ) → k < result → slice_index text.now k ≢ byte }
    ensures found { result < length text.now → slice_index text.now result ≡ byte }
{
    for (place, other) in text.iter().enumerate() {
        if *other == byte {
            return place;
        }
    }
    text.len()
}

// What a line says: a number, and how often it is repeated.
fn read_entry(line: &[u8], least: u64, most: u64) -> Option<(u64, u64)>
    requires { most < 10 ^ 18 }
    ensures { result ≡ entry_of least most line.now }
{
    let star = first_place(line, b'*');
    let number = read_number(&line[..star], least, most)?;
    if star == line.len() {
        return Some((number, 1));
    }
    let repeats = read_number(&line[star + 1..], 1, MOST_REPEATS)?;
    Some((number, repeats))
}

/// Reads a list of numbers from the least to the most, which has at most 18 digits: one a line, as `N`, or as `N*K` where it is
/// repeated K times, K from 1 to [`MOST_REPEATS`]. Lines are parted by line feeds, and one at the end begins no further line. There
/// are at most [`MOST_LINES`] lines and [`LIST_BYTES`] bytes. The format is this project's own.
///
/// [`ListRefusal::Line`] comes exactly where the text is no such list, but for want of memory.
pub fn read_list(
    alloc: Global,
    text: &[u8],
    least: u64,
    most: u64,
) -> Result<Vec<(u64, u64)>, ListRefusal>
    requires { most < 10 ^ 18 }
    ensures { MatchResult result (λ entries. list_of least most text.now ≡ Ok entries.items) (λ refusal. IsRefusedAs (list_of least most text.now) refusal) }
{
    if text.len() > LIST_BYTES {
        return Err(ListRefusal::Line(0));
    }
    let mut entries = Vec::new(alloc);
    let mut line = 1;
    let mut at = 0;
    while at < text.len() {
        let rest = &text[at..];
        let end = first_place(rest, b'\n');
        let Some(entry) = read_entry(&rest[..end], least, most) else {
            return Err(ListRefusal::Line(line));
        };
        if line > MOST_LINES {
            return Err(ListRefusal::Line(line));
        }
        entries.push(entry).map_err(|_| ListRefusal::NoMemory)?;
        line += 1;
        at += end + 1;
    }
    Ok(entries)
}

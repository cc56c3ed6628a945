// Runs of the program over memory: what one is given, and what has to come of it.
use crate::boards::{Left, left_on};
use crate::images::image_of;
use cap_format::MOST_FRAMES;
use outside_io::{MemoryFiles, MemorySink, MemorySource};
use std::alloc::Global;
use std::process::Abort;
use std::test::Fail;
use stores::Board;
use ufork_program::{Ended, ufork};

/// What a run is given besides the file `guest`. The file `five` has 5 bytes.
#[derive(Clone, Copy)]
pub struct Given<'a> {
    /// The words, parted by single spaces. There are none where it is empty.
    pub words: &'a str,
    /// The text of the file `s`.
    pub schedule: &'a [u8],
    /// The read of a file that fails, from 0.
    pub file_fails: Option<u64>,
    /// The bytes of the console's input.
    pub input: &'a [u8],
    /// The most bytes that a read of it gives.
    pub input_piece: usize,
    /// The read of it that fails, from 0.
    pub input_fails: Option<u64>,
    /// The write to the output that fails, from 0.
    pub out_fails: Option<u64>,
    /// The room of the output.
    pub out_room: usize,
    /// The write to the errors that fails, from 0.
    pub err_fails: Option<u64>,
    /// The room of the errors.
    pub err_room: usize,
}

/// A run of the guest in which nothing fails.
pub const RUN: Given<'static> = Given {
    words: "run guest",
    schedule: b"",
    file_fails: None,
    input: b"",
    input_piece: 4096,
    input_fails: None,
    out_fails: None,
    out_room: 4096,
    err_fails: None,
    err_room: 100,
};

/// What has to come of a run: the status, what stands on the output and on the errors, and the board.
#[derive(Clone, Copy)]
pub struct Want<'a> {
    pub status: u8,
    pub out: &'a [u8],
    pub err: &'a [u8],
    pub left: Left,
}

fn calls(alloc: Global, call: Option<u64>) -> Result<Vec<u64>, Fail> {
    let mut calls = Vec::new(alloc);
    if let Some(call) = call {
        calls.push(call)?;
    }
    Ok(calls)
}

fn words(alloc: Global, line: &str) -> Result<Vec<String>, Fail> {
    let mut words = Vec::new(alloc);
    if !line.is_empty() {
        for word in line.split(' ') {
            words.push(String::from_str(alloc, word)?)?;
        }
    }
    Ok(words)
}

// A file of this name and content.
fn file(alloc: Global, name: &str, content: &[u8]) -> Result<(String, Vec<u8>), Fail> {
    let mut bytes = Vec::new(alloc);
    bytes.extend_from_slice(content)?;
    Ok((String::from_str(alloc, name)?, bytes))
}

fn files(alloc: Global, guest: &[u8], given: Given<'_>) -> Result<MemoryFiles, Fail> {
    let mut entries = Vec::new(alloc);
    entries.push(file(alloc, "guest", guest)?)?;
    entries.push(file(alloc, "five", &[0; 5])?)?;
    entries.push(file(alloc, "s", given.schedule)?)?;
    Ok(MemoryFiles::new(entries, calls(alloc, given.file_fails)?))
}

// The console's input.
fn input(alloc: Global, given: Given<'_>) -> Result<MemorySource, Fail> {
    let mut bytes = Vec::new(alloc);
    bytes.extend_from_slice(given.input)?;
    let piece = given.input_piece.max(1);
    Ok(MemorySource::new(bytes, piece, calls(alloc, given.input_fails)?))
}

/// How a run ended.
#[derive(Drop)]
pub struct Ran {
    pub status: u8,
    pub input: MemorySource,
    pub out: MemorySink,
    pub err: MemorySink,
    pub board: Board,
}

/// Makes a run of the file `guest` that has these bytes.
pub fn run_file(alloc: Global, guest: &[u8], given: Given<'_>) -> Result<Ran, Fail> {
    let words = words(alloc, given.words)?;
    let mut files = files(alloc, guest, given)?;
    let mut input = input(alloc, given)?;
    let mut out = MemorySink::new(alloc, given.out_room, calls(alloc, given.out_fails)?)?;
    let mut err = MemorySink::new(alloc, given.err_room, calls(alloc, given.err_fails)?)?;
    let board = Board::new(alloc, MOST_FRAMES as u32)?;
    let Ended { status, board } = ufork(
        alloc, &words, &mut files, &mut input, &mut out, &mut err, board,
    );
    Ok(Ran {
        status,
        input,
        out,
        err,
        board,
    })
}

/// Makes a run of a page.
pub fn check(
    rt: &(impl Abort + AllocGlobal),
    page: &[u8],
    given: Given<'_>,
    want: Want<'_>,
) -> Result<(), Fail> {
    let ran = run_file(rt.alloc(), &image_of(rt.alloc(), page)?, given)?;
    assert_eq!(rt; ran.status, want.status);
    assert_eq!(rt; ran.out.bytes(), want.out);
    assert_eq!(rt; ran.err.bytes(), want.err);
    assert_eq!(rt; left_on(&ran.board, page), Some(want.left));
    Ok(())
}

/// Makes a run of a file, after which nothing stands on the board. `case` is told where it fails.
pub fn check_file(
    rt: &(impl Abort + AllocGlobal),
    case: &str,
    guest: &[u8],
    given: Given<'_>,
    want: (u8, &[u8], &[u8]),
) -> Result<(), Fail> {
    let ran = run_file(rt.alloc(), guest, given)?;
    let (status, out, err) = want;
    assert_eq!(rt; ran.err.bytes(), err, "{case}");
    assert_eq!(rt; ran.out.bytes(), out, "{case}");
    assert_eq!(rt; ran.status, status, "{case}");
    assert_eq!(rt; left_on(&ran.board, &[]), Some(Left::Nothing), "{case}");
    Ok(())
}

/// Makes a run in which nothing fails and the process ends.
pub fn check_done(
    rt: &(impl Abort + AllocGlobal),
    page: &[u8],
    out: &[u8],
    err: &[u8],
) -> Result<(), Fail> {
    let want = Want {
        status: 0,
        out,
        err,
        left: Left::Nothing,
    };
    check(rt, page, RUN, want)
}

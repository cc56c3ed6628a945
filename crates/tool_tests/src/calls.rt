// Calls of the program over memory: what one is given, and what has to come of it.
use cap_format::MOST_FRAMES;
use outside_io::{MemoryFiles, MemorySink, MemorySource};
use std::alloc::Global;
use std::process::Abort;
use std::test::Fail;
use stores::Board;
use ufork_program::{Ended, ufork};

/// What a call is given besides the file `f`.
#[derive(Clone, Copy)]
pub struct Given<'a> {
    /// The words, parted by single spaces.
    pub words: &'a str,
    /// The read of a file that fails, from 0.
    pub file_fails: Option<u64>,
    /// The write to the output that fails, from 0.
    pub out_fails: Option<u64>,
    /// The write to the errors that fails, from 0.
    pub err_fails: Option<u64>,
}

/// A call in which nothing fails.
pub fn with_words(words: &str) -> Given<'_> {
    Given {
        words,
        file_fails: None,
        out_fails: None,
        err_fails: None,
    }
}

/// How a call ended.
#[derive(Drop)]
pub struct Called {
    pub status: u8,
    pub out: MemorySink,
    pub err: MemorySink,
    /// Whether the input has all of its bytes, and nothing stands on the board.
    pub untouched: bool,
}

fn failing(alloc: Global, call: Option<u64>) -> Result<Vec<u64>, Fail> {
    let mut calls = Vec::new(alloc);
    if let Some(call) = call {
        calls.push(call)?;
    }
    Ok(calls)
}

fn words(alloc: Global, line: &str) -> Result<Vec<String>, Fail> {
    let mut words = Vec::new(alloc);
    for word in line.split(' ') {
        words.push(String::from_str(alloc, word)?)?;
    }
    Ok(words)
}

// The file `f` alone.
fn files(alloc: Global, content: &[u8], fails: Option<u64>) -> Result<MemoryFiles, Fail> {
    let mut bytes = Vec::new(alloc);
    bytes.extend_from_slice(content)?;
    let mut entries = Vec::new(alloc);
    entries.push((String::from_str(alloc, "f")?, bytes))?;
    Ok(MemoryFiles::new(entries, failing(alloc, fails)?))
}

// An input of four bytes.
fn input(alloc: Global) -> Result<MemorySource, Fail> {
    let mut bytes = Vec::new(alloc);
    bytes.extend_from_slice(b"left")?;
    Ok(MemorySource::new(bytes, 4096, Vec::new(alloc)))
}

// Whether a read of the input gives all of its four bytes.
fn has_all(input: &mut MemorySource) -> bool {
    let mut room = [0; 8];
    outside_io::Source::read(input, &mut room) == Ok(4) && room == *b"left\0\0\0\0"
}

/// Makes a call on a file of this content.
pub fn call(alloc: Global, content: &[u8], given: Given<'_>) -> Result<Called, Fail> {
    let words = words(alloc, given.words)?;
    let mut files = files(alloc, content, given.file_fails)?;
    let mut input = input(alloc)?;
    let mut out = MemorySink::new(alloc, 16384, failing(alloc, given.out_fails)?)?;
    let mut err = MemorySink::new(alloc, 100, failing(alloc, given.err_fails)?)?;
    let board = Board::new(alloc, MOST_FRAMES as u32)?;
    let Ended { status, board } = ufork(
        alloc, &words, &mut files, &mut input, &mut out, &mut err, board,
    );
    Ok(Called {
        status,
        out,
        err,
        untouched: has_all(&mut input) && board.is_empty() && board.pool.used() == 0,
    })
}

/// Makes a call that has to end so: the status, what stands on the output and what on the errors.
pub fn check(
    rt: &(impl Abort + AllocGlobal),
    content: &[u8],
    given: Given<'_>,
    want: (u8, &[u8], &[u8]),
) -> Result<(), Fail> {
    let called = call(rt.alloc(), content, given)?;
    let (status, out, err) = want;
    assert_eq!(rt; called.err.bytes(), err, "{}", given.words);
    assert_eq!(rt; called.out.bytes(), out, "{}", given.words);
    assert_eq!(rt; called.status, status, "{}", given.words);
    assert!(rt; called.untouched, "{}", given.words);
    Ok(())
}

/// The file that `asm` writes of a source.
pub fn assembled(rt: &(impl Abort + AllocGlobal), source: &[u8]) -> Result<Vec<u8>, Fail> {
    let called = call(rt.alloc(), source, with_words("asm f"))?;
    assert_eq!(rt; called.err.bytes(), b"".as_slice());
    assert_eq!(rt; called.status, 0);
    let mut file = Vec::new(rt.alloc());
    file.extend_from_slice(called.out.bytes())?;
    Ok(file)
}

// Runs of the program over memory: what one is given, and what has to come of it.
use cap_format::MOST_FRAMES;
use outside_io::{MemoryFiles, MemorySink, MemorySource};
use std::alloc::Global;
use std::process::Abort;
use std::test::Fail;
use stores::Board;
use ufork_program::{Ended, ufork};

/// What a run is given besides the file `guest`.
#[derive(Clone, Copy)]
pub struct Given<'a> {
    /// The words, parted by single spaces.
    pub words: &'a str,
    /// The text of the file `s`.
    pub schedule: &'a [u8],
    /// The bytes of the console's input.
    pub input: &'a [u8],
}

/// A run of the guest alone, with this input.
pub fn with_input(input: &[u8]) -> Given<'_> {
    Given {
        words: "run guest",
        schedule: b"",
        input,
    }
}

fn words(alloc: Global, line: &str) -> Result<Vec<String>, Fail> {
    let mut words = Vec::new(alloc);
    for word in line.split(' ') {
        words.push(String::from_str(alloc, word)?)?;
    }
    Ok(words)
}

fn copied(alloc: Global, bytes: &[u8]) -> Result<Vec<u8>, Fail> {
    let mut copy = Vec::new(alloc);
    copy.extend_from_slice(bytes)?;
    Ok(copy)
}

fn files(alloc: Global, guest: &[u8], schedule: &[u8]) -> Result<MemoryFiles, Fail> {
    let mut entries = Vec::new(alloc);
    entries.push((String::from_str(alloc, "guest")?, copied(alloc, guest)?))?;
    entries.push((String::from_str(alloc, "s")?, copied(alloc, schedule)?))?;
    Ok(MemoryFiles::new(entries, Vec::new(alloc)))
}

/// Makes a run that has to end so: the status, what stands on the output and what on the errors. `case` is told where it fails.
pub fn check(
    rt: &(impl Abort + AllocGlobal),
    case: &str,
    guest: &[u8],
    given: Given<'_>,
    want: (u8, &[u8], &[u8]),
) -> Result<(), Fail> {
    let alloc = rt.alloc();
    let words = words(alloc, given.words)?;
    let mut files = files(alloc, guest, given.schedule)?;
    let mut input = MemorySource::new(copied(alloc, given.input)?, 4096, Vec::new(alloc));
    let mut out = MemorySink::new(alloc, 16384, Vec::new(alloc))?;
    let mut err = MemorySink::new(alloc, 100, Vec::new(alloc))?;
    let board = Board::new(alloc, MOST_FRAMES as u32)?;
    let Ended { status, .. } = ufork(
        alloc, &words, &mut files, &mut input, &mut out, &mut err, board,
    );
    let (wanted, printed, lines) = want;
    assert_eq!(rt; err.bytes(), lines, "{case}");
    assert_eq!(rt; out.bytes(), printed, "{case}");
    assert_eq!(rt; status, wanted, "{case}");
    Ok(())
}

/// Makes a run that ends with the status 0, and whose process exits with 0 after so many steps in all.
pub fn check_done(
    rt: &(impl Abort + AllocGlobal),
    case: &str,
    guest: &[u8],
    input: &[u8],
    want: (&[u8], u64),
) -> Result<(), Fail> {
    let (printed, steps) = want;
    let lines = format!(in rt.alloc(); "exit 1 0\ndone {steps}\n")?;
    let want = (0, printed, lines.as_bytes());
    check(rt, case, guest, with_input(input), want)
}

// Runs over memory of a guest that is given as the assembler's text, and what has to come of them.
use asm_image::assemble;
use asm_text::{SourceRefusal, read_source};
use cap_format::MOST_FRAMES;
use outside_io::{MemoryFiles, MemorySink, MemorySource};
use std::alloc::Global;
use std::process::Abort;
use std::test::Fail;
use stores::Board;
use ufork_program::{Ended, ufork};

/// The head of a guest.
pub const START: &str = ".segment 0 rx\n.entry start\nstart:\n";

/// Points register 8 to page 1, in 2 steps.
pub const DATA: &str = "lui x5, 1\ncincoffset c8, c2, x5\n";

/// Forks, in 2 steps.
pub const FORK: &str = "addi x17, x0, 2\necall\n";

/// Waits for a child, in 2 steps and one for each time that it goes on.
pub const WAIT: &str = "addi x17, x0, 3\necall\n";

/// Gives way to the other processes, in 2 steps.
pub const YIELD: &str = "addi x17, x0, 12\necall\n";

/// Exits with register 10, in 2 steps.
pub const END: &str = "addi x17, x0, 1\necall\n";

/// Exits with 0, in 3 steps.
pub const EXIT: &str = "addi x10, x0, 0\naddi x17, x0, 1\necall\n";

/// Writes one byte at register 8, in 5 steps.
pub const PUT: &str = "addi x10, x0, 1\ncmove c11, c8\naddi x12, x0, 1\naddi x17, x0, 8\necall\n";

/// What a run is given.
#[derive(Clone, Copy)]
pub struct Given<'a> {
    /// The options, parted by single spaces, each with one before it.
    pub options: &'a str,
    /// The text of the file `s`.
    pub schedule: &'a str,
    /// The bytes of the console's input.
    pub input: &'a [u8],
    /// The write to the output that fails, from 0.
    pub out_fails: Option<u64>,
}

/// A run without options, of the empty schedule and the empty input.
pub const RUN: Given<'static> = Given {
    options: "",
    schedule: "",
    input: b"",
    out_fails: None,
};

/// A run with these options.
pub fn with_options(options: &str) -> Given<'_> {
    Given { options, ..RUN }
}

/// A run by this schedule.
pub fn by_schedule(schedule: &str) -> Given<'_> {
    Given {
        options: " --schedule s",
        schedule,
        ..RUN
    }
}

/// What has to come of a run: the status, what stands on the output and on the errors, and how many frames are used on the board.
pub type Want<'a> = (u8, &'a [u8], &'a str, u32);

// The file of a source.
fn file_of(alloc: Global, text: &[u8]) -> Result<Vec<u8>, SourceRefusal> {
    let source = read_source(alloc, text)?;
    assemble(alloc, text, &source)
}

// The image of the parts of a source.
fn image_of(alloc: Global, parts: &[&str]) -> Result<Vec<u8>, Fail> {
    let mut text = Vec::new(alloc);
    for part in parts {
        text.extend_from_slice(part.as_bytes())?;
    }
    let Ok(file) = file_of(alloc, &text) else {
        return Err(Fail::from("not assembled"));
    };
    Ok(file)
}

fn words(alloc: Global, options: &str) -> Result<Vec<String>, Fail> {
    let line = format!(in alloc; "run --copy full{options} guest")?;
    let mut words = Vec::new(alloc);
    for word in line.split(' ') {
        words.push(String::from_str(alloc, word)?)?;
    }
    Ok(words)
}

fn bytes_of(alloc: Global, content: &[u8]) -> Result<Vec<u8>, Fail> {
    let mut bytes = Vec::new(alloc);
    bytes.extend_from_slice(content)?;
    Ok(bytes)
}

fn files(alloc: Global, guest: Vec<u8>, schedule: &str) -> Result<MemoryFiles, Fail> {
    let mut entries = Vec::new(alloc);
    entries.push((String::from_str(alloc, "guest")?, guest))?;
    let text = bytes_of(alloc, schedule.as_bytes())?;
    entries.push((String::from_str(alloc, "s")?, text))?;
    Ok(MemoryFiles::new(entries, Vec::new(alloc)))
}

// How a run ended.
#[derive(Drop)]
struct Ran {
    status: u8,
    out: MemorySink,
    err: MemorySink,
    board: Board,
}

fn run(alloc: Global, parts: &[&str], given: Given<'_>) -> Result<Ran, Fail> {
    let words = words(alloc, given.options)?;
    let mut files = files(alloc, image_of(alloc, parts)?, given.schedule)?;
    let mut input = MemorySource::new(bytes_of(alloc, given.input)?, 4096, Vec::new(alloc));
    let mut failing = Vec::new(alloc);
    if let Some(call) = given.out_fails {
        failing.push(call)?;
    }
    let mut out = MemorySink::new(alloc, 32768, failing)?;
    let mut err = MemorySink::new(alloc, 4096, Vec::new(alloc))?;
    let board = Board::new(alloc, MOST_FRAMES)?;
    let Ended { status, board } = ufork(
        alloc, &words, &mut files, &mut input, &mut out, &mut err, board,
    );
    Ok(Ran {
        status,
        out,
        err,
        board,
    })
}

/// Makes a run of the parts of a source. `case` is told where it fails.
pub fn check(
    rt: &(impl Abort + AllocGlobal),
    case: &str,
    parts: &[&str],
    given: Given<'_>,
    want: Want<'_>,
) -> Result<(), Fail> {
    let ran = run(rt.alloc(), parts, given)?;
    let (status, out, err, used) = want;
    assert_eq!(rt; ran.err.bytes(), err.as_bytes(), "{case}");
    assert_eq!(rt; ran.out.bytes(), out, "{case}");
    assert_eq!(rt; ran.status, status, "{case}");
    assert_eq!(rt; ran.board.pool.used(), used, "{case}");
    assert_eq!(rt; ran.board.is_empty(), used == 0, "{case}");
    Ok(())
}

/// Makes a run of the parts of a source in which each process ends.
pub fn check_done(
    rt: &(impl Abort + AllocGlobal),
    case: &str,
    parts: &[&str],
    given: Given<'_>,
    out: &[u8],
    err: &str,
) -> Result<(), Fail> {
    check(rt, case, parts, given, (0, out, err, 0))
}

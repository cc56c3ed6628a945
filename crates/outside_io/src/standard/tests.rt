// The adapters over real files, and over readers and writers that fail or move few bytes at a call.
use super::*;
use std::fmt::Display;
use std::io::{Error, ErrorKind};
use std::process::Abort;
use std::test::Fail;
use std::{env, io, process};

// Gives these bytes, at most `step` at a call. The call whose number, from 0, is `failing` fails and takes none.
#[derive(Drop)]
struct Giver {
    bytes: &'static [u8],
    step: usize,
    failing: Option<usize>,
    calls: usize,
}

impl Giver {
    fn new(bytes: &'static [u8], step: usize, failing: Option<usize>) -> Giver {
        Giver {
            bytes,
            step,
            failing,
            calls: 0,
        }
    }
}

impl Read for Giver {
    fn read(&mut self, into: &mut [u8]) -> io::Result<usize> {
        let call = self.calls;
        self.calls = call.saturating_add(1);
        if self.failing == Some(call) {
            return Err(Error::from(ErrorKind::TimedOut));
        }
        let count = self.bytes.len().min(self.step).min(into.len());
        into[..count].copy_from_slice(&self.bytes[..count]);
        self.bytes = &self.bytes[count..];
        Ok(count)
    }
}

// Keeps a log of the bytes that it took, at most `step` at a write, with `|` for each flush. The write or flush whose
// number, from 0, is `failing` fails, and the log has `!` for it.
#[derive(Drop)]
struct Taker {
    log: Vec<u8>,
    step: usize,
    failing: Option<usize>,
    calls: usize,
}

impl Taker {
    fn fails_now(&mut self) -> io::Result<()> {
        let call = self.calls;
        self.calls = call.saturating_add(1);
        if self.failing == Some(call) {
            self.log.push(b'!')?;
            return Err(Error::from(ErrorKind::TimedOut));
        }
        Ok(())
    }
}

impl Write for Taker {
    fn write(&mut self, piece: &[u8]) -> io::Result<usize> {
        self.fails_now()?;
        let count = piece.len().min(self.step);
        self.log.extend_from_slice(&piece[..count])?;
        Ok(count)
    }

    fn flush(&mut self) -> io::Result<()> {
        self.fails_now()?;
        self.log.push(b'|')?;
        Ok(())
    }
}

// A read of a source: the room of a buffer of dots, the result, what the buffer holds then, and the count of faults.
type Call = (usize, Result<usize, Failed>, &'static [u8], u64);

fn check_reads<R: Read + Drop>(
    rt: &(impl Abort + AllocGlobal),
    reader: R,
    calls: &[Call],
) -> Result<(), Fail> {
    let mut source = StdSource::new(reader);
    for (number, (room, result, into, faults)) in calls.iter().enumerate() {
        let mut buffer = vec![in rt.alloc(); b'.'; *room]?;
        assert_eq!(rt; source.read(&mut buffer), *result, "at call {number}");
        assert_eq!(rt; buffer.as_slice(), *into, "at call {number}");
        assert_eq!(rt; source.faults, *faults, "at call {number}");
    }
    Ok(())
}

#[test]
fn a_source_gives_what_its_reader_gives(rt: HostRuntime) -> Result<(), Fail> {
    check_reads(
        &rt,
        b"abcde".as_slice(),
        &[
            (2, Ok(2), b"ab", 0),
            (0, Ok(0), b"", 0),
            (4, Ok(3), b"cde.", 0),
            (3, Ok(0), b"...", 0),
        ],
    )?;
    check_reads(
        &rt,
        Giver::new(b"abc", 1, None),
        &[
            (2, Ok(1), b"a.", 0),
            (0, Ok(0), b"", 0),
            (1, Ok(1), b"b", 0),
            (3, Ok(1), b"c..", 0),
            (3, Ok(0), b"...", 0),
        ],
    )
}

#[test]
fn a_read_that_fails_takes_nothing(rt: HostRuntime) -> Result<(), Fail> {
    let rows: [[Call; 4]; 4] = [
        [
            (2, Err(Failed), b"..", 1),
            (2, Ok(2), b"ab", 1),
            (2, Ok(1), b"c.", 1),
            (2, Ok(0), b"..", 1),
        ],
        [
            (2, Ok(2), b"ab", 0),
            (2, Err(Failed), b"..", 1),
            (2, Ok(1), b"c.", 1),
            (2, Ok(0), b"..", 1),
        ],
        [
            (2, Ok(2), b"ab", 0),
            (2, Ok(1), b"c.", 0),
            (2, Err(Failed), b"..", 1),
            (2, Ok(0), b"..", 1),
        ],
        [
            (2, Ok(2), b"ab", 0),
            (2, Ok(1), b"c.", 0),
            (2, Ok(0), b"..", 0),
            (2, Err(Failed), b"..", 1),
        ],
    ];
    for (failing, calls) in rows.iter().enumerate() {
        check_reads(&rt, Giver::new(b"abc", 2, Some(failing)), calls)?;
    }
    Ok(())
}

// Whether a read gave this. A failure names the case.
fn check_answer<C: Display + Drop>(
    rt: &impl Abort,
    case: C,
    read: Result<Vec<u8>, FileRefusal>,
    answer: Result<&[u8], FileRefusal>,
) {
    match read {
        Ok(bytes) => assert_eq!(rt; Ok(bytes.as_slice()), answer, "at {case}"),
        Err(refusal) => assert_eq!(rt; Err(refusal), answer, "at {case}"),
    }
}

// A whole read of `abc`: the reader's step and its failing call, the limit, the answer, and the number of calls.
type WholeRead = (
    usize,
    Option<usize>,
    usize,
    Result<&'static [u8], FileRefusal>,
    usize,
);

#[test]
fn a_whole_read_stops_at_a_fault_and_past_the_limit(rt: HostRuntime) {
    let too_long = Err(FileRefusal::TooLong);
    let failed = Err(FileRefusal::Failed);
    let rows: [WholeRead; 15] = [
        (9, None, 3, Ok(b"abc"), 2),
        (9, None, 2, too_long, 1),
        (1, None, 4, Ok(b"abc"), 4),
        (1, None, 3, Ok(b"abc"), 4),
        (1, None, 2, too_long, 3),
        (1, None, 0, too_long, 1),
        (1, Some(0), 3, failed, 1),
        (1, Some(1), 3, failed, 2),
        (1, Some(2), 3, failed, 3),
        (1, Some(3), 3, failed, 4),
        (1, Some(4), 3, Ok(b"abc"), 4),
        (1, Some(2), 2, failed, 3),
        (1, Some(3), 2, too_long, 3),
        (1, Some(0), 0, failed, 1),
        (1, Some(1), 0, too_long, 1),
    ];
    for (number, (step, failing, limit, answer, calls)) in rows.iter().enumerate() {
        let mut giver = Giver::new(b"abc", *step, *failing);
        let read = read_whole(rt.alloc(), &mut giver, *limit);
        check_answer(&rt, number, read, *answer);
        assert_eq!(rt; giver.calls, *calls, "in row {number}");
    }
}

// The pieces `abc`, none and `d`: the writer's step and its failing call, the results, the log, and the count of faults.
type Writes = (
    usize,
    Option<usize>,
    [Result<(), Failed>; 3],
    &'static [u8],
    u64,
);

#[test]
fn a_sink_writes_and_flushes_each_piece(rt: HostRuntime) -> Result<(), Fail> {
    let failed = Err(Failed);
    let rows: [Writes; 10] = [
        (9, None, [Ok(()), Ok(()), Ok(())], b"abc||d|", 0),
        (1, None, [Ok(()), Ok(()), Ok(())], b"abc||d|", 0),
        (0, None, [failed, Ok(()), failed], b"|", 2),
        (2, Some(0), [failed, Ok(()), Ok(())], b"!|d|", 1),
        (2, Some(1), [failed, Ok(()), Ok(())], b"ab!|d|", 1),
        (2, Some(2), [failed, Ok(()), Ok(())], b"abc!|d|", 1),
        (2, Some(3), [Ok(()), failed, Ok(())], b"abc|!d|", 1),
        (2, Some(4), [Ok(()), Ok(()), failed], b"abc||!", 1),
        (2, Some(5), [Ok(()), Ok(()), failed], b"abc||d!", 1),
        (2, Some(6), [Ok(()), Ok(()), Ok(())], b"abc||d|", 0),
    ];
    for (number, (step, failing, results, log, faults)) in rows.iter().enumerate() {
        let mut sink = StdSink::new(Taker {
            log: Vec::new(rt.alloc()),
            step: *step,
            failing: *failing,
            calls: 0,
        });
        assert_eq!(rt; sink.write(b"abc"), results[0], "in row {number}");
        assert_eq!(rt; sink.write(b""), results[1], "in row {number}");
        assert_eq!(rt; sink.write(b"d"), results[2], "in row {number}");
        assert_eq!(rt; sink.writer.log.as_slice(), *log, "in row {number}");
        assert_eq!(rt; sink.faults, *faults, "in row {number}");
    }
    Ok(())
}

// A new folder for files, whose name has this word. What an earlier run may have left there is removed.
fn new_folder(rt: &HostRuntime, word: &str) -> Result<String, Fail> {
    let parent = env::temp_dir(rt)?.into_string();
    let id = process::id(rt.process());
    let folder = format!(in rt.alloc(); "{parent}/outside_io_{word}_{id}")?;
    let _ = fs::remove_dir_all(rt, folder.as_str());
    fs::create_dir(rt, folder.as_str())?;
    Ok(folder)
}

#[test]
fn a_file_is_read_up_to_the_limit(rt: HostRuntime) -> Result<(), Fail> {
    let folder = new_folder(&rt, "limit")?;
    let name = format!(in rt.alloc(); "{folder}/file")?;
    let mut files = HostFiles::new(&rt);
    // The length of the file, the limit, and whether it fits.
    let rows = [
        (0, 0, true),
        (0, 9, true),
        (1, 0, false),
        (5, 5, true),
        (5, 4, false),
        (4095, 4095, true),
        (4096, 4096, true),
        (4096, 4095, false),
        (4097, 4096, false),
        (8192, 8192, true),
        (8193, 8192, false),
    ];
    for (number, (len, limit, fits)) in rows.into_iter().enumerate() {
        let bytes: Vec<u8> = (0..len).map(|i: u32| (i % 251) as u8).collect(rt.alloc())?;
        fs::write(&rt, name.as_str(), bytes.as_slice())?;
        let read = files.read_file(rt.alloc(), name.as_str(), limit);
        let answer = if fits {
            Ok(bytes.as_slice())
        } else {
            Err(FileRefusal::TooLong)
        };
        check_answer(&rt, number, read, answer);
    }
    assert_eq!(rt; files.faults, 0);
    fs::remove_dir_all(&rt, folder.as_str())?;
    Ok(())
}

// Reads the file of that name: the answer, the count of faults, and the name that failed last.
fn check_file<R: rt::Files + Abort + AllocGlobal>(
    rt: &R,
    files: &mut HostFiles<&R>,
    name: &str,
    answer: Result<&[u8], FileRefusal>,
    faults: u64,
    failed_last: Option<&str>,
) {
    check_answer(rt, name, files.read_file(rt.alloc(), name, 7), answer);
    assert_eq!(rt; files.faults, faults, "at {name}");
    let last = files.failed_last.as_ref().map(|last| last.as_str());
    assert_eq!(rt; last, failed_last, "at {name}");
}

#[test]
fn each_name_opens_its_own_file(rt: HostRuntime) -> Result<(), Fail> {
    let folder = new_folder(&rt, "names")?;
    let one = format!(in rt.alloc(); "{folder}/one")?;
    let other = format!(in rt.alloc(); "{folder}/other")?;
    let nowhere = format!(in rt.alloc(); "{folder}/nowhere")?;
    let folder = folder.as_str();
    let one = one.as_str();
    let other = other.as_str();
    let nowhere = nowhere.as_str();
    fs::write(&rt, one, "the one")?;
    fs::write(&rt, other, "another")?;
    let failed = Err(FileRefusal::Failed);
    let mut files = HostFiles::new(&rt);
    check_file(&rt, &mut files, one, Ok(b"the one"), 0, None);
    check_file(&rt, &mut files, other, Ok(b"another"), 0, None);
    check_file(&rt, &mut files, nowhere, failed, 1, Some(nowhere));
    check_file(&rt, &mut files, one, Ok(b"the one"), 1, Some(nowhere));
    check_file(&rt, &mut files, folder, failed, 2, Some(folder));
    check_file(&rt, &mut files, other, Ok(b"another"), 2, Some(folder));
    fs::remove_dir_all(&rt, folder)?;
    Ok(())
}

// Adapters over the readers, writers and files of `std`: the trusted edge.
ghost use Rattle.std.specs.Prelude.{◌≡◌, ◌≤◌, ◌-◌, ◌^◌, ◌+◌, min, true, None, Some, IsErr, OnErr, OnOk, IfSome, option_map, string_bytes, drop, length, IfOk};
ghost use Rattle.std.specs.Io.{ReadsAtMost};
ghost use Rattle.std.specs.Io.KnownBytes.{Appends, ReadConsumes};
ghost use Rattle.outside_io.specs.States.{AppendsPart, PrintsText};
ghost use Rattle.outside_io.specs.Contents.{IsReadOf, IsReadOfSome, HasFileCause, IsFaultOrWant};
ghost use Rattle.outside_io.specs.Faults.{HasCause, Rose, last_count};

use crate::{Failed, FileRefusal, Files, Sink, Source};
use std::alloc::Global;
use std::io::{Read, Write};
use std::marker::Model;
use std::{fs, rt};

#[cfg(test)]
mod tests;

// A read goes through a buffer, since a reader may change more of what it is lent than it fills.
const PIECE: usize = 4096;

/// A source over a reader. A read that gives 0 bytes is the end.
///
/// It tells what the reader tells, which is nothing for a file, a pipe or a terminal.
#[derive(Drop)]
pub struct StdSource<R: Read + Drop> {
    reader: R,
    faults: u64,
}

impl<R: Read + Drop> Model for StdSource<R> {
    ghost use Rattle.outside_io.specs.States.{SourceState};

    ghost Value = { SourceState };

    ghost view = { λ s. record { left = R.remaining s.reader; faults = s.faults } };
}

impl<R: Read + Drop> StdSource<R> {
    /// A source of what the reader gives, with no fault yet.
    pub fn new(reader: R) -> StdSource<R>
        ensures { result ≡ record { left = R.remaining reader; faults = 0 } }
    {
        StdSource { reader, faults: 0 }
    }
}

impl<R: Read + Drop> Source for StdSource<R> {
    ghost state = { λ s. s };

    fn read(&mut self, into: &mut [u8]) -> Result<usize, Failed>
        ensures bound { ReadsAtMost result into.new }
        ensures bytes { ReadConsumes self.old.left self.new.left result into.new }
        ensures rest { IfOk result (λ count. drop count into.new ≡ drop count into.old) }
        ensures cause { HasCause self.old.faults self.new.faults result }

        ensures at_last { self.old.faults ≡ last_count → IsErr result }
    {
        if self.faults == u64::MAX {
            return Err(Failed);
        }
        let mut buffer = [0; PIECE];
        let room = into.len().min(PIECE);
        match self.reader.read(&mut buffer[..room]) {
            Ok(count) => {
                into[..count].copy_from_slice(&buffer[..count]);
                Ok(count)
            }
            Err(_) => {
                self.faults += 1;
                Err(Failed)
            }
        }
    }
}

/// A sink over a writer. It flushes after each piece; a write that takes 0 bytes of a nonempty piece is a fault.
///
/// It tells what the writer tells, which is nothing for a file, a pipe or a terminal.
#[derive(Drop)]
pub struct StdSink<W: Write + Drop> {
    writer: W,
    faults: u64,
}

impl<W: Write + Drop> Model for StdSink<W> {
    ghost use Rattle.outside_io.specs.States.{SinkState};

    ghost Value = { SinkState };

    ghost view = { λ s. record { written = W.contents s.writer; faults = s.faults } };
}

impl<W: Write + Drop> StdSink<W> {
    /// A sink to the writer, with no fault yet.
    pub fn new(writer: W) -> StdSink<W>
        ensures { result ≡ record { written = W.contents writer; faults = 0 } }
    {
        StdSink { writer, faults: 0 }
    }
}

// Writes the piece and flushes: whether it did so.
fn write_through<W: Write>(writer: &mut W, piece: &[u8]) -> bool
    ensures whole { result ≡ true → Appends (W.contents writer.old) (W.contents writer.new) piece.now }
    ensures part { AppendsPart (W.contents writer.old) (W.contents writer.new) piece.now }
{
    let mut rest = piece;
    while !rest.is_empty() {
        match writer.write(rest) {
            Ok(0) => return false,
            Ok(count) => rest = &rest[count..],
            Err(_) => return false,
        }
    }
    writer.flush().is_ok()
}

impl<W: Write + Drop> Sink for StdSink<W> {
    ghost state = { λ s. s };

    fn write(&mut self, piece: &[u8]) -> Result<(), Failed>
        ensures prints { PrintsText piece.now self.old self.new result }

        ensures at_last { self.old.faults ≡ last_count → IsErr result }
    {
        if self.faults == u64::MAX {
            return Err(Failed);
        }
        if write_through(&mut self.writer, piece) {
            return Ok(());
        }
        self.faults += 1;
        Err(Failed)
    }
}

/// The files of the host, through the value by which `std` reaches them. It tells no content.
#[derive(Drop)]
pub struct HostFiles<H: rt::Files + Drop> {
    host: H,
    faults: u64,
    failed_last: Option<String>,
}

impl<H: rt::Files + Drop> Model for HostFiles<H> {
    ghost use Rattle.std.specs.Prelude.{option_map, string_bytes};
    ghost use Rattle.outside_io.specs.Memory.{HostFilesState};

    ghost Value = { HostFilesState };

    ghost view = { λ s. record { faults = s.faults; failed_last = option_map string_bytes s.failed_last } };
}

impl<H: rt::Files + Drop> HostFiles<H> {
    /// The host's files, with no fault yet.
    pub fn new(host: H) -> HostFiles<H>
        ensures { result ≡ record { faults = 0; failed_last = None } }
    {
        HostFiles {
            host,
            faults: 0,
            failed_last: None,
        }
    }
}

// Reads to the end, or past the limit. Each turn takes at least one byte.
fn read_whole<R: Read>(alloc: Global, reader: &mut R, limit: usize) -> Result<Vec<u8>, FileRefusal>
    ensures content { IfSome (R.remaining reader.old) (λ left. IsReadOf (λ v. v.items) (Some left) limit result) }
    ensures within { IfOk result (λ v. length v.items ≤ limit) }
{
    let mut bytes = Vec::new(alloc);
    let mut buffer = [0; PIECE];
    while bytes.len() <= limit {
        match reader.read(&mut buffer) {
            Ok(0) => return Ok(bytes),
            Ok(count) => {
                if bytes.extend_from_slice(&buffer[..count]).is_err() {
                    return Err(FileRefusal::NoMemory);
                }
            }
            Err(_) => return Err(FileRefusal::Failed),
        }
    }
    Err(FileRefusal::TooLong)
}

fn read_host<H: rt::Files>(
    alloc: Global,
    host: &H,
    name: &str,
    limit: usize,
) -> Result<Vec<u8>, FileRefusal>
    ensures some_file { IsReadOfSome H.File.remaining (λ v. v.items) limit result }
    ensures within { IfOk result (λ v. length v.items ≤ limit) }
{
    match fs::open(host, name) {
        Ok(mut file) => read_whole(alloc, &mut file, limit),
        Err(_) => Err(FileRefusal::Failed),
    }
}

impl<H: rt::Files + Drop> Files for HostFiles<H> {
    ghost state = { λ s. record { contents = None; faults = s.faults; failed_last = s.failed_last } };

    fn read_file(&mut self, alloc: Global, name: &str, limit: usize) -> Result<Vec<u8>, FileRefusal>
        ensures within { IfOk result (λ v. length v.items ≤ limit) }
        ensures cause { HasFileCause name.now (⟦<HostFiles<H> as Files>⟧.state self.old) (⟦<HostFiles<H> as Files>⟧.state self.new) result }

        // Every answer but a fault and want of memory is that of a whole read of some file of the host.
        ensures some_file { IsReadOfSome H.File.remaining (λ v. v.items) limit result }

        // At the last count each call fails, but for want of memory.
        ensures at_last { self.old.faults ≡ last_count → IsFaultOrWant result }
    {
        let Ok(kept) = String::from_str(alloc, name) else {
            return Err(FileRefusal::NoMemory);
        };
        let answer = if self.faults == u64::MAX {
            Err(FileRefusal::Failed)
        } else {
            read_host(alloc, &self.host, name, limit)
        };
        if matches!(answer, Err(FileRefusal::Failed)) {
            self.faults = self.faults.saturating_add(1);
            self.failed_last = Some(kept);
        }
        answer
    }
}

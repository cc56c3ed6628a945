// What is shown of a file, on the output.
ghost use Rattle.std.specs.Prelude.{◌≡◌, ◌+◌, ◌*◌, ◌≤◌, ◌<◌, ◌^◌, ◌/◌, ◌++◌, ◌∷◌, [], All, Ok, length, List, ℕ, flat_map};
ghost use Rattle.cap_format.specs.Numbers.{region_bytes};
ghost use Rattle.cap_format.specs.Image.{IsImage};
ghost use Rattle.outside_io.specs.States.{SinkState};
ghost use Rattle.outside_io.specs.Parts.{Prints, console};
ghost use Rattle.elf_loader.specs.Loaded.{IsRead};
ghost use Rattle.ufork_program.specs.Tools.{HasWords, word_parts, segment_parts, instr_parts, summary_parts, file_parts};
ghost use Rattle.ufork_program.specs.Request.{CanShow, parts_shown};

use crate::lines::write_image;
use crate::request::{ImageFile, Shown};
use byteorder::{ByteOrder, LittleEndian};
use cap_format::images_are_sound;
use elf_loader::Segment;
use outside_io::{Failed, Sink};
use trace_tools::write_instr;

/// The bytes of an instruction word.
const WORD_BYTES: usize = 4;

// Writes a line for each of so many words of a file from a place on; the first has this offset in the region.
fn write_words<O: Sink>(
    file: &[u8],
    place: usize,
    offset: u64,
    count: usize,
    out: &mut O,
) -> Result<(), Failed>
    requires file { place + 4 * count ≤ length file.now }
    requires region { offset + 4 * count ≤ region_bytes }
    ensures { (err : SinkState) → Prints (word_parts file.now place offset count) (console (O.state out.old) err) (console (O.state out.new) err) result }
{
    for at in 0..count {
        let word = LittleEndian::read_u32(&file[place + WORD_BYTES * at..]);
        write_instr(offset + (WORD_BYTES * at) as u64, word, out)?;
    }
    Ok(())
}

// Writes the whole words of a segment's part of the file, where its pages may be executed.
fn write_segment<O: Sink>(file: &[u8], segment: &Segment, out: &mut O) -> Result<(), Failed>
    requires { HasWords file.now segment.now }
    ensures { (err : SinkState) → Prints (segment_parts file.now segment.now) (console (O.state out.old) err) (console (O.state out.new) err) result }
{
    if segment.rights % 2 == 0 {
        return Ok(());
    }
    write_words(
        file,
        segment.from as usize,
        segment.start,
        segment.file_size as usize / WORD_BYTES,
        out,
    )
}

// Writes those of all segments.
fn write_segments<O: Sink>(file: &[u8], segments: &[Segment], out: &mut O) -> Result<(), Failed>
    requires { All (HasWords file.now) segments.now }
    ensures { (err : SinkState) → Prints (flat_map (segment_parts file.now) segments.now) (console (O.state out.old) err) (console (O.state out.new) err) result }
{
    for segment in segments {
        write_segment(file, segment, out)?;
    }
    Ok(())
}

// Writes the instructions of an image.
fn write_instrs<O: Sink>(found: &ImageFile, out: &mut O) -> Result<(), Failed>
    requires { IsRead found.now.bytes.items (Ok found.now.image) }
    ensures { (err : SinkState) → Prints (instr_parts found.now.bytes.items) (console (O.state out.old) err) (console (O.state out.new) err) result }
{
    images_are_sound();
    write_segments(&found.bytes, found.image.segments.list(), out)
}

// Writes a line on an image.
fn write_summary<O: Sink>(found: &ImageFile, out: &mut O) -> Result<(), Failed>
    requires { IsRead found.now.bytes.items (Ok found.now.image) }
    ensures { (err : SinkState) → Prints (summary_parts found.now.bytes.items) (console (O.state out.old) err) (console (O.state out.new) err) result }
{
    let image = &found.image;
    let relocations = image.relocs.list().len();
    write_image(u64::from(image.pages), relocations as u64, image.entry, out)
}

// Writes an image by one write.
fn write_file<O: Sink>(file: &[u8], out: &mut O) -> Result<(), Failed>
    requires { IsImage file.now }
    ensures { (err : SinkState) → Prints (file_parts file.now) (console (O.state out.old) err) (console (O.state out.new) err) result }
{
    images_are_sound();
    out.write(file)
}

/// Writes what is shown of a file. The errors stay as they were.
pub fn write_shown<O: Sink, E: Sink>(shown: &Shown, out: &mut O, err: &E) -> Result<(), Failed>
    requires { CanShow shown.now }
    ensures { Prints (parts_shown shown.now) (console (O.state out.old) (E.state err.now)) (console (O.state out.new) (E.state err.now)) result }
{
    match shown {
        Shown::Assembled(file) => write_file(file, out),
        Shown::Instrs(found) => write_instrs(found, out),
        Shown::Summary(found) => write_summary(found, out),
    }
}

// The lines of the program.
ghost use Rattle.std.specs.Prelude.{◌≡◌, ◌≤◌, ◌++◌, codes, length};
ghost use Rattle.outside_io.specs.States.{PrintsText};
ghost use Rattle.ufork_program.specs.Lines.{cannot_read_line, usage_line, schedule_refused_line, input_failed_line, input_too_long_line, frames_lacked_line, reason_text, image_refused_line, source_reason_text, source_refused_line, image_line};

use asm_text::{SourceFault, SourceReason};
use cap_format::{ImageFault, ImageReason};
use outside_io::{Failed, Sink};
use text_line::Line;

/// Writes `ufork: usage: word PLACE`, by one write.
pub fn write_usage<E: Sink>(place: u64, err: &mut E) -> Result<(), Failed>
    ensures { PrintsText (usage_line place) (E.state err.old) (E.state err.new) result }
{
    let mut line = Line::new();
    line.put(b"\n");
    line.put_number(place);
    line.put(b"ufork: usage: word ");
    err.write(line.text())
}

/// Writes `ufork: schedule refused: line LINE`, by one write.
pub fn write_schedule_refused<E: Sink>(number: u64, err: &mut E) -> Result<(), Failed>
    ensures { PrintsText (schedule_refused_line number) (E.state err.old) (E.state err.new) result }
{
    let mut line = Line::new();
    line.put(b"\n");
    line.put_number(number);
    line.put(b"ufork: schedule refused: line ");
    err.write(line.text())
}

/// Writes `ufork: input failed`, by one write.
pub fn write_input_failed<E: Sink>(err: &mut E) -> Result<(), Failed>
    ensures { PrintsText input_failed_line (E.state err.old) (E.state err.new) result }
{
    err.write(b"ufork: input failed\n")
}

/// Writes `ufork: input too long`, by one write.
pub fn write_input_too_long<E: Sink>(err: &mut E) -> Result<(), Failed>
    ensures { PrintsText input_too_long_line (E.state err.old) (E.state err.new) result }
{
    err.write(b"ufork: input too long\n")
}

/// Writes `ufork: image needs PAGES pages, FRAMES frames`, by one write.
pub fn write_frames_lacked<E: Sink>(pages: u64, frames: u64, err: &mut E) -> Result<(), Failed>
    ensures { PrintsText (frames_lacked_line pages frames) (E.state err.old) (E.state err.new) result }
{
    let mut line = Line::new();
    line.put(b" frames\n");
    line.put_number(frames);
    line.put(b" pages, ");
    line.put_number(pages);
    line.put(b"ufork: image needs ");
    err.write(line.text())
}

// Writes the name and the end of its line.
fn write_name<E: Sink>(name: &str, err: &mut E) -> Result<(), Failed>
    ensures { PrintsText (name.now ++ codes "\n") (E.state err.old) (E.state err.new) result }
{
    err.write(name.as_bytes())?;
    err.write(b"\n")
}

// The text of a reason.
fn reason_text(reason: ImageReason) -> &'static [u8]
    ensures is { result.now ≡ reason_text reason }
    ensures short { length result.now ≤ 13 }
{
    match reason {
        ImageReason::TooLong => b"TooLong",
        ImageReason::Truncated => b"Truncated",
        ImageReason::BadMagic => b"BadMagic",
        ImageReason::BadHeader => b"BadHeader",
        ImageReason::UnknownType => b"UnknownType",
        ImageReason::BadFlags => b"BadFlags",
        ImageReason::BadAddress => b"BadAddress",
        ImageReason::BadSize => b"BadSize",
        ImageReason::Overlap => b"Overlap",
        ImageReason::SecondTable => b"SecondTable",
        ImageReason::FileRange => b"FileRange",
        ImageReason::NoSegment => b"NoSegment",
        ImageReason::BadEntry => b"BadEntry",
        ImageReason::BadPlace => b"BadPlace",
        ImageReason::BadBounds => b"BadBounds",
        ImageReason::BadOffset => b"BadOffset",
        ImageReason::BadPerms => b"BadPerms",
    }
}

/// Writes `ufork: image refused: REASON at PLACE`, by one write.
pub fn write_image_refused<E: Sink>(fault: ImageFault, err: &mut E) -> Result<(), Failed>
    ensures { PrintsText (image_refused_line fault) (E.state err.old) (E.state err.new) result }
{
    let mut line = Line::new();
    line.put(b"\n");
    line.put_number(fault.place);
    line.put(b" at ");
    line.put(reason_text(fault.reason));
    line.put(b"ufork: image refused: ");
    err.write(line.text())
}

/// Writes `ufork: cannot read NAME`, the name as it stands, by three writes.
pub fn write_cannot_read<E: Sink>(name: &str, err: &mut E) -> Result<(), Failed>
    ensures { PrintsText (cannot_read_line name.now) (E.state err.old) (E.state err.new) result }
{
    err.write(b"ufork: cannot read ")?;
    write_name(name, err)
}

// The text of a source's reason.
fn source_reason_text(reason: SourceReason) -> &'static [u8]
    ensures is { result.now ≡ source_reason_text reason }
    ensures short { length result.now ≤ 13 }
{
    match reason {
        SourceReason::TooLong => b"TooLong",
        SourceReason::BadText => b"BadText",
        SourceReason::BadStatement => b"BadStatement",
        SourceReason::NoSegment => b"NoSegment",
        SourceReason::BadSegment => b"BadSegment",
        SourceReason::TooMany => b"TooMany",
        SourceReason::BadAlign => b"BadAlign",
        SourceReason::AfterBss => b"AfterBss",
        SourceReason::Misplaced => b"Misplaced",
        SourceReason::TooLarge => b"TooLarge",
        SourceReason::Empty => b"Empty",
        SourceReason::Twice => b"Twice",
        SourceReason::UnknownLabel => b"UnknownLabel",
        SourceReason::OutOfRange => b"OutOfRange",
        SourceReason::BadCap => b"BadCap",
        SourceReason::NoEntry => b"NoEntry",
    }
}

/// Writes `ufork: source refused: line LINE: REASON`, by one write.
pub fn write_source_refused<E: Sink>(fault: SourceFault, err: &mut E) -> Result<(), Failed>
    ensures { PrintsText (source_refused_line fault) (E.state err.old) (E.state err.new) result }
{
    let mut line = Line::new();
    line.put(b"\n");
    line.put(source_reason_text(fault.reason));
    line.put(b": ");
    line.put_number(fault.line);
    line.put(b"ufork: source refused: line ");
    err.write(line.text())
}

/// Writes `image PAGES pages RELOCATIONS relocations entry ENTRY`, by one write.
pub fn write_image<O: Sink>(
    pages: u64,
    relocations: u64,
    entry: u64,
    out: &mut O,
) -> Result<(), Failed>
    ensures { PrintsText (image_line pages relocations entry) (O.state out.old) (O.state out.new) result }
{
    let mut line = Line::new();
    line.put(b"\n");
    line.put_number(entry);
    line.put(b" relocations entry ");
    line.put_number(relocations);
    line.put(b" pages ");
    line.put_number(pages);
    line.put(b"image ");
    out.write(line.text())
}

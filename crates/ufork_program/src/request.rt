// What is read, in order, before anything is written.
ghost use Rattle.std.specs.Prelude.{◌≡◌, ◌<◌, ℕ, List, Some, IfOk, IfSome, Option, Ok, Err, MatchResult, All, length, map, string_bytes};
ghost use Rattle.cap_format.specs.Numbers.{image_bytes};
ghost use Rattle.cap_format.specs.Image.{IsImage, fault_of};
ghost use Rattle.asm_text.specs.Numbers.{source_bytes};
ghost use Rattle.asm_text.specs.Spans.{IsRefusedAs};
ghost use Rattle.asm_image.specs.Assembled.{file_from};
ghost use Rattle.outside_io.specs.States.{SourceState};
ghost use Rattle.outside_io.specs.Contents.{IsReadOf, HasFileCause};
ghost use Rattle.machine.specs.Sound.{IsQuantum};
ghost use Rattle.machine_steps.specs.Runs.{quanta_of};
ghost use Rattle.ufork_program.specs.Answer.{word_at, named_by};
ghost use Rattle.ufork_program.specs.Input.{TookAll};
ghost use Rattle.ufork_program.specs.Request.{ComesOf, HasFilesCause, HasInputCause, IsUsable};
ghost use Rattle.ufork_program.specs.Reading.{IsCommand, IsImageAt, IsScheduleFileAt, IsOptionRead, AreUsable, ComesOfFiles, IsInputStop, IsSourceFileAt, IsTool, request_by, shown_by, stopped, HasReadCause};

use crate::input::{InputRefusal, read_input};
use asm_image::assemble;
use asm_text::{SOURCE_BYTES, SourceFault, SourceReason, SourceRefusal, read_source};
use cap_format::{IMAGE_BYTES, ImageFault, ImageReason, long_files_are_none};
use command_words::{Command, Options, read_words};
use elf_loader::{Image, ImageRefusal, read_image};
use machine_types::{Config, LIST_BYTES, Schedule};
use outside_io::{FileRefusal, Files, Source};
use run_texts::{ScheduleRefusal, read_schedule};
use std::alloc::Global;

/// Why nothing is run.
#[derive(Clone, Copy, Debug, PartialEq, Eq)]
pub enum CommandRefusal {
    /// The words are no command, from this place on.
    Usage { place: u64 },
    /// The file that the word at this index names was not read.
    CannotRead { index: usize },
    /// The image's file is no image.
    NoImage(ImageFault),
    /// The schedule's text is no schedule, by this line.
    NoSchedule { line: u64 },
    /// The console's input was not read.
    InputFailed,
    /// It has more bytes than it may have.
    InputTooLong,
    /// The image has more pages than there are frames.
    NoFrames { pages: u32, frames: u32 },
    /// The text is no source.
    NoSource(SourceFault),
}

/// What is run: an image, which was read from these bytes, with this console's input, by this configuration and schedule.
#[derive(Drop)]
pub struct Guest {
    pub config: Config,
    pub schedule: Schedule,
    pub image: Image,
    pub bytes: Vec<u8>,
    pub input: Vec<u8>,
}

/// An image, and the bytes that it was read from.
#[derive(Drop)]
pub struct ImageFile {
    pub image: Image,
    pub bytes: Vec<u8>,
}

/// What is shown of a file where nothing is run.
#[derive(Drop)]
pub enum Shown {
    /// The file that a source was assembled to.
    Assembled(Vec<u8>),
    /// The instructions of an image.
    Instrs(ImageFile),
    /// A line on an image.
    Summary(ImageFile),
}

/// What is answered, by what was read.
#[derive(Drop)]
pub enum Request {
    Refused(CommandRefusal),
    NoMemory,
    Run(Guest),
    Show(Shown),
}

// Why nothing is read: what is answered then.
#[derive(Clone, Copy, Debug, PartialEq, Eq)]
enum Stop {
    Refused(CommandRefusal),
    NoMemory,
}

// What the files say that a command names.
#[derive(Drop)]
struct NamedFiles {
    config: Config,
    schedule: Schedule,
    image: Image,
    bytes: Vec<u8>,
}

// Reads the file that the word at an index names.
fn read_named<F: Files>(
    alloc: Global,
    words: &[String],
    index: usize,
    limit: usize,
    files: &mut F,
) -> Result<Vec<u8>, FileRefusal>
    requires { index < length words.now }
    ensures content { IfSome (F.state files.old).contents (λ contents. IsReadOf (λ v. v.items) (named_by (map string_bytes words.now) contents index) limit result) }
    ensures cause { HasFileCause (word_at (map string_bytes words.now) index) (F.state files.old) (F.state files.new) result }
    ensures contents { (F.state files.new).contents ≡ (F.state files.old).contents }
{
    files.read_file(alloc, words[index].as_str(), limit)
}

// A file that is longer than an image may be is none, by this fault.
fn too_long() -> ImageFault
    ensures { (file : List ℕ) → image_bytes < length file → fault_of file ≡ Some result }
{
    long_files_are_none();
    ImageFault {
        reason: ImageReason::TooLong,
        place: IMAGE_BYTES as u64,
    }
}

// A text that is longer than a source may be is none, by this fault.
fn too_long_source() -> SourceFault
    ensures { (text : List ℕ) → source_bytes < length text → file_from text ≡ Err result }
{
    SourceFault {
        line: 0,
        reason: SourceReason::TooLong,
    }
}

// The file of a text, or its first fault.
fn assemble_text(alloc: Global, text: &[u8]) -> Result<Vec<u8>, SourceRefusal>
    ensures file { MatchResult result (λ file. file_from text.now ≡ Ok file.items) (λ refusal. IsRefusedAs (file_from text.now) refusal) }
    ensures image { IfOk result (λ file. IsImage file.items) }
{
    let source = read_source(alloc, text)?;
    assemble(alloc, text, &source)
}

// Reads the image in the file that the word at an index names.
fn read_image_file<F: Files>(
    alloc: Global,
    words: &[String],
    index: usize,
    files: &mut F,
) -> Result<ImageFile, Stop>
    requires { index < length words.now }
    ensures is { IsImageAt (map string_bytes words.now) (F.state files.old).contents index result }
    ensures cause { HasReadCause (map string_bytes words.now) (F.state files.old) (F.state files.new) result }
    ensures contents { (F.state files.new).contents ≡ (F.state files.old).contents }
{
    let bytes = match read_named(alloc, words, index, IMAGE_BYTES, files) {
        Ok(bytes) => bytes,
        Err(FileRefusal::TooLong) => return Err(Stop::Refused(CommandRefusal::NoImage(too_long()))),
        Err(FileRefusal::Failed) => return Err(Stop::Refused(CommandRefusal::CannotRead { index })),
        Err(FileRefusal::NoMemory) => return Err(Stop::NoMemory),
    };
    match read_image(alloc, &bytes) {
        Ok(image) => Ok(ImageFile { image, bytes }),
        Err(ImageRefusal::Fault(fault)) => Err(Stop::Refused(CommandRefusal::NoImage(fault))),
        Err(ImageRefusal::NoMemory) => Err(Stop::NoMemory),
    }
}

// Reads the schedule in the file that the word at an index names.
fn read_schedule_file<F: Files>(
    alloc: Global,
    words: &[String],
    index: usize,
    files: &mut F,
) -> Result<Schedule, Stop>
    requires { index < length words.now }
    ensures is { IsScheduleFileAt (map string_bytes words.now) (F.state files.old).contents index result }
    ensures quanta { IfOk result (λ schedule. All IsQuantum (quanta_of schedule)) }
    ensures cause { HasReadCause (map string_bytes words.now) (F.state files.old) (F.state files.new) result }
    ensures contents { (F.state files.new).contents ≡ (F.state files.old).contents }
{
    let text = match read_named(alloc, words, index, LIST_BYTES, files) {
        Ok(text) => text,
        Err(FileRefusal::TooLong) => {
            return Err(Stop::Refused(CommandRefusal::NoSchedule { line: 0 }));
        }
        Err(FileRefusal::Failed) => return Err(Stop::Refused(CommandRefusal::CannotRead { index })),
        Err(FileRefusal::NoMemory) => return Err(Stop::NoMemory),
    };
    match read_schedule(alloc, &text) {
        Ok(schedule) => Ok(schedule),
        Err(ScheduleRefusal::Line(line)) => {
            Err(Stop::Refused(CommandRefusal::NoSchedule { line }))
        }
        Err(ScheduleRefusal::NoMemory) => Err(Stop::NoMemory),
    }
}

// The schedule that the options name, which is empty where they name none.
fn read_option<F: Files>(
    alloc: Global,
    words: &[String],
    options: &Options,
    files: &mut F,
) -> Result<Schedule, Stop>
    requires { IfSome options.now.schedule (λ index. index < length words.now) }
    ensures is { IsOptionRead (map string_bytes words.now) (F.state files.old).contents options.now.schedule result }
    ensures quanta { IfOk result (λ schedule. All IsQuantum (quanta_of schedule)) }
    ensures cause { HasReadCause (map string_bytes words.now) (F.state files.old) (F.state files.new) result }
    ensures contents { (F.state files.new).contents ≡ (F.state files.old).contents }
{
    match options.schedule {
        Some(index) => read_schedule_file(alloc, words, index, files),
        None => Ok(Schedule::new(Vec::new(alloc))),
    }
}

// Reads the source in the file that the word at an index names, and assembles it.
fn read_source_file<F: Files>(
    alloc: Global,
    words: &[String],
    index: usize,
    files: &mut F,
) -> Result<Vec<u8>, Stop>
    requires { index < length words.now }
    ensures is { IsSourceFileAt (λ file. file.items) (map string_bytes words.now) (F.state files.old).contents index result }
    ensures image { IfOk result (λ file. IsImage file.items) }
    ensures cause { HasReadCause (map string_bytes words.now) (F.state files.old) (F.state files.new) result }
    ensures contents { (F.state files.new).contents ≡ (F.state files.old).contents }
{
    let text = match read_named(alloc, words, index, SOURCE_BYTES, files) {
        Ok(text) => text,
        Err(FileRefusal::TooLong) => return Err(Stop::Refused(CommandRefusal::NoSource(
            too_long_source(),
        ))),
        Err(FileRefusal::Failed) => return Err(Stop::Refused(CommandRefusal::CannotRead { index })),
        Err(FileRefusal::NoMemory) => return Err(Stop::NoMemory),
    };
    match assemble_text(alloc, &text) {
        Ok(file) => Ok(file),
        Err(SourceRefusal::Fault(fault)) => Err(Stop::Refused(CommandRefusal::NoSource(fault))),
        Err(SourceRefusal::NoMemory) => Err(Stop::NoMemory),
    }
}

// Reads the files that `run` names: the image's file, and the schedule's, where an option names one.
fn read_files<F: Files>(
    alloc: Global,
    words: &[String],
    options: &Options,
    index: usize,
    files: &mut F,
) -> Result<NamedFiles, Stop>
    requires { IsCommand (map string_bytes words.now) options.now index }
    ensures usable { AreUsable (map string_bytes words.now) result }
    ensures comes { ComesOfFiles (map string_bytes words.now) (F.state files.old).contents result }
    ensures cause { HasReadCause (map string_bytes words.now) (F.state files.old) (F.state files.new) result }
    ensures contents { (F.state files.new).contents ≡ (F.state files.old).contents }
{
    let ImageFile { image, bytes } = read_image_file(alloc, words, index, files)?;
    let schedule = read_option(alloc, words, options, files)?;
    Ok(NamedFiles {
        config: options.config,
        schedule,
        image,
        bytes,
    })
}

// Reads the console's input.
fn read_console<I: Source>(alloc: Global, input: &mut I) -> Result<Vec<u8>, Stop>
    ensures { MatchResult result (λ bytes. TookAll bytes.items (I.state input.old) (I.state input.new)) (λ stop. IsInputStop (I.state input.old) (I.state input.new) stop) }
{
    match read_input(alloc, input) {
        Ok(bytes) => Ok(bytes),
        Err(InputRefusal::Failed) => Err(Stop::Refused(CommandRefusal::InputFailed)),
        Err(InputRefusal::TooLong) => Err(Stop::Refused(CommandRefusal::InputTooLong)),
        Err(InputRefusal::NoMemory) => Err(Stop::NoMemory),
    }
}

// Reads what `run` names, and then the console's input.
fn read_guest<F: Files, I: Source>(
    alloc: Global,
    words: &[String],
    options: &Options,
    index: usize,
    files: &mut F,
    input: &mut I,
) -> Result<Guest, Stop>
    requires { IsCommand (map string_bytes words.now) options.now index }
    ensures usable { IsUsable (map string_bytes words.now) (request_by result) }
    ensures comes { ComesOf (map string_bytes words.now) (F.state files.old).contents (I.state input.old).left (request_by result) }
    ensures files { HasFilesCause (map string_bytes words.now) (F.state files.old) (F.state files.new) (request_by result) }
    ensures input { HasInputCause (I.state input.old) (I.state input.new) (request_by result) }
    ensures contents { (F.state files.new).contents ≡ (F.state files.old).contents }
{
    let named = read_files(alloc, words, options, index, files)?;
    let input = read_console(alloc, input)?;
    let NamedFiles {
        config,
        schedule,
        image,
        bytes,
    } = named;
    if image.pages > config.frames {
        return Err(Stop::Refused(CommandRefusal::NoFrames {
            pages: image.pages,
            frames: config.frames,
        }));
    }
    Ok(Guest {
        config,
        schedule,
        image,
        bytes,
        input,
    })
}

// What is assembled for `asm`.
fn read_assembled<F: Files>(
    alloc: Global,
    words: &[String],
    index: usize,
    files: &mut F,
) -> Result<Shown, Stop>
    requires { IsTool (map string_bytes words.now) (Command.Asm index) }
    ensures usable { IsUsable (map string_bytes words.now) (shown_by result) }
    ensures comes { (left : Option (List ℕ)) → ComesOf (map string_bytes words.now) (F.state files.old).contents left (shown_by result) }
    ensures cause { HasFilesCause (map string_bytes words.now) (F.state files.old) (F.state files.new) (shown_by result) }
    ensures unasked { (input : SourceState) → HasInputCause input input (shown_by result) }
    ensures contents { (F.state files.new).contents ≡ (F.state files.old).contents }
{
    Ok(Shown::Assembled(read_source_file(alloc, words, index, files)?))
}

// What is listed for `disasm`.
fn read_instrs<F: Files>(
    alloc: Global,
    words: &[String],
    index: usize,
    files: &mut F,
) -> Result<Shown, Stop>
    requires { IsTool (map string_bytes words.now) (Command.Disasm index) }
    ensures usable { IsUsable (map string_bytes words.now) (shown_by result) }
    ensures comes { (left : Option (List ℕ)) → ComesOf (map string_bytes words.now) (F.state files.old).contents left (shown_by result) }
    ensures cause { HasFilesCause (map string_bytes words.now) (F.state files.old) (F.state files.new) (shown_by result) }
    ensures unasked { (input : SourceState) → HasInputCause input input (shown_by result) }
    ensures contents { (F.state files.new).contents ≡ (F.state files.old).contents }
{
    Ok(Shown::Instrs(read_image_file(alloc, words, index, files)?))
}

// What is told for `check`.
fn read_summary<F: Files>(
    alloc: Global,
    words: &[String],
    index: usize,
    files: &mut F,
) -> Result<Shown, Stop>
    requires { IsTool (map string_bytes words.now) (Command.Check index) }
    ensures usable { IsUsable (map string_bytes words.now) (shown_by result) }
    ensures comes { (left : Option (List ℕ)) → ComesOf (map string_bytes words.now) (F.state files.old).contents left (shown_by result) }
    ensures cause { HasFilesCause (map string_bytes words.now) (F.state files.old) (F.state files.new) (shown_by result) }
    ensures unasked { (input : SourceState) → HasInputCause input input (shown_by result) }
    ensures contents { (F.state files.new).contents ≡ (F.state files.old).contents }
{
    Ok(Shown::Summary(read_image_file(alloc, words, index, files)?))
}

// What is answered where nothing was read.
fn stopped(stop: Stop) -> Request
    ensures { result ≡ stopped stop }
{
    match stop {
        Stop::Refused(refusal) => Request::Refused(refusal),
        Stop::NoMemory => Request::NoMemory,
    }
}

// What is answered by a guest that was read, or by what was read to be shown.
fn request_by(read: Result<Guest, Stop>) -> Request
    ensures { result ≡ request_by read }
{
    match read {
        Ok(guest) => Request::Run(guest),
        Err(stop) => stopped(stop),
    }
}

fn shown_by(read: Result<Shown, Stop>) -> Request
    ensures { result ≡ shown_by read }
{
    match read {
        Ok(shown) => Request::Show(shown),
        Err(stop) => stopped(stop),
    }
}

/// Reads the words, and then what they name: for `run` the image's file, the image, the schedule's file, the schedule and the console's
/// input, after which the frames are counted; for `asm` its file, which is assembled; and for `disasm` and `check` the image's file and the
/// image. What stands later in this order is not asked for where something is refused.
pub fn read_request<F: Files, I: Source>(
    alloc: Global,
    words: &[String],
    files: &mut F,
    input: &mut I,
) -> Request
    ensures usable { IsUsable (map string_bytes words.now) result }
    ensures comes { ComesOf (map string_bytes words.now) (F.state files.old).contents (I.state input.old).left result }
    ensures files { HasFilesCause (map string_bytes words.now) (F.state files.old) (F.state files.new) result }
    ensures input { HasInputCause (I.state input.old) (I.state input.new) result }
    ensures contents { (F.state files.new).contents ≡ (F.state files.old).contents }
{
    match read_words(words) {
        Ok(Command::Run { options, image }) => {
            request_by(read_guest(alloc, words, &options, image, files, input))
        }
        Ok(Command::Asm { file }) => shown_by(read_assembled(alloc, words, file, files)),
        Ok(Command::Disasm { file }) => shown_by(read_instrs(alloc, words, file, files)),
        Ok(Command::Check { file }) => shown_by(read_summary(alloc, words, file, files)),
        Err(fault) => Request::Refused(CommandRefusal::Usage { place: fault.place }),
    }
}

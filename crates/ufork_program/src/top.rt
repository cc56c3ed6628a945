// The top call.
ghost use Rattle.std.specs.Prelude.{◌≡◌, ◌≤◌, Ok, Err, MatchResult, map, string_bytes};
ghost use Rattle.cap_format.specs.Numbers.{most_frames};
ghost use Rattle.outside_io.specs.States.{outside};
ghost use Rattle.outside_io.specs.Parts.{console};
ghost use Rattle.outside_io.specs.Answers.{Answers, memory_wanted, write_fault};
ghost use Rattle.stores.specs.Boards.{IsEmpty, made_frames};
ghost use Rattle.ufork_program.specs.Run.{run_course};
ghost use Rattle.ufork_program.specs.Request.{refusal_of, setup_of, parts_shown, CanRun, CanShow, IsUsable};
ghost use Rattle.ufork_program.specs.Answer.{shown_answer};
ghost use Rattle.ufork_program.specs.Headline.{call, IsLeftOn, IsRunOr, IsAnswered, Went, Promises};

use crate::lines::{
    write_cannot_read, write_frames_lacked, write_image_refused, write_input_failed,
    write_input_too_long, write_schedule_refused, write_source_refused, write_usage,
};
use crate::request::{CommandRefusal, Guest, Request, Shown, read_request};
use crate::run::{RunEnded, print_run};
use crate::tools::write_shown;
use full_space::FullSpace;
use kernel_loop::{BootRefusal, Kernel};
use outside_io::{Failed, Files, Sink, Source};
use std::alloc::Global;
use stores::Board;

/// How a call of the program ended.
#[derive(Drop)]
pub struct Ended {
    /// The status with which the program ends.
    pub status: u8,
    /// The board that was handed over. It stands for the machine's stores at the end, and is empty where nothing was run.
    pub board: Board,
}

// The answer to a refusal whose line was written, or cut.
fn answered(status: u8, written: Result<(), Failed>) -> Result<u8, Failed>
    ensures { MatchResult written (λ _. result ≡ Ok status) (λ failed. result ≡ Err failed) }
{
    written?;
    Ok(status)
}

// Refuses a command: its line on the errors, and its status. The output stays as it was.
fn refuse<O: Sink, E: Sink>(
    words: &[String],
    refused: CommandRefusal,
    out: &O,
    err: &mut E,
) -> Result<u8, Failed>
    requires { IsUsable (map string_bytes words.now) (Request.Refused refused) }
    ensures { Answers (refusal_of (map string_bytes words.now) refused) (console (O.state out.now) (E.state err.old)) (console (O.state out.now) (E.state err.new)) result }
{
    match refused {
        CommandRefusal::Usage { place } => answered(2, write_usage(place, err)),
        CommandRefusal::CannotRead { index } => {
            answered(3, write_cannot_read(words[index].as_str(), err))
        }
        CommandRefusal::NoImage(fault) => answered(4, write_image_refused(fault, err)),
        CommandRefusal::NoSchedule { line } => answered(5, write_schedule_refused(line, err)),
        CommandRefusal::InputFailed => answered(6, write_input_failed(err)),
        CommandRefusal::InputTooLong => answered(11, write_input_too_long(err)),
        CommandRefusal::NoFrames { pages, frames } => answered(
            12,
            write_frames_lacked(u64::from(pages), u64::from(frames), err),
        ),
        CommandRefusal::NoSource(fault) => answered(13, write_source_refused(fault, err)),
    }
}

// Writes what is shown of a file. The errors stay as they were.
fn show<O: Sink, E: Sink>(shown: Shown, out: &mut O, err: &E) -> Result<u8, Failed>
    requires { CanShow shown }
    ensures { Answers (shown_answer (parts_shown shown)) (console (O.state out.old) (E.state err.now)) (console (O.state out.new) (E.state err.now)) result }
{
    answered(0, write_shown(&shown, out, err))
}

// What is answered where there is no memory for the kernel. The board has its own number of frames again.
fn hand_back(space: FullSpace, frames: u32) -> Ended
    requires empty { IsEmpty space.board }
    requires most { frames ≤ made_frames space.board }
    ensures status { result.status ≡ memory_wanted.status }
    ensures board { result.board ≡ record space.board { pool = record space.board.pool { size = frames } } }
    ensures empty { IsEmpty result.board }
{
    let mut board = space.into_board();
    board.set_frames(frames);
    Ended { status: 10, board }
}

// Runs a guest on an empty board, or finds no memory for the kernel.
fn run_guest<O: Sink, E: Sink>(
    alloc: Global,
    guest: Guest,
    board: Board,
    out: &mut O,
    err: &mut E,
) -> Ended
    requires can { CanRun guest }
    requires empty { IsEmpty board }
    requires made { made_frames board ≡ most_frames }
    ensures { IsRunOr (run_course (setup_of guest)) (IsLeftOn board result.board)
        (console (O.state out.old) (E.state err.old)) (console (O.state out.new) (E.state err.new)) result.status }
{
    let Guest {
        config,
        schedule,
        image,
        bytes,
        input,
    } = guest;
    let mut board = board;
    let frames = board.pool.size();
    board.set_frames(config.frames);
    let space = FullSpace::new(board);
    let kernel = match Kernel::boot(alloc, &config, &image, &bytes, input, schedule, space) {
        Ok(kernel) => kernel,
        Err(BootRefusal { space, reason: _ }) => return hand_back(space, frames),
    };
    let RunEnded { kernel, status } = print_run(kernel, config.steps, out, err);
    Ended {
        status: status_of(status),
        board: kernel.into_space().into_board(),
    }
}

// Writes what is answered by what was read.
fn answer_request<O: Sink, E: Sink>(
    alloc: Global,
    words: &[String],
    request: Request,
    board: Board,
    out: &mut O,
    err: &mut E,
) -> Ended
    requires usable { IsUsable (map string_bytes words.now) request }
    requires empty { IsEmpty board }
    requires made { made_frames board ≡ most_frames }
    ensures { IsAnswered (map string_bytes words.now) request (IsLeftOn board result.board)
        (console (O.state out.old) (E.state err.old)) (console (O.state out.new) (E.state err.new)) result.status }
{
    let written = match request {
        Request::Run(guest) => return run_guest(alloc, guest, board, out, err),
        Request::NoMemory => Ok(10),
        Request::Refused(refusal) => refuse(words, refusal, out, err),
        Request::Show(shown) => show(shown, out, err),
    };
    Ended {
        status: status_of(written),
        board,
    }
}

// The status at the end, which is 7 where a write failed.
fn status_of(given: Result<u8, Failed>) -> u8
    ensures { MatchResult given (λ status. result ≡ status) (λ _. result ≡ write_fault) }
{
    match given {
        Ok(status) => status,
        Err(Failed) => 7,
    }
}

// Reads, and then writes.
fn read_and_write<F: Files, I: Source, O: Sink, E: Sink>(
    alloc: Global,
    words: &[String],
    files: &mut F,
    input: &mut I,
    out: &mut O,
    err: &mut E,
    board: Board,
) -> Ended
    requires empty { IsEmpty board }
    requires made { made_frames board ≡ most_frames }
    ensures { Went (call (map string_bytes words.now)
        (outside (F.state files.old) (I.state input.old) (O.state out.old) (E.state err.old))
        (outside (F.state files.new) (I.state input.new) (O.state out.new) (E.state err.new)) board result.board result.status) }
{
    let request = read_request(alloc, words, files, input);
    answer_request(alloc, words, request, board, out, err)
}

/// Does all that the program does, and gives the status with which it ends and the board.
///
/// `words` are those of the command line without the program's name: a command, the options of `run`, and the name of a file.
///
/// | Command | What it does |
/// |---|---|
/// | `run` | runs an image, writes the console's bytes to `out`, and to `err` a line for the end of each process and one for the end of the run |
/// | `asm` | writes the image of a source to `out`, by one write |
/// | `disasm` | writes the instructions of an image to `out`, a line and a write for each word of a segment whose pages may be executed |
/// | `check` | writes a line on an image to `out` |
///
/// `board` is empty and was made with [`MOST_FRAMES`](cap_format::MOST_FRAMES) frames. It comes back as the machine's stores at the
/// end, and empty where nothing was run.
///
/// What is refused is told in this order, and what stands later in it is not asked for: the words, the file, the image or the source; and
/// for `run` the schedule's file, the schedule, the console's input, its length, the frames. The other commands leave `input` as it was. The input is read whole before the first instruction, in
/// pieces of at most 4096 bytes; of one that is too long, 1048577 bytes are taken.
///
/// | Status | When | What `err` gains |
/// |---|---|---|
/// | 0 | no process is live at the end of the run, or a command other than `run` wrote all that it shows | `exit ID STATUS` for each process and `done STEPS`, or nothing |
/// | 2 | the words are no command | `ufork: usage: word PLACE` |
/// | 3 | a file was not read: its count of faults rose | `ufork: cannot read NAME` |
/// | 4 | the file is no image | `ufork: image refused: REASON at PLACE` |
/// | 5 | the schedule's text is none | `ufork: schedule refused: line LINE` |
/// | 6 | the input was not read: its count of faults rose | `ufork: input failed` |
/// | 7 | a write failed: the count of `out` or of `err` rose | what came before it |
/// | 8 | a live process is ready after the configured steps | the lines of processes that ended, and `stopped STEPS` |
/// | 9 | processes are live and none is ready | the lines of processes that ended, and `stuck STEPS` |
/// | 10 | memory was wanted for a file, for what was read of it, for the input, or for the kernel's tables | nothing |
/// | 11 | the input has over 1048576 bytes | `ufork: input too long` |
/// | 12 | the image has more pages than there are frames | `ufork: image needs PAGES pages, FRAMES frames` |
/// | 13 | the text is no source of the assembler | `ufork: source refused: line LINE: REASON` |
///
/// Each sentence of the contract is a field of `Promises`, in specs/Headline.antt.
pub fn ufork<F: Files, I: Source, O: Sink, E: Sink>(
    alloc: Global,
    words: &[String],
    files: &mut F,
    input: &mut I,
    out: &mut O,
    err: &mut E,
    board: Board,
) -> Ended
    requires empty { IsEmpty board }
    requires made { made_frames board ≡ most_frames }
    ensures { Promises (call (map string_bytes words.now)
        (outside (F.state files.old) (I.state input.old) (O.state out.old) (E.state err.old))
        (outside (F.state files.new) (I.state input.new) (O.state out.new) (E.state err.new)) board result.board result.status) }
{
    read_and_write(alloc, words, files, input, out, err, board)
}

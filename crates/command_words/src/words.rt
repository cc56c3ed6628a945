// The reader of command lines.
ghost use Rattle.std.specs.Prelude.{◌≡◌, ◌<◌, ◌≤◌, IfOk, map, string_bytes, codes, [], length, drop, slice_index_or};
ghost use Rattle.machine_types.specs.DecimalNumbers.{number_in};
ghost use Rattle.command_words.specs.Grammar.{is_file_name};
ghost use Rattle.command_words.specs.Commands.{options_of, read_of};
ghost use Rattle.command_words.specs.Sayings.{IsCommandOf};
ghost use Rattle.command_words.specs.Reading.{place_of, name_of, left_of, valued, fault_at, read_last, tool_of};

use crate::{DEFAULT_FRAMES, DEFAULT_REGIONS, DEFAULT_SLOTS, DEFAULT_STEPS};
use cap_format::{MOST_FRAMES, MOST_REGIONS};
use machine_types::{Config, MOST_SLOTS, MOST_STEPS, Rule, read_number};

/// What the options of a command say.
#[derive(Clone, Copy, Debug, PartialEq, Eq)]
pub struct Options {
    /// What the machine is made with.
    pub config: Config,
    /// The word that names the schedule's file, by its index among the words. None: the schedule is empty.
    pub schedule: Option<usize>,
}

/// A command.
#[derive(Clone, Copy, Debug, PartialEq, Eq)]
pub enum Command {
    /// Runs an image: the index of the word that names its file.
    Run { options: Options, image: usize },
    /// Assembles a source: the index of the word that names its file.
    Asm { file: usize },
    /// Lists the instructions of an image: the index of the word that names its file.
    Disasm { file: usize },
    /// Tells whether a file is an image: the index of the word that names it.
    Check { file: usize },
}

/// The words are no command.
#[derive(Clone, Copy, Debug, PartialEq, Eq)]
pub struct WordFault {
    /// The number, from 1, of the first word such that the words up to it begin no command; and one more than the number of words
    /// where all of them begin one.
    pub place: u64,
}

/// The options, in the order of the grammar's table.
#[derive(Clone, Copy, Debug, PartialEq, Eq)]
enum OptionName {
    Frames,
    Regions,
    Slots,
    Steps,
    Copy,
    Schedule,
}

impl OptionName {
    // Its place in the table, from 0.
    fn place(self) -> usize
        ensures { result ≡ place_of self }
    {
        match self {
            OptionName::Frames => 0,
            OptionName::Regions => 1,
            OptionName::Slots => 2,
            OptionName::Steps => 3,
            OptionName::Copy => 4,
            OptionName::Schedule => 5,
        }
    }
}

// The option of this name.
fn option_named(word: &str) -> Option<OptionName>
    ensures { result ≡ name_of word.now }
{
    match word {
        "--frames" => Some(OptionName::Frames),
        "--regions" => Some(OptionName::Regions),
        "--slots" => Some(OptionName::Slots),
        "--steps" => Some(OptionName::Steps),
        "--copy" => Some(OptionName::Copy),
        "--schedule" => Some(OptionName::Schedule),
        _ => None,
    }
}

// The option of this name, where it wasn't used yet.
fn option_left(word: &str, used: &[bool; 6]) -> Option<OptionName>
    ensures { result ≡ left_of used.now (name_of word.now) }
{
    let name = option_named(word)?;
    if used[name.place()] { None } else { Some(name) }
}

// A file name isn't empty and doesn't begin with `-`.
fn is_file_name(word: &str) -> bool
    ensures { result ≡ is_file_name word.now }
{
    match word.as_bytes() {
        [] => false,
        [first, ..] => *first != b'-',
    }
}

// The options where no word says anything.
fn defaults() -> Options
    ensures { result ≡ options_of [] }
{
    Options {
        config: Config {
            frames: DEFAULT_FRAMES,
            regions: DEFAULT_REGIONS,
            slots: DEFAULT_SLOTS,
            steps: DEFAULT_STEPS,
            rule: Rule::Full,
        },
        schedule: None,
    }
}

// The number from 1 to the most that a word is.
fn read_count(word: &str, most: u32) -> Option<u32>
    ensures { result ≡ number_in 1 most word.now }
{
    let n = read_number(word.as_bytes(), 1, u64::from(most))?;
    Some(n as u32)
}

// The options with the value of one, which is the word at an index; or none, where it may not be that.
fn with_value(options: Options, name: OptionName, word: &str, index: usize) -> Option<Options>
    ensures { result ≡ valued options index name word.now }
{
    let mut options = options;
    match name {
        OptionName::Frames => options.config.frames = read_count(word, MOST_FRAMES)?,
        OptionName::Regions => options.config.regions = read_count(word, MOST_REGIONS)?,
        OptionName::Slots => options.config.slots = read_count(word, MOST_SLOTS)?,
        OptionName::Steps => {
            options.config.steps = read_number(word.as_bytes(), 0, MOST_STEPS)?;
        }
        OptionName::Copy => {
            if word != "full" {
                return None;
            }
        }
        OptionName::Schedule => {
            if !is_file_name(word) {
                return None;
            }
            options.schedule = Some(index);
        }
    }
    Some(options)
}

// The words are at fault at a place.
fn fault(place: usize) -> Result<Command, WordFault>
    ensures { result ≡ fault_at place }
{
    Err(WordFault {
        place: place as u64,
    })
}

// Reads the arguments of `run`.
fn read_run(words: &[String]) -> Result<Command, WordFault>
    requires some { 0 < length words.now }
    requires run { slice_index_or (map string_bytes words.now) 0 [] ≡ codes "run" }
    ensures { result ≡ read_of (map string_bytes words.now) }
{
    let mut options = defaults();
    let mut used = [false; 6];
    let mut at = 1;
    while at < words.len() {
        let Some(name) = option_left(words[at].as_str(), &used) else {
            return read_last(words, Command::Run { options, image: at }, at);
        };
        if at + 1 == words.len() {
            return fault(at + 2);
        }
        let Some(more) = with_value(options, name, words[at + 1].as_str(), at + 1) else {
            return fault(at + 2);
        };
        options = more;
        used[name.place()] = true;
        at += 2;
    }
    fault(words.len() + 1)
}

// The last word of a command, at an index, is a file's name.
fn read_last(words: &[String], command: Command, at: usize) -> Result<Command, WordFault>
    requires { at ≤ length words.now }
    ensures { result ≡ read_last command at (drop at (map string_bytes words.now)) }
{
    if at == words.len() || !is_file_name(words[at].as_str()) {
        return fault(at + 1);
    }
    if at + 1 < words.len() {
        return fault(at + 2);
    }
    Ok(command)
}

// The command of a tool's name, on the file that the second word names.
fn tool_named(word: &str) -> Option<Command>
    ensures { result ≡ tool_of word.now }
{
    match word {
        "asm" => Some(Command::Asm { file: 1 }),
        "disasm" => Some(Command::Disasm { file: 1 }),
        "check" => Some(Command::Check { file: 1 }),
        _ => None,
    }
}

/// Reads the words of a command line, without the program's name: `run`, then options, each at most once and as two words, and then
/// the name of the image's file; or `asm`, `disasm` or `check`, and the name of a file.
///
/// The options of `run` are these:
///
/// | Option | Value | Without it |
/// |---|---|---|
/// | `--frames` | 1 to 4096 | 4096 |
/// | `--regions` | 1 to 64 | 16 |
/// | `--slots` | 1 to 64 | 16 |
/// | `--steps` | 0 to 1000000000 | 20000000 |
/// | `--copy` | `full` | `full` |
/// | `--schedule` | a file name | the empty schedule |
///
/// A number is decimal digits without a sign or a leading zero. A file name isn't empty and doesn't begin with `-`. A [`WordFault`]
/// comes exactly where the words are no command.
pub fn read_words(words: &[String]) -> Result<Command, WordFault>
    ensures is { result ≡ read_of (map string_bytes words.now) }
    ensures within { IfOk result (λ command. IsCommandOf (length words.now) command) }
{
    if words.is_empty() {
        return fault(1);
    }
    let name = words[0].as_str();
    if name == "run" {
        return read_run(words);
    }
    match tool_named(name) {
        Some(command) => read_last(words, command, 1),
        None => fault(1),
    }
}

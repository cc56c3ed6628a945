// Laws of the numbers and of the grammar: each is a function that states one, does nothing and takes nothing.
ghost use Rattle.command_words.specs.Numbers.{ConstantsAreFixed};
ghost use Rattle.command_words.specs.Commands.{CommandsAreExact};
ghost use Rattle.command_words.specs.Sayings.{SayingsAreExact};
ghost use Rattle.command_words.specs.Examples.{WorkedCommandsHold};

/// The constants of this crate are the numbers that the definitions fix.
pub fn constants_are_fixed()
    ensures { ConstantsAreFixed }
{}

/// Words begin a command exactly where further words make them one, and the place of a fault is the first word behind which they
/// begin none, or the one behind all of them.
pub fn commands_are_exact()
    ensures { CommandsAreExact }
{}

/// A list of words is a command exactly where it is `run`, options of different names with their values, and a file name, or `asm`,
/// `disasm` or `check` and a file name. The value of each option is the word behind its name or the default, and the file's name is the
/// last word.
pub fn sayings_are_exact()
    ensures { SayingsAreExact }
{}

/// Command lines that were worked out by hand are read as that.
pub fn worked_commands_hold()
    ensures { WorkedCommandsHold }
{}

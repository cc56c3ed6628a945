// Laws of the table. Each function states one, does nothing and takes nothing.
ghost use Rattle.riscv_decode.specs.Table.{EachWordHasOneRow};
ghost use Rattle.riscv_decode.specs.RoundTrips.{EachRowIsDecoded, WordsGoRound};

/// A word is at most one instruction.
pub fn each_word_has_one_row()
    ensures { EachWordHasOneRow }
{}

/// A word has the row of an instruction exactly where it is decoded as the instruction.
pub fn each_row_is_decoded()
    ensures { EachRowIsDecoded }
{}

/// The word of an instruction in range has 32 bits and is decoded as the instruction, and the instruction of a
/// word of 32 bits is in range and has that word.
pub fn words_go_round()
    ensures { WordsGoRound }
{}

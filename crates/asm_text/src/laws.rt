// Laws of the language: each is a function that states one, does nothing and takes nothing.
ghost use Rattle.asm_text.specs.Numbers.{ConstantsAreFixed};
ghost use Rattle.asm_text.specs.Laws.{TokensAreExact, NamesAreExact, SourcesAreExact, SourcesHaveSpans};
ghost use Rattle.asm_text.specs.Ranges.{SourcesHaveRanges};
ghost use Rattle.asm_text.specs.Examples.{WorkedLinesHold};

/// The constants of this crate are the numbers that the definitions fix.
pub fn constants_are_fixed()
    ensures { ConstantsAreFixed }
{}

/// At each place the longest token counts, and numbers are their digits, with leading zeros or without, from `-2^63` to `2^64 - 1`.
pub fn tokens_are_exact()
    ensures { TokensAreExact }
{}

/// Each instruction has one name, by which it is found, and each register two.
pub fn names_are_exact()
    ensures { NamesAreExact }
{}

/// A source is what its lines say, one after another, and else it has the fault of the first line that has one.
pub fn sources_are_exact()
    ensures { SourcesAreExact }
{}

/// The names and strings of a source stand at their places in its text, which rise.
pub fn sources_have_spans()
    ensures { SourcesHaveSpans }
{}

/// The numbers of a source are in their ranges, and the registers of its instructions are those that there are.
pub fn sources_have_ranges()
    ensures { SourcesHaveRanges }
{}

/// Lines that were worked out by hand are read as that.
pub fn worked_lines_hold()
    ensures { WorkedLinesHold }
{}

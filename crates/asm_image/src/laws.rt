// Laws of the assembler: each is a function that states one, does nothing and takes nothing.
ghost use Rattle.asm_image.specs.Numbers.{ConstantsAreFixed};
ghost use Rattle.asm_image.specs.Faults.{LeastFaultsDecide};
ghost use Rattle.asm_image.specs.Laws.{FilesAreImages, FilesAreExact, SourcesArePrograms, SourcesAreImages, StatementsStandAtPlaces, SegmentsAreSaid, SegmentsHaveStatements, RangesAreTheTables, DataIsExact};
ghost use Rattle.asm_image.specs.Examples.{WorkedSourcesHold};

use asm_text::sources_have_ranges;

/// The constants of this crate are the numbers that the definitions fix.
pub fn constants_are_fixed()
    ensures { ConstantsAreFixed }
{}

/// The fault of a pass is the least one of the rules that fail, by line and reason.
pub fn least_faults_decide()
    ensures { LeastFaultsDecide }
{}

/// The file of a program is an image.
pub fn files_are_images()
    ensures { FilesAreImages }
{}

/// The file of a program holds its segments, its relocations and its entry.
pub fn files_are_exact()
    ensures { FilesAreExact }
{}

/// What a source without a fault comes to is a program: segments that rise in the region, relocations on their pages, and an entry at an
/// instruction's place.
pub fn sources_are_programs()
    ensures { SourcesArePrograms }
{
    sources_have_ranges();
}

/// The file to which a source is assembled is an image.
pub fn sources_are_images()
    ensures { SourcesAreImages }
{
    files_are_images();
    sources_have_ranges();
}

/// In a listing without a fault each statement's bytes stand in a segment, at the statement's place.
pub fn statements_stand()
    ensures { StatementsStandAtPlaces }
{}

/// The segments of a listing are those that its `.segment` statements say, in their order, each with that place and those rights.
pub fn segments_are_said()
    ensures { SegmentsAreSaid }
{}

/// The segments of a listing without a fault have just the bytes of its statements, one after another, and just their bytes of `.bss`.
pub fn segments_are_full()
    ensures { SegmentsHaveStatements }
{}

/// Sources that were worked out by hand come to that.
pub fn worked_sources_hold()
    ensures { WorkedSourcesHold }
{}

/// A number fits an instruction exactly where the instruction with it is in the ranges of the table.
pub fn ranges_are_exact()
    ensures { RangesAreTheTables }
{}

/// The bytes of data are its number, the lowest first.
pub fn data_is_exact()
    ensures { DataIsExact }
{}

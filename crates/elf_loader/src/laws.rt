// Laws of the numbers and of the start: each is a function that states one, does nothing and takes nothing.
ghost use Rattle.elf_loader.specs.Numbers.{ConstantsAreFixed};
ghost use Rattle.elf_loader.specs.StartLaws.{StartsAreDecided, StartsAreExact, RelocationsAreExact, StartsMayRun};

use cap_format::{images_are_sound, keeps_bounds_within};
use contents::{
    all_else_stays, calls_keep_whole, other_stores_stay, regions_are_kept, settings_stay,
    writes_are_read,
};
use machine_types::{numbers_are_bytes, pages_are_made};

/// The constants of this crate are the numbers that the definitions fix.
pub fn constants_are_fixed()
    ensures { ConstantsAreFixed }
{}

/// A start that isn't refused found its frames, and one that is refused found too few.
pub fn starts_are_decided()
    ensures { StartsAreDecided }
{}

/// What stands where an image is started: its pages with their rights and bytes, the capabilities of its relocations, and
/// nothing else.
pub fn starts_are_exact()
    ensures { StartsAreExact }
{
    images_are_sound();
    relocations_are_exact();
    numbers_are_bytes();
    pages_are_made();
    all_else_stays();
    writes_are_read();
    other_stores_stay();
    settings_stay();
    regions_are_kept();
    calls_keep_whole();
}

/// Each relocation of an image stores a tagged capability with its permissions, its bounds and its address.
pub fn relocations_are_exact()
    ensures { RelocationsAreExact }
{
    images_are_sound();
    keeps_bounds_within();
}

/// PCC and the registers at the start are those of a process that may run.
pub fn starts_may_run()
    ensures { StartsMayRun }
{
    images_are_sound();
    keeps_bounds_within();
}

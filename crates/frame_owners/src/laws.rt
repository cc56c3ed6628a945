// A law of the numbers: a function that states it, does nothing and takes nothing.
ghost use Rattle.frame_owners.specs.Numbers.{ConstantsAreFixed};

/// The constants of this crate are the numbers that the definitions fix.
pub fn constants_are_fixed()
    ensures { ConstantsAreFixed }
{}

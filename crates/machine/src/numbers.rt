// The numbers of the machine.
ghost use Rattle.machine.specs.Numbers.{ConstantsAreFixed};

/// The constants of this crate are the numbers that the definitions fix.
pub fn constants_are_fixed()
    ensures { ConstantsAreFixed }
{}

// The numbers of steps.
ghost use Rattle.machine_steps.specs.Numbers.{ConstantsAreFixed};

/// The constant of this crate is the number that the definitions fix.
pub fn constants_are_fixed()
    ensures { ConstantsAreFixed }
{}

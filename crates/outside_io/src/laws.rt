// Laws: each is a function that states one, does nothing and takes nothing.
ghost use Rattle.outside_io.specs.Laws.{CountsTell, MomentsAreParts};

/// A count of faults rose or did not, and not both; none rose where all stay below their last values.
pub fn counts_tell()
    ensures { CountsTell }
{}

/// What is said of parts with what stands meanwhile says the same of the parts.
pub fn moments_are_parts()
    ensures { MomentsAreParts }
{}

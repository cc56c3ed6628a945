// Why a process is killed.
ghost use Rattle.std.specs.Prelude.{◌≡◌};
ghost use Rattle.machine_types.specs.Causes.{cause_number};

/// Why a process is killed. The causes and their order are this project's own.
#[derive(Clone, Copy, Debug, PartialEq, Eq)]
pub enum Cause {
    /// An authority has no tag.
    Tag,
    /// An authority is sealed.
    Sealed,
    /// An authority lacks the permission.
    Permission,
    /// The bytes aren't within the bounds of an authority.
    Bounds,
    /// An address is no multiple of the size.
    Misaligned,
    /// There is no page at the address.
    NoPage,
    /// The page lacks the right.
    NoRight,
    /// The word is no instruction.
    BadInstruction,
    /// A breakpoint was met.
    Breakpoint,
    /// The instruction isn't within the bounds of PCC.
    CodeBounds,
    /// There is no page to execute at PCC's address.
    CodePage,
    /// A shared page must be copied, and no frame is free.
    NoFrame,
}

impl Cause {
    /// The number of the cause, from 1 to 12. A killed process ends with the status 256 plus this number.
    pub fn number(self) -> u32
        ensures { result ≡ cause_number self }
    {
        match self {
            Cause::Tag => 1,
            Cause::Sealed => 2,
            Cause::Permission => 3,
            Cause::Bounds => 4,
            Cause::Misaligned => 5,
            Cause::NoPage => 6,
            Cause::NoRight => 7,
            Cause::BadInstruction => 8,
            Cause::Breakpoint => 9,
            Cause::CodeBounds => 10,
            Cause::CodePage => 11,
            Cause::NoFrame => 12,
        }
    }
}

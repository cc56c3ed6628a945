// Accesses to pages, and what they do to pages that are shared.
ghost use Rattle.std.specs.Prelude.{◌≡◌};
ghost use Rattle.machine_types.specs.Rights.{right_of, is_allowed};

use crate::{RIGHT_R, RIGHT_W, RIGHT_X};

/// The number of a frame, below the number of frames of what it is used with.
#[derive(Clone, Copy, Debug, PartialEq, Eq)]
pub struct FrameNo(pub u32);

/// Memory was wanted for something that is made.
#[derive(Clone, Copy, Debug, PartialEq, Eq)]
pub struct NoMemory;

/// How a page is accessed. It wants the right R, W or X.
#[derive(Clone, Copy, Debug, PartialEq, Eq)]
pub enum Access {
    Read,
    Write,
    Fetch,
}

impl Access {
    /// The right that the access wants: one of [`RIGHT_R`], [`RIGHT_W`] and [`RIGHT_X`].
    pub fn right(self) -> u8
        ensures { result ≡ right_of self }
    {
        match self {
            Access::Read => RIGHT_R,
            Access::Write => RIGHT_W,
            Access::Fetch => RIGHT_X,
        }
    }

    /// Whether these rights of a page have the one that the access wants.
    pub fn is_allowed(self, rights: u8) -> bool
        ensures { result ≡ is_allowed self rights }
    {
        rights & self.right() == self.right()
    }
}

/// What an access did to a page that it had to make fit.
#[derive(Clone, Copy, Debug, PartialEq, Eq)]
pub enum Touched {
    /// Nothing: it was fit.
    No,
    /// The process has a copy of its own now.
    Copied,
    /// The page had one member, and its capabilities were moved to the member's region.
    Moved,
}

/// A touch of a page.
#[derive(Clone, Copy, Debug, PartialEq, Eq)]
pub struct Note {
    /// The page that was touched, below [`REGION_PAGES`](cap_format::REGION_PAGES), and 0 where none was.
    pub page: u32,
    pub touched: Touched,
}

/// A touch needs a frame, and none is free.
#[derive(Clone, Copy, Debug, PartialEq, Eq)]
pub struct NoFrame {
    /// The touch that was made before in the same call.
    pub before: Note,
}

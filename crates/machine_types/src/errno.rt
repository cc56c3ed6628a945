// The errors of system calls.
ghost use Rattle.std.specs.Prelude.{◌≡◌};
ghost use Rattle.machine_types.specs.Errors.{error_number};

/// Why a system call is refused, after POSIX.1-2024. The numbers are this project's own choice of the usual ones.
#[derive(Clone, Copy, Debug, PartialEq, Eq)]
pub enum Errno {
    /// No such descriptor, or not one for this use.
    Ebadf,
    /// There is no child.
    Echild,
    /// No slot is free for a child.
    Eagain,
    /// No region is free for a child, or too few frames are.
    Enomem,
    /// The bytes may not be read or written.
    Efault,
    /// No pipe is free.
    Enfile,
    /// Too few descriptors are free.
    Emfile,
    /// The pipe has no reader.
    Epipe,
    /// There is no such call.
    Enosys,
}

impl Errno {
    /// The number of the error. A refused call answers its negative.
    pub fn number(self) -> u32
        ensures { result ≡ error_number self }
    {
        match self {
            Errno::Ebadf => 9,
            Errno::Echild => 10,
            Errno::Eagain => 11,
            Errno::Enomem => 12,
            Errno::Efault => 14,
            Errno::Enfile => 23,
            Errno::Emfile => 24,
            Errno::Epipe => 32,
            Errno::Enosys => 38,
        }
    }
}

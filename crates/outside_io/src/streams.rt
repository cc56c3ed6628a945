// Sources and sinks of bytes.
ghost use Rattle.std.specs.Prelude.{◌≡◌, IfOk, drop};
ghost use Rattle.std.specs.Io.{ReadsAtMost};
ghost use Rattle.std.specs.Io.KnownBytes.{ReadConsumes};
ghost use Rattle.outside_io.specs.Faults.{HasCause};
ghost use Rattle.outside_io.specs.States.{SourceState, SinkState, PrintsText};

/// A call to the outside failed. It raised the count of faults, or found it at its last value, `2^64 - 1`.
#[derive(Clone, Copy, Debug, PartialEq, Eq)]
pub struct Failed;

/// Where bytes come from.
pub trait Source {
    /// The bytes that are left, where they are told, and the count of faults.
    ghost state: { Self → SourceState };

    /// Puts the next bytes into the front of `into`, and keeps the rest of `into`. Gives their number.
    ///
    /// For a nonempty `into` the number is 0 exactly where no byte is left. At [`Failed`] no byte was taken.
    fn read(&mut self, into: &mut [u8]) -> Result<usize, Failed>
        ensures bound { ReadsAtMost result into.new }
        ensures bytes { ReadConsumes (state self.old).left (state self.new).left result into.new }
        ensures rest { IfOk result (λ count. drop count into.new ≡ drop count into.old) }
        ensures cause { HasCause (state self.old).faults (state self.new).faults result };
}

/// Where bytes go.
pub trait Sink {
    /// The bytes that were written, where they are told, and the count of faults.
    ghost state: { Self → SinkState };

    /// Appends the piece. At [`Failed`] a prefix of it may be appended.
    fn write(&mut self, piece: &[u8]) -> Result<(), Failed>
        ensures prints { PrintsText piece.now (state self.old) (state self.new) result };
}

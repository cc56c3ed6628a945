// Files by their names.
ghost use Rattle.std.specs.Prelude.{◌≡◌, ◌≤◌, IfOk, IfSome, length};
ghost use Rattle.outside_io.specs.States.{FilesState};
ghost use Rattle.outside_io.specs.Contents.{IsReadOf, HasFileCause};

use std::alloc::Global;

/// Why a file was not read.
#[derive(Clone, Copy, Debug, PartialEq, Eq)]
pub enum FileRefusal {
    /// The outside failed: the count of faults rose, or stands at its last value, `2^64 - 1`.
    Failed,
    /// The file has more bytes than the limit.
    TooLong,
    /// Memory was wanted for the content.
    NoMemory,
}

/// Files that are read whole. No call changes what a name holds.
pub trait Files {
    /// What each name holds, where that is told, the count of faults, and the name that failed last.
    ghost state: { Self → FilesState };

    /// The content of the file of that name, if it has at most `limit` bytes.
    ///
    /// [`FileRefusal::Failed`] raises the count and makes this the name that failed last; every other answer
    /// leaves both. A call that doesn't answer so answers [`FileRefusal::TooLong`] exactly where the content
    /// is longer than `limit`, but for want of memory.
    fn read_file(&mut self, alloc: Global, name: &str, limit: usize) -> Result<Vec<u8>, FileRefusal>
        ensures content { IfSome (state self.old).contents (λ contents. IsReadOf (λ v. v.items) (contents name.now) limit result) }
        ensures within { IfOk result (λ v. length v.items ≤ limit) }
        ensures same { (state self.new).contents ≡ (state self.old).contents }
        ensures cause { HasFileCause name.now (state self.old) (state self.new) result };
}

// Processes, and what their descriptors name.
use cap_format::Cap;
use machine_types::Regs;

/// What a process does. It is *live* where it is no Zombie.
#[derive(Clone, Copy, Debug, PartialEq, Eq)]
pub enum State {
    /// It makes instructions.
    Ready,
    /// A read is underway: it waits for bytes of a pipe.
    InRead,
    /// A write is underway.
    InWrite {
        /// The bytes that are sent already.
        done: u64,
    },
    /// A wait is underway: it waits for a child to end.
    InWait,
    /// It has ended, and its parent has not waited for it.
    Zombie {
        /// By exit below 256; by a fault 256 plus the number of its cause.
        status: u32,
    },
}

/// What a descriptor names. Pipes are numbered from 0 and below [`PIPES`](crate::PIPES).
#[derive(Clone, Copy, Debug, PartialEq, Eq)]
pub enum Target {
    ConsoleIn,
    ConsoleOut,
    /// The end of a pipe for reading.
    PipeRead(u32),
    /// The end of a pipe for writing.
    PipeWrite(u32),
}

/// A process. A Zombie has its id, its parent and its status alone.
#[derive(Drop)]
pub struct Process {
    /// From 1 on, in the order of forks.
    pub id: u64,
    /// The id of its parent, and 0 where it has none.
    pub parent: u64,
    /// The region in which its store and its capabilities lie, below [`MOST_REGIONS`](cap_format::MOST_REGIONS).
    pub region: u32,
    pub regs: Regs,
    /// The capability by which its next instruction is fetched; while a call is underway it stays at the call.
    pub pcc: Cap,
    pub state: State,
}

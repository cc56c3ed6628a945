// What the kernel keeps beside the space, and what a call came to.
use machine::WorkEnd;
use machine_types::Note;
use pipe_files::Descriptors;
use process_table::Processes;
use region_plan::RegionPlan;

/// All processes with their descriptors and pipes, the regions that are taken, the console's input, and a buffer for transfers.
#[derive(Drop)]
pub struct World {
    pub processes: Processes,
    pub files: Descriptors,
    /// A region is taken exactly where a live process has it.
    pub plan: RegionPlan,
    /// The number of forks made.
    pub forks: u64,
    /// The console's input from its beginning on.
    pub input: Vec<u8>,
    /// How many bytes of the input are taken.
    pub taken: usize,
    /// [`MOST_TRANSFER`](stores::MOST_TRANSFER) bytes. Its front is the piece that the last call printed.
    pub buffer: Vec<u8>,
}

/// What a call came to.
#[derive(Clone, Copy, Debug, PartialEq, Eq)]
pub struct CallDone {
    /// Whether it answered, waits, made a child or ended the process.
    pub end: WorkEnd,
    /// The touches that it made, in their order, and then none.
    pub touches: [Note; 2],
    /// The number of bytes printed, which are the front of the buffer.
    pub printed: u32,
}

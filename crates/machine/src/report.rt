// What a step tells.
use machine_types::Note;

/// For how many steps a slot was dispatched.
#[derive(Clone, Copy, Debug, PartialEq, Eq)]
pub enum Quantum {
    /// No interrupt will come.
    Free,
    /// So many.
    Steps(u64),
}

/// What a step worked on. `pc` is the address of PCC before the step.
#[derive(Clone, Copy, Debug, PartialEq, Eq)]
pub enum Work {
    /// An instruction, with its word where one was fetched.
    Instr { pc: u64, word: Option<u32> },
    /// A call that was underway.
    Resume { pc: u64 },
}

/// How the work of a step ended.
#[derive(Clone, Copy, Debug, PartialEq, Eq)]
pub enum WorkEnd {
    /// An instruction that is no call was made.
    Plain,
    /// A call answered. A refusal is the negative of its error number.
    Answered {
        number: u64,
        answer: i64,
    },
    /// A call is not finished: it waits, or it has bytes left to send.
    Waiting {
        number: u64,
    },
    /// A fork was made.
    Forked {
        /// The child's id, which is what the parent is answered.
        answer: i64,
        child: u64,
        slot: u32,
        region: u32,
    },
    /// The process ended, by exit or by a fault.
    Ended {
        status: u32,
    },
}

/// What a step did.
#[derive(Clone, Copy, Debug, PartialEq, Eq)]
pub struct StepReport {
    /// The id of the process that worked.
    pub id: u64,
    pub slot: u32,
    /// The quantum, where the step began with a dispatch.
    pub dispatch: Option<Quantum>,
    pub work: Work,
    /// The touches that were made, in their order, and then none.
    pub touches: [Note; 3],
    /// How many bytes were printed on the console.
    pub printed: u32,
    pub end: WorkEnd,
}

// The configuration of a machine, and how a run stands.

/// When a page that processes share is made fit for an access.
#[derive(Clone, Copy, Debug, PartialEq, Eq)]
pub enum Rule {
    /// Never: a fork copies each page.
    Full,
    /// At a store to a shared or foreign page, and at any other access to a foreign one.
    Access,
    /// At a store to a shared or foreign page, and at a load of a tagged granule from a foreign one.
    Pointer,
}

/// What a machine is made with.
#[derive(Clone, Copy, Debug, PartialEq, Eq)]
pub struct Config {
    /// The number of frames, from 1 to [`MOST_FRAMES`](cap_format::MOST_FRAMES).
    pub frames: u32,
    /// The number of regions, from 1 to [`MOST_REGIONS`](cap_format::MOST_REGIONS).
    pub regions: u32,
    /// The number of slots for processes, from 1 to [`MOST_SLOTS`](crate::MOST_SLOTS).
    pub slots: u32,
    /// The most steps of a run, up to [`MOST_STEPS`](crate::MOST_STEPS).
    pub steps: u64,
    /// When shared pages are made fit.
    pub rule: Rule,
}

/// How a machine stands.
#[derive(Clone, Copy, Debug, PartialEq, Eq)]
pub enum Outcome {
    /// A live process is ready.
    Running,
    /// No process is live.
    Done,
    /// Processes are live, and none is ready.
    Stuck,
}

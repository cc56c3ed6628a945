// Why accesses are refused.

/// Why an access is refused. The refusals are tested in this order.
#[derive(Clone, Copy, Debug, PartialEq, Eq)]
pub enum Refusal {
    /// The page is absent.
    NoPage,
    /// The page lacks the right.
    NoRight,
    /// A touch needs a frame, and none is free.
    NoFrame,
}

//! How a run stands behind a step.

/// How a run stands behind a step.
#[derive(Clone, Copy, Debug, PartialEq, Eq, Drop)]
pub enum Course {
    /// The next step comes.
    GoesOn,
    /// An image reset the platform: the run is over.
    Resets,
    /// The run is halted.
    Halts,
}

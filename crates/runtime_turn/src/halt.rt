//! What ends a run.
#![tactic(auto)]

use record_text::Cause;

/// Why and where a run is halted.
#[derive(Clone, Copy, Debug, PartialEq, Eq, Drop)]
pub struct Halt {
    pub cause: Cause,
    /// The program counter of the turn.
    pub pc: u64,
    /// The first address without the right, for `Fetch`, `Load` and `Store`; else 0.
    pub at: u64,
}

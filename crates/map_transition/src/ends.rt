//! Why no virtual address map is made.
#![tactic(auto)]

use map_faults::MapFault;
use runtime_turn::Halt;

/// Why no virtual address map is made.
#[derive(Clone, Copy, Debug, PartialEq, Eq, Drop)]
pub enum TransitionEnd {
    /// The map has this fault, its first. Nothing has changed.
    Refused(MapFault),
    /// A notified function didn't return, which ends the run.
    Halted(Halt),
    /// No memory of the host for a store of a notified function. The state may only be dropped.
    LacksMemory,
}

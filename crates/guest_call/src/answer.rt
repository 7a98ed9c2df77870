//! What a service comes to.
#![tactic(auto)]

/// What a service on memory comes to.
#[derive(Clone, Copy, Debug, PartialEq, Eq, Drop)]
pub enum Answer {
    /// It gives its caller a value in register a0.
    Gives(u64),
    /// It would touch more than 65,536 pages of memory. Nothing has changed.
    LacksFrames,
}

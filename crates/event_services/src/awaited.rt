//! What a service comes to that may go on in a later turn.

/// What CheckEvent and WaitForEvent come to.
#[derive(Clone, Copy, Debug, PartialEq, Eq, Drop)]
pub enum Awaited {
    /// It gives its caller a status in register a0.
    Answers(u64),
    /// It comes again in a later turn, in its next phase.
    GoesOn,
    /// It would touch more than 65,536 pages of memory. Memory is as before, and the run halts.
    LacksFrames,
    /// No event of its list is signalled and no timer runs that could signal one, so the run halts.
    Idle,
}

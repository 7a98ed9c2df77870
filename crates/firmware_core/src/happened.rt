//! What happens in a turn.
use record_text::{Cause, Line};

/// Why and where a run is halted.
#[derive(Clone, Copy, Debug, PartialEq, Eq, Drop)]
pub struct Halt {
    pub cause: Cause,
    /// The program counter of the turn.
    pub pc: u64,
    /// The first address without the right, for `Fetch`, `Load` and `Store`; else 0.
    pub at: u64,
}

/// What happens in a turn.
#[derive(Drop)]
pub enum Happened {
    /// A tick came, a notification started, an instruction was carried out, or a service answered.
    Turned,
    /// A service answered and said this line.
    Said(Line),
    /// The job is over: the status in a0, and the steps of the job.
    Left { value: u64, steps: u64 },
    /// The job, a call of runtime code, is over by a trap or its bound: which, and the steps of the job.
    Trapped { cause: Cause, steps: u64 },
    /// The run is over, by ResetSystem: the type of the reset, and its status (UEFI 2.10, 8.5.1).
    Reset { kind: u32, status: u64 },
    /// The run is over.
    Halted(Halt),
}

/// How a job ends.
#[derive(Clone, Copy, Debug, PartialEq, Eq, Drop)]
pub enum JobEnd {
    /// The image or the call returned: the status in a0, and the steps of the job.
    Left { value: u64, steps: u64 },
    /// A call of runtime code was ended by a trap or its bound: which, and the steps of the job.
    Trapped { cause: Cause, steps: u64 },
    /// The run is over, by ResetSystem: the type of the reset, and its status (UEFI 2.10, 8.5.1).
    Reset { kind: u32, status: u64 },
    /// The run is over.
    Halted(Halt),
}

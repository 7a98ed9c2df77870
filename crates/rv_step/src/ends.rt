//! How a step ends.
#![tactic(auto)]

use crate::bus::Access;

/// Why an instruction isn't carried out.
#[derive(Clone, Copy, Debug, PartialEq, Eq, Drop)]
pub enum Trap {
    /// No row of the instruction table holds of its halves.
    Illegal,
    /// EBREAK.
    Ebreak,
    /// ECALL.
    Ecall,
    /// The first address of an access that doesn't allow it.
    Fault { at: u64, kind: Access },
}

/// How a step ends. All but `Next` leave registers and memory as before.
#[derive(Clone, Copy, Debug, PartialEq, Eq, Drop)]
pub enum StepEnd {
    /// The instruction was carried out.
    Next,
    /// It wasn't, for this reason.
    Trap(Trap),
    /// Its store takes more frames than there are.
    Frames,
    /// No memory for its store.
    Memory,
}

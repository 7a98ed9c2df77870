//! The execution of a flat memory from its base.
#![tactic(auto)]

ghost use Rattle.std.specs.Prelude.{◌≡◌};
ghost use Rattle.rv_step.specs.Steps.{state_of};
ghost use Rattle.host_engine.specs.Executions.{executed, ExecutionsEnd};
ghost use Rattle.host_engine.specs.FlatMemories.{flat_bytes, flat_rights};
ghost use Rattle.host_engine.specs.Views.{end_of};

use crate::flat_memory::FlatMemory;
use rv_decode::KnownWords;
use rv_step::{Regs, StepEnd, Trap, step_known};

/// Why an execution is over.
#[derive(Clone, Copy, Drop)]
pub enum FlatCause {
    /// All steps that it may make are made.
    Bound,
    /// The next instruction traps.
    Trap(Trap),
}

/// How an execution ends.
#[derive(Clone, Copy, Drop)]
pub struct FlatEnd {
    /// Why it is over.
    pub cause: FlatCause,
    /// How many steps it made.
    pub steps: u64,
}

/// A law: an execution makes the steps that it counts, and it ends at its bound, or before that at an instruction
/// that traps.
pub fn execution_reaches_its_end()
    ensures { ExecutionsEnd }
{}

/// Makes at most so many steps.
pub fn execute(
    known: &mut KnownWords,
    regs: &mut Regs,
    memory: &mut FlatMemory,
    bound: u64,
) -> FlatEnd
    ensures { end_of result (state_of regs.new (flat_bytes memory.new.bytes.items)) ≡ executed flat_rights bound (state_of regs.old (flat_bytes memory.old.bytes.items)) }
{
    for steps in 0..bound {
        match step_known(known, regs, memory) {
            StepEnd::Next => {}
            StepEnd::Trap(trap) => return FlatEnd {
                cause: FlatCause::Trap(trap),
                steps,
            },
            StepEnd::Frames | StepEnd::Memory => unreachable!(),
        }
    }
    FlatEnd {
        cause: FlatCause::Bound,
        steps: bound,
    }
}

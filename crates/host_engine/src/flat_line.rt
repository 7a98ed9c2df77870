//! The line of an execution.
#![tactic(auto)]

ghost use Rattle.std.specs.Prelude.{◌≡◌, ◌++◌, ◌∷◌, [], ℕ, IfOk};
ghost use Rattle.rv_step.specs.Steps.{state_of};
ghost use Rattle.host_engine.specs.Lines.{line_of, cause_text};
ghost use Rattle.host_engine.specs.Views.{end_of, cause_of};

use crate::execution::{FlatCause, FlatEnd};
use rv_step::{Access, Regs, Trap};
use std::alloc::{AllocError, Global};
use uh_base::push_hex;

fn cause_name(cause: FlatCause) -> &'static str
    ensures { result.now ≡ cause_text (cause_of cause) }
{
    match cause {
        FlatCause::Bound => "bound",
        FlatCause::Trap(Trap::Illegal) => "illegal",
        FlatCause::Trap(Trap::Ebreak) => "ebreak",
        FlatCause::Trap(Trap::Ecall) => "ecall",
        FlatCause::Trap(Trap::Fault { at: _, kind }) => match kind {
            Access::Load => "load",
            Access::Store => "store",
            Access::Fetch => "fetch",
        },
    }
}

/// The line of an execution that ended so and left these registers, with its LF.
#[tactic(auto, unfolding(crate::specs::Lines::line_of))]
pub fn line(alloc: Global, end: FlatEnd, regs: &Regs) -> Result<Vec<u8>, AllocError>
    ensures { IfOk result (λ text. (bytes : ℕ → ℕ) → text.items ≡ line_of (end_of end (state_of regs.now bytes)) ++ 10 ∷ []) }
{
    let mut text = Vec::from_slice(alloc, b"flat ")?;
    text.extend_from_slice(cause_name(end.cause).as_bytes())?;
    text.push(b' ')?;
    push_hex(&mut text, 16, regs.pc)?;
    text.push(b' ')?;
    text.extend_from_slice(end.steps.to_string(alloc)?.as_bytes())?;
    text.push(b' ')?;
    push_hex(&mut text, 16, regs.x[10])?;
    text.push(b'\n')?;
    Ok(text)
}

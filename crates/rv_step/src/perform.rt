//! One instruction.
#![tactic(auto)]

ghost use Rattle.std.specs.Prelude.{◌≡◌, ◌<◌, ℕ, IsTrue, ◌+◌, ◌%◌, ◌^◌};
ghost use Rattle.rv_decode.specs.Means.{NamesRegisters};
ghost use Rattle.uh_base.specs.Bytes.{is_width};
ghost use Rattle.rv_step.specs.Exec.{written, done, execute, IsFit};
ghost use Rattle.rv_step.specs.Steps.{StepGives, StepKeeps, state_of};

use crate::ask::{Ask, asked};
use crate::bus::{Access, Bus, BusEnd};
use crate::ends::{StepEnd, Trap};
use crate::regs::Regs;
use crate::values::widened;
use rv_decode::Insn;

#[inline(always)]
fn write(regs: &mut Regs, rd: u8, value: u64)
    requires { rd < 32 }
    ensures x { regs.new.x ≡ written regs.old.x rd value }
    ensures pc { regs.new.pc ≡ regs.old.pc }
{
    if rd != 0 {
        regs.x[rd as usize] = value;
    }
}

/// Does what is asked. All but `Next` change nothing.
#[inline(always)]
fn perform<B: Bus>(ask: Ask, next: u64, regs: &mut Regs, bus: &mut B) -> StepEnd
    requires { IsFit ask }
    ensures step { StepGives (B.lacks_frames bus.old) (B.takes_no_memory bus.old) result
        (done ask next (B.allows bus.old) (state_of regs.old (B.bytes bus.old)))
        (state_of regs.old (B.bytes bus.old)) (state_of regs.new (B.bytes bus.new)) }
    ensures same { B.same bus.old bus.new }
    ensures content { StepKeeps B.kept (B.after bus.old) result
        (done ask next (B.allows bus.old) (state_of regs.old (B.bytes bus.old)))
        (B.content bus.old) (B.content bus.new) }
    ensures rights { B.allows bus.new ≡ B.allows bus.old }
{
    match ask {
        Ask::Set { rd, value } => {
            write(regs, rd, value);
            regs.pc = next;
            StepEnd::Next
        }
        Ask::Load {
            rd,
            at,
            width,
            sign,
        } => match bus.load(at, width) {
            Ok(n) => {
                write(regs, rd, if sign { widened(width, n) } else { n });
                regs.pc = next;
                StepEnd::Next
            }
            Err(at) => StepEnd::Trap(Trap::Fault {
                at,
                kind: Access::Load,
            }),
        },
        Ask::Store { at, width, value } => match bus.store(at, width, value) {
            Ok(()) => {
                regs.pc = next;
                StepEnd::Next
            }
            Err(BusEnd::Outside(at)) => StepEnd::Trap(Trap::Fault {
                at,
                kind: Access::Store,
            }),
            Err(BusEnd::Frames) => StepEnd::Frames,
            Err(BusEnd::Memory) => StepEnd::Memory,
        },
        Ask::Jump { to, rd } => {
            write(regs, rd, next);
            regs.pc = to;
            StepEnd::Next
        }
        Ask::Stop(trap) => StepEnd::Trap(trap),
    }
}

/// Carries out an instruction. All but `Next` change nothing.
#[tactic(auto, unfolding(crate::specs::Exec::execute))]
#[inline(always)]
pub(crate) fn execute<B: Bus>(insn: Insn, len: u8, regs: &mut Regs, bus: &mut B) -> StepEnd
    requires { NamesRegisters insn }
    ensures step { StepGives (B.lacks_frames bus.old) (B.takes_no_memory bus.old) result
        (execute insn len (B.allows bus.old) (state_of regs.old (B.bytes bus.old)))
        (state_of regs.old (B.bytes bus.old)) (state_of regs.new (B.bytes bus.new)) }
    ensures same { B.same bus.old bus.new }
    ensures content { StepKeeps B.kept (B.after bus.old) result
        (execute insn len (B.allows bus.old) (state_of regs.old (B.bytes bus.old)))
        (B.content bus.old) (B.content bus.new) }
    ensures rights { B.allows bus.new ≡ B.allows bus.old }
{
    let next = regs.pc.wrapping_add(u64::from(len));
    let ask = asked(insn, len, &regs.x, regs.pc);
    perform(ask, next, regs, bus)
}

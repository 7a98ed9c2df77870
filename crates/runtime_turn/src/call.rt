//! One turn of a runtime call.
#![tactic(auto)]

ghost use Rattle.std.specs.Prelude.{◌≡◌};
ghost use Rattle.address_view.specs.Windows.{see};
ghost use Rattle.address_view.specs.Seen.{IsCode};
ghost use Rattle.virtual_map.specs.States.{SameParts};
ghost use Rattle.runtime_turn.specs.Turns.{TurnEnds};

use crate::slot::{returns_seen, slot_seen};
use address_view::CodePage;
use rv_decode::KnownWords;
use rv_step::{Regs, StepEnd, Trap};
use virtual_map::{RuntimeState, instruction};

/// How a turn of a runtime call ends. All but `Next` leave registers and state as before.
#[derive(Clone, Copy, Debug, PartialEq, Eq, Drop)]
pub enum RtEnd {
    /// An instruction was carried out.
    Next,
    /// The program counter is at the first byte of the operating system's return page.
    Return,
    /// The program counter is at the slot of this number: a service, or 67.
    Service(u8),
    /// An instruction wasn't carried out, for this reason.
    Trap(Trap),
    /// Its store takes more frames than there are.
    Frames,
    /// No memory for its store.
    Memory,
}

/// Makes one turn at the program counter. The readings of words are remembered, and so is the page that they stand in.
#[tactic(auto, unfolding(crate::specs::Turns::turn_of))]
#[inline(always)]
pub fn turn(
    known: &mut KnownWords,
    code: &mut CodePage,
    state: &mut RuntimeState,
    regs: &mut Regs,
) -> RtEnd
    requires { IsCode (see state.old.view) state.old.memory code.old }
    ensures gives { TurnEnds result regs.old.x regs.old.pc state.old regs.new.x regs.new.pc state.new }
    ensures same { SameParts state.old state.new }
    ensures code { IsCode (see state.new.view) state.new.memory code.new }
{
    if returns_seen(state, regs.pc) {
        return RtEnd::Return;
    }
    match slot_seen(state, regs.pc) {
        Some(slot) => RtEnd::Service(slot),
        None => match instruction(known, code, regs, state) {
            StepEnd::Next => RtEnd::Next,
            StepEnd::Trap(trap) => RtEnd::Trap(trap),
            StepEnd::Frames => RtEnd::Frames,
            StepEnd::Memory => RtEnd::Memory,
        },
    }
}

//! A notified function.
#![tactic(auto)]

ghost use Rattle.std.specs.Prelude.{◌≡◌, ◌≤◌, None, Some, slice_set, replicate};
ghost use Rattle.guest_memory.specs.Pages.{rights_at};
ghost use Rattle.address_view.specs.Windows.{see};
ghost use Rattle.address_view.specs.Seen.{IsCode};
ghost use Rattle.map_faults.specs.Faults.{first_fault};
ghost use Rattle.virtual_map.specs.States.{SameParts};
ghost use Rattle.runtime_turn.specs.Functions.{ground_of, trapped, ServeGives, TurnGives, RunGives, registers_for};

use crate::halt::Halt;
use crate::pointer::{answer, convert};
use crate::slot::slot_seen;
use address_view::{CodePage, code_stays};
use event_queue::Notify;
use map_faults::MapCall;
use page_alloc::Layout;
use record_text::Cause;
use rv_decode::KnownWords;
use rv_step::{Access, Regs, StepEnd, Trap};
use uh_base::EfiStatus;
use virtual_map::{RuntimeState, instruction};

/// How a turn of a notified function ends.
#[derive(Clone, Copy, Debug, PartialEq, Eq, Drop)]
pub enum CallTurn {
    /// It goes on.
    Goes,
    /// It returned.
    Returns,
    /// The run is halted.
    Halts(Halt),
    /// No memory for a store.
    Memory,
}

/// Why a notified function doesn't return.
#[derive(Clone, Copy, Debug, PartialEq, Eq, Drop)]
pub enum CallEnd {
    /// The run is halted.
    Halted(Halt),
    /// No memory of the host for a store. The state may only be dropped.
    LacksMemory,
}

/// The end of a run.
fn halts(cause: Cause, pc: u64, at: u64) -> CallTurn
    ensures { result ≡ Rattle.runtime_turn.specs.Functions.halts cause pc at }
{
    CallTurn::Halts(Halt { cause, pc, at })
}

/// What a trap of an instruction comes to.
fn trapped(trap: Trap, pc: u64) -> CallTurn
    ensures { result ≡ trapped trap pc }
{
    match trap {
        Trap::Illegal => halts(Cause::Illegal, pc, 0),
        Trap::Ebreak => halts(Cause::Ebreak, pc, 0),
        Trap::Ecall => halts(Cause::Ecall, pc, 0),
        Trap::Fault { at, kind } => match kind {
            Access::Load => halts(Cause::Load, pc, at),
            Access::Store => halts(Cause::Store, pc, at),
            Access::Fetch => halts(Cause::Fetch, pc, at),
        },
    }
}

/// What a service does in a notified function: ConvertPointer converts, other runtime services refuse, and all others are
/// gone.
fn serve(state: &mut RuntimeState, regs: &mut Regs, map: &MapCall, slot: u8) -> CallTurn
    requires { first_fault (ground_of state.old) map.now ≡ None }
    ensures gives { ServeGives result map.now.entries slot regs.old.x regs.old.pc state.old regs.new.x regs.new.pc state.new }
    ensures same { SameParts state.old state.new }
    ensures rights { rights_at state.new.memory ≡ rights_at state.old.memory }
{
    if slot == 67 {
        CallTurn::Returns
    } else if slot == 49 {
        convert(state, regs, map)
    } else if slot >= 44 && slot <= 57 {
        answer(regs, EfiStatus::UNSUPPORTED.0)
    } else {
        halts(Cause::BootGone, regs.pc, 0)
    }
}

/// Makes one turn of a function.
#[tactic(auto, unfolding(crate::specs::Functions::function_turn))]
pub(crate) fn function_turn(
    known: &mut KnownWords,
    code: &mut CodePage,
    regs: &mut Regs,
    state: &mut RuntimeState,
    map: &MapCall,
) -> CallTurn
    requires code { IsCode (see state.old.view) state.old.memory code.old }
    requires accepted { first_fault (ground_of state.old) map.now ≡ None }
    ensures gives { TurnGives result map.now.entries regs.old.x regs.old.pc state.old regs.new.x regs.new.pc state.new }
    ensures same { SameParts state.old state.new }
    ensures code { IsCode (see state.new.view) state.new.memory code.new }
{
    let pc = regs.pc;
    match slot_seen(state, pc) {
        Some(slot) => {
            code_stays();
            serve(state, regs, map, slot)
        }
        None => match instruction(known, code, regs, state) {
            StepEnd::Next => CallTurn::Goes,
            StepEnd::Trap(trap) => trapped(trap, pc),
            StepEnd::Frames => halts(Cause::Frames, pc, 0),
            StepEnd::Memory => CallTurn::Memory,
        },
    }
}

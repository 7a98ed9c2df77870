//! ConvertPointer, as a notified function calls it.
#![tactic(auto)]

ghost use Rattle.std.specs.Prelude.{◌≡◌, None, true, slice_index, slice_set};
ghost use Rattle.guest_memory.specs.Pages.{rights_at};
ghost use Rattle.address_view.specs.Windows.{see};
ghost use Rattle.address_view.specs.Seen.{all_pass, is_seen};
ghost use Rattle.guest_call.specs.Arguments.{argument};
ghost use Rattle.map_faults.specs.Faults.{first_fault};
ghost use Rattle.virtual_map.specs.States.{SameParts};
ghost use Rattle.runtime_turn.specs.declared.function.CallTurn.TheVariants as turns;
ghost use Rattle.runtime_turn.specs.Functions.{ground_of, ConvertGives, StoredBy};

use crate::function::CallTurn;
use crate::halt::Halt;
use guest_call::{argument, can_write, number_seen, put_number};
use guest_memory::PutEnd;
use map_faults::{ConvertRefusal, MapCall, MapGround, convert_pointer};
use record_text::Cause;
use rv_step::Regs;
use uh_base::EfiStatus;
use virtual_map::RuntimeState;

/// What a map is judged by in a state.
pub fn ground_of(state: &RuntimeState) -> MapGround<'_>
    ensures { result ≡ ground_of state.now }
{
    MapGround {
        layout: state.layout,
        descriptors: state.descriptors.as_slice(),
        os_virtual: state.os_virtual,
        kept: state.kept.as_slice(),
        gone: state.gone,
        mapped: state.mapped,
    }
}

/// Sets a0 and continues at ra.
pub(crate) fn answer(regs: &mut Regs, a0: u64) -> CallTurn
    ensures goes { result ≡ turns.Goes }
    ensures x { regs.new.x ≡ slice_set regs.old.x 10 a0 }
    ensures pc { regs.new.pc ≡ slice_index regs.old.x 1 }
{
    regs.pc = regs.x[1];
    regs.x[10] = a0;
    CallTurn::Goes
}

/// Stores a pointer that is converted.
fn store(state: &mut RuntimeState, regs: &mut Regs, value: u64) -> CallTurn
    requires { all_pass (is_seen (see state.old.view) state.old.memory) (argument 1 regs.old.x) 8 ≡ true }
    ensures gives { StoredBy result value regs.old.x regs.old.pc state.old regs.new.x regs.new.pc state.new }
    ensures same { SameParts state.old state.new }
    ensures rights { rights_at state.new.memory ≡ rights_at state.old.memory }
{
    let at = argument(1, &regs.x);
    match put_number(&mut state.memory, &state.view, at, 8, value) {
        Ok(()) => answer(regs, EfiStatus::SUCCESS.0),
        Err(PutEnd::Frames) => CallTurn::Halts(Halt {
            cause: Cause::Frames,
            pc: regs.pc,
            at: 0,
        }),
        Err(PutEnd::Memory) => CallTurn::Memory,
        Err(PutEnd::Outside) => unreachable!(),
    }
}

/// ConvertPointer (UEFI 2.10, section 8.4) by an accepted map: flags in a0, the address of the pointer in a1.
#[tactic(auto, unfolding(crate::specs::Functions::convert_pointer))]
pub(crate) fn convert(state: &mut RuntimeState, regs: &mut Regs, map: &MapCall) -> CallTurn
    requires { first_fault (ground_of state.old) map.now ≡ None }
    ensures gives { ConvertGives result map.now.entries regs.old.x regs.old.pc state.old regs.new.x regs.new.pc state.new }
    ensures same { SameParts state.old state.new }
    ensures rights { rights_at state.new.memory ≡ rights_at state.old.memory }
{
    let (flags, at) = (argument(0, &regs.x), argument(1, &regs.x));
    if !can_write(&state.memory, &state.view, at, 8) {
        return answer(regs, EfiStatus::INVALID_PARAMETER.0);
    }
    let value = number_seen(&state.memory, &state.view, at, 8);
    match convert_pointer(&ground_of(state), map, flags, value) {
        Ok(value) => store(state, regs, value),
        Err(ConvertRefusal::Null) => answer(regs, EfiStatus::INVALID_PARAMETER.0),
        Err(ConvertRefusal::NotFound) => answer(regs, EfiStatus::NOT_FOUND.0),
    }
}

//! The transition as a whole.
#![tactic(auto)]

ghost use Rattle.std.specs.Prelude.{◌≡◌, None};
ghost use Rattle.map_faults.specs.Faults.{first_fault};
ghost use Rattle.runtime_turn.specs.Functions.{ground_of};
ghost use Rattle.map_transition.specs.Wholes.{Whole, FillsSize};
ghost use Rattle.map_transition.specs.Transitions.{begun, stack_of, MadeGives, TransitionGives, UnlessLacking, UnlessMemory, Stays};

use crate::checking::check_map;
use crate::ends::TransitionEnd;
use crate::marking::mark_all;
use crate::moving::move_all;
use crate::running::run_all;
use map_faults::MapCall;
use page_alloc::Layout;
use runtime_turn::CallEnd;
use rv_decode::KnownWords;
use virtual_map::RuntimeState;

/// The address below which functions have their stacks.
fn stack_of(layout: &Layout, sp: Option<u64>) -> u64
    ensures { result ≡ stack_of layout.now sp }
{
    match sp {
        Some(sp) => sp,
        None => layout.os_args,
    }
}

/// Marks the sites whose words are as their load left them.
fn begin(state: &mut RuntimeState)
    requires { Whole state.old }
    ensures { state.new ≡ begun state.old }
{
    mark_all(&state.memory, state.kept.as_mut_slice());
}

/// Makes a map that is accepted.
fn make(
    known: &mut KnownWords,
    state: &mut RuntimeState,
    map: &MapCall,
    sp: u64,
) -> Result<u64, CallEnd>
    requires whole { Whole state.old }
    requires accepted { first_fault (ground_of state.old) map.now ≡ None }
    ensures gives { MadeGives result map.now.entries sp state.old state.new }
    ensures whole { UnlessLacking result (Whole state.new) }
    ensures stays { Stays state.old state.new }
{
    begin(state);
    match run_all(known, state, map, sp) {
        Ok(steps) => {
            move_all(state, map);
            Ok(steps)
        }
        Err(end) => Err(end),
    }
}

/// Makes a virtual address map (UEFI 2.10, section 8.4: SetVirtualAddressMap), and gives the number of steps of the notified
/// functions. In this order: the functions run in the old view, each with its stack below `sp` rounded down to 16, or below
/// the top of the operating system's stack; each word of an image that stays which had its load value when the transition
/// began becomes that value, moved with its image; the tables point to the new places of the system page and the slot page;
/// memory is seen by the map. Want of memory comes where a function's store may lack it alone.
pub fn transition(
    known: &mut KnownWords,
    state: &mut RuntimeState,
    map: &MapCall,
    sp: Option<u64>,
) -> Result<u64, TransitionEnd>
    requires whole { Whole state.old }
    requires items { FillsSize state.old map.now }
    ensures gives { TransitionGives result map.now (stack_of state.old.layout sp) state.old state.new }
    ensures whole { UnlessMemory result (Whole state.new) }
    ensures stays { Stays state.old state.new }
{
    if let Err(fault) = check_map(state, map) {
        return Err(TransitionEnd::Refused(fault));
    }
    let sp = stack_of(&state.layout, sp);
    match make(known, state, map, sp) {
        Ok(steps) => Ok(steps),
        Err(CallEnd::Halted(halt)) => Err(TransitionEnd::Halted(halt)),
        Err(CallEnd::LacksMemory) => Err(TransitionEnd::LacksMemory),
    }
}

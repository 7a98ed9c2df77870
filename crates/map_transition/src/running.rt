//! The functions that are notified, one after another.
#![tactic(auto)]

ghost use Rattle.std.specs.Prelude.{◌≡◌, ℕ, None, true, length};
ghost use Rattle.guest_memory.specs.Pages.{touched_at};
ghost use Rattle.map_faults.specs.Faults.{first_fault};
ghost use Rattle.virtual_map.specs.States.{SameParts};
ghost use Rattle.runtime_turn.specs.Functions.{ground_of};
ghost use Rattle.map_transition.specs.Wholes.{Whole};
ghost use Rattle.map_transition.specs.Transitions.{AllGive, UnlessLacking};

use map_faults::MapCall;
use runtime_turn::{CallEnd, run_function};
use rv_decode::KnownWords;
use virtual_map::RuntimeState;

/// How many functions there are.
fn count_of(state: &RuntimeState) -> usize
    ensures { result ≡ length state.now.notifies }
{
    state.notifies.len()
}

/// Runs all functions in their order, each with its stack below an address, while a map is made that is accepted. It gives
/// the sum of their steps.
pub(crate) fn run_all(
    known: &mut KnownWords,
    state: &mut RuntimeState,
    map: &MapCall,
    sp: u64,
) -> Result<u64, CallEnd>
    requires whole { Whole state.old }
    requires accepted { first_fault (ground_of state.old) map.now ≡ None }
    ensures gives { AllGive result map.now.entries sp state.old state.new }
    ensures same { SameParts state.old state.new }
    ensures touched { UnlessLacking result ((at : ℕ) → touched_at state.old.memory at ≡ true → touched_at state.new.memory at ≡ true) }
{
    let mut steps = 0;
    for i in 0..count_of(state) {
        let notify = state.notifies[i];
        match run_function(known, state, map, sp, notify) {
            Ok(count) => steps += count,
            Err(end) => return Err(end),
        }
    }
    Ok(steps)
}

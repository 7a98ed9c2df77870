//! Whether a virtual address map is accepted in a state.
#![tactic(auto)]

ghost use Rattle.std.specs.Prelude.{◌≡◌};
ghost use Rattle.map_faults.specs.Faults.{first_fault};
ghost use Rattle.runtime_turn.specs.Functions.{ground_of};
ghost use Rattle.map_transition.specs.Wholes.{Whole, FillsSize, accepted_or};

use map_faults::{MapCall, MapFault};
use memory_map::map_is_map;
use runtime_turn::ground_of;
use virtual_map::RuntimeState;

/// Whether a map is accepted, or its first fault. It takes no memory. Where nothing is wrong with the call itself, the
/// entries are as many as fit its size.
#[tactic(auto, using(crate::proofs::Grounds::ground_is), unfolding(map_faults::specs::Faults::first_fault, map_faults::specs::Faults::call_fault))]
pub fn check_map(state: &RuntimeState, map: &MapCall) -> Result<(), MapFault>
    requires whole { Whole state.now }
    requires items { FillsSize state.now map.now }
    ensures { result ≡ accepted_or (first_fault (ground_of state.now) map.now) }
{
    if !state.gone {
        return Err(MapFault::BeforeExit);
    }
    map_is_map();
    match map_faults::check_map(&ground_of(state), map) {
        Some(fault) => Err(fault),
        None => Ok(()),
    }
}

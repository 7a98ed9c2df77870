//! The laws of calls.
#![tactic(auto)]

ghost use Rattle.prov_laws.specs.Calls.{CallsEndAlike};
ghost use Rattle.prov_laws.specs.CheckLaws.{CallNodesJudged, CallsGoAlike, FunctionNodesJudged};

use prov_runs::{decoded_fits, step_for_step};
use provenance_check::none_fails_judges;
use rv_decode::length_is_of_the_low_bits;

/// What the law of one step of two runs asks of a node of a call is so where no rule of it fails.
pub fn call_nodes_are_judged()
    ensures { CallNodesJudged }
{
    length_is_of_the_low_bits();
    none_fails_judges();
}

/// So it is of a node of a notified function.
pub fn function_nodes_are_judged()
    ensures { FunctionNodesJudged }
{
    length_is_of_the_low_bits();
    none_fails_judges();
}

/// Where no rule of a node fails, two runs of a call that stand at one node stand at one node behind any number of steps,
/// or have left the image behind equally many steps by the way that ends a call. Neither traps.
pub fn calls_go_alike()
    ensures { CallsGoAlike }
{
    call_nodes_are_judged();
    none_fails_judges();
    step_for_step();
}

/// So both end such a call alike: at the OS return page with one value in a0 behind equally many steps, or at its bound.
pub fn calls_end_alike()
    ensures { CallsEndAlike }
{
    length_is_of_the_low_bits();
    none_fails_judges();
    calls_go_alike();
}

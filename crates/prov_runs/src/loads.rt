//! The laws of loads.
#![tactic(auto)]

ghost use Rattle.prov_runs.specs.LoadLaws.{JoinHolds, LoadsHold, ReadsHold, SpansHold, StackHolds};

use rv_step::bits_fit;

/// Values of either of two kinds are of the least kind that both fit.
pub fn joins_hold()
    ensures { JoinHolds }
{}

/// A load that is allowed gives numbers of its kind in both runs: outside the stack at one offset and at any of a span,
/// and of the stack.
pub fn loads_hold()
    ensures one { LoadsHold }
    ensures span { SpansHold }
    ensures stack { StackHolds }
{}

/// What is loaded, with or without its sign, is of the kind that is read.
pub fn reads_hold()
    ensures { ReadsHold }
{
    bits_fit();
}

//! What the definitions come to. Each law is the contract of a function that does nothing.
#![tactic(auto)]

ghost use Rattle.boot_exit.specs.Laws.{NoTimerRunsOn, OthersAreDropped};

/// Once the end of boot services has begun, no timer runs.
#[tactic(auto, using(crate::proofs::ExitLemmas::no_timer))]
pub fn no_timer_runs_on()
    ensures { NoTimerRunsOn }
{}

/// Once it is finished, each event that is left is notified by a signal of the virtual address change, and no notification
/// is due.
#[tactic(auto, using(crate::proofs::ExitLemmas::others_dropped))]
pub fn others_are_dropped()
    ensures { OthersAreDropped }
{}

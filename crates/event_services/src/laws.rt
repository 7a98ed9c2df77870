//! Laws of waits.
#![tactic(auto)]

ghost use Rattle.event_services.specs.Laws.{FirstDecides, FirstSignalIsTaken};

/// What ends a wait is the first event of its list that decides as the events stand when the wait begins.
#[tactic(auto, using(crate::proofs::WaitLemmas::first_decides))]
pub fn first_event_decides()
    ensures { FirstDecides }
{}

/// Once its notifications are over, a wait ends with the first event of its list that is signalled.
#[tactic(auto, using(crate::proofs::WaitLemmas::first_taken))]
pub fn first_signal_is_taken()
    ensures { FirstSignalIsTaken }
{}

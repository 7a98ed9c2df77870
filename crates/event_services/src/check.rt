//! CheckEvent (UEFI 2.10, section 7.1.6).
#![tactic(auto)]

ghost use Rattle.std.specs.Prelude.{◌≡◌};
ghost use Rattle.event_services.specs.Checks.{found, check_event, check_event_notified};

use crate::awaited::Awaited;
use crate::status::event_status;
use event_queue::{Check, EventRefusal, Events};
use guest_call::argument;
use uh_base::EfiStatus;

/// What a check of an event comes to.
fn found(check: Result<Check, EventRefusal>) -> Awaited
    ensures { result ≡ found check }
{
    match check {
        Ok(Check::Signalled) => Awaited::Answers(EfiStatus::SUCCESS.0),
        Ok(Check::Queued) => Awaited::GoesOn,
        Ok(Check::Quiet) => Awaited::Answers(EfiStatus::NOT_READY.0),
        Err(refusal) => Awaited::Answers(event_status(refusal)),
    }
}

/// CheckEvent (event): whether an event is signalled, and then its signal is cleared. One with EVT_NOTIFY_WAIT that isn't
/// signalled has its notification queued, and the call goes on behind it, by `check_event_notified`.
#[tactic(auto, unfolding(crate::specs::Checks::check_event))]
pub fn check_event(registers: &[u64; 32], events: &mut Events) -> Awaited
    ensures { record { answer = result; events = events.new } ≡ check_event registers.now events.old }
{
    found(events.check(argument(0, registers)))
}

/// CheckEvent, once the notification that it queued is over: whether the event is signalled now, and then its signal is
/// cleared.
#[tactic(auto, unfolding(crate::specs::Checks::check_event_notified))]
pub fn check_event_notified(registers: &[u64; 32], events: &mut Events) -> Awaited
    ensures { record { answer = result; events = events.new } ≡ check_event_notified registers.now events.old }
{
    if events.take_signal(argument(0, registers)) {
        Awaited::Answers(EfiStatus::SUCCESS.0)
    } else {
        Awaited::Answers(EfiStatus::NOT_READY.0)
    }
}

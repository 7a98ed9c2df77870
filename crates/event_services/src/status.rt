//! The statuses of refusals.
#![tactic(auto)]

ghost use Rattle.std.specs.Prelude.{◌≡◌};
ghost use Rattle.event_services.specs.Changes.{event_status};

use event_queue::EventRefusal;
use uh_base::EfiStatus;

/// The status of a refusal.
pub fn event_status(refusal: EventRefusal) -> u64
    ensures { result ≡ event_status refusal }
{
    match refusal {
        EventRefusal::Invalid => EfiStatus::INVALID_PARAMETER.0,
        EventRefusal::Full => EfiStatus::OUT_OF_RESOURCES.0,
    }
}

//! The services on events and levels, by slot.
ghost use Rattle.std.specs.Prelude.{◌≡◌};
ghost use Rattle.firmware_core.specs.EventSlots.{event_service_of};

/// The services on events, timers and task priority levels (UEFI 2.10, 7.1 and 7.5).
#[derive(Clone, Copy, Debug, PartialEq, Eq, Drop)]
pub enum EventService {
    RaiseTpl,
    RestoreTpl,
    CreateEvent,
    SetTimer,
    WaitForEvent,
    SignalEvent,
    CloseEvent,
    CheckEvent,
    RegisterProtocolNotify,
    Stall,
    SetWatchdogTimer,
    CreateEventEx,
}

/// The service on events or levels of a slot.
#[tactic(auto, unfolding(crate::specs::EventSlots::event_service_of))]
pub(crate) fn event_service_of(slot: u8) -> Option<EventService>
    ensures { result ≡ event_service_of slot }
{
    match slot {
        0 => Some(EventService::RaiseTpl),
        1 => Some(EventService::RestoreTpl),
        7 => Some(EventService::CreateEvent),
        8 => Some(EventService::SetTimer),
        9 => Some(EventService::WaitForEvent),
        10 => Some(EventService::SignalEvent),
        11 => Some(EventService::CloseEvent),
        12 => Some(EventService::CheckEvent),
        18 => Some(EventService::RegisterProtocolNotify),
        28 => Some(EventService::Stall),
        29 => Some(EventService::SetWatchdogTimer),
        43 => Some(EventService::CreateEventEx),
        _ => None,
    }
}

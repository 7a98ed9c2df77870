//! The runtime services by their slots.
#![tactic(auto)]

ghost use Rattle.std.specs.Prelude.{◌≡◌};
ghost use Rattle.runtime_services.specs.Slots.{service_of};

/// A runtime service of `serve_runtime`.
#[derive(Clone, Copy, Debug, PartialEq, Eq, Drop)]
pub enum RuntimeService {
    /// Slot 27.
    GetNextMonotonicCount,
    /// Slot 44.
    GetTime,
    /// Slot 45.
    SetTime,
    /// Slot 46.
    GetWakeupTime,
    /// Slot 47.
    SetWakeupTime,
    /// Slot 50.
    GetVariable,
    /// Slot 51.
    GetNextVariableName,
    /// Slot 52.
    SetVariable,
    /// Slot 53.
    GetNextHighMonotonicCount,
    /// Slot 55.
    UpdateCapsule,
    /// Slot 56.
    QueryCapsuleCapabilities,
    /// Slot 57.
    QueryVariableInfo,
}

impl RuntimeService {
    /// The service of a slot. None exactly where the slot's service is none of these.
    #[tactic(auto, unfolding(crate::specs::Slots::service_of))]
    pub fn of_slot(slot: u8) -> Option<RuntimeService>
        ensures { result ≡ service_of slot }
    {
        match slot {
            27 => Some(RuntimeService::GetNextMonotonicCount),
            44 => Some(RuntimeService::GetTime),
            45 => Some(RuntimeService::SetTime),
            46 => Some(RuntimeService::GetWakeupTime),
            47 => Some(RuntimeService::SetWakeupTime),
            50 => Some(RuntimeService::GetVariable),
            51 => Some(RuntimeService::GetNextVariableName),
            52 => Some(RuntimeService::SetVariable),
            53 => Some(RuntimeService::GetNextHighMonotonicCount),
            55 => Some(RuntimeService::UpdateCapsule),
            56 => Some(RuntimeService::QueryCapsuleCapabilities),
            57 => Some(RuntimeService::QueryVariableInfo),
            _ => None,
        }
    }
}

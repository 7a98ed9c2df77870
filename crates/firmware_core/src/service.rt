//! The services of the firmware, by slot.
ghost use Rattle.std.specs.Prelude.{◌≡◌};
ghost use Rattle.firmware_core.specs.Slots.{service_of};

/// The services on memory, those of the console, the reset, and the return.
#[derive(Clone, Copy, Debug, PartialEq, Eq, Drop)]
pub enum Service {
    AllocatePages,
    FreePages,
    GetMemoryMap,
    AllocatePool,
    FreePool,
    CalculateCrc32,
    CopyMem,
    SetMem,
    OutputString,
    TestString,
    QueryMode,
    SetMode,
    /// What changes a screen alone: Reset, SetAttribute, ClearScreen, SetCursorPosition, EnableCursor.
    Screen,
    /// ResetSystem.
    Reset,
    /// The return of what runs.
    Return,
    /// A service that isn't built.
    Unbuilt,
}

/// The service of a slot.
#[tactic(auto, unfolding(crate::specs::Slots::service_of))]
pub(crate) fn service_of(slot: u8) -> Service
    ensures { result ≡ service_of slot }
{
    match slot {
        2 => Service::AllocatePages,
        3 => Service::FreePages,
        4 => Service::GetMemoryMap,
        5 => Service::AllocatePool,
        6 => Service::FreePool,
        40 => Service::CalculateCrc32,
        41 => Service::CopyMem,
        42 => Service::SetMem,
        59 => Service::OutputString,
        60 => Service::TestString,
        61 => Service::QueryMode,
        62 => Service::SetMode,
        58 => Service::Screen,
        63 => Service::Screen,
        64 => Service::Screen,
        65 => Service::Screen,
        66 => Service::Screen,
        54 => Service::Reset,
        67 => Service::Return,
        _ => Service::Unbuilt,
    }
}

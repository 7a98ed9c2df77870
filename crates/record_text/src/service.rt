//! The names of the firmware's services.
ghost use Rattle.std.specs.Prelude.{◌≡◌, ◌≤◌, map, length};
ghost use Rattle.std.specs.List.{slice_get};
ghost use Rattle.record_text.specs.Services.{or_empty, slot_from, service_name, service_slot, ServicesReadBack};

/// The services by their slots: boot services, runtime services and those of the console (UEFI 2.10, sections 4.4,
/// 4.5 and 12.4). Slot 17 has none.
static SERVICES: [&str; 67] = [
    "RaiseTPL",
    "RestoreTPL",
    "AllocatePages",
    "FreePages",
    "GetMemoryMap",
    "AllocatePool",
    "FreePool",
    "CreateEvent",
    "SetTimer",
    "WaitForEvent",
    "SignalEvent",
    "CloseEvent",
    "CheckEvent",
    "InstallProtocolInterface",
    "ReinstallProtocolInterface",
    "UninstallProtocolInterface",
    "HandleProtocol",
    "",
    "RegisterProtocolNotify",
    "LocateHandle",
    "LocateDevicePath",
    "InstallConfigurationTable",
    "LoadImage",
    "StartImage",
    "Exit",
    "UnloadImage",
    "ExitBootServices",
    "GetNextMonotonicCount",
    "Stall",
    "SetWatchdogTimer",
    "ConnectController",
    "DisconnectController",
    "OpenProtocol",
    "CloseProtocol",
    "OpenProtocolInformation",
    "ProtocolsPerHandle",
    "LocateHandleBuffer",
    "LocateProtocol",
    "InstallMultipleProtocolInterfaces",
    "UninstallMultipleProtocolInterfaces",
    "CalculateCrc32",
    "CopyMem",
    "SetMem",
    "CreateEventEx",
    "GetTime",
    "SetTime",
    "GetWakeupTime",
    "SetWakeupTime",
    "SetVirtualAddressMap",
    "ConvertPointer",
    "GetVariable",
    "GetNextVariableName",
    "SetVariable",
    "GetNextHighMonotonicCount",
    "ResetSystem",
    "UpdateCapsule",
    "QueryCapsuleCapabilities",
    "QueryVariableInfo",
    "Reset",
    "OutputString",
    "TestString",
    "QueryMode",
    "SetMode",
    "SetAttribute",
    "ClearScreen",
    "SetCursorPosition",
    "EnableCursor",
];

#[tactic(auto, using(crate::proofs::ServiceLemmas::name_there, crate::proofs::ServiceLemmas::no_name))]
fn name_in<'a>(names: &[&'a str], slot: u8) -> &'a str
    ensures { result.now ≡ or_empty (slice_get (map (λ name. name.now) names.now) slot) }
{
    let place = slot as usize;
    if place < names.len() {
        names[place]
    } else {
        ""
    }
}

/// The name of the service of a slot; empty where the slot has none: slot 17, and each from 67 on.
pub fn service_name(slot: u8) -> &'static str
    ensures { result.now ≡ service_name slot }
{
    name_in(&SERVICES, slot)
}

/// The place of a name in a list of names.
fn slot_in(names: &[&str], name: &str) -> Option<u8>
    requires { length names.now ≤ 67 }
    ensures { result ≡ slot_from 0 (map (λ name. name.now) names.now) name.now }
{
    for slot in 0..names.len() {
        if names[slot] == name {
            return Some(slot as u8);
        }
    }
    None
}

/// The slot of the service of a name; None exactly where no service has it.
#[tactic(auto, unfolding(crate::specs::Services::service_slot))]
pub fn service_slot(name: &str) -> Option<u8>
    ensures { result ≡ service_slot name.now }
{
    if name.is_empty() {
        None
    } else {
        slot_in(&SERVICES, name)
    }
}

/// A law: the name of a service is that of no other, so it is read back as its slot.
#[tactic(auto, using(crate::proofs::ServiceLemmas::services_back))]
pub fn services_read_back()
    ensures { ServicesReadBack }
{}

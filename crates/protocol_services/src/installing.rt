//! The services that install protocol interfaces and take them away (UEFI 2.10, sections 7.3.2 to 7.3.4).
#![tactic(auto)]

ghost use Rattle.std.specs.Prelude.{◌≡◌, IfOk, true, if◌then◌else◌};
ghost use Rattle.address_view.specs.Windows.{see};
ghost use Rattle.address_view.specs.Seen.{all_pass, is_seen};
ghost use Rattle.protocol_db.specs.Calls.{installation};
ghost use Rattle.protocol_services.specs.Outputs.{refusal_for};
ghost use Rattle.protocol_services.specs.Installing.{handle_asked, installed, install_protocol_interface, reinstall_protocol_interface, uninstall_protocol_interface};

use crate::output::invalid;
use crate::status::{refuse, refuse_surely};
use address_view::View;
use guest_call::{
    argument, can_read, can_write, guid_seen, lacks_output, low_word, number_seen, put_output,
};
use guest_memory::GuestMemory;
use protocol_db::Protocols;
use service_answer::{Served, announces, gives, lacks_frames};
use std::alloc::{AllocError, Global};
use uh_base::{EfiStatus, Guid};

/// The handle on which an interface is to be installed, a new one for 0.
pub(crate) fn handle_asked(number: u64) -> Option<u64>
    ensures { result ≡ handle_asked number }
{
    if number == 0 { None } else { Some(number) }
}

/// What an install comes to whose output lacks frames. The protocols stay.
#[tactic(auto, using(crate::proofs::RefusalLemmas::refused))]
fn refuse_install(
    alloc: Global,
    protocols: &Protocols,
    handle: Option<u64>,
    guid: Guid,
    interface: u64,
) -> Result<Served, AllocError>
    ensures { IfOk result (λ answer. answer ≡ refusal_for (installation protocols.now handle guid interface)) }
{
    let mut copy = protocols.copy()?;
    match copy.install(handle, guid, interface) {
        Ok(_) => Ok(lacks_frames(alloc)),
        Err(refusal) => refuse(alloc, refusal),
    }
}

/// Installs an interface, and writes its handle.
#[tactic(auto, using(crate::proofs::RefusalLemmas::refused))]
fn install_at(
    alloc: Global,
    memory: &mut GuestMemory,
    view: &View,
    at: u64,
    handle: Option<u64>,
    guid: Guid,
    interface: u64,
    protocols: &mut Protocols,
) -> Result<Served, AllocError>
    requires seen { all_pass (is_seen (see view.now) memory.old) at 8 ≡ true }
    ensures ok { IfOk result (λ answer. record { answer = answer; memory = memory.new; protocols = protocols.new } ≡ installed (see view.now) memory.old protocols.old at (installation protocols.old handle guid interface)) }
    ensures base { memory.new.base ≡ memory.old.base }
    ensures pages { memory.new.pages ≡ memory.old.pages }
{
    if lacks_output(memory, view, at, 8) {
        return refuse_install(alloc, protocols, handle, guid, interface);
    }
    match protocols.install(handle, guid, interface) {
        Ok(installed) => {
            put_output(memory, view, at, 8, installed.handle)?;
            Ok(announces(EfiStatus::SUCCESS.0, installed.events))
        }
        Err(refusal) => refuse(alloc, refusal),
    }
}

/// InstallProtocolInterface (handle, GUID, type, interface): installs an interface on a handle, or on a new one where the
/// handle is 0, and writes the handle. The events of the registrations for the protocol are signalled. `Err` is want of
/// host memory.
#[tactic(auto, unfolding(crate::specs::Installing::install_protocol_interface))]
pub fn install_protocol_interface(
    alloc: Global,
    registers: &[u64; 32],
    view: &View,
    memory: &mut GuestMemory,
    protocols: &mut Protocols,
) -> Result<Served, AllocError>
    ensures ok { IfOk result (λ answer. record { answer = answer; memory = memory.new; protocols = protocols.new } ≡ install_protocol_interface registers.now (see view.now) memory.old protocols.old) }
    ensures base { memory.new.base ≡ memory.old.base }
    ensures pages { memory.new.pages ≡ memory.old.pages }
{
    let at = argument(0, registers);
    let guid_at = argument(1, registers);
    let kind = low_word(argument(2, registers));
    let interface = argument(3, registers);
    if !can_write(memory, view, at, 8) || !can_read(memory, view, guid_at, 16) || kind != 0 {
        return Ok(invalid(alloc));
    }
    let handle = handle_asked(number_seen(memory, view, at, 8));
    let guid = guid_seen(alloc, memory, view, guid_at)?;
    install_at(alloc, memory, view, at, handle, guid, interface, protocols)
}

/// ReinstallProtocolInterface (handle, GUID, old interface, new interface): puts an interface in another's place. The
/// events of the registrations for the protocol are signalled. `Err` is want of host memory.
#[tactic(auto, unfolding(crate::specs::Installing::reinstall_protocol_interface), using(crate::proofs::RefusalLemmas::refused))]
pub fn reinstall_protocol_interface(
    alloc: Global,
    registers: &[u64; 32],
    view: &View,
    memory: &GuestMemory,
    protocols: &mut Protocols,
) -> Result<Served, AllocError>
    ensures { IfOk result (λ answer. record { answer = answer; memory = memory.now; protocols = protocols.new } ≡ reinstall_protocol_interface registers.now (see view.now) memory.now protocols.old) }
{
    let handle = argument(0, registers);
    let guid_at = argument(1, registers);
    let old = argument(2, registers);
    let new = argument(3, registers);
    if !can_read(memory, view, guid_at, 16) {
        return Ok(invalid(alloc));
    }
    let guid = guid_seen(alloc, memory, view, guid_at)?;
    match protocols.reinstall(handle, &guid, old, new) {
        Ok(installed) => Ok(announces(EfiStatus::SUCCESS.0, installed.events)),
        Err(refusal) => refuse(alloc, refusal),
    }
}

/// UninstallProtocolInterface (handle, GUID, interface): takes an interface away. `Err` is want of host memory.
#[tactic(auto, unfolding(crate::specs::Installing::uninstall_protocol_interface))]
pub fn uninstall_protocol_interface(
    alloc: Global,
    registers: &[u64; 32],
    view: &View,
    memory: &GuestMemory,
    protocols: &mut Protocols,
) -> Result<Served, AllocError>
    ensures { IfOk result (λ answer. record { answer = answer; memory = memory.now; protocols = protocols.new } ≡ uninstall_protocol_interface registers.now (see view.now) memory.now protocols.old) }
{
    let handle = argument(0, registers);
    let guid_at = argument(1, registers);
    let interface = argument(2, registers);
    if !can_read(memory, view, guid_at, 16) {
        return Ok(invalid(alloc));
    }
    let guid = guid_seen(alloc, memory, view, guid_at)?;
    match protocols.uninstall(handle, &guid, interface) {
        Ok(()) => Ok(gives(alloc, EfiStatus::SUCCESS.0)),
        Err(refusal) => Ok(refuse_surely(alloc, refusal)),
    }
}

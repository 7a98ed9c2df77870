//! HandleProtocol and LocateProtocol (UEFI 2.10, sections 7.3.7 and 7.3.16).
#![tactic(auto)]

ghost use Rattle.std.specs.Prelude.{◌≡◌, IfOk, true, if◌then◌else◌};
ghost use Rattle.address_view.specs.Windows.{see};
ghost use Rattle.address_view.specs.Seen.{all_pass, is_seen};
ghost use Rattle.protocol_services.specs.Finding.{handle_protocol, interface_told, located, taken, locate_protocol};

use crate::output::{give_number, invalid};
use address_view::View;
use guest_call::{argument, can_read, can_write, guid_seen, lacks_output, put_output};
use guest_memory::GuestMemory;
use protocol_db::Protocols;
use service_answer::{Served, gives, lacks_frames};
use std::alloc::{AllocError, Global};
use uh_base::{EfiStatus, Guid};

/// Writes an interface, or 0 where there is none.
fn tell_interface(
    alloc: Global,
    memory: &mut GuestMemory,
    view: &View,
    at: u64,
    interface: Option<u64>,
) -> Result<Served, AllocError>
    requires seen { all_pass (is_seen (see view.now) memory.old) at 8 ≡ true }
    ensures ok { IfOk result (λ answer. record { answer = answer; memory = memory.new } ≡ interface_told (see view.now) memory.old at interface) }
    ensures base { memory.new.base ≡ memory.old.base }
    ensures pages { memory.new.pages ≡ memory.old.pages }
{
    match interface {
        None => give_number(alloc, memory, view, at, 8, 0, EfiStatus::UNSUPPORTED.0),
        Some(interface) => {
            give_number(alloc, memory, view, at, 8, interface, EfiStatus::SUCCESS.0)
        }
    }
}

/// HandleProtocol (handle, GUID, interface): writes the interface of a protocol, and notes nobody as having opened it.
/// `Err` is want of host memory.
#[tactic(auto, unfolding(crate::specs::Finding::handle_protocol))]
pub fn handle_protocol(
    alloc: Global,
    registers: &[u64; 32],
    view: &View,
    memory: &mut GuestMemory,
    protocols: &Protocols,
) -> Result<Served, AllocError>
    ensures ok { IfOk result (λ answer. record { answer = answer; memory = memory.new; protocols = protocols.now } ≡ handle_protocol registers.now (see view.now) memory.old protocols.now) }
    ensures base { memory.new.base ≡ memory.old.base }
    ensures pages { memory.new.pages ≡ memory.old.pages }
{
    let handle = argument(0, registers);
    let guid_at = argument(1, registers);
    let output = argument(2, registers);
    if !can_read(memory, view, guid_at, 16)
        || !can_write(memory, view, output, 8)
        || !protocols.handles().is_handle(handle)
    {
        return Ok(invalid(alloc));
    }
    let guid = guid_seen(alloc, memory, view, guid_at)?;
    let interface = protocols.handles().interface(handle, &guid);
    tell_interface(alloc, memory, view, output, interface)
}

/// The interface of a protocol: that of the first handle that has it, or, with a registration as the key, that of the
/// handle that is pending longest, where that has it.
fn located(protocols: &Protocols, guid: &Guid, key: u64) -> Option<u64>
    ensures { result ≡ located protocols.now guid.now key }
{
    let handle = if key == 0 {
        protocols.first_of(guid)
    } else {
        protocols.first_notified(key)
    };
    match handle {
        None => None,
        Some(handle) => protocols.handles().interface(handle, guid),
    }
}

/// The handle that is pending longest for a registration is pending no more.
fn take(protocols: &mut Protocols, key: u64)
    ensures { protocols.new ≡ taken protocols.old key }
{
    if key != 0 {
        let _ = protocols.take_notified(key);
    }
}

/// LocateProtocol (GUID, registration, interface): writes the interface of the first handle that has a protocol, or of
/// the handle that is pending longest for a registration. `Err` is want of host memory.
#[tactic(auto, unfolding(crate::specs::Finding::locate_protocol))]
pub fn locate_protocol(
    alloc: Global,
    registers: &[u64; 32],
    view: &View,
    memory: &mut GuestMemory,
    protocols: &mut Protocols,
) -> Result<Served, AllocError>
    ensures ok { IfOk result (λ answer. record { answer = answer; memory = memory.new; protocols = protocols.new } ≡ locate_protocol registers.now (see view.now) memory.old protocols.old) }
    ensures base { memory.new.base ≡ memory.old.base }
    ensures pages { memory.new.pages ≡ memory.old.pages }
{
    let guid_at = argument(0, registers);
    let key = argument(1, registers);
    let output = argument(2, registers);
    if !can_read(memory, view, guid_at, 16) || !can_write(memory, view, output, 8) {
        return Ok(invalid(alloc));
    }
    let guid = guid_seen(alloc, memory, view, guid_at)?;
    if lacks_output(memory, view, output, 8) {
        return Ok(lacks_frames(alloc));
    }
    match located(protocols, &guid, key) {
        None => {
            put_output(memory, view, output, 8, 0)?;
            Ok(gives(alloc, EfiStatus::NOT_FOUND.0))
        }
        Some(interface) => {
            put_output(memory, view, output, 8, interface)?;
            take(protocols, key);
            Ok(gives(alloc, EfiStatus::SUCCESS.0))
        }
    }
}

//! RegisterProtocolNotify (UEFI 2.10, section 7.3.5).
#![tactic(auto)]

ghost use Rattle.std.specs.Prelude.{◌≡◌, IfOk, IfSome, IfNone, Ok, Err, true, false};
ghost use Rattle.protocol_db.specs.Calls.{registration};
ghost use Rattle.address_view.specs.Windows.{see};
ghost use Rattle.address_view.specs.Seen.{all_pass, is_seen};
ghost use Rattle.address_view.specs.Stored.{lacks_seen};
ghost use Rattle.event_services.specs.Notices.{registration_given, register_protocol_notify};

use address_view::View;
use event_queue::Events;
use guest_call::{argument, can_read, can_write, guid_seen, lacks_output, put_output};
use guest_memory::GuestMemory;
use protocol_db::{ProtocolRefusal, Protocols};
use service_answer::{Served, gives, lacks_frames};
use std::alloc::{AllocError, Global};
use uh_base::{EfiStatus, Guid};

/// Registers an event, and answers the registration's number. None, and nothing changes, where there are as many as may be.
#[tactic(auto, unfolding(protocol_db::specs::Calls::registration))]
fn register(protocols: &mut Protocols, guid: Guid, event: u64) -> Result<Option<u64>, AllocError>
    ensures some { IfOk result (λ answer. IfSome answer (λ number. registration protocols.old guid event ≡ Ok (record { answer = number; after = protocols.new }))) }
    ensures full { IfOk result (λ answer. IfNone answer (registration protocols.old guid event ≡ Err ProtocolRefusal.Full)) }
    ensures kept { IfOk result (λ answer. IfNone answer (protocols.new ≡ protocols.old)) }
{
    match protocols.register(guid, event) {
        Ok(number) => Ok(Some(number)),
        Err(ProtocolRefusal::Full) => Ok(None),
        Err(ProtocolRefusal::Memory) => Err(AllocError),
        Err(ProtocolRefusal::Invalid) => unreachable!(),
        Err(ProtocolRefusal::NotFound) => unreachable!(),
        Err(ProtocolRefusal::Unsupported) => unreachable!(),
        Err(ProtocolRefusal::AccessDenied) => unreachable!(),
        Err(ProtocolRefusal::AlreadyStarted) => unreachable!(),
    }
}

/// What a registration comes to whose output lacks frames. Whether it would be refused is tried on a copy.
fn try_registration(
    alloc: Global,
    view: &View,
    memory: &GuestMemory,
    protocols: &Protocols,
    guid: Guid,
    event: u64,
    at: u64,
) -> Result<Served, AllocError>
    requires { lacks_seen (see view.now) memory.now at 8 ≡ true }
    ensures { IfOk result (λ served. record { served = served; memory = memory.now; protocols = protocols.now } ≡ registration_given (see view.now) memory.now protocols.now at (registration protocols.now guid event)) }
{
    let mut copy = protocols.copy()?;
    match register(&mut copy, guid, event)? {
        Some(_) => Ok(lacks_frames(alloc)),
        None => Ok(gives(alloc, EfiStatus::OUT_OF_RESOURCES.0)),
    }
}

/// Registers an event, and writes the registration's number at an output that is seen and lacks no frames.
fn give_registration(
    alloc: Global,
    view: &View,
    memory: &mut GuestMemory,
    protocols: &mut Protocols,
    guid: Guid,
    event: u64,
    at: u64,
) -> Result<Served, AllocError>
    requires seen { all_pass (is_seen (see view.now) memory.old) at 8 ≡ true }
    requires frames { lacks_seen (see view.now) memory.old at 8 ≡ false }
    ensures ok { IfOk result (λ served. record { served = served; memory = memory.new; protocols = protocols.new } ≡ registration_given (see view.now) memory.old protocols.old at (registration protocols.old guid event)) }
    ensures base { memory.new.base ≡ memory.old.base }
    ensures pages { memory.new.pages ≡ memory.old.pages }
{
    match register(protocols, guid, event)? {
        Some(number) => {
            put_output(memory, view, at, 8, number)?;
            Ok(gives(alloc, EfiStatus::SUCCESS.0))
        }
        None => Ok(gives(alloc, EfiStatus::OUT_OF_RESOURCES.0)),
    }
}

/// RegisterProtocolNotify (protocol, event, registration): registers an event for new interfaces of a protocol, and writes
/// the registration's number. `Err` is want of host memory.
#[tactic(auto, unfolding(crate::specs::Notices::register_protocol_notify))]
pub fn register_protocol_notify(
    alloc: Global,
    registers: &[u64; 32],
    view: &View,
    memory: &mut GuestMemory,
    events: &Events,
    protocols: &mut Protocols,
) -> Result<Served, AllocError>
    ensures ok { IfOk result (λ served. record { served = served; memory = memory.new; protocols = protocols.new } ≡ register_protocol_notify registers.now (see view.now) memory.old events.now protocols.old) }
    ensures base { memory.new.base ≡ memory.old.base }
    ensures pages { memory.new.pages ≡ memory.old.pages }
{
    let named = argument(0, registers);
    let event = argument(1, registers);
    let at = argument(2, registers);
    if !can_read(memory, view, named, 16)
        || !can_write(memory, view, at, 8)
        || !events.is_event(event)
    {
        return Ok(gives(alloc, EfiStatus::INVALID_PARAMETER.0));
    }
    let guid = guid_seen(alloc, memory, view, named)?;
    if lacks_output(memory, view, at, 8) {
        try_registration(alloc, view, memory, protocols, guid, event, at)
    } else {
        give_registration(alloc, view, memory, protocols, guid, event, at)
    }
}

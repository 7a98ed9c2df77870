//! CreateEvent and CreateEventEx (UEFI 2.10, sections 7.1.1 and 7.1.2).
#![tactic(auto)]

ghost use Rattle.std.specs.Prelude.{◌≡◌, IfOk, true, if◌then◌else◌};
ghost use Rattle.address_view.specs.Windows.{see};
ghost use Rattle.address_view.specs.Seen.{all_pass, is_seen};
ghost use Rattle.guest_call.specs.Outputs.{optional};
ghost use Rattle.event_services.specs.Creation.{creation_asked, event_made, event_given, group_seen, create_event, create_event_ex};

use crate::status::event_status;
use address_view::View;
use event_queue::Events;
use guest_call::{argument, can_read_optional, can_write, guid_seen, low_word, put_number};
use guest_memory::{GuestMemory, PutEnd};
use service_answer::{Served, gives, lacks_frames};
use std::alloc::{AllocError, Global};
use uh_base::{EfiStatus, Guid};

/// Makes the event that a call asks for, if one can be made.
fn make_event(registers: &[u64; 32], events: &mut Events, group: Option<Guid>)
    ensures { events.new ≡ event_made registers.now events.old group }
{
    let kind = low_word(argument(0, registers));
    let tpl = argument(1, registers);
    let function = argument(2, registers);
    match events.create(kind, tpl, function, argument(3, registers), group) {
        Ok(_) => {}
        Err(_) => {}
    }
}

/// Makes the event that a call asks for, and writes its number at an output that is seen.
fn give_event(
    alloc: Global,
    registers: &[u64; 32],
    view: &View,
    memory: &mut GuestMemory,
    events: &mut Events,
    group: Option<Guid>,
    at: u64,
) -> Result<Served, AllocError>
    requires { all_pass (is_seen (see view.now) memory.old) at 8 ≡ true }
    ensures ok { IfOk result (λ served. record { served = served; memory = memory.new; events = events.new } ≡ event_given registers.now (see view.now) memory.old events.old group at (creation_asked registers.now events.old group)) }
    ensures base { memory.new.base ≡ memory.old.base }
    ensures pages { memory.new.pages ≡ memory.old.pages }
{
    let kind = low_word(argument(0, registers));
    let tpl = argument(1, registers);
    let function = argument(2, registers);
    match events.creation(kind, tpl, function, group) {
        Ok(number) => match put_number(memory, view, at, 8, number) {
            Ok(()) => {
                make_event(registers, events, group);
                Ok(gives(alloc, EfiStatus::SUCCESS.0))
            }
            Err(PutEnd::Frames) => Ok(lacks_frames(alloc)),
            Err(PutEnd::Memory) => Err(AllocError),
            Err(PutEnd::Outside) => unreachable!(),
        },
        Err(refusal) => Ok(gives(alloc, event_status(refusal))),
    }
}

/// CreateEvent (type, tpl, function, context, event): makes an event of no group but its type's, and writes its number.
/// `Err` is want of host memory.
#[tactic(auto, unfolding(crate::specs::Creation::create_event))]
pub fn create_event(
    alloc: Global,
    registers: &[u64; 32],
    view: &View,
    memory: &mut GuestMemory,
    events: &mut Events,
) -> Result<Served, AllocError>
    ensures ok { IfOk result (λ served. record { served = served; memory = memory.new; events = events.new } ≡ create_event registers.now (see view.now) memory.old events.old) }
    ensures base { memory.new.base ≡ memory.old.base }
    ensures pages { memory.new.pages ≡ memory.old.pages }
{
    let at = argument(4, registers);
    if !can_write(memory, view, at, 8) {
        return Ok(gives(alloc, EfiStatus::INVALID_PARAMETER.0));
    }
    give_event(alloc, registers, view, memory, events, None, at)
}

/// The group that a call brings, none at address 0.
fn group_seen(
    alloc: Global,
    memory: &GuestMemory,
    view: &View,
    at: u64,
) -> Result<Option<Guid>, AllocError>
    requires { all_pass (is_seen (see view.now) memory.now) at (optional at 16) ≡ true }
    ensures { IfOk result (λ group. group ≡ group_seen (see view.now) memory.now at) }
{
    if at == 0 {
        return Ok(None);
    }
    match guid_seen(alloc, memory, view, at) {
        Ok(group) => Ok(Some(group)),
        Err(AllocError) => Err(AllocError),
    }
}

/// CreateEventEx (type, tpl, function, context, group, event): makes an event, of the group whose GUID is given or of
/// none at address 0, and writes its number. `Err` is want of host memory.
#[tactic(auto, unfolding(crate::specs::Creation::create_event_ex))]
pub fn create_event_ex(
    alloc: Global,
    registers: &[u64; 32],
    view: &View,
    memory: &mut GuestMemory,
    events: &mut Events,
) -> Result<Served, AllocError>
    ensures ok { IfOk result (λ served. record { served = served; memory = memory.new; events = events.new } ≡ create_event_ex registers.now (see view.now) memory.old events.old) }
    ensures base { memory.new.base ≡ memory.old.base }
    ensures pages { memory.new.pages ≡ memory.old.pages }
{
    let given = argument(4, registers);
    let at = argument(5, registers);
    if !can_read_optional(memory, view, given, 16) || !can_write(memory, view, at, 8) {
        return Ok(gives(alloc, EfiStatus::INVALID_PARAMETER.0));
    }
    let group = group_seen(alloc, memory, view, given)?;
    give_event(alloc, registers, view, memory, events, group, at)
}

//! SetTimer, SignalEvent and CloseEvent (UEFI 2.10, sections 7.1.7, 7.1.4 and 7.1.3).
#![tactic(auto)]

ghost use Rattle.std.specs.Prelude.{◌≡◌};
ghost use Rattle.event_services.specs.Changes.{set_timer, signal_event, close_event, status_of};

use crate::status::event_status;
use event_queue::{EventRefusal, Events};
use guest_call::{argument, low_word};
use protocol_db::Protocols;
use service_answer::{Served, gives};
use std::alloc::Global;
use uh_base::EfiStatus;

/// The status of a call that is done or refused.
fn status_of(done: Result<(), EventRefusal>) -> u64
    ensures { result ≡ status_of done }
{
    match done {
        Ok(()) => EfiStatus::SUCCESS.0,
        Err(refusal) => event_status(refusal),
    }
}

/// SetTimer (event, kind, time): sets the timer of an event at a present moment. Moment and time are in units of
/// 100 ns.
#[tactic(auto, unfolding(crate::specs::Changes::set_timer))]
pub fn set_timer(alloc: Global, registers: &[u64; 32], present: u64, events: &mut Events) -> Served
    ensures { record { served = result; events = events.new } ≡ set_timer registers.now present events.old }
{
    let event = argument(0, registers);
    let kind = low_word(argument(1, registers));
    let done = events.set_timer(event, kind, argument(2, registers), present);
    gives(alloc, status_of(done))
}

/// SignalEvent (event): signals an event and those of its group.
#[tactic(auto, unfolding(crate::specs::Changes::signal_event))]
pub fn signal_event(alloc: Global, registers: &[u64; 32], events: &mut Events) -> Served
    ensures { record { served = result; events = events.new } ≡ signal_event registers.now events.old }
{
    let done = events.signal(argument(0, registers));
    gives(alloc, status_of(done))
}

/// CloseEvent (event): takes an event away, with its notification in the queue and its registrations for protocols.
#[tactic(auto, unfolding(crate::specs::Changes::close_event))]
pub fn close_event(
    alloc: Global,
    registers: &[u64; 32],
    events: &mut Events,
    protocols: &mut Protocols,
) -> Served
    ensures { record { served = result; events = events.new; protocols = protocols.new } ≡ close_event registers.now events.old protocols.old }
{
    let event = argument(0, registers);
    match events.close(event) {
        Ok(()) => {
            protocols.forget(event);
            gives(alloc, EfiStatus::SUCCESS.0)
        }
        Err(refusal) => gives(alloc, event_status(refusal)),
    }
}

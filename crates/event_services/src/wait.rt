//! WaitForEvent (UEFI 2.10, section 7.1.5).
#![tactic(auto)]

ghost use Rattle.std.specs.Prelude.{◌≡◌, ◌≤◌, IfOk, IsTrue, true};
ghost use Rattle.event_queue.specs.Timers.{next_moment};
ghost use Rattle.address_view.specs.Windows.{see};
ghost use Rattle.address_view.specs.Seen.{all_pass, is_seen};
ghost use Rattle.guest_call.specs.Arguments.{argument};
ghost use Rattle.event_services.specs.Waits.{decides, events_seen, judged, polled, index_written, is_count, can_wait, passed_to, wait_anew, wait_for_event, wait_for_signal};

use crate::awaited::Awaited;
use crate::decision::Decision;
use address_view::View;
use event_queue::{Check, EventRefusal, Events, next_moment_is_due};
use guest_call::{argument, can_read_buffer, can_write, number_seen, put_number};
use guest_memory::{GuestMemory, PutEnd};
use std::alloc::AllocError;
use uh_base::EfiStatus;

/// The level at which events may be waited for: TPL_APPLICATION.
const APPLICATION: u8 = 4;

/// The most events that are waited for at a time.
const MOST: u64 = 256;

/// Whether a check of an event decides how a wait ends, and with which status.
fn decides(check: Result<Check, EventRefusal>) -> Option<u64>
    ensures { result ≡ decides check }
{
    match check {
        Ok(Check::Signalled) => Some(EfiStatus::SUCCESS.0),
        Ok(Check::Queued) => None,
        Ok(Check::Quiet) => None,
        Err(_) => Some(EfiStatus::INVALID_PARAMETER.0),
    }
}

/// Checks so many events of a list, up to the first that decides.
#[tactic(auto, unfolding(crate::specs::Waits::judged, crate::specs::Waits::events_seen), using(crate::proofs::ListLemmas::judged_on))]
fn judge(
    memory: &GuestMemory,
    view: &View,
    events: &mut Events,
    list: u64,
    count: u64,
) -> Option<Decision>
    ensures { record { decision = result; events = events.new } ≡ judged 0 (events_seen (see view.now) memory.now list count) events.old }
{
    let mut at = list;
    for place in 0..count {
        let event = number_seen(memory, view, at, 8);
        match decides(events.check(event)) {
            Some(status) => return Some(Decision { status, place }),
            None => at = at.wrapping_add(8),
        }
    }
    None
}

/// Takes the first signal of so many events of a list.
#[tactic(auto, unfolding(crate::specs::Waits::polled, crate::specs::Waits::events_seen), using(crate::proofs::ListLemmas::polled_on))]
fn poll(
    memory: &GuestMemory,
    view: &View,
    events: &mut Events,
    list: u64,
    count: u64,
) -> Option<Decision>
    ensures { record { decision = result; events = events.new } ≡ polled 0 (events_seen (see view.now) memory.now list count) events.old }
{
    let mut at = list;
    for place in 0..count {
        let event = number_seen(memory, view, at, 8);
        if events.take_signal(event) {
            let status = EfiStatus::SUCCESS.0;
            return Some(Decision { status, place });
        }
        at = at.wrapping_add(8);
    }
    None
}

/// Whether so many events may be waited for.
fn is_count(count: u64) -> bool
    ensures { result ≡ is_count count }
{
    count != 0 && count <= MOST
}

/// Whether the index of a call may be written, and its list is seen and has a length that may be.
#[tactic(auto, unfolding(crate::specs::Waits::can_wait))]
fn can_wait(registers: &[u64; 32], view: &View, memory: &GuestMemory) -> bool
    ensures test { result ≡ can_wait registers.now (see view.now) memory.now }
    ensures few { IsTrue result → argument 0 registers.now ≤ 256 }
    ensures seen { IsTrue result → all_pass (is_seen (see view.now) memory.now) (argument 2 registers.now) 8 ≡ true }
{
    let count = argument(0, registers);
    can_write(memory, view, argument(2, registers), 8)
        && is_count(count)
        && can_read_buffer(memory, view, argument(1, registers), 8 * count)
}

/// Writes the place of the event that decides at an output that is seen.
fn write_index(
    memory: &mut GuestMemory,
    view: &View,
    at: u64,
    decision: Decision,
) -> Result<Awaited, AllocError>
    requires { all_pass (is_seen (see view.now) memory.old) at 8 ≡ true }
    ensures ok { IfOk result (λ answer. record { answer = answer; memory = memory.new } ≡ index_written (see view.now) memory.old at decision) }
    ensures base { memory.new.base ≡ memory.old.base }
    ensures pages { memory.new.pages ≡ memory.old.pages }
{
    match put_number(memory, view, at, 8, decision.place) {
        Ok(()) => Ok(Awaited::Answers(decision.status)),
        Err(PutEnd::Frames) => Ok(Awaited::LacksFrames),
        Err(PutEnd::Memory) => Err(AllocError),
        Err(PutEnd::Outside) => unreachable!(),
    }
}

/// WaitForEvent (number, events, index), where it comes again behind a wait: checks its events, and writes the index of the
/// first that decides. Without one the call goes on, by `wait_for_signal`. `Err` is want of host memory.
#[tactic(auto, unfolding(crate::specs::Waits::wait_anew))]
pub fn wait_anew(
    registers: &[u64; 32],
    view: &View,
    memory: &mut GuestMemory,
    events: &mut Events,
) -> Result<Awaited, AllocError>
    ensures ok { IfOk result (λ answer. record { answer = answer; memory = memory.new; events = events.new } ≡ wait_anew registers.now (see view.now) memory.old events.old) }
    ensures base { memory.new.base ≡ memory.old.base }
    ensures pages { memory.new.pages ≡ memory.old.pages }
{
    if !can_wait(registers, view, memory) {
        return Ok(Awaited::Answers(EfiStatus::INVALID_PARAMETER.0));
    }
    let list = argument(1, registers);
    let index = argument(2, registers);
    match judge(memory, view, events, list, argument(0, registers)) {
        Some(decision) => write_index(memory, view, index, decision),
        None => Ok(Awaited::GoesOn),
    }
}

/// WaitForEvent (number, events, index), as it is called at a level: away from TPL_APPLICATION it is refused, and else its
/// events are checked as in `wait_anew`. `Err` is want of host memory.
#[tactic(auto, unfolding(crate::specs::Waits::wait_for_event))]
pub fn wait_for_event(
    registers: &[u64; 32],
    tpl: u8,
    view: &View,
    memory: &mut GuestMemory,
    events: &mut Events,
) -> Result<Awaited, AllocError>
    ensures ok { IfOk result (λ answer. record { answer = answer; memory = memory.new; events = events.new } ≡ wait_for_event registers.now tpl (see view.now) memory.old events.old) }
    ensures base { memory.new.base ≡ memory.old.base }
    ensures pages { memory.new.pages ≡ memory.old.pages }
{
    if can_write(memory, view, argument(2, registers), 8)
        && is_count(argument(0, registers))
        && tpl != APPLICATION
    {
        return Ok(Awaited::Answers(EfiStatus::UNSUPPORTED.0));
    }
    wait_anew(registers, view, memory, events)
}

/// Lets time pass to the next moment at which a timer is due.
fn pass(events: &Events, moment: &mut u64) -> Awaited
    ensures answer { record { answer = result; moment = moment.new } ≡ passed_to moment.old (next_moment events.now moment.old) }
    ensures later { moment.old ≤ moment.new }
{
    next_moment_is_due();
    match events.next_moment(*moment) {
        Some(next) => {
            *moment = next;
            Awaited::GoesOn
        }
        None => Awaited::Idle,
    }
}

/// WaitForEvent, once the notifications of its events are over: takes the first signal of its events, and writes that
/// one's index. Without one time passes to the next moment at which a timer is due, and the call goes on, by `wait_anew`;
/// where no timer is due the run halts. `moment` is in units of 100 ns. `Err` is want of host memory.
#[tactic(auto, unfolding(crate::specs::Waits::wait_for_signal))]
pub fn wait_for_signal(
    registers: &[u64; 32],
    view: &View,
    memory: &mut GuestMemory,
    events: &mut Events,
    moment: &mut u64,
) -> Result<Awaited, AllocError>
    ensures ok { IfOk result (λ answer. record { answer = answer; memory = memory.new; events = events.new; moment = moment.new } ≡ wait_for_signal registers.now (see view.now) memory.old events.old moment.old) }
    ensures base { memory.new.base ≡ memory.old.base }
    ensures pages { memory.new.pages ≡ memory.old.pages }
    ensures later { moment.old ≤ moment.new }
{
    if !can_wait(registers, view, memory) {
        return Ok(Awaited::Answers(EfiStatus::INVALID_PARAMETER.0));
    }
    let list = argument(1, registers);
    match poll(memory, view, events, list, argument(0, registers)) {
        Some(decision) => write_index(memory, view, argument(2, registers), decision),
        None => Ok(pass(events, moment)),
    }
}

//! The queue of notifications.
#![tactic(auto)]

ghost use Rattle.std.specs.Prelude.{◌≡◌, ◌==◌, ◌++◌, not, position, IfOk, OnOk, IfSome, IfNone, Some, None, slice_get, vec_capacity};
ghost use Rattle.std.specs.List.{filter};
ghost use Rattle.event_queue.specs.Queue.{is_entry, EachOnce, greatest, next_entry, level_calls, is_kept, kept_calls};

use crate::event::{Entry, Event, Notify};
use std::alloc::{AllocError, Global};
use uh_base::Guid;

/// Where the notification of an event stands in the queue.
pub fn queued_at(queue: &[Entry], event: u64) -> Option<usize>
    ensures { result ≡ position (is_entry event) queue.now }
{
    queue.iter().position(|entry| entry.event == event)
}

/// Takes the notification of an event from a queue in which each event stands at most once.
pub fn unqueue(queue: &mut Vec<Entry>, event: u64)
    requires { EachOnce queue.old.items }
    ensures items { queue.new.items ≡ filter (λ entry. not (is_entry event entry)) queue.old.items }
    ensures capacity { vec_capacity queue.new ≡ vec_capacity queue.old }
{
    if let Some(place) = queued_at(queue.as_slice(), event) {
        queue.remove(place);
    }
}

/// The greatest level in the queue, 0 where it is empty.
pub fn greatest(queue: &[Entry]) -> u64
    ensures { result ≡ greatest queue.now }
{
    let mut top = 0;
    for entry in queue {
        top = entry.tpl.max(top);
    }
    top
}

/// The place of the earliest notification of a level.
fn place_at(queue: &[Entry], tpl: u64) -> Option<usize>
    ensures { result ≡ position (λ entry. entry.tpl == tpl) queue.now }
{
    queue.iter().position(|entry| entry.tpl == tpl)
}

/// The earliest notification of the greatest level, where that is above a level, and its place.
pub fn next_place(queue: &[Entry], top: u64, tpl: u64) -> Option<(usize, Entry)>
    requires { top ≡ greatest queue.now }
    ensures none { IfNone result (next_entry queue.now tpl ≡ None) }
    ensures here { IfSome result (λ next. slice_get queue.now next.0 ≡ Some next.1) }
    ensures some { IfSome result (λ next. next_entry queue.now tpl ≡ Some next.1) }
{
    if top <= tpl {
        return None;
    }
    match place_at(queue, top) {
        Some(place) => Some((place, queue[place])),
        None => None,
    }
}

/// Adds the calls of the kept events of a level, in order of making.
fn push_level(
    calls: &mut Vec<Notify>,
    events: &[Event],
    group: &Guid,
    tpl: u8,
) -> Result<(), AllocError>
    ensures { OnOk result (calls.new.items ≡ calls.old.items ++ level_calls tpl (filter (is_kept group.now) events.now)) }
{
    for event in events {
        if event.is_kept(group) && event.tpl == u64::from(tpl) {
            calls.push(Notify {
                event: event.number,
                function: event.function,
                context: event.context,
                tpl,
            })?;
        }
    }
    Ok(())
}

/// The calls of a group's events that are notified by signals, by falling level and then in order of making.
pub fn falling_calls(
    alloc: Global,
    events: &[Event],
    group: &Guid,
) -> Result<Vec<Notify>, AllocError>
    ensures { IfOk result (λ calls. calls.items ≡ kept_calls events.now group.now) }
{
    let mut calls = Vec::new(alloc);
    for below in 0..31 {
        push_level(&mut calls, events, group, 30 - below)?;
    }
    Ok(calls)
}

/// Keeps the events of a group that are notified by signals.
pub fn keep(events: &mut Vec<Event>, group: &Guid)
    ensures kept { events.new.items ≡ filter (is_kept group.now) events.old.items }
    ensures capacity { vec_capacity events.new ≡ vec_capacity events.old }
{
    events.retain(|event| event.is_kept(group));
}

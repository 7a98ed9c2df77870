//! The events of a machine.
#![tactic(auto)]

ghost use Rattle.std.specs.Prelude.{◌≡◌, ◌<◌, ◌≤◌, ◌+◌, ◌-◌, ◌^◌, length, slice_get, IfOk, IfSome, IfNone, OnOk, OnErr, Some, None, is_some, true, false};
ghost use Rattle.event_queue.specs.Kinds.{is_wait, is_signal};
ghost use Rattle.event_queue.specs.Queue.{EventList, Whole, has_level, signal_each, shown, event_at, is_event, greatest, next_entry, notified, after_next, raise_one, signalled, group_signalled, lower_one, queue_one, without, group_kept, kept_calls};
ghost use Rattle.event_queue.specs.Timers.{moment_ahead, reached, has_moment, ticked, after_tick, next_moment, with_timer, all_stopped, due_events, all_rewound, is_up_to, least_due};
ghost use Rattle.event_queue.specs.Calls.{no_events, creation, after_creation, with_event, known, after_signal, after_close, setting, after_setting, checking, after_check, taking, after_taking};

use crate::event::{Entry, Event, Notify};
use crate::kind::{group_for, is_request, is_signal, is_timer, is_wait};
use crate::queue::{falling_calls, greatest, keep, next_place, queued_at, unqueue};
use crate::refusal::{Check, EventRefusal};
use crate::ticks::TickMoments;
use crate::timer::Timer;
use crate::timers::{least_due, rewind_all, stop_all};
use std::alloc::{AllocError, Global};
use std::marker::Model;
use uh_base::{Guid, place_of};

/// The most events that are live at a time.
const MOST: usize = 256;

/// How many events are made in all.
const MOST_MADE: u64 = (1 << 60) - 1;

/// The events of a machine, their timers, and the queue of their notifications (UEFI 2.10, section 7.1). It has room
/// for 256 events from the start, so that only making it and ending boot services takes memory.
#[derive(Drop)]
pub struct Events {
    events: Vec<Event>,
    queue: Vec<Entry>,
    made: u64,
    ticks: TickMoments,
    // Kept beside the lists, so that nothing is walked where nothing is due: the greatest level in the queue, and the
    // least due moment.
    top: u64,
    due: Option<u64>,
}

impl Model for Events {
    ghost use Rattle.std.specs.Prelude.{◌≡◌, ◌≤◌, ◌+◌, vec_capacity};
    ghost use Rattle.event_queue.specs.Queue.{EventList, Whole, greatest};
    ghost use Rattle.event_queue.specs.Timers.{least_due};

    ghost Value = { EventList };

    ghost view = { λ e. record { events = e.events.items; queue = e.queue.items; made = e.made; ticks = e.ticks.listed; last_tick = e.ticks.last } };

    ghost invariant = { λ e. Whole (record { events = e.events.items; queue = e.queue.items; made = e.made; ticks = e.ticks.listed; last_tick = e.ticks.last }) × (256 ≤ vec_capacity e.events) × (256 ≤ vec_capacity e.queue) × (e.top ≡ greatest e.queue.items) × (e.due ≡ least_due e.events.items) };
}

impl Events {
    /// No events, at the moment 0. The tick moments are the positive multiples of 10,000 and the listed ones, in units
    /// of 100 ns.
    pub fn new(alloc: Global, ticks: Vec<u64>) -> Result<Events, AllocError>
        ensures { IfOk result (λ events. events ≡ no_events ticks.items) }
    {
        Ok(Events {
            events: Vec::with_capacity(alloc, MOST)?,
            queue: Vec::with_capacity(alloc, MOST)?,
            made: 0,
            ticks: TickMoments::new(ticks),
            top: 0,
            due: None,
        })
    }

    /// What is so of every list of events.
    pub fn whole(&self)
        ensures { Whole self.now }
    {
        let _ = &self.made;
    }

    /// How many events are live.
    fn count(&self) -> usize
        ensures { result ≡ length self.now.events }
    {
        self.events.len()
    }

    /// The event at a place, in order of making.
    fn at(&self, place: usize) -> Event
        requires { place < length self.now.events }
        ensures { slice_get self.now.events place ≡ Some result }
    {
        self.events[place]
    }

    /// The event of a number, and its place.
    fn find(&self, number: u64) -> Option<(usize, Event)>
        ensures none { IfNone result (event_at self.now.events number ≡ None) }
        ensures some { IfSome result (λ found. slice_get self.now.events found.0 ≡ Some found.1) }
        ensures event { IfSome result (λ found. event_at self.now.events number ≡ Some found.1) }
        ensures number { IfSome result (λ found. found.1.number ≡ number) }
    {
        match place_of(self.events.as_slice(), number) {
            Some(place) => Some((place, self.events[place])),
            None => None,
        }
    }

    /// Makes an event, as CreateEventEx does (UEFI 2.10, section 7.1), and answers its number, 16k + 8 for the k-th.
    /// `Invalid` is for a type with other bits than EVT_TIMER, EVT_RUNTIME and one of EVT_NOTIFY_WAIT and
    /// EVT_NOTIFY_SIGNAL, unless it is 0x201 or 0x60000202; for a group beside one of these two; and where the type
    /// has one of the two bits that notify and the function is 0 or the level isn't from 5 to 30. `Full` is for the
    /// 257th live event, and after 2^60 - 1 were made. It takes no memory.
    #[tactic(auto, unfolding(crate::specs::Calls::creation, crate::specs::Calls::after_creation))]
    pub fn create(
        &mut self,
        kind: u32,
        tpl: u64,
        function: u64,
        context: u64,
        group: Option<Guid>,
    ) -> Result<u64, EventRefusal>
        ensures answer { result ≡ creation self.old kind tpl function group }
        ensures events { self.new ≡ after_creation result self.old kind tpl function context group }
    {
        if !is_request(kind, tpl, function, group) {
            return Err(EventRefusal::Invalid);
        }
        if self.events.len() == MOST || self.made == MOST_MADE {
            return Err(EventRefusal::Full);
        }
        let number = 16 * (self.made + 1) + 8;
        self.add(Event {
            number,
            kind,
            tpl,
            function,
            context,
            group: group_for(kind, group),
            signalled: false,
            timer: Timer::Stopped,
        });
        Ok(number)
    }

    /// What `create` would answer.
    #[tactic(auto, unfolding(crate::specs::Calls::creation))]
    pub fn creation(
        &self,
        kind: u32,
        tpl: u64,
        function: u64,
        group: Option<Guid>,
    ) -> Result<u64, EventRefusal>
        ensures { result ≡ creation self.now kind tpl function group }
    {
        self.whole();
        if !is_request(kind, tpl, function, group) {
            return Err(EventRefusal::Invalid);
        }
        if self.count() == MOST || self.made() == MOST_MADE {
            return Err(EventRefusal::Full);
        }
        Ok(16 * (self.made() + 1) + 8)
    }

    /// How many events were made.
    fn made(&self) -> u64
        ensures { result ≡ self.now.made }
    {
        self.made
    }

    /// Adds an event that is new.
    fn add(&mut self, event: Event)
        requires few { length self.old.events < 256 }
        requires made { self.old.made < 2 ^ 60 - 1 }
        requires number { event.number ≡ shown (self.old.made + 1) }
        requires level { has_level event ≡ true }
        requires timer { event.timer ≡ Timer.Stopped }
        ensures { self.new ≡ with_event self.old event }
    {
        self.events.push_reserved(event);
        self.made += 1;
    }

    /// Signals the event at a place, by itself.
    fn raise(&mut self, place: usize, event: Event)
        requires { slice_get self.old.events place ≡ Some event }
        ensures { self.new ≡ raise_one self.old event.number }
    {
        self.whole();
        if event.signalled {
            return;
        }
        self.events[place] = Event {
            signalled: true,
            ..event
        };
        if is_signal(event.kind) {
            self.queue.push_reserved(event.entry());
            self.top = self.top.max(event.tpl);
        }
    }

    /// Signals each event of a group, in order of making. It takes no memory.
    pub fn signal_group(&mut self, group: &Guid)
        ensures { self.new ≡ group_signalled self.old group.now }
    {
        for place in 0..self.count() {
            let event = self.at(place);
            if event.is_in(group) {
                self.raise(place, event);
            }
        }
    }

    /// Signals the event at a place, and those of its group.
    fn signal_at(&mut self, place: usize, first: Event)
        requires { slice_get self.old.events place ≡ Some first }
        ensures { self.new ≡ signalled self.old first.number }
    {
        self.whole();
        self.raise(place, first);
        if let Some(group) = first.group {
            self.signal_group(&group);
        }
    }

    /// Signals an event, as SignalEvent does (UEFI 2.10, section 7.1): the event itself, and then the others of its
    /// group in order of making. One that is signalled already stays so; else it is signalled, and with
    /// EVT_NOTIFY_SIGNAL its notification is queued. `Invalid` is for what is no event. It takes no memory.
    #[tactic(auto, unfolding(crate::specs::Calls::known))]
    pub fn signal(&mut self, event: u64) -> Result<(), EventRefusal>
        ensures answer { result ≡ known self.old event }
        ensures events { self.new ≡ after_signal result self.old event }
    {
        match self.find(event) {
            Some((place, found)) => {
                self.signal_at(place, found);
                Ok(())
            }
            None => Err(EventRefusal::Invalid),
        }
    }

    /// Signals the event of a number, and those of its group. A number of no event changes nothing.
    fn signal_known(&mut self, event: u64)
        ensures { self.new ≡ signalled self.old event }
    {
        if let Some((place, found)) = self.find(event) {
            self.signal_at(place, found);
        }
    }

    /// Signals events, one after another, each as `signal` does. A number of no event changes nothing. It takes no
    /// memory.
    #[tactic(auto, unfolding(crate::specs::Queue::signal_each))]
    pub fn signal_all(&mut self, events: &[u64])
        ensures { self.new ≡ signal_each events.now self.old }
    {
        for event in events {
            self.signal_known(*event);
        }
    }

    /// Takes the event at a place away, and its notification from the queue.
    fn remove(&mut self, place: usize, event: Event)
        requires { slice_get self.old.events place ≡ Some event }
        ensures { self.new ≡ without self.old event.number }
    {
        unqueue(&mut self.queue, event.number);
        self.events.remove(place);
        self.top = greatest(self.queue.as_slice());
        self.due = least_due(self.events.as_slice());
    }

    /// Closes an event, as CloseEvent does (UEFI 2.10, section 7.1): it is no event any more, and its notification is
    /// taken from the queue. `Invalid` is for what is no event. It takes no memory.
    #[tactic(auto, unfolding(crate::specs::Calls::known))]
    pub fn close(&mut self, event: u64) -> Result<(), EventRefusal>
        ensures answer { result ≡ known self.old event }
        ensures events { self.new ≡ after_close result self.old event }
    {
        match self.find(event) {
            Some((place, found)) => {
                self.remove(place, found);
                Ok(())
            }
            None => Err(EventRefusal::Invalid),
        }
    }

    /// Sets the timer of the event at a place.
    fn set(&mut self, place: usize, event: Event, timer: Timer)
        requires { slice_get self.old.events place ≡ Some event }
        ensures { self.new ≡ with_timer self.old event.number timer }
    {
        self.events[place] = Event { timer, ..event };
        self.due = least_due(self.events.as_slice());
    }

    /// Sets the timer of an event, as SetTimer does (UEFI 2.10, section 7.1). Kind 0 cancels, kind 1 is periodic and
    /// kind 2 relative; both are due `time` units of 100 ns after `present`, at most at 2^64 - 1. `Invalid` is for what
    /// is no event, an event without EVT_TIMER, and a kind above 2. It takes no memory.
    #[tactic(auto, unfolding(crate::specs::Calls::setting))]
    pub fn set_timer(
        &mut self,
        event: u64,
        kind: u32,
        time: u64,
        present: u64,
    ) -> Result<(), EventRefusal>
        ensures answer { result ≡ setting self.old event kind }
        ensures events { self.new ≡ after_setting result self.old event kind time present }
    {
        let Some((place, found)) = self.find(event) else {
            return Err(EventRefusal::Invalid);
        };
        if !is_timer(found.kind) || kind > 2 {
            return Err(EventRefusal::Invalid);
        }
        self.set(place, found, Timer::of(kind, time, present));
        Ok(())
    }

    /// Makes the event at a place one that isn't signalled. It isn't of a type that is notified by signals.
    fn lower(&mut self, place: usize, event: Event)
        requires event { slice_get self.old.events place ≡ Some event }
        requires kind { is_signal event.kind ≡ false }
        ensures { self.new ≡ lower_one self.old event.number }
    {
        self.events[place] = Event {
            signalled: false,
            ..event
        };
    }

    /// Puts the notification of the event at a place into the queue, where it isn't there. It isn't of a type that is
    /// notified by signals.
    fn queue(&mut self, place: usize, event: Event)
        requires event { slice_get self.old.events place ≡ Some event }
        requires wait { is_wait event.kind ≡ true }
        requires kind { is_signal event.kind ≡ false }
        ensures { self.new ≡ queue_one self.old event.number }
    {
        if queued_at(self.queue.as_slice(), event.number).is_none() {
            self.queue.push_reserved(event.entry());
            self.top = self.top.max(event.tpl);
        }
    }

    /// Looks at an event, as CheckEvent does at first (UEFI 2.10, section 7.1). `Signalled` clears the signal.
    /// `Queued` comes for an event with EVT_NOTIFY_WAIT that isn't signalled: its notification stands in the queue
    /// now. `Invalid` is for what is no event, and for one with EVT_NOTIFY_SIGNAL. It takes no memory.
    #[tactic(auto, unfolding(crate::specs::Calls::checking))]
    pub fn check(&mut self, event: u64) -> Result<Check, EventRefusal>
        ensures answer { result ≡ checking self.old event }
        ensures events { self.new ≡ after_check result self.old event }
    {
        let Some((place, found)) = self.find(event) else {
            return Err(EventRefusal::Invalid);
        };
        if is_signal(found.kind) {
            return Err(EventRefusal::Invalid);
        }
        if found.signalled {
            self.lower(place, found);
            return Ok(Check::Signalled);
        }
        if is_wait(found.kind) {
            self.queue(place, found);
            return Ok(Check::Queued);
        }
        Ok(Check::Quiet)
    }

    /// Whether a number is that of a live event.
    pub fn is_event(&self, event: u64) -> bool
        ensures { result ≡ is_event self.now.events event }
    {
        self.find(event).is_some()
    }

    /// Clears an event's signal, and answers whether it had one. False also for what is no event, and for an event
    /// with EVT_NOTIFY_SIGNAL, whose signal stays. It takes no memory.
    #[tactic(auto, unfolding(crate::specs::Calls::taking))]
    pub fn take_signal(&mut self, event: u64) -> bool
        ensures answer { result ≡ taking self.old event }
        ensures events { self.new ≡ after_taking result self.old event }
    {
        let Some((place, found)) = self.find(event) else {
            return false;
        };
        if !found.signalled || is_signal(found.kind) {
            return false;
        }
        self.lower(place, found);
        true
    }

    /// Signals the event of each timer that is due, in order of making.
    fn signal_due(&mut self, present: u64)
        ensures { self.new ≡ signal_each (due_events present self.old.events) self.old }
    {
        for place in 0..self.count() {
            let event = self.at(place);
            if event.is_due(present) {
                self.signal_at(place, event);
            }
        }
    }

    /// Rewinds the timers that are due, at a tick.
    fn rewind(&mut self, present: u64)
        requires { self.old.last_tick ≤ present }
        ensures { self.new ≡ all_rewound present self.old }
    {
        rewind_all(self.events.as_mut_slice(), present);
        self.ticks.pass(present);
        self.due = least_due(self.events.as_slice());
    }

    /// A tick at which no timer is due.
    fn pass(&mut self, present: u64)
        requires { self.old.last_tick ≤ present }
        ensures { self.new ≡ record self.old { last_tick = present } }
    {
        self.ticks.pass(present);
    }

    /// Whether a running timer is due at most at a moment.
    fn has_due(&self, present: u64) -> bool
        ensures { result ≡ is_up_to present (least_due self.now.events) }
    {
        match self.due {
            Some(due) => due <= present,
            None => false,
        }
    }

    /// Whether `tick` would make a tick: whether a tick moment lies above the last tick and at most at `present`.
    #[tactic(auto, unfolding(crate::specs::Timers::has_moment))]
    pub fn has_tick(&self, present: u64) -> bool
        ensures { result ≡ has_moment self.now present }
    {
        self.ticks.has(present)
    }

    /// The moment of the next tick: the least tick moment above the last tick. None above 2^64 - 1.
    pub fn tick_moment(&self) -> Option<u64>
        ensures { result ≡ reached (moment_ahead self.now) }
    {
        self.ticks.ahead()
    }

    /// A tick at a moment.
    fn make_tick(&mut self, present: u64)
        requires { self.old.last_tick ≤ present }
        ensures { self.new ≡ ticked self.old present }
    {
        if self.has_due(present) {
            self.signal_due(present);
            self.rewind(present);
        } else {
            self.pass(present);
        }
    }

    /// A tick, where a tick moment lies above the last tick and at most at `present`; else false, and nothing changes.
    /// Each running timer that is due at most at `present` signals its event, in order of making. A relative timer then
    /// stops, and a periodic one is due its period after `present`. It takes no memory.
    #[tactic(auto, unfolding(crate::specs::Timers::after_tick))]
    pub fn tick(&mut self, present: u64) -> bool
        ensures answer { result ≡ has_moment self.old present }
        ensures events { self.new ≡ after_tick self.old present }
    {
        if !self.has_tick(present) {
            return false;
        }
        self.make_tick(present);
        true
    }

    /// Whether `next` would give a notification: whether one of a level above stands in the queue.
    pub fn has_next(&self, tpl: u8) -> bool
        ensures { result ≡ is_some (next_entry self.now.queue tpl) }
    {
        u64::from(tpl) < self.top
    }

    /// Takes the notification that comes next from the queue: the earliest of the greatest level, where that is above
    /// a level. Its event is no longer signalled. It takes no memory.
    #[tactic(auto, unfolding(crate::specs::Queue::notified, crate::specs::Queue::after_next))]
    pub fn next(&mut self, tpl: u8) -> Option<Notify>
        ensures answer { result ≡ notified self.old.events (next_entry self.old.queue tpl) }
        ensures below { IfSome result (λ notify. notify.tpl ≤ 30) }
        ensures events { self.new ≡ after_next self.old (next_entry self.old.queue tpl) }
        ensures kept { IfNone result (self.new ≡ self.old) }
    {
        let Some((queued, entry)) = next_place(self.queue.as_slice(), self.top, u64::from(tpl))
        else {
            return None;
        };
        let Some((place, event)) = self.find(entry.event) else {
            unreachable!();
        };
        self.queue.remove(queued);
        self.top = greatest(self.queue.as_slice());
        self.events[place] = Event {
            signalled: false,
            ..event
        };
        Some(Notify {
            event: entry.event,
            function: event.function,
            context: event.context,
            tpl: entry.tpl as u8,
        })
    }

    /// The least tick moment above the last tick that is at least `present` and at which a timer is due. None exactly
    /// where no timer runs or that moment is above 2^64 - 1.
    #[tactic(auto, unfolding(crate::specs::Timers::next_moment))]
    pub fn next_moment(&self, present: u64) -> Option<u64>
        ensures { result ≡ next_moment self.now present }
    {
        match self.due {
            Some(due) => self.ticks.from(present.max(due)),
            None => None,
        }
    }

    /// Stops every timer. It takes no memory.
    #[tactic(auto, unfolding(crate::specs::Timers::all_stopped))]
    pub fn stop_timers(&mut self)
        ensures { self.new ≡ all_stopped self.old }
    {
        stop_all(self.events.as_mut_slice());
        self.due = None;
    }

    /// Drops the queue and all events but those of a group that have EVT_NOTIFY_SIGNAL. It gives the functions of
    /// these, by falling level and then in order of making. Where memory is wanting nothing has changed.
    #[tactic(auto, unfolding(crate::specs::Queue::group_kept))]
    pub fn keep_group(&mut self, group: &Guid) -> Result<Vec<Notify>, AllocError>
        ensures answer { IfOk result (λ calls. calls.items ≡ kept_calls self.old.events group.now) }
        ensures few { IfOk result (λ calls. length calls.items ≤ 256) }
        ensures ok { OnOk result (self.new ≡ group_kept self.old group.now) }
        ensures err { OnErr result (self.new ≡ self.old) }
    {
        let calls = falling_calls(*self.events.allocator(), self.events.as_slice(), group)?;
        keep(&mut self.events, group);
        self.queue.clear();
        self.top = 0;
        self.due = least_due(self.events.as_slice());
        Ok(calls)
    }
}

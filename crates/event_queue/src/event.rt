//! Events, and their notifications.
#![tactic(auto)]

ghost use Rattle.std.specs.Prelude.{◌≡◌};
ghost use Rattle.event_queue.specs.Queue.{in_group, entry_of, is_kept};
ghost use Rattle.event_queue.specs.Timers.{is_due, stopped, rewound};

use crate::kind::is_signal;
use crate::timer::Timer;
use uh_base::{Guid, Numbered};

/// A live event.
#[derive(Clone, Copy, Debug, PartialEq, Eq, Drop)]
pub struct Event {
    /// Its number: 16k + 8 for the k-th event that was made, from 1 on.
    pub number: u64,
    /// Its type, by UEFI 2.10, section 7.1, CreateEvent.
    pub kind: u32,
    /// The task priority level of its notifications, from 5 to 30 where it has any.
    pub tpl: u64,
    /// The address of the function that is notified.
    pub function: u64,
    /// What that function is given.
    pub context: u64,
    /// Its event group.
    pub group: Option<Guid>,
    /// Whether it is signalled.
    pub signalled: bool,
    /// Its timer.
    pub timer: Timer,
}

/// A notification that stands in the queue.
#[derive(Clone, Copy, Debug, PartialEq, Eq, Drop)]
pub struct Entry {
    /// The event's number.
    pub event: u64,
    /// The task priority level, from 5 to 30.
    pub tpl: u64,
}

/// A function to call for an event.
#[derive(Clone, Copy, Debug, PartialEq, Eq, Drop)]
pub struct Notify {
    /// The event's number.
    pub event: u64,
    /// The function's address.
    pub function: u64,
    /// What it is given.
    pub context: u64,
    /// The task priority level that it is called at, from 5 to 30.
    pub tpl: u8,
}

impl Numbered for Event {
    ghost number = { λ event. event.number };

    fn number(&self) -> u64 {
        self.number
    }
}

impl Event {
    /// Whether it is of a group.
    pub fn is_in(&self, group: &Guid) -> bool
        ensures { result ≡ in_group group.now self.now }
    {
        match &self.group {
            Some(own) => own.is_same(group),
            None => false,
        }
    }

    /// Whether it outlives boot services: it is of the group, and is notified by signals.
    pub fn is_kept(&self, group: &Guid) -> bool
        ensures { result ≡ is_kept group.now self.now }
    {
        self.is_in(group) && is_signal(self.kind)
    }

    /// Its notification.
    pub fn entry(&self) -> Entry
        ensures { result ≡ entry_of self.now }
    {
        Entry {
            event: self.number,
            tpl: self.tpl,
        }
    }

    /// Whether its timer is running and due at most at a moment.
    pub fn is_due(&self, present: u64) -> bool
        ensures { result ≡ is_due present self.now }
    {
        match self.timer.due() {
            Some(due) => due <= present,
            None => false,
        }
    }

    /// The event with its timer stopped.
    pub fn stopped(&self) -> Event
        ensures { result ≡ stopped self.now }
    {
        Event {
            timer: Timer::Stopped,
            ..*self
        }
    }

    /// The event after a tick at a moment: a timer that is due is rewound.
    pub fn rewound(&self, present: u64) -> Event
        ensures { result ≡ rewound present self.now }
    {
        if self.is_due(present) {
            Event {
                timer: self.timer.rewound(present),
                ..*self
            }
        } else {
            *self
        }
    }
}

//! The timers of a list of events.
#![tactic(auto)]

ghost use Rattle.std.specs.Prelude.{◌≡◌, map};
ghost use Rattle.event_queue.specs.Timers.{stopped, rewound, least_due};

use crate::event::Event;
use crate::ticks::lesser;

/// Stops every timer.
pub fn stop_all(events: &mut [Event])
    ensures { events.new ≡ map stopped events.old }
{
    for event in events {
        *event = event.stopped();
    }
}

/// Rewinds the timers that are due, at a tick.
pub fn rewind_all(events: &mut [Event], present: u64)
    ensures { events.new ≡ map (rewound present) events.old }
{
    for event in events {
        *event = event.rewound(present);
    }
}

/// The least moment at which a running timer is due, None where none runs.
pub fn least_due(events: &[Event]) -> Option<u64>
    ensures { result ≡ least_due events.now }
{
    let mut least = None;
    for event in events {
        least = lesser(least, event.timer.due());
    }
    least
}

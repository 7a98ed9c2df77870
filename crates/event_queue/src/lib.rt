//! Events, timers, and the queue of notifications: UEFI 2.10, section 7.1.
#![tactic(auto)]

mod event;
mod events;
mod kind;
mod laws;
mod queue;
mod refusal;
mod ticks;
mod timer;
mod timers;

pub use event::{Entry, Event, Notify};
pub use events::Events;
pub use kind::{EXIT_GROUP, VIRTUAL_GROUP};
pub use laws::{
    first_is_least, idle_ticks, next_is_above, next_is_greatest, next_moment_is_due,
    numbers_are_new, queued_once, signals_are_calls, ticks_at_moments, ticks_once,
};
pub use refusal::{Check, EventRefusal};
pub use timer::Timer;

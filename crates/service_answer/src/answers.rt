//! The answers that a service makes.
#![tactic(auto)]

ghost use Rattle.std.specs.Prelude.{◌≡◌};
ghost use Rattle.service_answer.specs.Answers.{gives, announces, lacks_frames};

use crate::served::Served;
use std::alloc::Global;

/// A value for the caller, and no event. It takes no memory.
pub fn gives(alloc: Global, value: u64) -> Served
    ensures { result ≡ gives value }
{
    announces(value, Vec::new(alloc))
}

/// A value for the caller, and events that are to be signalled, in order.
pub fn announces(value: u64, events: Vec<u64>) -> Served
    ensures { result ≡ announces value events.items }
{
    Served {
        value,
        frames: false,
        events,
    }
}

/// It would touch more than 65,536 pages of memory. It takes no memory.
pub fn lacks_frames(alloc: Global) -> Served
    ensures { result ≡ lacks_frames }
{
    Served {
        value: 0,
        frames: true,
        events: Vec::new(alloc),
    }
}

//! What services answer.
#![tactic(auto)]

ghost use Rattle.std.specs.Prelude.{◌≡◌};
ghost use Rattle.service_answer.specs.Answers.{gives, lacks_frames};

use service_answer::Served;
use std::alloc::Global;

/// A value for the caller, and no event.
pub(crate) fn gives(alloc: Global, value: u64) -> Served
    ensures { result ≡ gives value }
{
    Served {
        value,
        frames: false,
        events: Vec::new(alloc),
    }
}

/// The answer of a call that would touch too many pages.
pub(crate) fn lacks_frames(alloc: Global) -> Served
    ensures { result ≡ lacks_frames }
{
    Served {
        value: 0,
        frames: true,
        events: Vec::new(alloc),
    }
}

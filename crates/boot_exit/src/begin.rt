//! How the end of boot services begins.
#![tactic(auto)]

ghost use Rattle.std.specs.Prelude.{◌≡◌, OnErr};
ghost use Rattle.boot_exit.specs.Exits.{exit_begun, after_begin};

use crate::refusal::ExitRefusal;
use event_queue::{EXIT_GROUP, Events};
use page_alloc::PageMap;

/// Begins the end of boot services, which an image asks for with the key of the memory map that it has. `known` says that
/// its handle is a loaded image's. All timers stop, and each event of the group of the end of boot services is signalled;
/// their notifications come before `finish_exit`. After a refusal nothing has changed.
#[tactic(auto, unfolding(crate::specs::Exits::exit_begun))]
pub fn begin_exit(
    known: bool,
    map: &PageMap,
    events: &mut Events,
    key: u64,
) -> Result<(), ExitRefusal>
    ensures answer { result ≡ exit_begun known map.now.key key }
    ensures events { events.new ≡ after_begin result events.old }
    ensures kept { OnErr result (events.new ≡ events.old) }
{
    if !known {
        return Err(ExitRefusal::Unknown);
    }
    let present = map.key();
    if key != present {
        return Err(ExitRefusal::Key(present));
    }
    events.stop_timers();
    events.signal_group(&EXIT_GROUP);
    Ok(())
}

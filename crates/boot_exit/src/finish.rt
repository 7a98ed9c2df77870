//! How the end of boot services is finished.
#![tactic(auto)]

ghost use Rattle.std.specs.Prelude.{◌≡◌, ◌≤◌, true, IfOk, OnErr, length};
ghost use Rattle.guest_memory.specs.Pages.{page_of, is_touched, rights_at};
ghost use Rattle.system_tables.specs.Memory.{IsRamOf};
ghost use Rattle.boot_exit.specs.Exits.{exit_finished};

use event_queue::{Events, Notify, VIRTUAL_GROUP};
use guest_memory::GuestMemory;
use page_alloc::Layout;
use std::alloc::AllocError;
use system_tables::clear_boot;

/// Finishes the end of boot services: the system table loses its fields for boot services and the console, and all events
/// go but those that are notified by a signal of the virtual address change. It gives the functions of these, by falling
/// task priority level and then in order of making. `Err` is want of host memory, and nothing has changed then.
#[tactic(auto, unfolding(crate::specs::Exits::exit_finished))]
pub fn finish_exit(
    layout: &Layout,
    memory: &mut GuestMemory,
    events: &mut Events,
) -> Result<Vec<Notify>, AllocError>
    requires ram { IsRamOf layout.now memory.old }
    requires touched { is_touched memory.old (page_of memory.old layout.now.system) ≡ true }
    ensures ok { IfOk result (λ calls. record { calls = calls.items; memory = memory.new; events = events.new } ≡ exit_finished layout.now memory.old events.old) }
    ensures few { IfOk result (λ calls. length calls.items ≤ 256) }
    ensures same { OnErr result (memory.new ≡ memory.old) }
    ensures kept { OnErr result (events.new ≡ events.old) }
    ensures touched { is_touched memory.new (page_of memory.new layout.now.system) ≡ true }
    ensures rights { rights_at memory.new ≡ rights_at memory.old }
    ensures base { memory.new.base ≡ memory.old.base }
    ensures pages { memory.new.pages ≡ memory.old.pages }
{
    let calls = events.keep_group(&VIRTUAL_GROUP)?;
    clear_boot(layout, memory);
    Ok(calls)
}

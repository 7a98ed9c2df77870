//! Room for what the end of boot services writes.
#![tactic(auto)]

ghost use Rattle.std.specs.Prelude.{◌≡◌, true, OnOk};
ghost use Rattle.guest_memory.specs.Pages.{page_of, is_touched, bytes_of, rights_at};
ghost use Rattle.system_tables.specs.Memory.{IsRamOf};
ghost use Rattle.boot_exit.specs.Exits.{RoomGives};

use guest_memory::{GuestMemory, PutEnd};
use page_alloc::Layout;

/// Touches the page of the system table, which `finish_exit` writes. `Frames` says that no frame is left for it.
pub fn make_room(layout: &Layout, memory: &mut GuestMemory) -> Result<(), PutEnd>
    requires { IsRamOf layout.now memory.old }
    ensures gives { RoomGives result layout.now memory.old memory.new }
    ensures touched { OnOk result (is_touched memory.new (page_of memory.new layout.now.system) ≡ true) }
    ensures bytes { bytes_of memory.new ≡ bytes_of memory.old }
    ensures rights { rights_at memory.new ≡ rights_at memory.old }
    ensures base { memory.new.base ≡ memory.old.base }
    ensures pages { memory.new.pages ≡ memory.old.pages }
{
    let page = (layout.system - layout.base) / 4096;
    memory.reserve(page as u32, 1)
}

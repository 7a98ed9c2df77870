//! The machine at opening.
ghost use Rattle.std.specs.Prelude.{◌≡◌, OnOk, IfOk};
ghost use Rattle.page_alloc.specs.Layout.{IsRam, IsLayout};
ghost use Rattle.system_tables.specs.Memory.{IsRamOf};
ghost use Rattle.virtual_map.specs.States.{Belongs};
ghost use Rattle.firmware_core.specs.Parts.{Spread};
ghost use Rattle.firmware_core.specs.Opening.{runtime_at, with_firmware, with_console};

use address_view::View;
use guest_memory::{GuestMemory, Rights};
use page_alloc::{Layout, PageMap, opening_covers_ram};
use protocol_db::{ProtocolRefusal, Protocols};
use std::alloc::{AllocError, Global};
use system_tables::build_tables;
use uh_base::Guid;
use virtual_map::RuntimeState;

/// The right to read alone.
const READABLE: Rights = Rights {
    read: true,
    write: false,
    exec: false,
};

/// EFI_SIMPLE_TEXT_OUTPUT_PROTOCOL_GUID (UEFI 2.10, 12.4.1).
const TEXT_OUTPUT_PROTOCOL: Guid = Guid {
    d1: 0x387477c2,
    d2: 0x69c7,
    d3: 0x11d2,
    d4: 0x8e3900a0c969723b,
};

/// A law: where the places of a layout lie.
#[tactic(auto, using(crate::proofs::LayoutLemmas::spreads))]
pub(crate) fn layout_spreads(layout: &Layout)
    requires { IsLayout layout.now }
    ensures { Spread layout.now }
{
    let _ = layout;
}

/// Builds the tables, touches the pages of the operating system's arguments and the slot page, and leaves the slot
/// page readable alone. In RAM of which nothing is touched there are frames for these 19 pages, so only memory can
/// be wanting.
fn put_firmware(layout: &Layout, memory: &mut GuestMemory) -> Result<(), AllocError>
    requires { IsRamOf layout.now memory.old }
    ensures gives { OnOk result (memory.new ≡ with_firmware layout.now memory.old) }
    ensures base { memory.new.base ≡ memory.old.base }
    ensures pages { memory.new.pages ≡ memory.old.pages }
{
    layout_spreads(layout);
    let args = ((layout.os_args - layout.base) / 4096) as u32;
    let slots = ((layout.slots - layout.base) / 4096) as u32;
    match build_tables(layout, memory) {
        Ok(()) => {}
        Err(_) => return Err(AllocError),
    }
    match memory.reserve(args, 16) {
        Ok(()) => {}
        Err(_) => return Err(AllocError),
    }
    match memory.reserve(slots, 1) {
        Ok(()) => {}
        Err(_) => return Err(AllocError),
    }
    memory.set_rights(slots, 1, READABLE);
    Ok(())
}

/// RAM, its use and its view at opening.
#[tactic(auto, using(crate::proofs::LayoutLemmas::ram_of))]
pub(crate) fn runtime_at(alloc: Global, base: u64, pages: u32) -> Result<RuntimeState, AllocError>
    requires { IsRam base pages }
    ensures gives { IfOk result (λ runtime. runtime ≡ runtime_at base pages) }
    ensures belongs { IfOk result (λ runtime. Belongs runtime) }
{
    let layout = Layout::at(base, pages);
    let mut memory = GuestMemory::new(alloc, base, pages)?;
    put_firmware(&layout, &mut memory)?;
    opening_covers_ram();
    let map = PageMap::new(alloc, &layout)?;
    let view = View::identity(alloc, base, u64::from(pages) * 4096)?;
    Ok(RuntimeState {
        layout,
        memory,
        pages: map,
        view,
        descriptors: Vec::new(alloc),
        kept: Vec::new(alloc),
        notifies: Vec::new(alloc),
        gone: false,
        mapped: false,
        os_virtual: layout.os_stack,
        room: Vec::new(alloc),
    })
}

/// The handle of the console, alone.
#[tactic(auto, unfolding(protocol_db::specs::Calls::installation, handle_db::specs::Calls::installation))]
pub(crate) fn with_console(alloc: Global, layout: &Layout) -> Result<Protocols, AllocError>
    requires { IsLayout layout.now }
    ensures { IfOk result (λ protocols. protocols ≡ with_console layout.now) }
{
    layout_spreads(layout);
    let mut protocols = Protocols::new(alloc);
    match protocols.install(None, TEXT_OUTPUT_PROTOCOL, layout.boot + 0x200) {
        Ok(_) => Ok(protocols),
        Err(_) => Err(AllocError),
    }
}

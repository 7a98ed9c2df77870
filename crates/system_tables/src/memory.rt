//! The tables in guest memory.
#![tactic(auto)]

ghost use Rattle.std.specs.Prelude.{◌≡◌, ℕ, ◌+◌, ◌≤◌, length, true, OnOk};
ghost use Rattle.guest_memory.specs.Pages.{InPage, page_of, is_touched, bytes_of, rights_at};
ghost use Rattle.guest_memory.specs.Runs.{with_bytes};
ghost use Rattle.guest_memory.specs.Changes.{put_part};
ghost use Rattle.system_tables.specs.Tables.{zeros, system_page, boot_page, boot_cleared, moved};
ghost use Rattle.system_tables.specs.Memory.{IsRamOf, RoomGives, BuildGives, page_bytes};

use crate::tables::{clear_fields, move_fields, write_boot_page, write_system_page};
use guest_memory::{GuestMemory, PutEnd};
use page_alloc::Layout;

/// The bytes of a page.
const PAGE: usize = 4096;

/// Puts the bytes of a touched page.
#[tactic(auto, using(crate::proofs::MemoryLemmas::still_touched))]
fn put_page(memory: &mut GuestMemory, at: u64, page: &[u8])
    requires inside { InPage memory.old at 4096 }
    requires long { length page.now ≡ 4096 }
    requires touched { is_touched memory.old (page_of memory.old at) ≡ true }
    ensures after { memory.new ≡ put_part memory.old at page.now }
    ensures bytes { bytes_of memory.new ≡ with_bytes (bytes_of memory.old) at page.now }
    ensures touched { (page : ℕ) → is_touched memory.old page ≡ true → is_touched memory.new page ≡ true }
    ensures rights { rights_at memory.new ≡ rights_at memory.old }
    ensures base { memory.new.base ≡ memory.old.base }
    ensures pages { memory.new.pages ≡ memory.old.pages }
{
    match memory.put_part(at, page) {
        Ok(()) => {}
        Err(_) => unreachable!(),
    }
}

/// Touches the boot page and the system page behind it.
fn make_room(layout: &Layout, memory: &mut GuestMemory) -> Result<(), PutEnd>
    requires { IsRamOf layout.now memory.old }
    ensures gives { RoomGives result layout.now memory.old memory.new }
    ensures bytes { bytes_of memory.new ≡ bytes_of memory.old }
    ensures rights { rights_at memory.new ≡ rights_at memory.old }
    ensures base { memory.new.base ≡ memory.old.base }
    ensures pages { memory.new.pages ≡ memory.old.pages }
{
    let first = (layout.boot - layout.base) / PAGE as u64;
    memory.reserve(first as u32, 2)
}

/// A page of zeros.
#[tactic(auto, unfolding(crate::specs::Tables::zeros))]
fn blank_page() -> [u8; PAGE]
    ensures { result ≡ zeros }
{
    [0; PAGE]
}

/// Writes all bytes of the system page and of the boot page: the system table, the runtime services table and
/// the vendor's name, and the boot services table and the console protocol with its mode, with their CRCs. UEFI
/// 2.10, 4.2 to 4.5 and 12.4.
pub fn build_tables(layout: &Layout, memory: &mut GuestMemory) -> Result<(), PutEnd>
    requires { IsRamOf layout.now memory.old }
    ensures gives { BuildGives result layout.now memory.old memory.new }
    ensures touched { OnOk result (is_touched memory.new (page_of memory.new layout.now.system) ≡ true) }
    ensures bytes { OnOk result (bytes_of memory.new ≡ with_bytes (with_bytes (bytes_of memory.old) layout.now.boot (boot_page layout.now)) layout.now.system (system_page layout.now)) }
    ensures rights { rights_at memory.new ≡ rights_at memory.old }
    ensures base { memory.new.base ≡ memory.old.base }
    ensures pages { memory.new.pages ≡ memory.old.pages }
{
    memory.whole();
    make_room(layout, memory)?;
    let mut page = blank_page();
    write_boot_page(&mut page, layout);
    put_page(memory, layout.boot, &page);
    let mut page = blank_page();
    write_system_page(&mut page, layout);
    put_page(memory, layout.system, &page);
    Ok(())
}

/// Zeroes the console's fields and the boot services pointer of the system table, and writes its new CRC: UEFI
/// 2.10, 7.4.6.
pub fn clear_boot(layout: &Layout, memory: &mut GuestMemory)
    requires ram { IsRamOf layout.now memory.old }
    requires touched { is_touched memory.old (page_of memory.old layout.now.system) ≡ true }
    ensures touched { is_touched memory.new (page_of memory.new layout.now.system) ≡ true }
    ensures after { memory.new ≡ put_part memory.old layout.now.system (boot_cleared (page_bytes memory.old layout.now.system)) }
    ensures bytes { bytes_of memory.new ≡ with_bytes (bytes_of memory.old) layout.now.system (boot_cleared (page_bytes memory.old layout.now.system)) }
    ensures rights { rights_at memory.new ≡ rights_at memory.old }
    ensures base { memory.new.base ≡ memory.old.base }
    ensures pages { memory.new.pages ≡ memory.old.pages }
{
    let mut page = [0; PAGE];
    memory.read_part(layout.system, &mut page);
    clear_fields(&mut page);
    put_page(memory, layout.system, &page);
}

/// Turns the vendor pointer, the runtime services pointer and the pointers of the runtime services to where the
/// system page and the slot page are seen from now on, and writes both CRCs: UEFI 2.10, 8.4. Addresses are
/// numbers modulo 2^64.
pub fn move_tables(layout: &Layout, memory: &mut GuestMemory, system_virt: u64, slots_virt: u64)
    requires ram { IsRamOf layout.now memory.old }
    requires touched { is_touched memory.old (page_of memory.old layout.now.system) ≡ true }
    ensures touched { is_touched memory.new (page_of memory.new layout.now.system) ≡ true }
    ensures after { memory.new ≡ put_part memory.old layout.now.system (moved system_virt slots_virt (page_bytes memory.old layout.now.system)) }
    ensures bytes { bytes_of memory.new ≡ with_bytes (bytes_of memory.old) layout.now.system (moved system_virt slots_virt (page_bytes memory.old layout.now.system)) }
    ensures rights { rights_at memory.new ≡ rights_at memory.old }
    ensures base { memory.new.base ≡ memory.old.base }
    ensures pages { memory.new.pages ≡ memory.old.pages }
{
    let mut page = [0; PAGE];
    memory.read_part(layout.system, &mut page);
    move_fields(&mut page, system_virt, slots_virt);
    put_page(memory, layout.system, &page);
}

//! The bytes of the tables.
#![tactic(auto)]

ghost use Rattle.std.specs.Prelude.{◌≡◌, ◌+◌, ◌*◌, ◌≤◌, length};
ghost use Rattle.system_tables.specs.Fields.{slot_pointers, with_fields};
ghost use Rattle.system_tables.specs.Tables.{header, system_table, runtime_table, units_from, vendor_text, boot_table, console, mode, zeros, system_page, boot_page, boot_cleared, moved_fields, moved};

use crate::fields::{
    Field, byte, half, pointer, word, write_crc, write_field, write_fields, write_slots,
};
use crate::offsets::*;
use page_alloc::Layout;

/// The fields of a header, but for the CRC.
const fn header(at: usize, signature: u64, size: u64) -> [Field; 3]
    requires { at ≤ 4096 }
    ensures { result ≡ header at signature size }
{
    [
        pointer(at + HEADER_SIGNATURE, signature),
        word(at + HEADER_REVISION, REVISION),
        word(at + HEADER_SIZE, size),
    ]
}

#[tactic(auto, unfolding(crate::specs::Tables::system_table, crate::specs::Fields::with_fields, crate::specs::Fields::all_fit))]
fn write_system_table(page: &mut [u8], layout: &Layout)
    requires { length page.old ≡ 4096 }
    ensures { page.new ≡ with_fields page.old (system_table layout.now) }
{
    let console = layout.boot.wrapping_add(CONSOLE as u64);
    write_fields(
        page,
        &header(
            SYSTEM_TABLE,
            SYSTEM_TABLE_SIGNATURE,
            SYSTEM_TABLE_SIZE as u64,
        ),
    );
    write_fields(
        page,
        &[
            pointer(
                FIRMWARE_VENDOR,
                layout.system.wrapping_add(VENDOR_TEXT as u64),
            ),
            word(FIRMWARE_REVISION, 1),
            pointer(CONSOLE_IN_HANDLE, 0),
            pointer(CON_IN, 0),
            pointer(CONSOLE_OUT_HANDLE, CONSOLE_HANDLE),
            pointer(CON_OUT, console),
            pointer(STANDARD_ERROR_HANDLE, CONSOLE_HANDLE),
            pointer(STD_ERR, console),
            pointer(
                RUNTIME_SERVICES,
                layout.system.wrapping_add(RUNTIME_TABLE as u64),
            ),
            pointer(BOOT_SERVICES, layout.boot.wrapping_add(BOOT_TABLE as u64)),
            pointer(NUMBER_OF_TABLE_ENTRIES, 0),
            pointer(CONFIGURATION_TABLE, 0),
        ],
    );
}

/// Writes the pointers of the runtime services.
fn write_runtime_slots(page: &mut [u8], slots: u64)
    requires { length page.old ≡ 4096 }
    ensures { page.new ≡ with_fields page.old (slot_pointers (0x100 + 24) slots 44 14) }
{
    write_slots(
        page,
        RUNTIME_TABLE + HEADER_END,
        slots,
        RUNTIME_SLOT,
        RUNTIME_COUNT,
    );
}

#[tactic(auto, unfolding(crate::specs::Tables::runtime_table, crate::specs::Fields::with_fields, crate::specs::Fields::all_fit))]
fn write_runtime_table(page: &mut [u8], slots: u64)
    requires { length page.old ≡ 4096 }
    ensures { page.new ≡ with_fields page.old (runtime_table slots) }
{
    write_fields(
        page,
        &header(
            RUNTIME_TABLE,
            RUNTIME_TABLE_SIGNATURE,
            RUNTIME_TABLE_SIZE as u64,
        ),
    );
    write_runtime_slots(page, slots);
}

/// Writes a text in 16-bit units.
#[tactic(auto, unfolding(crate::specs::Tables::units_from, crate::specs::Fields::with_fields))]
fn write_units(page: &mut [u8], at: usize, text: &[u8])
    requires long { length page.old ≡ 4096 }
    requires inside { at + 2 * length text.now ≤ 4096 }
    ensures { page.new ≡ with_fields page.old (units_from at text.now) }
{
    match text {
        [] => {}
        [code, rest @ ..] => {
            write_field(page, half(at, u64::from(*code)));
            write_units(page, at + 2, rest);
        }
    }
}

#[tactic(auto, unfolding(crate::specs::Tables::boot_table, crate::specs::Fields::with_fields, crate::specs::Fields::all_fit), using(crate::proofs::FieldLemmas::fields_append))]
fn write_boot_table(page: &mut [u8], slots: u64)
    requires { length page.old ≡ 4096 }
    ensures { page.new ≡ with_fields page.old (boot_table slots) }
{
    write_fields(
        page,
        &header(BOOT_TABLE, BOOT_TABLE_SIGNATURE, BOOT_TABLE_SIZE as u64),
    );
    write_slots(page, BOOT_TABLE + HEADER_END, slots, 0, BOOT_COUNT);
    write_field(page, pointer(BOOT_RESERVED, 0));
    write_slots(page, LATER_BOOT, slots, LATER_BOOT_SLOT, LATER_BOOT_COUNT);
}

#[tactic(auto, unfolding(crate::specs::Tables::console, crate::specs::Fields::with_fields), using(crate::proofs::FieldLemmas::fields_append))]
fn write_console(page: &mut [u8], layout: &Layout)
    requires { length page.old ≡ 4096 }
    ensures { page.new ≡ with_fields page.old (console layout.now) }
{
    write_slots(page, CONSOLE, layout.slots, CONSOLE_SLOT, CONSOLE_COUNT);
    write_field(
        page,
        pointer(
            CONSOLE + CONSOLE_MODE,
            layout.boot.wrapping_add(MODE as u64),
        ),
    );
}

#[tactic(auto, unfolding(crate::specs::Tables::mode, crate::specs::Fields::all_fit))]
fn write_mode(page: &mut [u8])
    requires { length page.old ≡ 4096 }
    ensures { page.new ≡ with_fields page.old mode }
{
    write_fields(
        page,
        &[
            word(MODE + MAX_MODE, 1),
            word(MODE + CURRENT_MODE, 0),
            word(MODE + ATTRIBUTE, 7),
            word(MODE + CURSOR_COLUMN, 0),
            word(MODE + CURSOR_ROW, 0),
            byte(MODE + CURSOR_VISIBLE, 0),
        ],
    );
}

/// Makes a page of zeros the system page.
#[tactic(auto, unfolding(crate::specs::Tables::system_page), using(crate::proofs::FieldLemmas::fields_append))]
pub(crate) fn write_system_page(page: &mut [u8], layout: &Layout)
    requires long { length page.old ≡ 4096 }
    requires zeros { page.old ≡ zeros }
    ensures { page.new ≡ system_page layout.now }
{
    write_system_table(page, layout);
    write_runtime_table(page, layout.slots);
    write_units(page, VENDOR_TEXT, b"UEFIHOST");
    write_crc(page, SYSTEM_TABLE, SYSTEM_TABLE_SIZE);
    write_crc(page, RUNTIME_TABLE, RUNTIME_TABLE_SIZE);
}

/// Makes a page of zeros the boot page.
#[tactic(auto, unfolding(crate::specs::Tables::boot_page), using(crate::proofs::FieldLemmas::fields_append))]
pub(crate) fn write_boot_page(page: &mut [u8], layout: &Layout)
    requires long { length page.old ≡ 4096 }
    requires zeros { page.old ≡ zeros }
    ensures { page.new ≡ boot_page layout.now }
{
    write_boot_table(page, layout.slots);
    write_console(page, layout);
    write_mode(page);
    write_crc(page, BOOT_TABLE, BOOT_TABLE_SIZE);
}

/// Zeroes the fields of the system page that end with boot services.
#[tactic(auto, unfolding(crate::specs::Tables::boot_cleared, crate::specs::Tables::boot_fields, crate::specs::Fields::all_fit))]
pub(crate) fn clear_fields(page: &mut [u8])
    requires { length page.old ≡ 4096 }
    ensures { page.new ≡ boot_cleared page.old }
{
    write_fields(
        page,
        &[
            pointer(CONSOLE_IN_HANDLE, 0),
            pointer(CON_IN, 0),
            pointer(CONSOLE_OUT_HANDLE, 0),
            pointer(CON_OUT, 0),
            pointer(STANDARD_ERROR_HANDLE, 0),
            pointer(STD_ERR, 0),
            pointer(BOOT_SERVICES, 0),
        ],
    );
    write_crc(page, SYSTEM_TABLE, SYSTEM_TABLE_SIZE);
}

/// Turns the pointers of the system page to other places.
#[tactic(auto, unfolding(crate::specs::Tables::moved, crate::specs::Tables::moved_fields, crate::specs::Fields::with_fields))]
pub(crate) fn move_fields(page: &mut [u8], system: u64, slots: u64)
    requires { length page.old ≡ 4096 }
    ensures { page.new ≡ moved system slots page.old }
{
    write_field(
        page,
        pointer(FIRMWARE_VENDOR, system.wrapping_add(VENDOR_TEXT as u64)),
    );
    write_field(
        page,
        pointer(RUNTIME_SERVICES, system.wrapping_add(RUNTIME_TABLE as u64)),
    );
    write_runtime_slots(page, slots);
    write_crc(page, SYSTEM_TABLE, SYSTEM_TABLE_SIZE);
    write_crc(page, RUNTIME_TABLE, RUNTIME_TABLE_SIZE);
}

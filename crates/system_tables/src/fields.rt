//! Numbers that are written over the bytes of a page.
#![tactic(auto)]

ghost use Rattle.std.specs.Prelude.{◌≡◌, ◌+◌, ◌*◌, ◌≤◌, length, true, IsTrue};
ghost use Rattle.system_tables.specs.Fields.{all_fit, fits, with_field, with_fields, with_crc, slot_pointers};

use crate::offsets::{HEADER_CRC32, SLOT_SIZE};
use uh_base::{crc32, write_number};

/// A number of so many bytes at an offset, the least byte first.
#[derive(Clone, Copy, Debug, PartialEq, Eq, Drop)]
pub struct Field {
    /// Its first byte.
    pub offset: usize,
    /// Its bytes, at most 8.
    pub width: usize,
    /// The number.
    pub value: u64,
}

/// A field of 8 bytes.
pub(crate) const fn pointer(offset: usize, value: u64) -> Field
    ensures { result ≡ record { offset = offset; width = 8; value = value } }
{
    Field {
        offset,
        width: 8,
        value,
    }
}

/// A field of 4 bytes.
pub(crate) const fn word(offset: usize, value: u64) -> Field
    ensures { result ≡ record { offset = offset; width = 4; value = value } }
{
    Field {
        offset,
        width: 4,
        value,
    }
}

/// A field of 2 bytes.
pub(crate) const fn half(offset: usize, value: u64) -> Field
    ensures { result ≡ record { offset = offset; width = 2; value = value } }
{
    Field {
        offset,
        width: 2,
        value,
    }
}

/// A field of 1 byte.
pub(crate) const fn byte(offset: usize, value: u64) -> Field
    ensures { result ≡ record { offset = offset; width = 1; value = value } }
{
    Field {
        offset,
        width: 1,
        value,
    }
}

/// Writes a field.
pub(crate) fn write_field(page: &mut [u8], field: Field)
    requires long { length page.old ≡ 4096 }
    requires fit { fits field ≡ true }
    ensures { page.new ≡ with_field page.old field }
{
    write_number(
        &mut page[field.offset..field.offset + field.width],
        field.value,
    );
}

/// Writes fields, one after the other.
pub(crate) fn write_fields(page: &mut [u8], fields: &[Field])
    requires long { length page.old ≡ 4096 }
    requires fit { all_fit fields.now ≡ true }
    ensures { page.new ≡ with_fields page.old fields.now }
{
    for field in fields {
        write_field(page, *field);
    }
}

/// Writes pointers to so many slots, the slot page being at an address.
pub(crate) fn write_slots(page: &mut [u8], at: usize, slots: u64, first: u64, count: usize)
    requires long { length page.old ≡ 4096 }
    requires inside { at + 8 * count ≤ 4096 }
    requires few { first + count ≤ 68 }
    ensures { page.new ≡ with_fields page.old (slot_pointers at slots first count) }
{
    if count > 0 {
        write_field(page, pointer(at, slots.wrapping_add(SLOT_SIZE * first)));
        write_slots(page, at + 8, slots, first + 1, count - 1);
    }
}

/// Writes the CRC of a table of so many bytes: UEFI 2.10, 4.2.
#[tactic(auto, unfolding(crate::specs::Fields::with_crc))]
pub(crate) fn write_crc(page: &mut [u8], at: usize, size: usize)
    requires long { length page.old ≡ 4096 }
    requires inside { at + size ≤ 4096 }
    requires header { 24 ≤ size }
    ensures { page.new ≡ with_crc page.old at size }
{
    write_field(page, word(at + HEADER_CRC32, 0));
    let crc = crc32(&page[at..at + size]);
    write_field(page, word(at + HEADER_CRC32, u64::from(crc)));
}

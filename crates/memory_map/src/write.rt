//! The memory map in a guest's buffer.
#![tactic(auto)]

ghost use Rattle.std.specs.Prelude.{◌≡◌, length};
ghost use Rattle.memory_map.specs.Bytes.{bytes_of, descriptor_in, descriptor_size, size_in, written};
ghost use Rattle.uh_base.specs.LittleEndian.{little_endian};

use crate::descriptor::{Descriptor, TooSmall};
use uh_base::number_in;

/// The bytes of a descriptor in a guest's buffer (UEFI 2.10, section 7.2, EFI_MEMORY_DESCRIPTOR version 1).
pub const DESCRIPTOR_SIZE: usize = 40;

/// Writes a descriptor over 40 bytes.
#[tactic(auto, unfolding(crate::specs::Bytes::bytes_of))]
fn write_descriptor(d: &Descriptor, to: &mut [u8])
    requires { length to.old ≡ 40 }
    ensures { to.new ≡ bytes_of d.now }
{
    to[..4].copy_from_slice(&d.memory_type.to_le_bytes());
    to[4..8].copy_from_slice(&0u32.to_le_bytes());
    to[8..16].copy_from_slice(&d.start.to_le_bytes());
    to[16..24].copy_from_slice(&d.virt.to_le_bytes());
    to[24..32].copy_from_slice(&d.pages.to_le_bytes());
    to[32..40].copy_from_slice(&d.attribute.to_le_bytes());
}

/// The number that four bytes make, the least significant first.
#[tactic(auto, unfolding(uh_base::specs::LittleEndian::little_endian))]
fn word_in(bytes: &[u8]) -> u32
    requires { length bytes.now ≡ 4 }
    ensures { result ≡ little_endian bytes.now }
{
    match bytes {
        [a, b, c, d] => u32::from_le_bytes([*a, *b, *c, *d]),
        _ => 0,
    }
}

/// The descriptor that 40 bytes make.
#[tactic(auto, unfolding(crate::specs::Bytes::descriptor_in))]
pub fn read_descriptor(bytes: &[u8]) -> Descriptor
    requires { length bytes.now ≡ descriptor_size }
    ensures { result ≡ descriptor_in bytes.now }
{
    Descriptor {
        memory_type: word_in(&bytes[..4]),
        start: number_in(&bytes[8..16]),
        virt: number_in(&bytes[16..24]),
        pages: number_in(&bytes[24..32]),
        attribute: number_in(&bytes[32..40]),
    }
}

/// The bytes of a descriptor are as many as the definitions say.
pub fn descriptor_size() -> usize
    ensures { result ≡ descriptor_size }
{
    DESCRIPTOR_SIZE
}

/// Writes descriptors over a buffer, 40 bytes each, and answers the size. `TooSmall` has the size, where the buffer
/// is smaller; the buffer is then as before.
pub fn write_map(list: &[Descriptor], to: &mut [u8]) -> Result<usize, TooSmall>
    ensures size { result ≡ size_in list.now (length to.old) }
    ensures bytes { to.new ≡ written result list.now to.old }
{
    let size = DESCRIPTOR_SIZE * list.len();
    if to.len() < size {
        return Err(TooSmall(size));
    }
    for (place, d) in list.iter().enumerate() {
        let at = DESCRIPTOR_SIZE * place;
        write_descriptor(d, &mut to[at..at + DESCRIPTOR_SIZE]);
    }
    Ok(size)
}

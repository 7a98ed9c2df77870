//! Fields of a store file.
#![tactic(auto)]

ghost use Rattle.std.specs.Prelude.{◌≡◌, ◌≤◌, length, IfOk};
ghost use Rattle.uh_base.specs.Answers.{Reads};
ghost use Rattle.variable_store.specs.Reading.{offset, field, number, guid, units_in, fits_attributes, fits_size, head, named, IsHeader};

use crate::asked::is_bad_name;
use crate::fault::StoreFault;
use crate::variable::is_non_volatile;
use std::alloc::{AllocError, Global};
use uh_base::Guid;

/// What stands before the name of a variable: the vendor, the attributes, the units of the name, and the bytes of the
/// data.
#[derive(Clone, Copy)]
pub struct Header {
    pub vendor: Guid,
    pub attributes: u32,
    pub units: u32,
    pub size: u32,
}

/// Where a file of so many bytes goes on, by the bytes that are left.
pub fn offset(size: usize, rest: &[u8]) -> usize
    ensures { result ≡ offset size rest.now }
{
    size.saturating_sub(rest.len())
}

/// So many bytes, and those behind them.
#[tactic(auto, unfolding(crate::specs::Reading::field))]
pub fn field(count: usize, size: usize, rest: &[u8]) -> Result<(&[u8], &[u8]), StoreFault>
    ensures reads { Reads named (λ read. (read.0.now, read.1.now)) result (field count size rest.now) }
    ensures length { IfOk result (λ read. length read.0.now ≡ count) }
{
    if rest.len() < count {
        return Err(StoreFault::At(offset(size, rest)));
    }
    Ok(rest.split_at(count))
}

/// A number of four bytes.
#[tactic(auto, unfolding(crate::specs::Reading::number, crate::specs::Reading::field))]
pub fn number(size: usize, rest: &[u8]) -> Result<(u32, &[u8]), StoreFault>
    ensures { Reads named (λ read. (read.0, read.1.now)) result (number size rest.now) }
{
    match rest.split_first_chunk::<4>() {
        Some((bytes, behind)) => Ok((u32::from_le_bytes(*bytes), behind)),
        None => Err(StoreFault::At(offset(size, rest))),
    }
}

/// A GUID of sixteen bytes.
#[tactic(auto, unfolding(crate::specs::Reading::guid, crate::specs::Reading::field))]
pub fn guid(size: usize, rest: &[u8]) -> Result<(Guid, &[u8]), StoreFault>
    ensures { Reads named (λ read. (read.0, read.1.now)) result (guid size rest.now) }
{
    match rest.split_first_chunk::<16>() {
        Some((bytes, behind)) => Ok((Guid::from_bytes(bytes), behind)),
        None => Err(StoreFault::At(offset(size, rest))),
    }
}

/// The units of two bytes each.
pub fn units_in(alloc: Global, bytes: &[u8]) -> Result<Vec<u16>, AllocError>
    ensures { IfOk result (λ units. units.items ≡ units_in bytes.now) }
{
    let mut units = Vec::with_capacity(alloc, bytes.len() / 2)?;
    let mut rest = bytes;
    while let Some((pair, behind)) = rest.split_first_chunk::<2>() {
        units.push(u16::from_le_bytes(*pair))?;
        rest = behind;
    }
    Ok(units)
}

fn fits_attributes(attributes: u32) -> bool
    ensures { result ≡ fits_attributes attributes }
{
    is_non_volatile(attributes) && attributes < 8 && attributes & 6 != 4
}

fn fits_size(units: u32, size: u32, room: u64) -> bool
    ensures { result ≡ fits_size units size room }
{
    size != 0 && 34 + 2 * u64::from(units) + u64::from(size) <= room
}

/// What stands before the name of a variable. Its data isn't empty, and it fits in the room that is left.
#[tactic(auto, unfolding(crate::specs::Reading::head))]
pub fn head(size: usize, rest: &[u8], room: u64) -> Result<(Header, &[u8]), StoreFault>
    ensures reads { Reads named (λ read. (read.0, read.1.now)) result (head size rest.now room) }
    ensures limits { IfOk result (λ read. IsHeader read.0 room) }
{
    let (vendor, behind) = guid(size, rest)?;
    let (attributes, rest) = number(size, behind)?;
    if !fits_attributes(attributes) {
        return Err(StoreFault::At(offset(size, behind)));
    }
    let (units, behind) = number(size, rest)?;
    if is_bad_name(units as usize) {
        return Err(StoreFault::At(offset(size, rest)));
    }
    let (bytes, rest) = number(size, behind)?;
    if !fits_size(units, bytes, room) {
        return Err(StoreFault::At(offset(size, behind)));
    }
    Ok((
        Header {
            vendor,
            attributes,
            units,
            size: bytes,
        },
        rest,
    ))
}

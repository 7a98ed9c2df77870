//! Numbers at offsets of a file, the least byte first.
#![tactic(auto)]

ghost use Rattle.std.specs.Prelude.{◌≡◌, ◌≤◌, ◌+◌, ◌^◌, ◌<◌, [], ◌∷◌, length};
ghost use Rattle.pe_image.specs.Checks.{judged, is_there};
ghost use Rattle.pe_image.specs.Numbers.{u16_at, u32_at, u64_at};

use crate::fault::PeFault;

/// Whether the field of so many bytes at an offset lies wholly in the file.
pub fn find_field(bytes: &[u8], at: u32, width: u8) -> Result<(), PeFault>
    ensures { result ≡ judged (is_there bytes.now at width ∷ []) tt }
{
    if at as usize + width as usize > bytes.len() {
        return Err(PeFault::Truncated(at));
    }
    Ok(())
}

/// The number of two bytes at an offset.
#[tactic(auto, unfolding(crate::specs::Numbers::u16_at))]
pub fn u16_in(bytes: &[u8], at: usize) -> u16
    requires { at + 2 ≤ length bytes.now }
    ensures { result ≡ u16_at bytes.now at }
{
    u16::from_le_bytes([bytes[at], bytes[at + 1]])
}

/// The number of four bytes at an offset.
#[tactic(auto, unfolding(crate::specs::Numbers::u32_at))]
pub fn u32_in(bytes: &[u8], at: usize) -> u32
    requires { at + 4 ≤ length bytes.now }
    ensures { result ≡ u32_at bytes.now at }
{
    u32::from_le_bytes([bytes[at], bytes[at + 1], bytes[at + 2], bytes[at + 3]])
}

/// The number of eight bytes at an offset.
#[tactic(auto, unfolding(crate::specs::Numbers::u64_at))]
pub fn u64_in(bytes: &[u8], at: usize) -> u64
    requires { at + 8 ≤ length bytes.now }
    ensures { result ≡ u64_at bytes.now at }
{
    let low = u32_in(bytes, at);
    let high = u32_in(bytes, at + 4);
    low as u64 + ((high as u64) << 32)
}

/// The number of two bytes at an offset, if it lies wholly in the file.
pub fn u16_at(bytes: &[u8], at: u32) -> Result<u16, PeFault>
    ensures { result ≡ judged (is_there bytes.now at 2 ∷ []) (u16_at bytes.now at) }
{
    find_field(bytes, at, 2)?;
    Ok(u16_in(bytes, at as usize))
}

/// The number of four bytes at an offset, if it lies wholly in the file.
pub fn u32_at(bytes: &[u8], at: u32) -> Result<u32, PeFault>
    ensures { result ≡ judged (is_there bytes.now at 4 ∷ []) (u32_at bytes.now at) }
{
    find_field(bytes, at, 4)?;
    Ok(u32_in(bytes, at as usize))
}

/// The number of eight bytes at an offset, if it lies wholly in the file.
pub fn u64_at(bytes: &[u8], at: u32) -> Result<u64, PeFault>
    ensures { result ≡ judged (is_there bytes.now at 8 ∷ []) (u64_at bytes.now at) }
{
    find_field(bytes, at, 8)?;
    Ok(u64_in(bytes, at as usize))
}

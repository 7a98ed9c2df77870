//! Moving an image.
#![tactic(auto)]

ghost use Rattle.std.specs.Prelude.{◌≡◌, ◌≤◌, ◌<◌, ◌+◌, ◌-◌, ◌%◌, ◌^◌, ℕ, length, slice_index, slice_get, Some, OnOk, OnErr, All, if◌then◌else◌};
ghost use Rattle.base_reloc.specs.Sites.{AreSites, covers, end_of};
ghost use Rattle.base_reloc.specs.Moved.{moved_word, moved_at, byte_of, moved_byte, first_leaving, all_or_range};
ghost use Rattle.base_reloc.specs.declared.site.SiteKind.TheVariants.{Highlow, High20};

use crate::fault::RelocFault;
use crate::site::{Site, SiteKind};
use pe_image::{u32_in, u64_in};

/// An address of 32 bits, moved, if it is below 2^32.
#[tactic(auto, unfolding(crate::specs::Moved::moved_word))]
fn moved_highlow(word: u32, displacement: u64) -> Option<u64>
    ensures { result ≡ moved_word Highlow word displacement }
{
    let moved = (word as u64).wrapping_add(displacement);
    if moved < 1 << 32 { Some(moved) } else { None }
}

/// An instruction with the bits 31 to 12 of an address, moved, if the address is that of a signed number of 32
/// bits.
#[tactic(auto, unfolding(crate::specs::Moved::moved_word))]
fn moved_high20(word: u32, displacement: u64) -> Option<u64>
    ensures { result ≡ moved_word High20 word displacement }
{
    let upper = i64::from((word / 4096 * 4096).cast_signed());
    let moved = upper.cast_unsigned().wrapping_add(displacement);
    let signed = moved.cast_signed();
    if signed < -0x8000_0000 || signed > 0x7fff_f000 {
        return None;
    }
    Some(moved / 4096 % (1 << 20) * 4096 + (word % 4096) as u64)
}

/// What a site's word is once it is moved, if that is in its range.
#[tactic(auto, unfolding(crate::specs::Moved::moved_word))]
fn moved(bytes: &[u8], site: Site, displacement: u64) -> Option<u64>
    requires { end_of site ≤ length bytes.now }
    ensures word { result ≡ moved_at bytes.now displacement site }
    ensures at { site.at < 2 ^ 32 }
{
    let at = site.at as usize;
    match site.kind {
        SiteKind::Dir64 => Some(u64_in(bytes, at).wrapping_add(displacement)),
        SiteKind::Highlow => moved_highlow(u32_in(bytes, at), displacement),
        SiteKind::High20 => moved_high20(u32_in(bytes, at), displacement),
    }
}

/// The number of the first site whose moved word leaves its range.
#[tactic(auto, unfolding(crate::specs::Moved::first_leaving))]
fn find_leaving(bytes: &[u8], sites: &[Site], displacement: u64) -> Option<u32>
    requires { AreSites (length bytes.now) sites.now }
    ensures { result ≡ first_leaving bytes.now displacement 0 sites.now }
{
    for (i, site) in sites.iter().enumerate() {
        if moved(bytes, *site, displacement).is_none() {
            return Some(i as u32);
        }
    }
    None
}

/// Moves a site's word, if that is in its range.
fn move_site(bytes: &mut [u8], site: Site, displacement: u64)
    requires { end_of site ≤ length bytes.old }
    ensures { (at : ℕ) → at < length bytes.new → slice_index bytes.new at ≡ (if covers at site then byte_of bytes.old displacement at (Some site) else slice_index bytes.old at) }
{
    if let Some(word) = moved(bytes, site, displacement) {
        let at = site.at as usize;
        let width = site.kind.width();
        bytes[at..at + width].copy_from_slice(&word.to_le_bytes()[..width]);
    }
}

/// Moves the words of all sites.
fn move_sites(bytes: &mut [u8], sites: &[Site], displacement: u64)
    requires { AreSites (length bytes.old) sites.now }
    ensures { (at : ℕ) → at < length bytes.new → slice_index bytes.new at ≡ moved_byte bytes.old sites.now displacement at }
{
    for site in sites {
        move_site(bytes, *site, displacement);
    }
}

/// Moves an image by a multiple of 4,096: all of its sites, or none where the word of one leaves its range. The
/// image is linked for one address and stands at another, and the displacement is the other less the one,
/// modulo 2^64.
pub fn apply(bytes: &mut [u8], sites: &[Site], displacement: u64) -> Result<(), RelocFault>
    requires sites { AreSites (length bytes.old) sites.now }
    requires pages { displacement % 4096 ≡ 0 }
    ensures answer { result ≡ all_or_range (first_leaving bytes.old displacement 0 sites.now) }
    ensures ok { OnOk result ((at : ℕ) → at < length bytes.new → slice_get bytes.new at ≡ Some (moved_byte bytes.old sites.now displacement at)) }
    ensures err { OnErr result (bytes.new ≡ bytes.old) }
{
    if let Some(index) = find_leaving(bytes, sites, displacement) {
        return Err(RelocFault::Range32(index));
    }
    move_sites(bytes, sites, displacement);
    Ok(())
}

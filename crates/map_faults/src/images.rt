//! Faults of the images that stay.
#![tactic(auto)]

ghost use Rattle.std.specs.Prelude.{◌≡◌, ◌≤◌, ◌<◌, ◌*◌, ◌^◌, is_none, All, length};
ghost use Rattle.base_reloc.specs.Sites.{width_of};
ghost use Rattle.base_reloc.specs.Moved.{moved_word};
ghost use Rattle.base_reloc.specs.declared.site.SiteKind.TheVariants.{High20};
ghost use Rattle.map_faults.specs.Grounds.{IsKept, WordsFit};
ghost use Rattle.map_faults.specs.Faults.{displacement_by, entry_at, leaving, reloc_fault};

use crate::fault::MapFault;
use crate::ground::Kept;
use crate::pointer::entry_at;
use base_reloc::{Site, SiteKind};
use memory_map::Descriptor;

/// Whether the address in the upper bits of an instruction leaves the signed numbers of 32 bits.
#[tactic(auto, unfolding(base_reloc::specs::Moved::moved_word))]
fn upper_leaves(word: u32, by: u64) -> bool
    ensures { result ≡ is_none (moved_word High20 word by) }
{
    let upper = i64::from((word / 4096 * 4096).cast_signed());
    let moved = upper.cast_unsigned().wrapping_add(by).cast_signed();
    moved < -0x8000_0000 || moved > 0x7fff_f000
}

/// Whether the word of a site leaves its range where its image moves.
#[tactic(auto, unfolding(base_reloc::specs::Moved::moved_word))]
fn leaves(kind: SiteKind, word: u64, by: u64) -> bool
    requires { word < 2 ^ (8 * width_of kind) }
    ensures { result ≡ is_none (moved_word kind word by) }
{
    match kind {
        SiteKind::Dir64 => false,
        SiteKind::Highlow => word.wrapping_add(by) >= 1 << 32,
        SiteKind::High20 => upper_leaves((word % (1 << 32)) as u32, by),
    }
}

/// The number of the first site whose word leaves its range.
#[tactic(auto, unfolding(crate::specs::Faults::leaving, crate::specs::Grounds::WordsFit))]
fn leaving(by: u64, sites: &[Site], words: &[u64]) -> Option<u32>
    requires few { length sites.now < 2 ^ 32 }
    requires fit { WordsFit sites.now words.now }
    ensures { result ≡ leaving by 0 sites.now words.now }
{
    let mut rest = words;
    for (number, site) in sites.iter().enumerate() {
        match rest.split_first() {
            Some((word, words)) => {
                if leaves(site.kind, *word, by) {
                    return Some(number as u32);
                }
                rest = words;
            }
            None => return None,
        }
    }
    None
}

/// The displacement of what lies at an address, modulo 2^64; 0 where no entry holds it.
pub fn displacement_at(entries: &[Descriptor], at: u64) -> u64
    ensures { result ≡ displacement_by (entry_at entries.now at) }
{
    match entry_at(entries, at) {
        Some(entry) => entry.virt.wrapping_sub(entry.start),
        None => 0,
    }
}

/// The first site of an image that stays whose word leaves its range.
#[tactic(auto, unfolding(crate::specs::Faults::reloc_fault))]
pub(crate) fn reloc_fault(entries: &[Descriptor], kept: &[Kept]) -> Option<MapFault>
    requires few { length kept.now < 2 ^ 32 }
    requires kept { All IsKept kept.now }
    ensures { result ≡ reloc_fault entries.now 0 kept.now }
{
    for (number, image) in kept.iter().enumerate() {
        let by = displacement_at(entries, image.base);
        if let Some(site) = leaving(by, image.sites.as_slice(), image.words.as_slice()) {
            return Some(MapFault::Reloc32(number as u32, site));
        }
    }
    None
}

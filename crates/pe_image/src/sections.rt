//! The sections of a file ("Section Table").
#![tactic(auto)]

ghost use Rattle.std.specs.Prelude.{◌≡◌, ◌≤◌, ◌<◌, ◌+◌, ◌*◌, ◌^◌, [], ◌∷◌, length, nat_le};
ghost use Rattle.pe_image.specs.Checks.{judged, check, Reads};
ghost use Rattle.pe_image.specs.ImageOf.{section_at, sections_at, section_checks, is_inside, bit, rights_of};
ghost use Rattle.pe_image.specs.declared.fault.PeFault.TheVariants.{SectionOutside, SectionOverlap};

use crate::fault::PeFault;
use crate::fields::u32_in;
use crate::headers::Optional;
use crate::image::Section;
use std::alloc::Global;

fn bit(n: u32, place: u8) -> u8
    requires { place < 32 }
    ensures { result ≡ bit n place }
{
    ((n >> place) % 2) as u8
}

/// The rights that a section's characteristics give ("Section Flags").
fn rights_of(characteristics: u32) -> u8
    ensures { result ≡ rights_of characteristics }
{
    bit(characteristics, 30) + 2 * bit(characteristics, 31) + 4 * bit(characteristics, 29)
}

/// The section whose header stands at an offset.
#[tactic(auto, unfolding(crate::specs::ImageOf::section_at))]
fn section_at(bytes: &[u8], at: usize) -> Section
    requires { at + 40 ≤ length bytes.now }
    ensures { result ≡ section_at bytes.now at }
{
    let virtual_size = u32_in(bytes, at + 8);
    let raw_size = u32_in(bytes, at + 16);
    let len = if virtual_size == 0 {
        raw_size
    } else {
        virtual_size
    };
    Section {
        at: u32_in(bytes, at + 12),
        len,
        raw: u32_in(bytes, at + 20),
        copied: len.min(raw_size),
        rights: rights_of(u32_in(bytes, at + 36)),
    }
}

/// Where a section ends that lies in the image and the file, and behind what is before it.
fn check_section(
    section: &Section,
    index: u16,
    before: u32,
    file: usize,
    optional: &Optional,
) -> Result<u32, PeFault>
    requires { 0 < optional.now.alignment }
    ensures { result ≡ judged (check (is_inside file optional.now.alignment optional.now.size section.now) (SectionOutside index) ∷ check (nat_le before section.now.at) (SectionOverlap index) ∷ []) (section.now.at + section.now.len) }
{
    let end = u64::from(section.at) + u64::from(section.len);
    let raw_end = u64::from(section.raw) + u64::from(section.copied);
    if section.at % optional.alignment != 0
        || end > u64::from(optional.size)
        || (section.copied > 0 && raw_end > file as u64)
    {
        return Err(PeFault::SectionOutside(index));
    }
    if section.at < before {
        return Err(PeFault::SectionOverlap(index));
    }
    Ok(end as u32)
}

/// The sections of so many headers from an offset on, each of which lies in the image and the file, behind the
/// one before it.
#[tactic(auto, unfolding(crate::specs::ImageOf::section_checks, crate::specs::ImageOf::sections_at))]
pub fn read_sections(
    alloc: Global,
    bytes: &[u8],
    at: u32,
    count: u16,
    optional: &Optional,
) -> Result<Vec<Section>, PeFault>
    requires at { at < 2 ^ 30 }
    requires inside { 0 < count → at + 40 * count ≤ length bytes.now }
    requires alignment { 0 < optional.now.alignment }
    ensures { let all = sections_at bytes.now at count in Reads (λ sections. sections.items) result (judged (section_checks (length bytes.now) optional.now.alignment optional.now.size optional.now.headers 0 all) all) }
{
    let mut sections = Vec::new(alloc);
    let mut before = optional.headers;
    for i in 0..count {
        let section = section_at(bytes, at as usize + 40 * i as usize);
        before = check_section(&section, i, before, bytes.len(), optional)?;
        sections.push(section)?;
    }
    Ok(sections)
}

//! The words of images that move with them.
#![tactic(auto)]

ghost use Rattle.std.specs.Prelude.{◌≡◌, ◌≤◌, ◌<◌, ◌+◌, ◌*◌, ◌^◌, ◌&&◌, ℕ, true, length, if◌then◌else◌};
ghost use Rattle.std.specs.List.{All, AllPairs};
ghost use Rattle.uh_base.specs.Bytes.{with_byte};
ghost use Rattle.base_reloc.specs.declared.site.Site.{Site as AnySite};
ghost use Rattle.base_reloc.specs.declared.site.SiteKind.TheVariants.{Highlow, High20};
ghost use Rattle.base_reloc.specs.Sites.{AreSites, width_of, end_of};
ghost use Rattle.base_reloc.specs.Moved.{moved_word};
ghost use Rattle.guest_memory.specs.Pages.{bytes_of, touched_at};
ghost use Rattle.guest_memory.specs.Runs.{with_bytes};
ghost use Rattle.map_faults.specs.Grounds.{WordsFit};
ghost use Rattle.map_transition.specs.Images.{AreTouched, AreApart, HasSites};
ghost use Rattle.map_transition.specs.Fixes.{OnlyBytes, fixed_byte, fixed_at, fixed_in, fixed, with_fixed};

use address_view::bytes_behind_a_store;
use base_reloc::{Site, SiteKind};
use guest_memory::GuestMemory;
use map_faults::{Kept, displacement_at};
use memory_map::Descriptor;

/// An address of 32 bits, moved, if it is below 2^32.
#[tactic(auto, unfolding(base_reloc::specs::Moved::moved_word))]
fn moved_highlow(word: u32, by: u64) -> Option<u64>
    ensures { result ≡ moved_word Highlow word by }
{
    let moved = u64::from(word).wrapping_add(by);
    if moved < 1 << 32 { Some(moved) } else { None }
}

/// An instruction with the upper bits of an address, moved, if the address is that of a signed number of 32 bits.
#[tactic(auto, unfolding(base_reloc::specs::Moved::moved_word))]
fn moved_high20(word: u32, by: u64) -> Option<u64>
    ensures { result ≡ moved_word High20 word by }
{
    let upper = i64::from((word / 4096 * 4096).cast_signed());
    let moved = upper.cast_unsigned().wrapping_add(by);
    let signed = moved.cast_signed();
    if signed < -0x8000_0000 || signed > 0x7fff_f000 {
        return None;
    }
    Some(moved / 4096 % (1 << 20) * 4096 + u64::from(word % 4096))
}

/// What a site's word is once it is moved, if that is in its range.
#[tactic(auto, unfolding(base_reloc::specs::Moved::moved_word))]
fn moved(kind: SiteKind, word: u64, by: u64) -> Option<u64>
    requires { word < 2 ^ (8 * width_of kind) }
    ensures { result ≡ moved_word kind word by }
{
    match kind {
        SiteKind::Dir64 => Some(word.wrapping_add(by)),
        SiteKind::Highlow => moved_highlow(word as u32, by),
        SiteKind::High20 => moved_high20(word as u32, by),
    }
}

/// Puts a byte on a touched page.
#[tactic(auto, using(crate::proofs::ByteLemmas::still_marked), unfolding(guest_memory::specs::Pages::touched_at))]
fn put_byte(memory: &mut GuestMemory, at: u64, byte: u8)
    requires { touched_at memory.old at ≡ true }
    ensures bytes { bytes_of memory.new ≡ with_byte (bytes_of memory.old) at byte }
    ensures rest { OnlyBytes memory.old memory.new }
{
    match memory.put(at, byte) {
        Ok(()) => {}
        Err(_) => unreachable!(),
    }
}

/// Puts bytes on touched pages.
#[tactic(auto, unfolding(guest_memory::specs::Runs::with_bytes))]
fn put_all(memory: &mut GuestMemory, at: u64, bytes: &[u8])
    requires { AreTouched memory.old at (at + length bytes.now) }
    ensures bytes { bytes_of memory.new ≡ with_bytes (bytes_of memory.old) at bytes.now }
    ensures rest { OnlyBytes memory.old memory.new }
{
    if let Some((byte, rest)) = bytes.split_first() {
        memory.whole();
        put_byte(memory, at, *byte);
        put_all(memory, at.wrapping_add(1), rest);
    }
}

/// Puts the load value of a site, moved, of an image that begins at an address.
fn put_moved(memory: &mut GuestMemory, base: u64, site: Site, word: u64, by: u64)
    requires fits { word < 2 ^ (8 * width_of site.kind) }
    requires touched { AreTouched memory.old (base + site.at) (base + end_of site) }
    ensures bytes { (at : ℕ) → bytes_of memory.new at ≡ fixed_at base by site word true at (bytes_of memory.old at) }
    ensures rest { OnlyBytes memory.old memory.new }
{
    memory.whole();
    bytes_behind_a_store();
    if let Some(moved) = moved(site.kind, word, by) {
        let bytes = moved.to_le_bytes();
        put_all(
            memory,
            base + u64::from(site.at),
            &bytes[..site.kind.width()],
        );
    }
}

/// Moves a site of an image that begins at an address, if it is marked.
fn fix_site(memory: &mut GuestMemory, base: u64, by: u64, site: Site, word: u64, same: bool)
    requires fits { word < 2 ^ (8 * width_of site.kind) }
    requires touched { AreTouched memory.old (base + site.at) (base + end_of site) }
    ensures bytes { (at : ℕ) → bytes_of memory.new at ≡ fixed_at base by site word same at (bytes_of memory.old at) }
    ensures rest { OnlyBytes memory.old memory.new }
{
    if same {
        put_moved(memory, base, site, word, by);
    }
}

/// Moves the marked sites of an image that begins at an address.
fn fix_sites(
    memory: &mut GuestMemory,
    base: u64,
    by: u64,
    sites: &[Site],
    words: &[u64],
    marks: &[bool],
)
    requires apart { AllPairs Rattle.base_reloc.specs.Sites.AreApart sites.now }
    requires fit { WordsFit sites.now words.now }
    requires marks { length marks.now ≡ length sites.now }
    requires touched { All (λ (site : AnySite). AreTouched memory.old (base + site.at) (base + end_of site)) sites.now }
    ensures bytes { (at : ℕ) → bytes_of memory.new at ≡ fixed_byte base by sites.now words.now marks.now at (bytes_of memory.old at) }
    ensures rest { OnlyBytes memory.old memory.new }
{
    for i in 0..sites.len() {
        fix_site(memory, base, by, sites[i], words[i], marks[i]);
    }
}

/// Moves the marked sites of an image.
fn fix_image(memory: &mut GuestMemory, image: &Kept, entries: &[Descriptor])
    requires { HasSites memory.old image.now }
    ensures bytes { (at : ℕ) → bytes_of memory.new at ≡ fixed_in entries.now image.now at (bytes_of memory.old at) }
    ensures rest { OnlyBytes memory.old memory.new }
{
    let by = displacement_at(entries, image.base);
    fix_sites(
        memory,
        image.base,
        by,
        image.sites.as_slice(),
        image.words.as_slice(),
        image.same.as_slice(),
    );
}

/// Moves the marked sites of all images that stay: each becomes its load value, moved with its image.
pub(crate) fn fix_all(memory: &mut GuestMemory, kept: &[Kept], entries: &[Descriptor])
    requires sites { All (HasSites memory.old) kept.now }
    requires apart { AllPairs AreApart kept.now }
    ensures { memory.new ≡ with_fixed entries.now kept.now memory.old }
{
    fix_images(memory, kept, entries);
    memory.whole();
}

fn fix_images(memory: &mut GuestMemory, kept: &[Kept], entries: &[Descriptor])
    requires sites { All (HasSites memory.old) kept.now }
    requires apart { AllPairs AreApart kept.now }
    ensures bytes { (at : ℕ) → bytes_of memory.new at ≡ fixed entries.now kept.now (bytes_of memory.old) at }
    ensures rest { OnlyBytes memory.old memory.new }
{
    for image in kept {
        fix_image(memory, image, entries);
    }
}

//! Which words are as their load left them.
#![tactic(auto)]

ghost use Rattle.std.specs.Prelude.{◌≡◌, ◌≤◌, ◌<◌, ◌+◌, ◌^◌, ◌==◌, length};
ghost use Rattle.std.specs.List.{All};
ghost use Rattle.uh_base.specs.Bytes.{number_at};
ghost use Rattle.base_reloc.specs.Sites.{width_of};
ghost use Rattle.guest_memory.specs.Pages.{bytes_of};
ghost use Rattle.map_faults.specs.Grounds.{Kept as KeptImage};
ghost use Rattle.map_transition.specs.Images.{HasSites};
ghost use Rattle.map_transition.specs.Fixes.{marks_of, marked, all_marked};

use base_reloc::Site;
use guest_memory::GuestMemory;
use map_faults::Kept;

/// The byte at an address, 0 outside RAM.
#[tactic(auto, unfolding(guest_memory::specs::Pages::bytes_of))]
fn byte_at(memory: &GuestMemory, at: u64) -> u8
    ensures { result ≡ bytes_of memory.now at }
{
    match memory.get(at) {
        Some(byte) => byte,
        None => 0,
    }
}

/// The number of so many bytes from an address on, the least first.
#[tactic(auto, unfolding(uh_base::specs::Bytes::number_at))]
fn number_at(memory: &GuestMemory, at: u64, width: usize) -> u64
    requires { width ≤ 8 }
    ensures value { result ≡ number_at (bytes_of memory.now) at width }
    ensures below { result < 256 ^ width }
{
    if width == 0 {
        0
    } else {
        u64::from(byte_at(memory, at)) + 256 * number_at(memory, at.wrapping_add(1), width - 1)
    }
}

/// Whether the word of a site of an image that begins at an address is its load value.
fn is_same(memory: &GuestMemory, base: u64, site: Site, word: u64) -> bool
    requires { base < 2 ^ 63 }
    ensures { result ≡ (number_at (bytes_of memory.now) (base + site.at) (width_of site.kind) == word) }
{
    number_at(memory, base + u64::from(site.at), site.kind.width()) == word
}

/// Marks the sites of an image that begins at an address.
fn mark_sites(memory: &GuestMemory, base: u64, sites: &[Site], words: &[u64], marks: &mut [bool])
    requires words { length words.now ≡ length sites.now }
    requires marks { length marks.old ≡ length sites.now }
    requires low { base < 2 ^ 63 }
    ensures value { marks.new ≡ marks_of (bytes_of memory.now) base sites.now words.now }
    ensures long { length marks.new ≡ length marks.old }
{
    for i in 0..marks.len() {
        marks[i] = is_same(memory, base, sites[i], words[i]);
    }
}

/// Marks the sites of an image.
#[tactic(auto, using(crate::proofs::SiteLemmas::words_long))]
fn mark_image(memory: &GuestMemory, image: &mut Kept)
    requires sites { HasSites memory.now image.old }
    requires low { image.old.base < 2 ^ 63 }
    ensures { image.new ≡ marked (bytes_of memory.now) image.old }
{
    mark_sites(
        memory,
        image.base,
        image.sites.as_slice(),
        image.words.as_slice(),
        image.same.as_mut_slice(),
    );
}

/// Marks the sites of all images whose words are as their load left them.
pub(crate) fn mark_all(memory: &GuestMemory, kept: &mut [Kept])
    requires sites { All (HasSites memory.now) kept.old }
    requires low { All (λ (image : KeptImage). image.base < 2 ^ 63) kept.old }
    ensures value { kept.new ≡ all_marked (bytes_of memory.now) kept.old }
    ensures long { length kept.new ≡ length kept.old }
{
    for image in kept.iter_mut() {
        mark_image(memory, image);
    }
}

//! Placing an image.
#![tactic(auto)]

ghost use Rattle.std.specs.Prelude.{◌≡◌, ◌≤◌, ◌<◌, ◌⊎◌, ◌+◌, ◌-◌, ℕ, length, slice_index, slice_get, Some, Ok, if◌then◌else◌};
ghost use Rattle.pe_image.specs.ImageOf.{fields_of, image_of};
ghost use Rattle.pe_image.specs.Placed.{in_pages, copies_to, placed_byte};

use crate::image::{Image, Section};
use crate::laws::read_images_are_sound;

/// Copies a section's bytes.
fn place_section(section: &Section, file: &[u8], to: &mut [u8])
    requires room { section.now.at + section.now.copied ≤ length to.old }
    requires file { (section.now.copied ≡ 0) ⊎ (section.now.raw + section.now.copied ≤ length file.now) }
    ensures { (at : ℕ) → at < length to.new → slice_index to.new at ≡ (if copies_to at section.now then slice_index file.now (section.now.raw + (at - section.now.at)) else slice_index to.old at) }
{
    if section.copied == 0 {
        return;
    }
    let at = section.at as usize;
    let raw = section.raw as usize;
    let copied = section.copied as usize;
    to[at..at + copied].copy_from_slice(&file[raw..raw + copied]);
}

/// Places an image that was read from the file: its headers and the copied bytes of its sections, and zero
/// elsewhere. The image's size is rounded up to whole pages of 4,096 bytes.
pub fn place(image: &Image, file: &[u8], to: &mut [u8])
    requires read { image_of file.now ≡ Ok (fields_of image.now) }
    requires room { length to.old ≡ in_pages image.now.size }
    ensures { (at : ℕ) → at < length to.new → slice_get to.new at ≡ Some (placed_byte (fields_of image.now) file.now at) }
{
    read_images_are_sound();
    to.fill(0);
    let headers = image.headers as usize;
    to[..headers].copy_from_slice(&file[..headers]);
    for section in &image.sections {
        place_section(section, file, to);
    }
}

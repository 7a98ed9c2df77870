//! Reading an image.
#![tactic(auto)]

ghost use Rattle.std.specs.Prelude.{◌≡◌, ◌≤◌, ◌<◌, ◌+◌, ◌*◌, ◌^◌, [], ◌∷◌, ◌++◌, length, nat_le, List, ℕ, IfOk, OnOk};
ghost use Rattle.pe_image.specs.Checks.{judged, Reads};
ghost use Rattle.pe_image.specs.ImageOf.{fields_of, image_of, header_checks, end_checks};
ghost use Rattle.pe_image.specs.Parts.{headers_of, numbers_of};
ghost use Rattle.pe_image.specs.Sound.{IsImage};

use crate::fault::PeFault;
use crate::headers::{Directory, Optional, read_headers};
use crate::image::Image;
use crate::sections::read_sections;
use std::alloc::Global;

/// Whether the numbers of the headers fit a file of so many bytes ("Optional Header").
fn check_headers(
    file: usize,
    optional_size: u16,
    sections: u16,
    optional: &Optional,
) -> Result<(), PeFault>
    requires { optional.now.directories ≤ 16 }
    ensures judged { result ≡ judged (header_checks file optional_size optional.now.directories sections (numbers_of optional.now)) tt }
    ensures alignment { OnOk result (0 < optional.now.alignment) }
{
    if u32::from(optional_size) < 112 + 8 * optional.directories
        || optional.headers as usize > file
        || optional.headers > optional.size
    {
        return Err(PeFault::Header);
    }
    if optional.subsystem < 10 || optional.subsystem > 12 {
        return Err(PeFault::Subsystem);
    }
    if optional.alignment < 32
        || !optional.alignment.is_power_of_two()
        || optional.image_base % 4096 != 0
    {
        return Err(PeFault::Alignment);
    }
    if optional.size == 0 || optional.size > 0x80_0000 || sections > 96 {
        return Err(PeFault::TooLarge);
    }
    Ok(())
}

/// Whether the entry point and the base relocations lie in the image.
fn check_ends(optional: &Optional, directory: &Directory) -> Result<(), PeFault>
    ensures { result ≡ judged (end_checks (headers_of optional.now directory.now)) tt }
{
    if optional.entry == 0 || optional.entry % 2 != 0 || optional.entry >= optional.size {
        return Err(PeFault::EntryOutside);
    }
    let end = u64::from(directory.at) + u64::from(directory.len);
    if directory.len != 0 && end > u64::from(optional.size) {
        return Err(PeFault::Directory);
    }
    Ok(())
}

/// The image that the file holds, or the first thing that is wrong with it. The file has at most 4 MiB.
pub fn read_image(alloc: Global, bytes: &[u8]) -> Result<Image, PeFault>
    requires { length bytes.now ≤ 0x400000 }
    ensures read { Reads fields_of result (image_of bytes.now) }
    ensures sound { IfOk result (λ image. IsImage (fields_of image)) }
{
    let headers = read_headers(bytes)?;
    let optional = headers.optional;
    let relocations = headers.relocations;
    check_headers(
        bytes.len(),
        headers.optional_size,
        headers.sections,
        &optional,
    )?;
    let sections = read_sections(alloc, bytes, headers.table, headers.sections, &optional)?;
    check_ends(&optional, &relocations)?;
    Ok(Image {
        subsystem: optional.subsystem,
        image_base: optional.image_base,
        alignment: optional.alignment,
        size: optional.size,
        headers: optional.headers,
        entry: optional.entry,
        sections,
        reloc_at: relocations.at,
        reloc_len: relocations.len,
        stripped: headers.stripped,
    })
}

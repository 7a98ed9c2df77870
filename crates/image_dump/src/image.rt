//! What an image file holds: its headers, its sections and its base relocations.
ghost use Rattle.std.specs.Prelude.{◌≡◌, ◌≤◌, ◌^◌, [], length, map, OnOk, Ok, Err};
ghost use Rattle.pe_image.specs.ImageOf.{fields_of, image_of};
ghost use Rattle.pe_image.specs.Sound.{IsImage};
ghost use Rattle.base_reloc.specs.Kept.{Reads, sites_in};
ghost use Rattle.image_dump.specs.Puts.{Puts, Gives};
ghost use Rattle.image_dump.specs.Reports.{bytes_of, header_lines, placed, sites_report, by_image, image_report};

use crate::headers::push_headers;
use crate::placed::placed;
use crate::refused::{pe_fault, put_end, put_refused, reloc_fault};
use crate::sites::put_sites;
use crate::stop::{Stop, put_text};
use base_reloc::{RelocFault, Site, read_sites};
use pe_image::{Image, read_image};
use std::alloc::Global;
use uh_base::Sink;

/// The sites of an image that was read from a file.
fn sites_of(alloc: Global, image: &Image, file: &[u8]) -> Result<Vec<Site>, RelocFault>
    requires image { IsImage (fields_of image.now) }
    requires read { image_of file.now ≡ Ok (fields_of image.now) }
    ensures { Reads (λ sites. sites.items) result (sites_in (fields_of image.now) (placed (fields_of image.now) file.now)) }
{
    let placed = match placed(alloc, image, file) {
        Ok(placed) => placed,
        Err(_) => return Err(RelocFault::Memory),
    };
    read_sites(alloc, image, placed.as_slice())
}

/// Puts the lines of sites and the end.
fn put_sites_and_end<O: Sink>(text: &mut Vec<u8>, sites: &[Site], out: &mut O) -> Result<bool, Stop>
    requires { text.old.items ≡ [] }
    ensures { Gives (sites_report (Ok sites.now)) result (O.written out.old) (O.faults out.old) (O.written out.new) (O.faults out.new) }
{
    match put_sites(text, sites, out) {
        Ok(()) => put_end(text, out),
        Err(stop) => Err(stop),
    }
}

/// Puts the lines of an image's sites and the end, or why its base relocations are refused.
fn put_relocations<O: Sink>(
    alloc: Global,
    text: &mut Vec<u8>,
    image: &Image,
    file: &[u8],
    out: &mut O,
) -> Result<bool, Stop>
    requires image { IsImage (fields_of image.now) }
    requires read { image_of file.now ≡ Ok (fields_of image.now) }
    requires empty { text.old.items ≡ [] }
    ensures { Gives (sites_report (sites_in (fields_of image.now) (placed (fields_of image.now) file.now))) result (O.written out.old) (O.faults out.old) (O.written out.new) (O.faults out.new) }
{
    let fault = match sites_of(alloc, image, file) {
        Ok(sites) => return put_sites_and_end(text, sites.as_slice(), out),
        Err(fault) => fault,
    };
    match reloc_fault(fault) {
        Some(fault) => put_refused(text, fault, out),
        None => Err(Stop::Memory),
    }
}

/// Puts the lines of an image's headers and sections.
fn put_headers<O: Sink>(text: &mut Vec<u8>, image: &Image, out: &mut O) -> Result<(), Stop>
    requires few { length image.now.sections.items ≤ 96 }
    requires empty { text.old.items ≡ [] }
    ensures puts { Puts result (bytes_of (header_lines (fields_of image.now))) (O.written out.old) (O.faults out.old) (O.written out.new) (O.faults out.new) }
    ensures empty { OnOk result (text.new.items ≡ []) }
{
    match push_headers(text, image) {
        Ok(()) => put_text(text, out),
        Err(_) => Err(Stop::Memory),
    }
}

/// Puts the lines of an image that was read from a file.
fn put_read<O: Sink>(alloc: Global, image: &Image, file: &[u8], out: &mut O) -> Result<bool, Stop>
    requires image { IsImage (fields_of image.now) }
    requires read { image_of file.now ≡ Ok (fields_of image.now) }
    ensures { Gives (by_image file.now (Ok (fields_of image.now))) result (O.written out.old) (O.faults out.old) (O.written out.new) (O.faults out.new) }
{
    let mut text = Vec::new(alloc);
    match put_headers(&mut text, image, out) {
        Ok(()) => put_relocations(alloc, &mut text, image, file, out),
        Err(stop) => Err(stop),
    }
}

/// Puts what an image file of at most 4 MiB holds: a line for the image, one for each section and one for each site that
/// moves with it, and the end; or why the file or its base relocations are refused. True where they are.
///
/// Lines are put as they are made, many in one put.
#[tactic(auto, unfolding(crate::specs::Reports::image_report))]
pub fn put_image<O: Sink>(alloc: Global, file: &[u8], out: &mut O) -> Result<bool, Stop>
    requires { length file.now ≤ 0x400000 }
    ensures { Gives (image_report file.now) result (O.written out.old) (O.faults out.old) (O.written out.new) (O.faults out.new) }
{
    let fault = match read_image(alloc, file) {
        Ok(image) => return put_read(alloc, &image, file, out),
        Err(fault) => fault,
    };
    match pe_fault(fault) {
        Some(fault) => put_refused(&mut Vec::new(alloc), fault, out),
        None => Err(Stop::Memory),
    }
}

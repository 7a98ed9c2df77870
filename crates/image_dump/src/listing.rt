//! The instructions of an image file's sections.
ghost use Rattle.std.specs.Prelude.{◌≡◌, ◌≤◌, ◌+◌, [], length, OnOk, Ok};
ghost use Rattle.pe_image.specs.ImageOf.{fields_of, image_of};
ghost use Rattle.pe_image.specs.Placed.{in_pages};
ghost use Rattle.pe_image.specs.Sound.{IsImage};
ghost use Rattle.image_dump.specs.Listings.{code_of, listed, all_listed, list_by, list_report};
ghost use Rattle.image_dump.specs.Puts.{Puts, Gives};
ghost use Rattle.image_dump.specs.Reports.{bytes_of, placed};

use crate::code::put_code;
use crate::headers::is_executed;
use crate::placed::placed;
use crate::refused::{pe_fault, put_end, put_line, put_refused};
use crate::stop::Stop;
use pe_image::{Image, Section, read_image};
use record_text::ImageLine;
use std::alloc::Global;
use uh_base::Sink;

/// The bytes of a section.
fn code_of<'a>(placed: &'a [u8], section: &Section) -> &'a [u8]
    requires { section.now.at + section.now.len ≤ length placed.now }
    ensures { result.now ≡ code_of placed.now section.now }
{
    let at = section.at as usize;
    &placed[at..at + section.len as usize]
}

/// Puts the instructions of a section, if it is executed.
#[tactic(auto, unfolding(crate::specs::Listings::listed))]
fn put_section<O: Sink>(
    text: &mut Vec<u8>,
    placed: &[u8],
    number: u16,
    section: &Section,
    out: &mut O,
) -> Result<(), Stop>
    requires inside { section.now.at + section.now.len ≤ length placed.now }
    requires small { length placed.now ≤ 0x800000 }
    requires empty { text.old.items ≡ [] }
    ensures puts { Puts result (bytes_of (listed placed.now number section.now)) (O.written out.old) (O.faults out.old) (O.written out.new) (O.faults out.new) }
    ensures empty { OnOk result (text.new.items ≡ []) }
{
    if !is_executed(section) {
        return Ok(());
    }
    match put_line(text, &ImageLine::Listed { number }, out) {
        Ok(()) => put_code(text, section.at, code_of(placed, section), out),
        Err(stop) => Err(stop),
    }
}

/// Puts the instructions of all sections that are executed.
fn put_sections<O: Sink>(
    text: &mut Vec<u8>,
    image: &Image,
    placed: &[u8],
    out: &mut O,
) -> Result<(), Stop>
    requires image { IsImage (fields_of image.now) }
    requires room { length placed.now ≡ in_pages image.now.size }
    requires empty { text.old.items ≡ [] }
    ensures puts { Puts result (bytes_of (all_listed placed.now 0 image.now.sections.items)) (O.written out.old) (O.faults out.old) (O.written out.new) (O.faults out.new) }
    ensures empty { OnOk result (text.new.items ≡ []) }
{
    let mut number = 0;
    for section in &image.sections {
        match put_section(text, placed, number, section, out) {
            Ok(()) => number += 1,
            Err(stop) => return Err(stop),
        }
    }
    Ok(())
}

/// Puts the instructions of an image that was read from a file.
fn put_read<O: Sink>(alloc: Global, image: &Image, file: &[u8], out: &mut O) -> Result<bool, Stop>
    requires image { IsImage (fields_of image.now) }
    requires read { image_of file.now ≡ Ok (fields_of image.now) }
    ensures { Gives (list_by file.now (Ok (fields_of image.now))) result (O.written out.old) (O.faults out.old) (O.written out.new) (O.faults out.new) }
{
    let placed = match placed(alloc, image, file) {
        Ok(placed) => placed,
        Err(_) => return Err(Stop::Memory),
    };
    let mut text = Vec::new(alloc);
    match put_sections(&mut text, image, placed.as_slice(), out) {
        Ok(()) => put_end(&mut text, out),
        Err(stop) => Err(stop),
    }
}

/// Puts the instructions of the sections of an image file of at most 4 MiB that are executed, as they lie where the image
/// isn't moved, and the end; or why the file is refused. True where it is. Base relocations aren't read.
///
/// Lines are put as they are made, many in one put.
#[tactic(auto, unfolding(crate::specs::Listings::list_report))]
pub fn put_list<O: Sink>(alloc: Global, file: &[u8], out: &mut O) -> Result<bool, Stop>
    requires { length file.now ≤ 0x400000 }
    ensures { Gives (list_report file.now) result (O.written out.old) (O.faults out.old) (O.written out.new) (O.faults out.new) }
{
    let fault = match read_image(alloc, file) {
        Ok(image) => return put_read(alloc, &image, file, out),
        Err(fault) => fault,
    };
    match pe_fault(fault) {
        Some(fault) => put_refused(&mut Vec::new(alloc), fault, out),
        None => Err(Stop::Memory),
    }
}

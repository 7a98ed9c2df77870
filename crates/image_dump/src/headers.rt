//! The lines of an image's headers and sections.
ghost use Rattle.std.specs.Prelude.{◌≡◌, ◌≤◌, ◌<◌, ◌^◌, ◌++◌, length, OnOk};
ghost use Rattle.pe_image.specs.ImageOf.{fields_of};
ghost use Rattle.image_dump.specs.Reports.{line_bytes, bytes_of, image_line, section_line, section_lines, header_lines, is_read, is_written, is_executed};

use crate::stop::push_line;
use pe_image::{Image, Section};
use record_text::ImageLine;
use std::alloc::AllocError;

fn image_line(image: &Image) -> ImageLine
    ensures { result ≡ image_line (fields_of image.now) }
{
    ImageLine::Image {
        subsystem: image.subsystem,
        base: image.image_base,
        size: image.size,
        entry: image.entry,
        alignment: image.alignment,
        is_stripped: image.stripped,
    }
}

/// Whether a section's header says that it is executed.
pub fn is_executed(section: &Section) -> bool
    ensures { result ≡ is_executed section.now }
{
    section.rights / 4 % 2 == 1
}

fn section_line(number: u16, section: &Section) -> ImageLine
    ensures { result ≡ section_line number section.now }
{
    ImageLine::Section {
        number,
        at: section.at,
        len: section.len,
        copied: section.copied,
        is_read: section.rights % 2 == 1,
        is_written: section.rights / 2 % 2 == 1,
        is_executed: is_executed(section),
    }
}

/// Appends the line of a section.
fn push_section(text: &mut Vec<u8>, number: u16, section: &Section) -> Result<(), AllocError>
    ensures { OnOk result (text.new.items ≡ text.old.items ++ line_bytes (section_line number section.now)) }
{
    push_line(text, &section_line(number, section))
}

/// Appends the lines of sections.
fn push_sections(text: &mut Vec<u8>, sections: &[Section]) -> Result<(), AllocError>
    requires { length sections.now ≤ 96 }
    ensures { OnOk result (text.new.items ≡ text.old.items ++ bytes_of (section_lines 0 sections.now)) }
{
    let mut number = 0;
    for section in sections {
        push_section(text, number, section)?;
        number += 1;
    }
    Ok(())
}

/// Appends the lines of an image and of its sections.
#[tactic(auto, unfolding(crate::specs::Reports::header_lines))]
pub fn push_headers(text: &mut Vec<u8>, image: &Image) -> Result<(), AllocError>
    requires { length image.now.sections.items ≤ 96 }
    ensures { OnOk result (text.new.items ≡ text.old.items ++ bytes_of (header_lines (fields_of image.now))) }
{
    push_line(text, &image_line(image))?;
    push_sections(text, image.sections.as_slice())
}

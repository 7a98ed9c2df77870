//! The file of an image.
ghost use Rattle.std.specs.Prelude.{◌≡◌, ◌++◌, ◌-◌, ◌≤◌, OnOk, IfOk, length};
ghost use Rattle.guest_build.specs.Places.{round_up, file_alignment};
ghost use Rattle.guest_build.specs.Image.{zeros, padded, dos_header, coff_header, standard_fields, windows_fields, directories, section_header, section_header_if, raw_size, data_raw, reloc_raw, section_table, directory_at, headers_of, raw_bytes, file_of, image_of};
ghost use Rattle.guest_build.specs.Views.{sections_of, drawn};

use crate::layout::{
    Frame, file_alignment, has_sites, layout_of, reloc_table, round_up, section_count,
};
use crate::little_endian::{put, put_zeros};
use crate::sections::Sections;
use std::alloc::{AllocError, Global};

/// A section that may be read, written or executed.
const EXECUTE: u64 = 0x2000_0000;

const READ: u64 = 0x4000_0000;

const WRITE: u64 = 0x8000_0000;

/// `MZ`, and where the signature stands.
#[tactic(auto, unfolding(crate::specs::Image::dos_header))]
fn put_dos_header(out: &mut Vec<u8>) -> Result<(), AllocError>
    ensures { OnOk result (out.new.items ≡ out.old.items ++ dos_header) }
{
    put(out, 2, 0x5a4d)?;
    put_zeros(out, 58)?;
    put(out, 4, 0x40)
}

/// The signature and the COFF header.
#[tactic(auto, unfolding(crate::specs::Image::coff_header))]
fn put_coff_header(out: &mut Vec<u8>, sections: u64) -> Result<(), AllocError>
    ensures { OnOk result (out.new.items ≡ out.old.items ++ coff_header sections) }
{
    put(out, 4, 0x4550)?;
    put(out, 2, 0x5064)?;
    put(out, 2, sections)?;
    put_zeros(out, 12)?;
    put(out, 2, 240)?;
    put(out, 2, 0)
}

/// The optional header up to FileAlignment.
#[tactic(auto, unfolding(crate::specs::Image::standard_fields))]
fn put_standard_fields(
    out: &mut Vec<u8>,
    entry: u64,
    base: u64,
    alignment: u64,
) -> Result<(), AllocError>
    ensures { OnOk result (out.new.items ≡ out.old.items ++ standard_fields entry base alignment) }
{
    put(out, 2, 0x20b)?;
    put_zeros(out, 14)?;
    put(out, 4, entry)?;
    put_zeros(out, 4)?;
    put(out, 8, base)?;
    put(out, 4, alignment)?;
    put(out, 4, file_alignment(alignment))
}

/// The optional header from there up to its directories.
#[tactic(auto, unfolding(crate::specs::Image::windows_fields))]
fn put_windows_fields(
    out: &mut Vec<u8>,
    size: u64,
    headers: u64,
    subsystem: u64,
) -> Result<(), AllocError>
    ensures { OnOk result (out.new.items ≡ out.old.items ++ windows_fields size headers subsystem) }
{
    put_zeros(out, 16)?;
    put(out, 4, size)?;
    put(out, 4, headers)?;
    put_zeros(out, 4)?;
    put(out, 2, subsystem)?;
    put_zeros(out, 38)?;
    put(out, 4, 16)
}

/// The directories.
#[tactic(auto, unfolding(crate::specs::Image::directories))]
fn put_directories(out: &mut Vec<u8>, at: u64, size: u64) -> Result<(), AllocError>
    ensures { OnOk result (out.new.items ≡ out.old.items ++ directories at size) }
{
    put_zeros(out, 40)?;
    put(out, 4, at)?;
    put(out, 4, size)?;
    put_zeros(out, 80)
}

/// Bytes, and zeros behind them up to a size.
fn put_padded(out: &mut Vec<u8>, size: u64, bytes: &[u8]) -> Result<(), AllocError>
    ensures { OnOk result (out.new.items ≡ out.old.items ++ padded size bytes.now) }
{
    out.extend_from_slice(bytes)?;
    put_zeros(out, size.saturating_sub(bytes.len() as u64))
}

/// How a section lies in memory and in the file.
#[derive(Drop)]
struct Header<'a> {
    name: &'a [u8],
    size: u64,
    at: u64,
    raw_size: u64,
    raw: u64,
    characteristics: u64,
}

/// A section header.
#[tactic(auto, unfolding(crate::specs::Image::section_header))]
fn put_section_header(out: &mut Vec<u8>, h: &Header) -> Result<(), AllocError>
    ensures { OnOk result (out.new.items ≡ out.old.items ++ section_header h.now.name.now h.now.size h.now.at h.now.raw_size h.now.raw h.now.characteristics) }
{
    put_padded(out, 8, h.name)?;
    put(out, 4, h.size)?;
    put(out, 4, h.at)?;
    put(out, 4, h.raw_size)?;
    put(out, 4, h.raw)?;
    put_zeros(out, 12)?;
    put(out, 4, h.characteristics)
}

/// A section header where the section isn't empty.
#[tactic(auto, unfolding(crate::specs::Image::section_header_if))]
fn put_section_header_if(out: &mut Vec<u8>, h: &Header) -> Result<(), AllocError>
    ensures { OnOk result (out.new.items ≡ out.old.items ++ section_header_if h.now.name.now h.now.size h.now.at h.now.raw_size h.now.raw h.now.characteristics) }
{
    if h.size == 0 {
        return Ok(());
    }
    put_section_header(out, h)
}

/// How many bytes a section has in the file.
fn raw_size(frame: &Frame, bytes: &[u8]) -> u64
    ensures { result ≡ round_up (file_alignment frame.now.alignment) (length bytes.now) }
{
    round_up(file_alignment(frame.alignment), bytes.len() as u64)
}

/// The section headers.
#[tactic(auto, unfolding(crate::specs::Image::section_table))]
fn put_section_table(
    out: &mut Vec<u8>,
    frame: &Frame,
    all: &Sections,
    table: &[u8],
) -> Result<(), AllocError>
    ensures { OnOk result (out.new.items ≡ out.old.items ++ section_table (drawn frame.now table.now) (sections_of all.now)) }
{
    let text_size = raw_size(frame, all.in_text.bytes.as_slice());
    let data_size = raw_size(frame, all.in_data.bytes.as_slice());
    let data_raw = frame.headers.wrapping_add(text_size);
    let reloc_raw = data_raw.wrapping_add(data_size);
    put_section_header(
        out,
        &Header {
            name: b".text",
            size: all.in_text.bytes.len() as u64,
            at: frame.text_from,
            raw_size: text_size,
            raw: frame.headers,
            characteristics: READ + EXECUTE,
        },
    )?;
    put_section_header_if(
        out,
        &Header {
            name: b".data",
            size: all.in_data.bytes.len() as u64,
            at: frame.data_from,
            raw_size: data_size,
            raw: data_raw,
            characteristics: READ + WRITE,
        },
    )?;
    put_section_header_if(
        out,
        &Header {
            name: b".reloc",
            size: table.len() as u64,
            at: frame.reloc_from,
            raw_size: raw_size(frame, table),
            raw: reloc_raw,
            characteristics: READ,
        },
    )
}

/// Where the base relocations are, 0 where there are none.
fn directory_at(frame: &Frame, table: &[u8]) -> u64
    ensures { result ≡ directory_at (drawn frame.now table.now) }
{
    if table.is_empty() {
        0
    } else {
        frame.reloc_from
    }
}

/// All headers.
#[tactic(auto, unfolding(crate::specs::Image::headers_of))]
fn put_headers(
    out: &mut Vec<u8>,
    entry: u64,
    frame: &Frame,
    all: &Sections,
    table: &[u8],
) -> Result<(), AllocError>
    ensures { OnOk result (out.new.items ≡ out.old.items ++ headers_of entry (drawn frame.now table.now) (sections_of all.now)) }
{
    let count = section_count(all.in_data.bytes.len() as u64, has_sites(all));
    put_dos_header(out)?;
    put_coff_header(out, count)?;
    put_standard_fields(out, entry, all.settings.base(), frame.alignment)?;
    put_windows_fields(out, frame.size, frame.headers, all.settings.subsystem())?;
    put_directories(out, directory_at(frame, table), table.len() as u64)?;
    put_section_table(out, frame, all, table)
}

/// A section's bytes in the file.
fn put_raw(out: &mut Vec<u8>, frame: &Frame, bytes: &[u8]) -> Result<(), AllocError>
    ensures { OnOk result (out.new.items ≡ out.old.items ++ padded (round_up (file_alignment frame.now.alignment) (length bytes.now)) bytes.now) }
{
    put_padded(out, raw_size(frame, bytes), bytes)
}

/// All headers, up to SizeOfHeaders.
fn put_padded_headers(
    alloc: Global,
    out: &mut Vec<u8>,
    entry: u64,
    frame: &Frame,
    all: &Sections,
    table: &[u8],
) -> Result<(), AllocError>
    ensures { OnOk result (out.new.items ≡ out.old.items ++ padded frame.now.headers (headers_of entry (drawn frame.now table.now) (sections_of all.now))) }
{
    let mut headers = Vec::new(alloc);
    put_headers(&mut headers, entry, frame, all, table)?;
    put_padded(out, frame.headers, headers.as_slice())
}

/// The file of an image that is laid out.
#[tactic(auto, unfolding(crate::specs::Image::file_of))]
fn file_of(
    alloc: Global,
    entry: u64,
    frame: &Frame,
    all: &Sections,
    table: &[u8],
) -> Result<Vec<u8>, AllocError>
    ensures { IfOk result (λ file. file.items ≡ file_of entry (drawn frame.now table.now) (sections_of all.now)) }
{
    let mut out = Vec::new(alloc);
    put_padded_headers(alloc, &mut out, entry, frame, all, table)?;
    put_raw(&mut out, frame, all.in_text.bytes.as_slice())?;
    put_raw(&mut out, frame, all.in_data.bytes.as_slice())?;
    put_raw(&mut out, frame, table)?;
    Ok(out)
}

/// The file of an image with an entry point.
pub fn image_of(alloc: Global, entry: u64, all: &Sections) -> Result<Vec<u8>, AllocError>
    ensures { IfOk result (λ file. file.items ≡ image_of entry (sections_of all.now)) }
{
    let table = reloc_table(alloc, all)?;
    let frame = layout_of(all, table.len() as u64);
    file_of(alloc, entry, &frame, all, table.as_slice())
}

//! The headers of a file, field by field.
#![tactic(auto)]

ghost use Rattle.std.specs.Prelude.{◌≡◌, ◌≤◌, ◌+◌, ◌*◌, ◌%◌, ◌^◌, ◌<◌, ◌==◌, min, length, IfOk, OnOk};
ghost use Rattle.pe_image.specs.Checks.{judged};
ghost use Rattle.pe_image.specs.ImageOf.{signature_at, signature_checks, coff_checks, optional_checks, directory_checks, section_header_checks, table_checks, field_checks};
ghost use Rattle.pe_image.specs.Parts.{coff_of, optional_of, directory_of, headers_in};

use crate::fault::PeFault;
use crate::fields::{find_field, u16_at, u32_at, u64_at};

/// What the COFF header says that is used.
#[derive(Drop)]
pub struct Coff {
    pub sections: u16,
    pub optional_size: u16,
    pub stripped: bool,
}

/// What the optional header says that is used. The directories are at most 16.
#[derive(Drop)]
pub struct Optional {
    pub entry: u32,
    pub image_base: u64,
    pub alignment: u32,
    pub size: u32,
    pub headers: u32,
    pub subsystem: u16,
    pub directories: u32,
}

/// A data directory.
#[derive(Drop)]
pub struct Directory {
    pub at: u32,
    pub len: u32,
}

/// What the headers of a file say.
#[derive(Drop)]
pub struct Headers {
    pub optional_size: u16,
    pub sections: u16,
    pub stripped: bool,
    pub optional: Optional,
    pub relocations: Directory,
    /// Where the section headers begin in the file.
    pub table: u32,
}

/// Where the signature `PE\0\0` stands ("MS-DOS Stub", "Signature").
pub fn read_signature(bytes: &[u8]) -> Result<u32, PeFault>
    ensures read { result ≡ judged (signature_checks bytes.now) (signature_at bytes.now) }
    ensures inside { IfOk result (λ at. at + 4 ≤ length bytes.now) }
{
    if u16_at(bytes, 0)? != 0x5a4d {
        return Err(PeFault::Magic);
    }
    let at = u32_at(bytes, 0x3c)?;
    if u32_at(bytes, at)? != 0x4550 {
        return Err(PeFault::Magic);
    }
    Ok(at)
}

/// The COFF header at an offset.
pub fn read_coff(bytes: &[u8], at: u32) -> Result<Coff, PeFault>
    requires { at ≤ 0x400004 }
    ensures { result ≡ judged (coff_checks bytes.now at) (coff_of bytes.now at) }
{
    let machine = u16_at(bytes, at)?;
    let sections = u16_at(bytes, at + 2)?;
    find_field(bytes, at + 4, 4)?;
    find_field(bytes, at + 8, 4)?;
    find_field(bytes, at + 12, 4)?;
    let optional_size = u16_at(bytes, at + 16)?;
    let characteristics = u16_at(bytes, at + 18)?;
    if machine != 0x5064 {
        return Err(PeFault::Machine);
    }
    Ok(Coff {
        sections,
        optional_size,
        stripped: characteristics % 2 == 1,
    })
}

/// The optional header at an offset.
pub fn read_optional(bytes: &[u8], at: u32) -> Result<Optional, PeFault>
    requires { at ≤ 0x400018 }
    ensures read { result ≡ judged (optional_checks bytes.now at) (optional_of bytes.now at) }
    ensures few { IfOk result (λ optional. optional.directories ≤ 16) }
{
    if u16_at(bytes, at)? != 0x20b {
        return Err(PeFault::Magic);
    }
    let entry = u32_at(bytes, at + 16)?;
    let image_base = u64_at(bytes, at + 24)?;
    let alignment = u32_at(bytes, at + 32)?;
    find_field(bytes, at + 36, 4)?;
    let size = u32_at(bytes, at + 56)?;
    let headers = u32_at(bytes, at + 60)?;
    let subsystem = u16_at(bytes, at + 68)?;
    let directories = u32_at(bytes, at + 108)?.min(16);
    Ok(Optional {
        entry,
        image_base,
        alignment,
        size,
        headers,
        subsystem,
        directories,
    })
}

/// Directory 5, the base relocations, of an optional header at an offset with so many directories.
pub fn read_directory(bytes: &[u8], at: u32, count: u32) -> Result<Directory, PeFault>
    requires { at ≤ 0x400018 }
    ensures { result ≡ judged (directory_checks bytes.now at count) (directory_of bytes.now at count) }
{
    if count < 6 {
        return Ok(Directory { at: 0, len: 0 });
    }
    Ok(Directory {
        at: u32_at(bytes, at + 152)?,
        len: u32_at(bytes, at + 156)?,
    })
}

/// Whether a section header at an offset lies wholly in the file.
fn find_section_header(bytes: &[u8], at: u32) -> Result<(), PeFault>
    requires { at < 2 ^ 31 }
    ensures found { result ≡ judged (section_header_checks bytes.now at) tt }
    ensures inside { OnOk result (at + 40 ≤ length bytes.now) }
{
    find_field(bytes, at, 8)?;
    find_field(bytes, at + 8, 4)?;
    find_field(bytes, at + 12, 4)?;
    find_field(bytes, at + 16, 4)?;
    find_field(bytes, at + 20, 4)?;
    find_field(bytes, at + 24, 4)?;
    find_field(bytes, at + 28, 4)?;
    find_field(bytes, at + 32, 2)?;
    find_field(bytes, at + 34, 2)?;
    find_field(bytes, at + 36, 4)?;
    Ok(())
}

/// Whether so many section headers from an offset on lie wholly in the file.
pub fn find_table(bytes: &[u8], at: u32, count: u16) -> Result<(), PeFault>
    requires { at < 2 ^ 30 }
    ensures found { result ≡ judged (table_checks bytes.now at count) tt }
    ensures inside { OnOk result (0 < count → at + 40 * count ≤ length bytes.now) }
{
    for i in 0..count {
        find_section_header(bytes, at + 40 * i as u32)?;
    }
    Ok(())
}

/// The headers of a file, each field of which lies wholly in it, the section headers included.
#[tactic(auto, unfolding(crate::specs::ImageOf::field_checks))]
pub fn read_headers(bytes: &[u8]) -> Result<Headers, PeFault>
    requires { length bytes.now ≤ 0x400000 }
    ensures read { result ≡ judged (field_checks bytes.now) (headers_in bytes.now) }
    ensures table { IfOk result (λ headers. headers.table < 2 ^ 30) }
    ensures inside { IfOk result (λ headers. 0 < headers.sections → headers.table + 40 * headers.sections ≤ length bytes.now) }
    ensures few { IfOk result (λ headers. headers.optional.directories ≤ 16) }
{
    let signature = read_signature(bytes)?;
    let coff = read_coff(bytes, signature + 4)?;
    let optional = read_optional(bytes, signature + 24)?;
    let relocations = read_directory(bytes, signature + 24, optional.directories)?;
    let table = signature + 24 + coff.optional_size as u32;
    find_table(bytes, table, coff.sections)?;
    Ok(Headers {
        optional_size: coff.optional_size,
        sections: coff.sections,
        stripped: coff.stripped,
        optional,
        relocations,
        table,
    })
}

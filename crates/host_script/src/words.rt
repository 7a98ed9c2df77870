//! The texts of lists of steps: entries of a map, arguments, buffers, and what is shown.
ghost use Rattle.std.specs.Prelude.{◌≡◌, IfOk, length, option_copied};
ghost use Rattle.host_script.specs.Words.{cut, seen_cut, small_number, entry_to, entry_behind, entry_of, behind_at, arg_of, is_buffer, buffer_of, is_shown, shown_of};

use crate::lists::Form;
use crate::script::{Arg, Buffer, MapEntry, Shown};
use record_text::bytes_of;
use std::alloc::{AllocError, Global};
use uh_base::number;

/// The first part, and what stands behind the space after it.
fn cut(text: &str) -> Option<(&str, &str)>
    ensures { seen_cut result ≡ cut text.now }
{
    text.split_once(' ')
}

/// A number below 2^32.
#[tactic(auto, unfolding(crate::specs::Words::small_number))]
fn small_number(text: &str) -> Option<u32>
    ensures { result ≡ small_number text.now }
{
    match number(text) {
        Some(n) => if n < 1 << 32 { Some(n as u32) } else { None },
        None => None,
    }
}

#[tactic(auto, unfolding(crate::specs::Words::entry_to))]
fn entry_to(phys: u64, pages: u64, virt: &str, plain: bool) -> Option<MapEntry>
    ensures { result ≡ entry_to phys pages virt.now plain }
{
    let virt = number(virt)?;
    Some(MapEntry {
        phys,
        pages,
        virt,
        plain,
    })
}

/// An entry behind its physical address and its pages.
#[tactic(auto, unfolding(crate::specs::Words::entry_behind))]
fn entry_behind(phys: u64, pages: u64, text: &str) -> Option<MapEntry>
    ensures { result ≡ entry_behind phys pages text.now }
{
    let Some((virt, word)) = cut(text) else {
        return entry_to(phys, pages, text, false);
    };
    if word == "plain" {
        entry_to(phys, pages, virt, true)
    } else {
        None
    }
}

/// `PHYS PAGES VIRT`, and ` plain` behind it where the entry lacks the attribute RUNTIME.
#[tactic(auto, unfolding(crate::specs::Words::entry_of))]
fn entry_of(text: &str) -> Option<MapEntry>
    ensures { result ≡ entry_of text.now }
{
    let (first, rest) = cut(text)?;
    let phys = number(first)?;
    let (second, rest) = cut(rest)?;
    let pages = number(second)?;
    entry_behind(phys, pages, rest)
}

/// What stands behind an `@` in front.
fn behind_at(text: &str) -> Option<&str>
    ensures { option_copied result ≡ behind_at text.now }
{
    text.strip_prefix('@')
}

/// `N`, or `@N`.
#[tactic(auto, unfolding(crate::specs::Words::arg_of))]
fn arg_of(text: &str) -> Option<Arg>
    ensures { result ≡ arg_of text.now }
{
    match behind_at(text) {
        Some(offset) => {
            let n = number(offset)?;
            Some(Arg::At(n))
        }
        None => {
            let n = number(text)?;
            Some(Arg::Number(n))
        }
    }
}

/// Whether there are bytes, which end at most at 65,536.
fn is_buffer(offset: u32, hex: &[u8]) -> bool
    ensures { result ≡ is_buffer offset hex.now }
{
    !hex.is_empty() && hex.len() <= 65536 && offset as usize + hex.len() <= 65536
}

/// `OFFSET HEX`.
#[tactic(auto, unfolding(crate::specs::Words::buffer_of))]
fn buffer_of(alloc: Global, text: &str) -> Result<Option<Buffer>, AllocError>
    ensures { IfOk result (λ buffer. buffer ≡ buffer_of text.now) }
{
    let Some((first, rest)) = cut(text) else {
        return Ok(None);
    };
    let Some(offset) = small_number(first) else {
        return Ok(None);
    };
    let Some(hex) = bytes_of(alloc, rest)? else {
        return Ok(None);
    };
    if is_buffer(offset, hex.as_slice()) {
        Ok(Some(Buffer { offset, hex }))
    } else {
        Ok(None)
    }
}

/// Whether there are 1 to 4,096 bytes, which end at most at 65,536.
fn is_shown(offset: u32, len: u32) -> bool
    ensures { result ≡ is_shown offset len }
{
    len >= 1 && len <= 4096 && offset <= 65536 - len
}

/// `OFFSET LEN`.
#[tactic(auto, unfolding(crate::specs::Words::shown_of))]
fn shown_of(text: &str) -> Option<Shown>
    ensures { result ≡ shown_of text.now }
{
    let (first, rest) = cut(text)?;
    let offset = small_number(first)?;
    let len = small_number(rest)?;
    if is_shown(offset, len) {
        Some(Shown { offset, len })
    } else {
        None
    }
}

impl Form for MapEntry {
    ghost form = { entry_of };

    fn read(_alloc: Global, text: &str) -> Result<Option<MapEntry>, AllocError> {
        Ok(entry_of(text))
    }
}

impl Form for Arg {
    ghost form = { arg_of };

    fn read(_alloc: Global, text: &str) -> Result<Option<Arg>, AllocError> {
        Ok(arg_of(text))
    }
}

impl Form for Buffer {
    ghost form = { buffer_of };

    fn read(alloc: Global, text: &str) -> Result<Option<Buffer>, AllocError> {
        buffer_of(alloc, text)
    }
}

impl Form for Shown {
    ghost form = { shown_of };

    fn read(_alloc: Global, text: &str) -> Result<Option<Shown>, AllocError> {
        Ok(shown_of(text))
    }
}

//! Strings that a guest gives the console.
ghost use Rattle.std.specs.Prelude.{◌≡◌, ◌<◌, ◌≤◌, ◌-◌, ◌+◌, ◌*◌, ◌%◌, ◌^◌, IfOk, IfSome, Some, None, if◌then◌else◌, option_map};
ghost use Rattle.guest_memory.specs.Pages.{bytes_of};
ghost use Rattle.address_view.specs.Windows.{see, seen_bytes};
ghost use Rattle.address_view.specs.Seen.{is_seen};
ghost use Rattle.console_services.specs.Console.{output_string, test_string, string_given};
ghost use Rattle.console_services.specs.Strings.{string_at, unit_is_seen, unit_at, SeenFrom};
ghost use Rattle.console_services.specs.Views.{reply_of};

use address_view::{View, seen_part};
use guest_memory::GuestMemory;
use std::alloc::{AllocError, Global};
use system_tables::console_text;
use uh_base::{EfiStatus, Text};

/// The most units of a string, with the one of 0 that ends it.
const UNITS: u32 = 4096;

/// The most bytes of a string.
const MOST_BYTES: u64 = 2 * UNITS as u64;

/// What a service of the console answers.
#[derive(Debug, Drop)]
pub enum Reply {
    /// A value for a0.
    Answers(u64),
    /// A text that it prints, and a value for a0.
    Prints(Text, u64),
}

/// The byte that is seen at an address, whatever the rights there.
#[tactic(auto, unfolding(address_view::specs::Windows::seen_bytes))]
fn seen_byte(view: &View, memory: &GuestMemory, at: u64) -> Option<u8>
    ensures { result ≡ (if is_seen (see view.now) memory.now at then Some (seen_bytes (see view.now) (bytes_of memory.now) at) else None) }
{
    match view.translate(at) {
        Some(place) => memory.get(place),
        None => None,
    }
}

/// The unit that is seen at an address.
#[tactic(auto, unfolding(uh_base::specs::Bytes::number_at))]
fn seen_unit(view: &View, memory: &GuestMemory, at: u64) -> Option<u16>
    ensures { result ≡ (if unit_is_seen view.now memory.now at then Some (unit_at view.now memory.now at) else None) }
{
    let low = seen_byte(view, memory, at)?;
    let high = seen_byte(view, memory, at.wrapping_add(1))?;
    Some(u16::from_le_bytes([low, high]))
}

/// A unit that is seen at an address, and the bytes behind it; `part` is seen from the address on. A unit that doesn't lie in
/// `part` is read byte by byte.
#[tactic(auto, using(crate::proofs::StringLemmas::none_seen, crate::proofs::StringLemmas::part_unit))]
fn unit_of<'m>(
    view: &View,
    memory: &GuestMemory,
    at: u64,
    part: &'m [u8],
) -> Option<(u16, &'m [u8])>
    requires { SeenFrom view.now memory.now at part.now }
    ensures unit { option_map (λ read. read.0) result ≡ (if unit_is_seen view.now memory.now at then Some (unit_at view.now memory.now at) else None) }
    ensures later { IfSome result (λ read. SeenFrom view.now memory.now ((at + 2) % 2 ^ 64) read.1.now) }
{
    if part.len() < 2 {
        let unit = seen_unit(view, memory, at)?;
        return Some((unit, &part[..0]));
    }
    Some((u16::from_le_bytes([part[0], part[1]]), &part[2..]))
}

/// Bytes that are seen from an address on: `part` as long as a unit is left of it, and then those of a page.
#[tactic(auto, using(crate::proofs::StringLemmas::none_seen))]
fn part_at<'m>(view: &View, memory: &'m GuestMemory, at: u64, part: &'m [u8]) -> &'m [u8]
    requires { SeenFrom view.now memory.now at part.now }
    ensures { SeenFrom view.now memory.now at result.now }
{
    if part.len() >= 2 {
        return part;
    }
    match seen_part(memory, view, at, MOST_BYTES) {
        Some(found) => found,
        None => &part[..0],
    }
}

/// The units of a string, without the one of 0 that ends it.
fn string_at(
    alloc: Global,
    view: &View,
    memory: &GuestMemory,
    at: u64,
) -> Result<Option<Vec<u16>>, AllocError>
    ensures { IfOk result (λ units. option_map (λ list. list.items) units ≡ string_at 4096 view.now memory.now at) }
{
    let mut units = Vec::new(alloc);
    let mut here = at;
    let mut part: &[u8] = &[];
    for i in 0..UNITS {
        let (unit, later) = match unit_of(view, memory, here, part_at(view, memory, here, part)) {
            Some(read) => read,
            None => return Ok(None),
        };
        if unit == 0 {
            return Ok(Some(units));
        }
        units.push(unit)?;
        part = later;
        here = here.wrapping_add(2);
    }
    Ok(None)
}

/// The units of the string at an address that isn't 0.
fn string_given(
    alloc: Global,
    view: &View,
    memory: &GuestMemory,
    at: u64,
) -> Result<Option<Vec<u16>>, AllocError>
    ensures { IfOk result (λ units. option_map (λ list. list.items) units ≡ string_given view.now memory.now at) }
{
    if at == 0 {
        return Ok(None);
    }
    string_at(alloc, view, memory, at)
}

/// OutputString (UEFI 2.10, 12.4.3): prints the string at an address. Where a unit of it has no text, the status is the
/// warning UNKNOWN_GLYPH.
#[tactic(auto, unfolding(crate::specs::Console::output_string))]
pub fn output_string(
    alloc: Global,
    view: &View,
    memory: &GuestMemory,
    at: u64,
) -> Result<Reply, AllocError>
    ensures { IfOk result (λ reply. reply_of reply ≡ output_string view.now memory.now at) }
{
    match string_given(alloc, view, memory, at)? {
        None => Ok(Reply::Answers(EfiStatus::INVALID_PARAMETER.0)),
        Some(units) => {
            let (text, is_skipped) = console_text(alloc, units.as_slice())?;
            let status = if is_skipped {
                EfiStatus::WARN_UNKNOWN_GLYPH
            } else {
                EfiStatus::SUCCESS
            };
            Ok(Reply::Prints(Text::from_string(text), status.0))
        }
    }
}

/// TestString (UEFI 2.10, 12.4.4): the status says whether OutputString would print each unit of the string at an address.
#[tactic(auto, unfolding(crate::specs::Console::test_string))]
pub fn test_string(
    alloc: Global,
    view: &View,
    memory: &GuestMemory,
    at: u64,
) -> Result<EfiStatus, AllocError>
    ensures { IfOk result (λ status. status.0 ≡ test_string view.now memory.now at) }
{
    match string_given(alloc, view, memory, at)? {
        None => Ok(EfiStatus::INVALID_PARAMETER),
        Some(units) => {
            let (_, is_skipped) = console_text(alloc, units.as_slice())?;
            if is_skipped {
                Ok(EfiStatus::UNSUPPORTED)
            } else {
                Ok(EfiStatus::SUCCESS)
            }
        }
    }
}

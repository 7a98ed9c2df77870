//! Strings that a call brings.
#![tactic(auto)]

ghost use Rattle.std.specs.Prelude.{◌≡◌, IfOk, option_map};
ghost use Rattle.guest_memory.specs.Pages.{bytes_of};
ghost use Rattle.address_view.specs.Windows.{see, seen_bytes};
ghost use Rattle.address_view.specs.Seen.{all_pass};
ghost use Rattle.runtime_services.specs.Inputs.{string_test, string_from, string_at};

use address_view::{View, allowed, is_seen, number_slowly};
use guest_memory::GuestMemory;
use std::alloc::{AllocError, Global};

/// The most units of a string, with the one of 0 that ends it.
const MOST_UNITS: u32 = 4096;

/// Whether both bytes of a unit are seen, and may be written where that is asked.
fn unit_passes(memory: &GuestMemory, view: &View, at: u64, written: bool) -> bool
    ensures { result ≡ all_pass (string_test written (see view.now) memory.now) at 2 }
{
    if written {
        allowed(memory, view, at, 2, true)
    } else {
        is_seen(memory, view, at, 2)
    }
}

/// The units from an address on, without the one of 0 that ends them. None where one of their bytes isn't seen, or may
/// not be written where that is asked, or none of the first 4,096 is 0.
fn units_at(
    alloc: Global,
    memory: &GuestMemory,
    view: &View,
    at: u64,
    written: bool,
) -> Result<Option<Vec<u16>>, AllocError>
    ensures { IfOk result (λ units. option_map (λ list. list.items) units ≡ string_from (string_test written (see view.now) memory.now) (seen_bytes (see view.now) (bytes_of memory.now)) 4096 at) }
{
    let mut units = Vec::new(alloc);
    let mut here = at;
    let mut left = MOST_UNITS;
    while left > 0 {
        if !unit_passes(memory, view, here, written) {
            return Ok(None);
        }
        let unit = number_slowly(memory, view, here, 2) as u16;
        if unit == 0 {
            return Ok(Some(units));
        }
        units.push(unit)?;
        here = here.wrapping_add(2);
        left -= 1;
    }
    Ok(None)
}

/// The units of the string at an address that isn't 0.
pub(crate) fn read_string(
    alloc: Global,
    memory: &GuestMemory,
    view: &View,
    at: u64,
    written: bool,
) -> Result<Option<Vec<u16>>, AllocError>
    ensures { IfOk result (λ units. option_map (λ list. list.items) units ≡ string_at written (see view.now) memory.now at) }
{
    if at == 0 {
        return Ok(None);
    }
    units_at(alloc, memory, view, at, written)
}

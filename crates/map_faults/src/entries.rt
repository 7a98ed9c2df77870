//! Faults of the entries of a map.
#![tactic(auto)]

ghost use Rattle.std.specs.Prelude.{◌≡◌, ◌<◌, ◌^◌, [], length};
ghost use Rattle.map_faults.specs.Grounds.{window_pages};
ghost use Rattle.map_faults.specs.Faults.{entry_fault, fault_of, entries_fault, window_fault, is_mapped, unmapped_fault};

use crate::fault::MapFault;
use crate::ground::MapGround;
use crate::rules::{
    is_known, is_named_by, is_out, is_runtime, is_twice, is_unaligned, overlaps, shadows,
};
use memory_map::Descriptor;

/// The pages of the operating system's window.
const WINDOW_PAGES: u64 = 33;

/// The first rule that an entry for the runtime fails, behind the entries before it.
#[tactic(auto, unfolding(crate::specs::Faults::entry_fault))]
fn entry_fault(ground: &MapGround, earlier: &[Descriptor], entry: &Descriptor) -> Option<MapFault>
    requires { length earlier.now < 2 ^ 32 }
    ensures { result ≡ entry_fault ground.now earlier.now (length earlier.now) entry.now }
{
    let number = earlier.len() as u32;
    let (virt, pages) = (entry.virt, entry.pages);
    if !is_known(ground.descriptors, entry) {
        Some(MapFault::NotFound(number))
    } else if is_twice(earlier, entry) {
        Some(MapFault::Twice(number))
    } else if is_unaligned(virt) {
        Some(MapFault::Unaligned(number))
    } else if is_out(virt, pages) {
        Some(MapFault::OutOfRange(number))
    } else if overlaps(earlier, virt, pages) {
        Some(MapFault::Overlap(number))
    } else if shadows(&ground.layout, ground.descriptors, virt, pages) {
        Some(MapFault::Shadow(number))
    } else {
        None
    }
}

/// The first rule that an entry fails. One that isn't for the runtime fails none.
fn fault_of(ground: &MapGround, earlier: &[Descriptor], entry: &Descriptor) -> Option<MapFault>
    requires { length earlier.now < 2 ^ 32 }
    ensures { result ≡ fault_of ground.now earlier.now (length earlier.now) entry.now }
{
    if is_runtime(entry) {
        entry_fault(ground, earlier, entry)
    } else {
        None
    }
}

/// The first fault of the entries.
#[tactic(auto, unfolding(crate::specs::Faults::entries_fault))]
pub(crate) fn entries_fault(ground: &MapGround, entries: &[Descriptor]) -> Option<MapFault>
    requires { length entries.now < 2 ^ 32 }
    ensures { result ≡ entries_fault ground.now [] entries.now }
{
    for (number, entry) in entries.iter().enumerate() {
        if let Some(fault) = fault_of(ground, &entries[..number], entry) {
            return Some(fault);
        }
    }
    None
}

/// The fault of the operating system's window, if its new place has one.
#[tactic(auto, unfolding(crate::specs::Faults::window_fault))]
pub(crate) fn window_fault(ground: &MapGround, entries: &[Descriptor]) -> Option<MapFault>
    ensures { result ≡ window_fault ground.now entries.now }
{
    let virt = ground.os_virtual;
    if is_unaligned(virt)
        || is_out(virt, WINDOW_PAGES)
        || overlaps(entries, virt, WINDOW_PAGES)
        || shadows(&ground.layout, ground.descriptors, virt, WINDOW_PAGES)
    {
        Some(MapFault::OsWindow)
    } else {
        None
    }
}

/// Whether an entry for the runtime names the descriptor.
fn is_mapped(entries: &[Descriptor], descriptor: &Descriptor) -> bool
    ensures { result ≡ is_mapped entries.now descriptor.now }
{
    entries.iter().any(|entry| is_runtime(entry) && is_named_by(entry, descriptor))
}

/// The first runtime descriptor without an entry.
#[tactic(auto, unfolding(crate::specs::Faults::unmapped_fault))]
pub(crate) fn unmapped_fault(entries: &[Descriptor], descriptors: &[Descriptor]) -> Option<MapFault>
    requires { length descriptors.now < 2 ^ 32 }
    ensures { result ≡ unmapped_fault entries.now 0 descriptors.now }
{
    for (number, descriptor) in descriptors.iter().enumerate() {
        if is_runtime(descriptor) && !is_mapped(entries, descriptor) {
            return Some(MapFault::NoMapping(number as u32));
        }
    }
    None
}

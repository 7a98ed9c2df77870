//! Whether a virtual address map is accepted.
#![tactic(auto)]

ghost use Rattle.std.specs.Prelude.{◌≡◌, ◌≤◌, ◌/◌, None, length};
ghost use Rattle.map_faults.specs.Grounds.{IsGround};
ghost use Rattle.map_faults.specs.Faults.{is_size, call_fault, fault_after, first_fault};

use crate::entries::{entries_fault, unmapped_fault, window_fault};
use crate::fault::MapFault;
use crate::ground::{MapCall, MapGround};
use crate::images::reloc_fault;

/// The size of a descriptor, in bytes, and its version.
const SIZE: u64 = 40;

const VERSION: u32 = 1;

/// The most entries.
const MOST: u64 = 1024;

/// The first fault of the call itself.
#[tactic(auto, unfolding(crate::specs::Faults::call_fault))]
fn call_fault(ground: &MapGround, map: &MapCall) -> Option<MapFault>
    ensures { result ≡ call_fault ground.now map.now }
{
    if !ground.gone {
        Some(MapFault::BeforeExit)
    } else if ground.mapped {
        Some(MapFault::AlreadyMapped)
    } else if map.descriptor_size != SIZE {
        Some(MapFault::DescriptorSize)
    } else if map.version != VERSION {
        Some(MapFault::DescriptorVersion)
    } else if map.map_size % SIZE != 0 || map.map_size / SIZE > MOST {
        Some(MapFault::MapSize)
    } else {
        None
    }
}

/// The first fault of the entries, the operating system's window, the runtime descriptors and the images that stay.
#[tactic(auto, using(crate::proofs::RuleLemmas::few_descriptors))]
fn fault_after(ground: &MapGround, map: &MapCall) -> Option<MapFault>
    requires ground { IsGround ground.now }
    requires few { length map.now.entries ≤ 1024 }
    ensures { result ≡ fault_after ground.now map.now.entries }
{
    let entries = map.entries.as_slice();
    if let Some(fault) = entries_fault(ground, entries) {
        return Some(fault);
    }
    if let Some(fault) = window_fault(ground, entries) {
        return Some(fault);
    }
    if let Some(fault) = unmapped_fault(entries, ground.descriptors) {
        return Some(fault);
    }
    reloc_fault(entries, ground.kept)
}

/// The first fault of a virtual address map, if it has one. Where the call itself has none, `entries` are as many as fit the
/// size. It takes no memory. Of n entries and m descriptors the pairs of entries and each entry with each descriptor are
/// gone through once.
#[tactic(auto, using(crate::proofs::AcceptedLemmas::few_entries), unfolding(crate::specs::Faults::first_fault))]
pub fn check_map(ground: &MapGround, map: &MapCall) -> Option<MapFault>
    requires ground { IsGround ground.now }
    requires items { call_fault ground.now map.now ≡ None → length map.now.entries ≡ map.now.map_size / 40 }
    ensures { result ≡ first_fault ground.now map.now }
{
    match call_fault(ground, map) {
        Some(fault) => Some(fault),
        None => fault_after(ground, map),
    }
}

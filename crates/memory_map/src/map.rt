//! The memory map.
#![tactic(auto)]

ghost use Rattle.std.specs.Prelude.{◌≡◌, ◌≢◌, ◌≤◌, ◌<◌, ◌+◌, ◌++◌, ◌^◌, IfOk, length, drop, replicate, slice_index_or};
ghost use Rattle.page_alloc.specs.Runs.{all_pages, NoneEmpty};
ghost use Rattle.memory_map.specs.Map.{map_of, descriptor_of, types_of};

use crate::cursor::MapCursor;
use crate::descriptor::Descriptor;
use page_alloc::{PageMap, Run};
use std::alloc::{AllocError, Global};

/// How many of the first runs have one type, and how many pages they have.
pub fn stretch(runs: &[Run]) -> (usize, u64)
    requires some { 0 < length runs.now }
    requires few { length (all_pages runs.now) < 2 ^ 40 }
    requires none_empty { NoneEmpty runs.now }
    ensures runs { 0 < result.0 }
    ensures below { result.0 ≤ length runs.now }
    ensures pages { 0 < result.1 }
    ensures types { (d : Run) → types_of (all_pages runs.now) ≡ replicate result.1 (slice_index_or runs.now 0 d).page.memory_type ++ types_of (all_pages (drop result.0 runs.now)) }
    ensures differ { (d : Run) → result.0 < length runs.now → (slice_index_or runs.now 0 d).page.memory_type ≢ (slice_index_or runs.now result.0 d).page.memory_type }
{
    let memory_type = runs[0].page.memory_type;
    let mut pages = 0;
    for (count, run) in runs.iter().enumerate() {
        if run.page.memory_type != memory_type {
            return (count, pages);
        }
        pages += u64::from(run.count);
    }
    (runs.len(), pages)
}

/// The memory map: the longest runs of pages of one type, from the lowest address on.
pub fn descriptors(alloc: Global, map: &PageMap) -> Result<Vec<Descriptor>, AllocError>
    ensures { IfOk result (λ list. list.items ≡ map_of map.now) }
{
    let mut cursor = MapCursor::new(map);
    let mut list = Vec::new(alloc);
    while let Some(descriptor) = cursor.next() {
        list.push(descriptor)?;
    }
    Ok(list)
}

/// The descriptor of the memory map that holds an address, None outside RAM. It takes no memory.
pub fn descriptor_at(map: &PageMap, at: u64) -> Option<Descriptor>
    ensures { result ≡ descriptor_of (map_of map.now) at }
{
    let mut cursor = MapCursor::new(map);
    while let Some(descriptor) = cursor.next() {
        if descriptor.holds(at) {
            return Some(descriptor);
        }
    }
    None
}

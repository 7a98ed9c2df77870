//! The descriptors of a memory map, one by one.
#![tactic(auto)]

ghost use Rattle.std.specs.Prelude.{◌≡◌, List};
ghost use Rattle.memory_map.specs.Map.{map_of, IsNext};

use crate::descriptor::{Descriptor, described};
use crate::map::stretch;
use page_alloc::{PageMap, Run};
use std::marker::Model;

/// What is left of a memory map, from the lowest address on: `descriptors` one by one. It takes no memory.
#[derive(Drop)]
pub struct MapCursor<'a> {
    runs: &'a [Run],
    at: u64,
}

impl<'a> Model for MapCursor<'a> {
    ghost use Rattle.std.specs.Prelude.{List, ◌≤◌, ◌+◌, ◌*◌, ◌^◌, length};
    ghost use Rattle.page_alloc.specs.Runs.{all_pages, NoneEmpty};
    ghost use Rattle.memory_map.specs.Map.{map_from, types_of};
    ghost use Rattle.memory_map.specs.declared.descriptor.Descriptor.{Descriptor as OneDescriptor};

    ghost Value = { List OneDescriptor };

    ghost view = { λ c. map_from c.at (types_of (all_pages c.runs.now)) };

    ghost invariant = { λ c. NoneEmpty c.runs.now × (c.at + 4096 * length (all_pages c.runs.now) ≤ 2 ^ 47) };
}

impl<'a> MapCursor<'a> {
    /// The whole memory map.
    pub fn new(map: &'a PageMap) -> MapCursor<'a>
        ensures { result ≡ map_of map.now }
    {
        map.whole();
        MapCursor {
            runs: map.runs(),
            at: map.base(),
        }
    }

    /// The first descriptor of what is left, which is then left no more.
    pub fn next(&mut self) -> Option<Descriptor>
        ensures { IsNext result self.old self.new }
    {
        if self.runs.is_empty() {
            return None;
        }
        let (count, pages) = stretch(self.runs);
        let descriptor = described(self.at, self.runs[0].page.memory_type, pages);
        self.at += 4096 * pages;
        self.runs = &self.runs[count..];
        Some(descriptor)
    }
}

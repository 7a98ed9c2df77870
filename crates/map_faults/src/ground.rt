//! What a virtual address map is judged by.
#![tactic(auto)]

use base_reloc::Site;
use memory_map::Descriptor;
use page_alloc::Layout;
use std::marker::Model;

/// A runtime driver that stays when boot services end.
#[derive(Drop)]
pub struct Kept {
    /// Its handle, a multiple of 16.
    pub handle: u64,
    /// The physical address of its first byte.
    pub base: u64,
    /// How many pages of 4,096 bytes it has.
    pub pages: u32,
    /// What moves with it; offsets are from its base.
    pub sites: Vec<Site>,
    /// The words of these sites as its load left them.
    pub words: Vec<u64>,
    /// One mark for each site, to work with. No fault rests on them.
    pub same: Vec<bool>,
}

impl Model for Kept {
    ghost use Rattle.map_faults.specs.Grounds.{Kept as KeptImage};

    ghost Value = { KeptImage };

    ghost view = { λ k. record { handle = k.handle; base = k.base; pages = k.pages; sites = k.sites.items; words = k.words.items; same = k.same.items } };
}

/// What a virtual address map is judged by.
#[derive(Drop)]
pub struct MapGround<'a> {
    /// Where RAM lies.
    pub layout: Layout,
    /// The descriptors of its memory map, from the lowest address on.
    pub descriptors: &'a [Descriptor],
    /// The address at which the operating system's window is seen from the map on.
    pub os_virtual: u64,
    /// The runtime drivers that stay.
    pub kept: &'a [Kept],
    /// Whether boot services are over.
    pub gone: bool,
    /// Whether a map was made.
    pub mapped: bool,
}

impl<'a> Model for MapGround<'a> {
    ghost use Rattle.map_faults.specs.Grounds.{Ground};

    ghost Value = { Ground };

    ghost view = { λ g. record { layout = g.layout; descriptors = g.descriptors.now; os_virtual = g.os_virtual; kept = g.kept.now; gone = g.gone; mapped = g.mapped } };
}

/// A call of SetVirtualAddressMap (UEFI 2.10, section 8.4).
#[derive(Drop)]
pub struct MapCall {
    /// The size of a descriptor, in bytes.
    pub descriptor_size: u64,
    /// The version of a descriptor.
    pub version: u32,
    /// The size of all entries, in bytes.
    pub map_size: u64,
    /// The entries.
    pub entries: Vec<Descriptor>,
}

impl Model for MapCall {
    ghost use Rattle.map_faults.specs.Grounds.{Call};

    ghost Value = { Call };

    ghost view = { λ c. record { descriptor_size = c.descriptor_size; version = c.version; map_size = c.map_size; entries = c.entries.items } };
}

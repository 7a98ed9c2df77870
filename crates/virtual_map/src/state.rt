//! The state that runtime services need.
#![tactic(auto)]

use address_view::{View, Window};
use event_queue::Notify;
use guest_memory::GuestMemory;
use map_faults::Kept;
use memory_map::Descriptor;
use page_alloc::{Layout, PageMap};
use std::marker::Model;

/// What stays when boot services end. Its parts are those of one RAM where its owner keeps them so.
#[derive(Drop)]
pub struct RuntimeState {
    /// Where RAM lies, and its places.
    pub layout: Layout,
    /// The bytes of RAM, the rights to its pages, and which were touched.
    pub memory: GuestMemory,
    /// The type and the owner of each page of RAM, and the key of the memory map.
    pub pages: PageMap,
    /// The windows through which code sees RAM.
    pub view: View,
    /// The descriptors of the memory map, from the lowest address on, once boot services are over.
    pub descriptors: Vec<Descriptor>,
    /// The runtime drivers that stay, in order of loading.
    pub kept: Vec<Kept>,
    /// The functions to call at the virtual address change, in their order.
    pub notifies: Vec<Notify>,
    /// Whether boot services are over.
    pub gone: bool,
    /// Whether a virtual address map was made.
    pub mapped: bool,
    /// The address at which the operating system's window is seen from the map on.
    pub os_virtual: u64,
    /// Room for the windows of the view after the map. Of these only their number counts.
    pub room: Vec<Window>,
}

impl Model for RuntimeState {
    ghost use Rattle.std.specs.Prelude.{length};
    ghost use Rattle.virtual_map.specs.States.{Runtime};

    ghost Value = { Runtime };

    ghost view = { λ r. record { layout = r.layout; memory = r.memory; pages = r.pages; view = r.view; descriptors = r.descriptors.items; kept = r.kept.items; notifies = r.notifies.items; gone = r.gone; mapped = r.mapped; os_virtual = r.os_virtual; room = length r.room.items } };
}

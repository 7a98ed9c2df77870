//! The view after a virtual address map.
#![tactic(auto)]

ghost use Rattle.std.specs.Prelude.{◌≡◌, ◌≤◌, ◌<◌, ◌+◌, ◌*◌, ◌^◌, ◌++◌, ◌∷◌, [], None, All, length, take};
ghost use Rattle.memory_map.specs.declared.descriptor.Descriptor.{Descriptor as AnyDescriptor};
ghost use Rattle.memory_map.specs.Map.{Covers};
ghost use Rattle.page_alloc.specs.Layout.{IsLayout};
ghost use Rattle.map_faults.specs.Grounds.{IsGround};
ghost use Rattle.map_faults.specs.Faults.{first_fault};
ghost use Rattle.runtime_view.specs.Views.{view_after, os_window, runtime_windows, ranges_between, WindowIsClear};

use crate::filling::{put, put_between, put_runtime};
use address_view::{View, Window};
use map_faults::{MapCall, MapGround, entries_are_placed, ranges_are_apart};
use memory_map::Descriptor;
use page_alloc::Layout;

/// The bytes of the operating system's window.
const WINDOW_SIZE: u64 = 33 * 4096;

/// Writes the windows of the view after a map over others, and gives their number.
#[tactic(auto, using(std::proofs::lemmas::List::append_assoc), unfolding(crate::specs::Views::view_after))]
fn put_all(
    room: &mut [Window],
    layout: &Layout,
    descriptors: &[Descriptor],
    entries: &[Descriptor],
    os_virtual: u64,
) -> usize
    requires room { length (view_after layout.now descriptors.now entries.now os_virtual) ≤ length room.old }
    requires end { layout.now.base + 4096 * layout.now.pages < 2 ^ 64 }
    requires ends { All (λ (d : AnyDescriptor). d.start + 4096 * d.pages < 2 ^ 64) descriptors.now }
    requires sizes { All (λ (d : AnyDescriptor). 4096 * d.pages < 2 ^ 64) descriptors.now }
    ensures taken { take result room.new ≡ view_after layout.now descriptors.now entries.now os_virtual }
    ensures count { result ≡ length (view_after layout.now descriptors.now entries.now os_virtual) }
    ensures long { length room.new ≡ length room.old }
{
    let runtime = put_runtime(room, entries, descriptors);
    let window = Window {
        virt: os_virtual,
        phys: layout.os_stack,
        len: WINDOW_SIZE,
    };
    put(room, runtime, window);
    put_between(room, runtime + 1, layout, descriptors)
}

/// The windows of the view after a map, made in room for at least as many.
#[tactic(auto, using(crate::proofs::Lawful::ends_low, crate::proofs::Lawful::pages_low))]
fn windows_after(ground: &MapGround, map: &MapCall, room: Vec<Window>) -> Vec<Window>
    requires layout { IsLayout ground.now.layout }
    requires covers { Covers ground.now.layout.base (ground.now.layout.base + 4096 * ground.now.layout.pages) ground.now.descriptors }
    requires room { length (view_after ground.now.layout ground.now.descriptors map.now.entries ground.now.os_virtual) ≤ length room.items }
    ensures { result.items ≡ view_after ground.now.layout ground.now.descriptors map.now.entries ground.now.os_virtual }
{
    let mut windows = room;
    let count = put_all(
        windows.as_mut_slice(),
        &ground.layout,
        ground.descriptors,
        map.entries.as_slice(),
        ground.os_virtual,
    );
    windows.truncate(count);
    windows
}

/// The view after a map that is accepted: a window for each runtime descriptor at its virtual place, then the operating
/// system's window, then one for each range of all other RAM, at its own addresses. It is made in room that is given, of at
/// least as many windows, and takes no memory.
#[tactic(auto, using(crate::proofs::Lawful::lawful))]
pub fn view_after(ground: &MapGround, map: &MapCall, room: Vec<Window>) -> View
    requires ground { IsGround ground.now }
    requires accepted { first_fault ground.now map.now ≡ None }
    requires clear { WindowIsClear ground.now.layout ground.now.descriptors }
    requires room { length (view_after ground.now.layout ground.now.descriptors map.now.entries ground.now.os_virtual) ≤ length room.items }
    ensures { result ≡ view_after ground.now.layout ground.now.descriptors map.now.entries ground.now.os_virtual }
{
    entries_are_placed();
    ranges_are_apart();
    View::from_windows(windows_after(ground, map, room))
}

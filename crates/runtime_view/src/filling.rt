//! Windows that are written over others, one after another.
#![tactic(auto)]

ghost use Rattle.std.specs.Prelude.{◌≡◌, ◌≤◌, ◌<◌, ◌+◌, ◌*◌, ◌^◌, ◌++◌, ◌∷◌, [], All, length, take, max, min};
ghost use Rattle.memory_map.specs.declared.descriptor.Descriptor.{Descriptor as AnyDescriptor};
ghost use Rattle.runtime_view.specs.Views.{virtual_of, runtime_windows, range, ranges_around, ranges_between};

use address_view::Window;
use map_faults::{displacement_at, is_runtime};
use memory_map::Descriptor;
use page_alloc::Layout;

/// Where the entries of a map put an address, modulo 2^64. One that no entry for the runtime holds stays.
pub fn virtual_of(entries: &[Descriptor], at: u64) -> u64
    ensures { result ≡ virtual_of entries.now at }
{
    at.wrapping_add(displacement_at(entries, at))
}

/// Writes a window behind so many.
#[tactic(auto, using(std::proofs::lemmas::List::take_more_set))]
pub(crate) fn put(room: &mut [Window], count: usize, window: Window)
    requires { count < length room.old }
    ensures taken { take (count + 1) room.new ≡ take count room.old ++ window ∷ [] }
    ensures long { length room.new ≡ length room.old }
{
    room[count] = window;
}

/// Writes the windows of runtime descriptors, and gives their number.
#[tactic(auto, using(std::proofs::lemmas::List::append_assoc), unfolding(crate::specs::Views::runtime_windows))]
pub(crate) fn put_runtime(
    room: &mut [Window],
    entries: &[Descriptor],
    descriptors: &[Descriptor],
) -> usize
    requires room { length (runtime_windows entries.now descriptors.now) ≤ length room.old }
    requires low { All (λ (d : AnyDescriptor). 4096 * d.pages < 2 ^ 64) descriptors.now }
    ensures taken { take result room.new ≡ runtime_windows entries.now descriptors.now }
    ensures count { result ≡ length (runtime_windows entries.now descriptors.now) }
    ensures long { length room.new ≡ length room.old }
{
    let mut count = 0;
    for descriptor in descriptors {
        if is_runtime(descriptor) {
            let window = Window {
                virt: virtual_of(entries, descriptor.start),
                phys: descriptor.start,
                len: 4096 * descriptor.pages,
            };
            put(room, count, window);
            count += 1;
        }
    }
    count
}

/// Writes the window of a range of RAM at its own addresses behind so many, if there is any, and gives their number.
fn put_range(room: &mut [Window], count: usize, low: u64, high: u64) -> usize
    requires room { count + length (range low high) ≤ length room.old }
    ensures taken { take result room.new ≡ take count room.old ++ range low high }
    ensures count { result ≡ count + length (range low high) }
    ensures long { length room.new ≡ length room.old }
{
    if low < high {
        let window = Window {
            virt: low,
            phys: low,
            len: high - low,
        };
        put(room, count, window);
        count + 1
    } else {
        count
    }
}

/// Writes the windows of a range of RAM without the operating system's window.
fn put_around(room: &mut [Window], count: usize, layout: &Layout, low: u64, high: u64) -> usize
    requires room { count + length (ranges_around layout.now low high) ≤ length room.old }
    ensures taken { take result room.new ≡ take count room.old ++ ranges_around layout.now low high }
    ensures count { result ≡ count + length (ranges_around layout.now low high) }
    ensures long { length room.new ≡ length room.old }
{
    let below = put_range(room, count, low, high.min(layout.os_stack));
    put_range(room, below, low.max(layout.boot_stack), high)
}

/// Writes the windows of all RAM between runtime descriptors behind so many.
#[tactic(auto, using(std::proofs::lemmas::List::append_assoc), unfolding(crate::specs::Views::ranges_between))]
pub(crate) fn put_between(
    room: &mut [Window],
    first: usize,
    layout: &Layout,
    descriptors: &[Descriptor],
) -> usize
    requires room { first + length (ranges_between layout.now layout.now.base descriptors.now) ≤ length room.old }
    requires end { layout.now.base + 4096 * layout.now.pages < 2 ^ 64 }
    requires low { All (λ (d : AnyDescriptor). d.start + 4096 * d.pages < 2 ^ 64) descriptors.now }
    ensures taken { take result room.new ≡ take first room.old ++ ranges_between layout.now layout.now.base descriptors.now }
    ensures count { result ≡ first + length (ranges_between layout.now layout.now.base descriptors.now) }
    ensures long { length room.new ≡ length room.old }
{
    let mut count = first;
    let mut from = layout.base;
    for descriptor in descriptors {
        if is_runtime(descriptor) {
            count = put_around(room, count, layout, from, descriptor.start);
            from = descriptor.start + 4096 * descriptor.pages;
        }
    }
    put_around(
        room,
        count,
        layout,
        from,
        layout.base + 4096 * u64::from(layout.pages),
    )
}

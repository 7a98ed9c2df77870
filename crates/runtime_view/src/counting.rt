//! How many windows the view after a map has.
#![tactic(auto)]

ghost use Rattle.std.specs.Prelude.{ℕ, ◌≡◌, ◌≤◌, ◌+◌, ◌*◌, ◌^◌, ◌<◌, All, List, length};
ghost use Rattle.std.specs.List.{filter};
ghost use Rattle.memory_map.specs.declared.descriptor.Descriptor.{Descriptor as AnyDescriptor};
ghost use Rattle.memory_map.specs.Map.{Covers};
ghost use Rattle.page_alloc.specs.Layout.{IsLayout};
ghost use Rattle.map_faults.specs.Rules.{is_runtime};
ghost use Rattle.runtime_view.specs.Views.{range, ranges_around, ranges_between, view_after, window_count};

use map_faults::is_runtime;
use memory_map::Descriptor;
use page_alloc::Layout;

/// How many descriptors are for the runtime.
fn runtime_count(descriptors: &[Descriptor]) -> usize
    requires { length descriptors.now ≤ 2 ^ 40 }
    ensures count { result ≡ length (filter is_runtime descriptors.now) }
    ensures few { result ≤ length descriptors.now }
{
    let mut count = 0;
    for descriptor in descriptors {
        if is_runtime(descriptor) {
            count += 1;
        }
    }
    count
}

/// How many windows a range of RAM has.
fn range_count(low: u64, high: u64) -> usize
    ensures count { result ≡ length (range low high) }
    ensures few { result ≤ 1 }
{
    if low < high { 1 } else { 0 }
}

/// How many windows a range of RAM has without the operating system's window.
fn around_count(layout: &Layout, low: u64, high: u64) -> usize
    ensures count { result ≡ length (ranges_around layout.now low high) }
    ensures few { result ≤ 2 }
{
    range_count(low, high.min(layout.os_stack)) + range_count(low.max(layout.boot_stack), high)
}

/// How many windows all RAM between runtime descriptors has.
#[tactic(auto, using(std::proofs::lemmas::List::append_assoc), unfolding(crate::specs::Views::ranges_between))]
fn between_count(layout: &Layout, descriptors: &[Descriptor]) -> usize
    requires few { length descriptors.now ≤ 2 ^ 40 }
    requires end { layout.now.base + 4096 * layout.now.pages < 2 ^ 64 }
    requires low { All (λ (d : AnyDescriptor). d.start + 4096 * d.pages < 2 ^ 64) descriptors.now }
    ensures count { result ≡ length (ranges_between layout.now layout.now.base descriptors.now) }
    ensures few { result ≤ 2 * length descriptors.now + 2 }
{
    let mut count = 0;
    let mut from = layout.base;
    for descriptor in descriptors {
        if is_runtime(descriptor) {
            count += around_count(layout, from, descriptor.start);
            from = descriptor.start + 4096 * descriptor.pages;
        }
    }
    count + around_count(layout, from, layout.base + 4096 * u64::from(layout.pages))
}

/// How many windows the view after a map has: as many, whatever the entries of the map are, and wherever the operating
/// system's window is seen.
pub fn window_count(layout: &Layout, descriptors: &[Descriptor]) -> usize
    requires layout { IsLayout layout.now }
    requires covers { Covers layout.now.base (layout.now.base + 4096 * layout.now.pages) descriptors.now }
    ensures count { result ≡ window_count layout.now descriptors.now }
    ensures all { (entries : List AnyDescriptor) → (os_virtual : ℕ) → length (view_after layout.now descriptors.now entries os_virtual) ≡ result }
{
    runtime_count(descriptors) + 1 + between_count(layout, descriptors)
}

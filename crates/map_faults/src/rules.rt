//! The rules of a virtual address map. No number is too large for them.
#![tactic(auto)]

ghost use Rattle.std.specs.Prelude.{◌≡◌, nat_lt, max, min};
ghost use Rattle.map_faults.specs.Rules.{is_runtime, is_named_by, is_known, is_twice, is_unaligned, is_out, behind, meet, overlaps, sticks_out, shadows};

use memory_map::Descriptor;
use page_alloc::Layout;

/// EFI_MEMORY_RUNTIME.
const RUNTIME: u64 = 1 << 63;

/// The last page of the address space.
const LAST_PAGE: u64 = 0xffff_ffff_ffff_f000;

/// Whether the firmware needs the memory at run time.
pub fn is_runtime(descriptor: &Descriptor) -> bool
    ensures { result ≡ is_runtime descriptor.now }
{
    descriptor.attribute / RUNTIME % 2 == 1
}

/// Whether an address lies before the end of so many pages from another on.
fn is_before(at: u64, start: u64, pages: u64) -> bool
    ensures { result ≡ nat_lt at (behind start pages) }
{
    at < start || (at - start) / 4096 < pages
}

/// Whether an entry has the start and the pages of a runtime descriptor.
pub fn is_named_by(entry: &Descriptor, descriptor: &Descriptor) -> bool
    ensures { result ≡ is_named_by entry.now descriptor.now }
{
    is_runtime(descriptor) && descriptor.start == entry.start && descriptor.pages == entry.pages
}

/// Whether a runtime descriptor has the entry's start and pages.
pub(crate) fn is_known(descriptors: &[Descriptor], entry: &Descriptor) -> bool
    ensures { result ≡ is_known descriptors.now entry.now }
{
    descriptors
        .iter()
        .any(|descriptor| is_named_by(entry, descriptor))
}

/// Whether an earlier entry has the entry's start.
#[tactic(auto, unfolding(crate::specs::Rules::is_twice))]
pub(crate) fn is_twice(earlier: &[Descriptor], entry: &Descriptor) -> bool
    ensures { result ≡ is_twice earlier.now entry.now }
{
    earlier
        .iter()
        .any(|other| is_runtime(other) && other.start == entry.start)
}

/// Whether a virtual address is none of a page's first byte.
pub(crate) fn is_unaligned(virt: u64) -> bool
    ensures { result ≡ is_unaligned virt }
{
    virt % 4096 != 0
}

/// Whether so many pages from a virtual address on meet the first or the last page of the address space.
pub(crate) fn is_out(virt: u64, pages: u64) -> bool
    ensures { result ≡ is_out virt pages }
{
    virt < 4096 || is_before(LAST_PAGE, virt, pages)
}

/// Whether two ranges of pages have an address in common.
fn meet(a: u64, m: u64, b: u64, n: u64) -> bool
    ensures { result ≡ meet a m b n }
{
    is_before(a, b, n) && is_before(b, a, m)
}

/// Whether a range of pages meets the virtual range of an earlier entry.
#[tactic(auto, unfolding(crate::specs::Rules::overlaps))]
pub(crate) fn overlaps(earlier: &[Descriptor], virt: u64, pages: u64) -> bool
    ensures { result ≡ overlaps earlier.now virt pages }
{
    earlier.iter().any(|other| is_runtime(other) && meet(other.virt, other.pages, virt, pages))
}

/// Whether a range of pages meets pages of a descriptor outside the operating system's window.
fn sticks_out(layout: &Layout, descriptor: &Descriptor, virt: u64, pages: u64) -> bool
    ensures { result ≡ sticks_out layout.now (max descriptor.now.start virt) (min (behind descriptor.now.start descriptor.now.pages) (behind virt pages)) }
{
    let low = descriptor.start.max(virt);
    let end = layout.boot_stack;
    is_before(low, descriptor.start, descriptor.pages)
        && is_before(low, virt, pages)
        && (low < layout.os_stack
            || is_before(end, descriptor.start, descriptor.pages) && is_before(end, virt, pages))
}

/// Whether a range of pages meets pages of RAM that stay where they are.
#[tactic(auto, unfolding(crate::specs::Rules::shadows))]
pub(crate) fn shadows(layout: &Layout, descriptors: &[Descriptor], virt: u64, pages: u64) -> bool
    ensures { result ≡ shadows layout.now descriptors.now virt pages }
{
    descriptors.iter().any(|descriptor| !is_runtime(descriptor)
        && sticks_out(layout, descriptor, virt, pages))
}

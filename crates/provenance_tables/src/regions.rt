//! The regions of a driver, and the rule on them.
#![tactic(auto)]

ghost use Rattle.std.specs.Prelude.{◌≡◌, ◌+◌, ◌<◌, ◌≤◌, ◌*◌, ◌==◌, ◌^◌, ◌&&◌, IfOk, OnOk, Some, length, nat_le, not, slice_index};
ghost use Rattle.std.specs.List.{list_any};
ghost use Rattle.uh_base.specs.Bytes.{number_at};
ghost use Rattle.std.specs.Option.{option_copied};
ghost use Rattle.guest_memory.specs.Pages.{bytes_of};
ghost use Rattle.address_view.specs.Windows.{see, seen_bytes};
ghost use Rattle.map_faults.specs.Grounds.{Kept as KeptImage};
ghost use Rattle.map_faults.specs.Rules.{behind};
ghost use Rattle.map_faults.specs.Faults.{entry_at};
ghost use Rattle.prov_cert.specs.declared.cert.CertSpan.{CertSpan as AnySpan};
ghost use Rattle.prov_types.specs.Kinds.{length_of};
ghost use Rattle.prov_cert.specs.Reading.{is_convert};
ghost use Rattle.prov_layout.specs.Offsets.{every};
ghost use Rattle.provenance_check.specs.Entries.{first_from};
ghost use Rattle.provenance_tables.specs.Regions.{address_of, fixed_starts, holds_given, is_cell, is_inside, kept_with, lens_of, meets_image, meets_region, own_passes, ranges_meet, region_passes, size_of, starts_of, with_own};

use address_view::{View, number_slowly};
use guest_memory::GuestMemory;
use map_faults::{Kept, entry_at};
use memory_map::Descriptor;
use prov_cert::{CertSpan, Class, OwnRegion};
use prov_layout::every_is_each;
use provenance_check::first_is_first;
use std::alloc::{AllocError, Global};
use virtual_map::RuntimeState;

/// The runtime driver with a handle.
pub(crate) fn kept_with(kept: &[Kept], handle: u64) -> Option<&Kept>
    ensures { option_copied result ≡ kept_with handle kept.now }
{
    kept.iter().find(|k| k.handle == handle)
}

/// How many bytes a driver has.
pub(crate) fn size_of(image: &Kept) -> u64
    ensures is { result ≡ size_of image.now }
    ensures few { result < 2 ^ 44 }
{
    4096 * u64::from(image.pages)
}

/// What stands at a region's number, 0 where nothing does.
pub(crate) fn of_region(numbers: &[u64], region: usize) -> u64
    ensures { result ≡ slice_index numbers.now region }
{
    if region < numbers.len() {
        numbers[region]
    } else {
        0
    }
}

/// The address of an offset of a region, modulo 2^64.
pub(crate) fn address_of(starts: &[u64], region: u8, offset: u64) -> u64
    ensures { result ≡ address_of starts.now region offset }
{
    of_region(starts, region as usize).wrapping_add(offset)
}

/// The starts of own regions behind those of others.
#[tactic(auto, unfolding(crate::specs::Regions::with_own))]
fn push_own(
    starts: &mut Vec<u64>,
    memory: &GuestMemory,
    view: &View,
    own: &[OwnRegion],
) -> Result<(), AllocError>
    ensures { OnOk result (starts.new.items ≡ with_own (seen_bytes (see view.now) (bytes_of memory.now)) starts.old.items own.now) }
{
    for o in own {
        let at = address_of(starts.as_slice(), o.cell_region, o.cell_at);
        starts.push(number_slowly(memory, view, at, 8))?;
    }
    Ok(())
}

/// Where the regions begin, by their numbers.
pub(crate) fn starts_of(
    alloc: Global,
    state: &RuntimeState,
    image: &Kept,
    own: &[OwnRegion],
) -> Result<Vec<u64>, AllocError>
    ensures { IfOk result (λ starts. starts.items ≡ starts_of state.now image.now own.now) }
{
    let layout = state.layout;
    let mut starts = Vec::from_array(
        alloc,
        [
            image.base,
            layout.os_stack,
            layout.os_args,
            layout.os_return,
            layout.system,
            layout.slots,
        ],
    )?;
    push_own(&mut starts, &state.memory, &state.view, own)?;
    Ok(starts)
}

/// How long the regions are, by their numbers.
pub(crate) fn lens_of(
    alloc: Global,
    image: &Kept,
    own: &[OwnRegion],
) -> Result<Vec<u64>, AllocError>
    ensures { IfOk result (λ lens. lens.items ≡ lens_of image.now own.now) }
{
    let mut lens = Vec::from_array(alloc, [size_of(image), 65536, 65536, 4096, 4096, 4096])?;
    let own_lens: Vec<u64> = own.iter().map(|o| o.len).collect(alloc)?;
    lens.extend_from_slice(own_lens.as_slice())?;
    Ok(lens)
}

fn is_given(
    memory: &GuestMemory,
    view: &View,
    starts: &[u64],
    at: u64,
    region: u8,
    offset: u64,
) -> bool
    ensures { result ≡ (number_at (seen_bytes (see view.now) (bytes_of memory.now)) (address_of starts.now 4 at) 8 == address_of starts.now region offset) }
{
    number_slowly(memory, view, address_of(starts, 4, at), 8) == address_of(starts, region, offset)
}

/// Whether the system page holds the addresses of the runtime services table and of its services.
#[tactic(auto, unfolding(crate::specs::Regions::holds_given))]
fn holds_given(memory: &GuestMemory, view: &View, starts: &[u64]) -> bool
    ensures { result ≡ holds_given (seen_bytes (see view.now) (bytes_of memory.now)) starts.now }
{
    is_given(memory, view, starts, 88, 4, 256) && holds_services(memory, view, starts)
}

fn holds_services(memory: &GuestMemory, view: &View, starts: &[u64]) -> bool
    ensures { result ≡ every (λ i. number_at (seen_bytes (see view.now) (bytes_of memory.now)) (address_of starts.now 4 (280 + 8 * i)) 8 == address_of starts.now 5 (16 * (44 + i))) 0 1 14 }
{
    every_is_each();
    for i in 0..14 {
        if !is_given(memory, view, starts, 280 + 8 * i, 5, 16 * (44 + i)) {
            return false;
        }
    }
    true
}

/// Whether so many bytes from one address on have one in common with so many from another on.
pub(crate) fn ranges_meet(a: u64, m: u64, b: u64, n: u64) -> bool
    ensures { result ≡ ranges_meet a m b n }
{
    m > 0 && n > 0 && (a < b || a - b < n) && (b < a || b - a < m)
}

fn meets_region(starts: &[u64], lens: &[u64], n: usize, m: usize) -> bool
    ensures { result ≡ meets_region starts.now lens.now n m }
{
    m != n
        && ranges_meet(
            of_region(starts, n),
            of_region(lens, n),
            of_region(starts, m),
            of_region(lens, m),
        )
}

/// Whether a region meets no other.
fn meets_no_region(starts: &[u64], lens: &[u64], n: usize) -> bool
    ensures { result ≡ every (λ m. not (meets_region starts.now lens.now n m)) 0 1 (length starts.now) }
{
    every_is_each();
    for m in 0..starts.len() {
        if meets_region(starts, lens, n, m) {
            return false;
        }
    }
    true
}

fn meets_image(start: u64, len: u64, k: &Kept) -> bool
    ensures { result ≡ meets_image start len k.now }
{
    ranges_meet(start, len, k.base, size_of(k))
}

/// Whether so many bytes from one address on end where so many pages from another on do, or before.
fn ends_in(start: u64, len: u64, at: u64, pages: u64) -> bool
    ensures { result ≡ nat_le (start + len) (behind at pages) }
{
    u128::from(start) + u128::from(len) <= u128::from(at) + 4096 * u128::from(pages)
}

/// Whether so many bytes are inside the runtime descriptor that holds the first.
fn is_inside(start: u64, len: u64, descriptors: &[Descriptor]) -> bool
    ensures { result ≡ is_inside start len (entry_at descriptors.now start) }
{
    match entry_at(descriptors, start) {
        Some(d) => ends_in(start, len, d.start, d.pages),
        None => false,
    }
}

pub(crate) fn is_convert(class: Class) -> bool
    ensures { result ≡ is_convert class }
{
    matches!(class, Class::Convert(_))
}

fn is_cell(o: &OwnRegion, s: &CertSpan) -> bool
    ensures { result ≡ is_cell o.now s.now }
{
    is_convert(s.class) && s.region == o.cell_region && s.at == o.cell_at
}

/// Whether an own region's cell is a convertible one in its region.
fn has_cell(lens: &[u64], spans: &[CertSpan], o: &OwnRegion) -> bool
    ensures { result ≡ (nat_le (o.now.cell_at + 8) (length_of lens.now o.now.cell_region) && list_any (λ (s : AnySpan). is_cell o.now s) spans.now) }
{
    let len = of_region(lens, o.cell_region as usize);
    len >= 8 && o.cell_at <= len - 8 && names_cell(spans, o)
}

fn names_cell(spans: &[CertSpan], o: &OwnRegion) -> bool
    ensures { result ≡ list_any (λ (s : AnySpan). is_cell o.now s) spans.now }
{
    spans.iter().any(|s| is_cell(o, s))
}

fn meets_some_image(start: u64, len: u64, kept: &[Kept]) -> bool
    ensures { result ≡ list_any (λ (k : KeptImage). meets_image start len k) kept.now }
{
    kept.iter().any(|k| meets_image(start, len, k))
}

/// Whether an own region passes its rule.
fn own_passes(
    state: &RuntimeState,
    starts: &[u64],
    lens: &[u64],
    spans: &[CertSpan],
    n: usize,
    o: &OwnRegion,
) -> bool
    ensures { result ≡ own_passes state.now starts.now lens.now spans.now n (Some o.now) }
{
    let start = of_region(starts, n);
    has_cell(lens, spans, o)
        && is_inside(start, o.len, state.descriptors.as_slice())
        && !meets_some_image(start, o.len, state.kept.as_slice())
        && meets_no_region(starts, lens, n)
}

/// Whether a region passes its rule.
#[tactic(auto, unfolding(crate::specs::Regions::region_passes))]
fn region_passes(
    state: &RuntimeState,
    starts: &[u64],
    lens: &[u64],
    own: &[OwnRegion],
    spans: &[CertSpan],
    n: usize,
) -> bool
    ensures { result ≡ region_passes state.now starts.now lens.now own.now spans.now n }
{
    if n == 4 {
        return holds_given(&state.memory, &state.view, starts);
    }
    if n < 6 {
        return true;
    }
    if n - 6 < own.len() {
        own_passes(state, starts, lens, spans, n, &own[n - 6])
    } else {
        true
    }
}

/// The number of the first region that fails the rule `Region`.
pub(crate) fn check_regions(
    state: &RuntimeState,
    starts: &[u64],
    lens: &[u64],
    own: &[OwnRegion],
    spans: &[CertSpan],
) -> Option<u32>
    requires { length starts.now < 2 ^ 32 }
    ensures { result ≡ first_from (region_passes state.now starts.now lens.now own.now spans.now) 0 (length starts.now) }
{
    first_is_first();
    for n in 0..starts.len() {
        if !region_passes(state, starts, lens, own, spans, n) {
            return Some(n as u32);
        }
    }
    None
}

//! The regions of a driver that stays.
#![tactic(auto)]

ghost use Rattle.std.specs.Prelude.{◌≡◌, ◌<◌, ◌^◌, IfOk, OnOk, slice_index};
ghost use Rattle.std.specs.Option.{option_copied};
ghost use Rattle.guest_memory.specs.Pages.{bytes_of};
ghost use Rattle.address_view.specs.Windows.{see, seen_bytes};
ghost use Rattle.provenance_tables.specs.Regions.{address_of, kept_with, lens_of, size_of, starts_of, with_own};

use address_view::{View, number_slowly};
use guest_memory::GuestMemory;
use map_faults::Kept;
use prov_cert::OwnRegion;
use std::alloc::{AllocError, Global};
use virtual_map::RuntimeState;

/// The runtime driver with a handle.
pub(crate) fn kept_with(kept: &[Kept], handle: u64) -> Option<&Kept>
    ensures { option_copied result ≡ kept_with handle kept.now }
{
    kept.iter().find(|k| k.handle == handle)
}

/// How many bytes a driver has.
pub(crate) fn size_of(image: &Kept) -> u64
    ensures is { result ≡ size_of image.now }
    ensures few { result < 2 ^ 44 }
{
    4096 * u64::from(image.pages)
}

/// The address of an offset of a region, modulo 2^64.
pub(crate) fn address_of(starts: &[u64], region: u8, offset: u64) -> u64
    ensures { result ≡ address_of starts.now region offset }
{
    let r = region as usize;
    let start = if r < starts.len() { starts[r] } else { 0 };
    start.wrapping_add(offset)
}

/// The starts of own regions behind those of others.
#[tactic(auto, unfolding(provenance_tables::specs::Regions::with_own))]
fn push_own(
    starts: &mut Vec<u64>,
    memory: &GuestMemory,
    view: &View,
    own: &[OwnRegion],
) -> Result<(), AllocError>
    ensures { OnOk result (starts.new.items ≡ with_own (seen_bytes (see view.now) (bytes_of memory.now)) starts.old.items own.now) }
{
    for o in own {
        let at = address_of(starts.as_slice(), o.cell_region, o.cell_at);
        starts.push(number_slowly(memory, view, at, 8))?;
    }
    Ok(())
}

/// Where the regions begin, by their numbers.
pub(crate) fn starts_of(
    alloc: Global,
    state: &RuntimeState,
    image: &Kept,
    own: &[OwnRegion],
) -> Result<Vec<u64>, AllocError>
    ensures { IfOk result (λ starts. starts.items ≡ starts_of state.now image.now own.now) }
{
    let layout = state.layout;
    let mut starts = Vec::from_array(
        alloc,
        [
            image.base,
            layout.os_stack,
            layout.os_args,
            layout.os_return,
            layout.system,
            layout.slots,
        ],
    )?;
    push_own(&mut starts, &state.memory, &state.view, own)?;
    Ok(starts)
}

/// How long the regions are, by their numbers.
pub(crate) fn lens_of(
    alloc: Global,
    image: &Kept,
    own: &[OwnRegion],
) -> Result<Vec<u64>, AllocError>
    ensures { IfOk result (λ lens. lens.items ≡ lens_of image.now own.now) }
{
    let mut lens = Vec::from_array(alloc, [size_of(image), 65536, 65536, 4096, 4096, 4096])?;
    let own_lens: Vec<u64> = own.iter().map(|o| o.len).collect(alloc)?;
    lens.extend_from_slice(own_lens.as_slice())?;
    Ok(lens)
}

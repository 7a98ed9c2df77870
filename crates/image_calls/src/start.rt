//! StartImage (UEFI 2.10, section 7.4.2): how it begins, and what it gives once its image has ended.
#![tactic(auto)]

ghost use Rattle.std.specs.Prelude.{◌≡◌, ◌≤◌, IfOk, true, if◌then◌else◌};
ghost use Rattle.guest_memory.specs.Pages.{rights_at};
ghost use Rattle.address_view.specs.Windows.{see};
ghost use Rattle.address_view.specs.Seen.{all_pass, is_seen};
ghost use Rattle.image_calls.specs.Starts.{start_asked, written_bytes, outputs_given};

use crate::answer::{gives, lacks_frames};
use address_view::{ByteRange, View, lacks_after, ranges_suffice};
use guest_call::{argument, can_write, can_write_optional, put_output};
use guest_memory::GuestMemory;
use image_services::Images;
use service_answer::Served;
use std::alloc::{AllocError, Global};
use uh_base::EfiStatus;

/// StartImage (image, size, data), as it begins: the address of the image's entry point, where the image wasn't started
/// and each output that is given may be written. Nothing changes here.
#[tactic(auto, unfolding(crate::specs::Starts::start_asked))]
pub fn start_of(
    registers: &[u64; 32],
    view: &View,
    memory: &GuestMemory,
    images: &Images,
) -> Result<u64, EfiStatus>
    ensures { result ≡ start_asked registers.now (see view.now) memory.now images.now }
{
    if !can_write_optional(memory, view, argument(1, registers), 8)
        || !can_write_optional(memory, view, argument(2, registers), 8)
    {
        return Err(EfiStatus::INVALID_PARAMETER);
    }
    let Some(image) = images.find(argument(0, registers)) else {
        return Err(EfiStatus::INVALID_PARAMETER);
    };
    if image.started {
        return Err(EfiStatus::INVALID_PARAMETER);
    }
    Ok(image.entry)
}

/// How many bytes of an output are written: 8, or none where it is left out or not all of it may be written by now.
#[tactic(auto, unfolding(uh_base::specs::Bytes::first_refused))]
fn written_bytes(memory: &GuestMemory, view: &View, at: u64) -> u8
    ensures len { result ≡ written_bytes (see view.now) memory.now at }
    ensures few { result ≤ 8 }
    ensures seen { all_pass (is_seen (see view.now) memory.now) at result ≡ true }
{
    if can_write(memory, view, at, 8) { 8 } else { 0 }
}

/// What StartImage gives once its image has ended: the status, and the size and the address of the exit data, each where
/// the call gave an output for it that may still be written. The registers are those of the call. `Err` is want of host
/// memory.
#[tactic(auto, using(crate::proofs::ShownLemmas::first_fits, crate::proofs::ShownLemmas::second_fits), unfolding(crate::specs::Starts::outputs_given))]
pub fn outputs_given(
    alloc: Global,
    registers: &[u64; 32],
    view: &View,
    memory: &mut GuestMemory,
    status: u64,
    size: u64,
    exit_data: u64,
) -> Result<Served, AllocError>
    ensures ok { IfOk result (λ served. record { served = served; memory = memory.new } ≡ outputs_given registers.now (see view.now) memory.old status size exit_data) }
    ensures rights { rights_at memory.new ≡ rights_at memory.old }
    ensures base { memory.new.base ≡ memory.old.base }
    ensures pages { memory.new.pages ≡ memory.old.pages }
{
    ranges_suffice();
    let (first, second) = (argument(1, registers), argument(2, registers));
    let first_bytes = written_bytes(memory, view, first);
    let second_bytes = written_bytes(memory, view, second);
    let ranges = [
        ByteRange {
            at: first,
            len: u64::from(first_bytes),
        },
        ByteRange {
            at: second,
            len: u64::from(second_bytes),
        },
    ];
    if lacks_after(memory, view, &ranges) {
        return Ok(lacks_frames(alloc));
    }
    put_output(memory, view, first, first_bytes, size)?;
    put_output(memory, view, second, second_bytes, exit_data)?;
    Ok(gives(alloc, status))
}

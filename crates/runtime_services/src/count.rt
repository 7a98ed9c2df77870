//! GetNextMonotonicCount and GetNextHighMonotonicCount (UEFI 2.10, sections 7.5.5 and 8.5.2).
#![tactic(auto)]

ghost use Rattle.std.specs.Prelude.{◌≡◌, IfOk, OnErr};
ghost use Rattle.guest_memory.specs.Pages.{rights_at};
ghost use Rattle.guest_memory.specs.Changes.{TouchedBesides};
ghost use Rattle.address_view.specs.Windows.{see};
ghost use Rattle.runtime_services.specs.Counts.{get_next_monotonic_count, get_next_high_monotonic_count};

use crate::output::{Output, tell};
use address_view::View;
use guest_call::{argument, can_write};
use guest_memory::GuestMemory;
use service_answer::{Served, gives};
use std::alloc::{AllocError, Global};
use uh_base::EfiStatus;

/// GetNextMonotonicCount (count): the count rises by one, modulo 2^64, and is written as eight bytes. `Err` is want of
/// host memory.
#[tactic(auto, unfolding(crate::specs::Counts::get_next_monotonic_count))]
pub(crate) fn get_next_monotonic_count(
    alloc: Global,
    registers: &[u64; 32],
    view: &View,
    memory: &mut GuestMemory,
    count: &mut u64,
) -> Result<Served, AllocError>
    ensures ok { IfOk result (λ answer. record { answer = answer; memory = memory.new; count = count.new } ≡ get_next_monotonic_count registers.now (see view.now) memory.old count.old) }
    ensures kept { OnErr result (count.new ≡ count.old) }
    ensures err { OnErr result (TouchedBesides memory.old memory.new) }
    ensures rights { rights_at memory.new ≡ rights_at memory.old }
    ensures base { memory.new.base ≡ memory.old.base }
    ensures pages { memory.new.pages ≡ memory.old.pages }
{
    let at = argument(0, registers);
    if !can_write(memory, view, at, 8) {
        return Ok(gives(alloc, EfiStatus::INVALID_PARAMETER.0));
    }
    let next = count.wrapping_add(1);
    let bytes = next.to_le_bytes();
    let output = Output { at, bytes: &bytes };
    let range = output.range();
    let served = tell(alloc, memory, view, 0, &[output], &[range])?;
    if !served.frames {
        *count = next;
    }
    Ok(served)
}

/// GetNextHighMonotonicCount (high count): the high half of the count rises by one, modulo 2^32, its low half becomes 0,
/// and the high half is written as four bytes. `Err` is want of host memory.
#[tactic(auto, unfolding(crate::specs::Counts::get_next_high_monotonic_count))]
pub(crate) fn get_next_high_monotonic_count(
    alloc: Global,
    registers: &[u64; 32],
    view: &View,
    memory: &mut GuestMemory,
    count: &mut u64,
) -> Result<Served, AllocError>
    ensures ok { IfOk result (λ answer. record { answer = answer; memory = memory.new; count = count.new } ≡ get_next_high_monotonic_count registers.now (see view.now) memory.old count.old) }
    ensures kept { OnErr result (count.new ≡ count.old) }
    ensures err { OnErr result (TouchedBesides memory.old memory.new) }
    ensures rights { rights_at memory.new ≡ rights_at memory.old }
    ensures base { memory.new.base ≡ memory.old.base }
    ensures pages { memory.new.pages ≡ memory.old.pages }
{
    let at = argument(0, registers);
    if !can_write(memory, view, at, 4) {
        return Ok(gives(alloc, EfiStatus::INVALID_PARAMETER.0));
    }
    let high = (*count / (1 << 32) + 1) % (1 << 32);
    let bytes = (high as u32).to_le_bytes();
    let output = Output { at, bytes: &bytes };
    let range = output.range();
    let served = tell(alloc, memory, view, 0, &[output], &[range])?;
    if !served.frames {
        *count = high * (1 << 32);
    }
    Ok(served)
}

//! Outputs into memory that is prepared for them.
#![tactic(auto)]

ghost use Rattle.std.specs.Prelude.{◌≡◌, ◌+◌, ◌*◌, ◌≤◌, ◌<◌, IfOk, true, if◌then◌else◌, Some, None};
ghost use Rattle.guest_memory.specs.Pages.{holds, page_of};
ghost use Rattle.guest_memory.specs.Changes.{cleared};
ghost use Rattle.address_view.specs.Windows.{see};
ghost use Rattle.address_view.specs.Seen.{all_pass, is_seen};
ghost use Rattle.memory_services.specs.Ram.{number_written};

use address_view::{View, lacks_cleared};
use guest_call::{Answer, put_output};
use guest_memory::GuestMemory;
use std::alloc::AllocError;
use uh_base::EfiStatus;

/// The page of an address in memory, counted from the base.
pub(crate) fn page_of(memory: &GuestMemory, at: u64) -> u32
    requires { holds memory.now at ≡ true }
    ensures { result ≡ page_of memory.now at }
{
    match memory.page_at(at) {
        Some(page) => page,
        None => unreachable!(),
    }
}

/// Clears so many pages from an address on, and then writes the address of the first at an output of 8 bytes.
pub(crate) fn clear_and_write(
    memory: &mut GuestMemory,
    view: &View,
    start: u64,
    count: u64,
    at: u64,
) -> Result<Answer, AllocError>
    requires some { 0 < count }
    requires low { memory.old.base ≤ start }
    requires high { start + 4096 * count ≤ memory.old.base + 4096 * memory.old.pages }
    requires seen { all_pass (is_seen (see view.now) memory.old) at 8 ≡ true }
    ensures ok { IfOk result (λ answer. record { answer = answer; memory = memory.new } ≡ number_written (see view.now) memory.old (cleared memory.old (page_of memory.old start) count) at 8 start) }
    ensures base { memory.new.base ≡ memory.old.base }
    ensures pages { memory.new.pages ≡ memory.old.pages }
{
    memory.whole();
    let page = page_of(memory, start);
    if lacks_cleared(memory, view, page, count as u32, at, 8) {
        return Ok(Answer::LacksFrames);
    }
    clear(memory, start, count);
    put_output(memory, view, at, 8, start)?;
    Ok(Answer::Gives(EfiStatus::SUCCESS.0))
}

/// Clears so many pages from an address on: they are zeros then, with all rights and untouched.
pub(crate) fn clear(memory: &mut GuestMemory, start: u64, count: u64)
    requires some { 0 < count }
    requires low { memory.old.base ≤ start }
    requires high { start + 4096 * count ≤ memory.old.base + 4096 * memory.old.pages }
    ensures gives { memory.new ≡ cleared memory.old (page_of memory.old start) count }
    ensures base { memory.new.base ≡ memory.old.base }
    ensures pages { memory.new.pages ≡ memory.old.pages }
{
    memory.whole();
    let page = page_of(memory, start);
    memory.clear(page, count as u32);
}

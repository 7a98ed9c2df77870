//! AllocatePages and FreePages (UEFI 2.10, sections 7.2.1 and 7.2.2).
#![tactic(auto)]

ghost use Rattle.std.specs.Prelude.{◌≡◌, ◌+◌, ◌*◌, ◌≤◌, ◌<◌, List, IfOk, length};
ghost use Rattle.page_alloc.specs.Calls.{allocation, after_allocation, freeing, after_freeing};
ghost use Rattle.page_alloc.specs.declared.page.Owner.TheVariants as owners;
ghost use Rattle.pool_alloc.specs.Pool.{BlockPage, IsPool, Together};
ghost use Rattle.address_view.specs.Windows.{see};
ghost use Rattle.memory_services.specs.Ram.{IsOneRam, SameRam};
ghost use Rattle.memory_services.specs.PageServices.{allocate_pages, free_pages, page_status};

use crate::output::{clear, clear_and_write};
use address_view::View;
use guest_call::{Answer, argument, can_write, low_word, number_seen};
use guest_memory::GuestMemory;
use page_alloc::{Owner, PageMap, PageRefusal};
use pool_alloc::pool_stays_together;
use std::alloc::AllocError;
use uh_base::EfiStatus;

/// The status of a refusal.
fn page_status(refusal: PageRefusal) -> u64
    ensures { result ≡ page_status refusal }
{
    match refusal {
        PageRefusal::Invalid => EfiStatus::INVALID_PARAMETER.0,
        PageRefusal::NotFound => EfiStatus::NOT_FOUND.0,
        PageRefusal::NoPages => EfiStatus::OUT_OF_RESOURCES.0,
    }
}

/// AllocatePages (kind, type, pages, address): gives pages of zeros with all rights to the guest, and writes the address
/// of the first. `Err` is want of host memory.
#[tactic(auto, unfolding(crate::specs::PageServices::allocate_pages))]
pub fn allocate_pages(
    registers: &[u64; 32],
    view: &View,
    memory: &mut GuestMemory,
    pages: &mut PageMap,
) -> Result<Answer, AllocError>
    requires ram { IsOneRam memory.old pages.old }
    ensures ok { IfOk result (λ answer. record { answer = answer; memory = memory.new; pages = pages.new } ≡ allocate_pages registers.now (see view.now) memory.old pages.old) }
    ensures same { SameRam memory.old memory.new pages.old pages.new }
    ensures together { (pool : List BlockPage) → IsPool pool → Together pool pages.old → Together pool pages.new }
{
    let at = argument(3, registers);
    if !can_write(memory, view, at, 8) {
        return Ok(Answer::Gives(EfiStatus::INVALID_PARAMETER.0));
    }
    let wanted = number_seen(memory, view, at, 8);
    let kind = low_word(argument(0, registers));
    let memory_type = low_word(argument(1, registers));
    let count = argument(2, registers);
    match pages.allocation(kind, memory_type, count, wanted) {
        Err(refusal) => Ok(Answer::Gives(page_status(refusal))),
        Ok(start) => match clear_and_write(memory, view, start, count, at)? {
            Answer::LacksFrames => Ok(Answer::LacksFrames),
            Answer::Gives(status) => {
                take_pages(kind, memory_type, count, wanted, pages);
                Ok(Answer::Gives(status))
            }
        },
    }
}

/// Takes pages for the guest, where `allocation` says that some fit. None of them is the pool's.
fn take_pages(kind: u32, memory_type: u32, count: u64, wanted: u64, pages: &mut PageMap)
    ensures map { pages.new ≡ after_allocation (allocation pages.old kind memory_type count wanted) pages.old owners.Pages memory_type count }
    ensures base { pages.new.base ≡ pages.old.base }
    ensures length { length pages.new.pages ≡ length pages.old.pages }
    ensures together { (pool : List BlockPage) → IsPool pool → Together pool pages.old → Together pool pages.new }
{
    pages.whole();
    pool_stays_together();
    match pages.allocate(Owner::Pages, kind, memory_type, count, wanted) {
        Ok(_) => {}
        Err(_) => {}
    }
}

/// FreePages (address, pages): takes the guest's pages back, which are zeros then, with all rights and untouched.
#[tactic(auto, unfolding(crate::specs::PageServices::free_pages))]
pub fn free_pages(registers: &[u64; 32], memory: &mut GuestMemory, pages: &mut PageMap) -> u64
    requires ram { IsOneRam memory.old pages.old }
    ensures done { record { status = result; memory = memory.new; pages = pages.new } ≡ free_pages registers.now memory.old pages.old }
    ensures same { SameRam memory.old memory.new pages.old pages.new }
    ensures together { (pool : List BlockPage) → IsPool pool → Together pool pages.old → Together pool pages.new }
{
    let at = argument(0, registers);
    let count = argument(1, registers);
    match give_back(at, count, pages) {
        Ok(()) => {
            clear(memory, at, count);
            EfiStatus::SUCCESS.0
        }
        Err(refusal) => page_status(refusal),
    }
}

/// Takes the guest's pages back. None of them is the pool's.
#[tactic(auto, using(crate::proofs::PageLemmas::some_freed))]
fn give_back(at: u64, count: u64, pages: &mut PageMap) -> Result<(), PageRefusal>
    ensures answer { result ≡ freeing pages.old owners.Pages at count }
    ensures map { pages.new ≡ after_freeing result pages.old at count }
    ensures base { pages.new.base ≡ pages.old.base }
    ensures length { length pages.new.pages ≡ length pages.old.pages }
    ensures some { IfOk result (λ done. 0 < count) }
    ensures low { IfOk result (λ done. pages.old.base ≤ at) }
    ensures high { IfOk result (λ done. at + 4096 * count ≤ pages.old.base + 4096 * length pages.old.pages) }
    ensures together { (pool : List BlockPage) → IsPool pool → Together pool pages.old → Together pool pages.new }
{
    pages.whole();
    pool_stays_together();
    pages.free(Owner::Pages, at, count)
}

//! AllocatePool and FreePool (UEFI 2.10, sections 7.2.4 and 7.2.5).
#![tactic(auto)]

ghost use Rattle.std.specs.Prelude.{◌≡◌, ◌+◌, ◌-◌, ◌*◌, ◌/◌, ◌≤◌, ℕ, IfOk, IfNone, OnOk, true, false, is_ok, length};
ghost use Rattle.guest_memory.specs.Pages.{page_of};
ghost use Rattle.page_alloc.specs.Pages.{PageList};
ghost use Rattle.pool_alloc.specs.Pool.{Together};
ghost use Rattle.pool_alloc.specs.Blocks.{rounded};
ghost use Rattle.pool_alloc.specs.Calls.{Done, pool_allocation, answer_of, pages_allocated, pool_freeing, pages_freed, InRam, BlockInRam};
ghost use Rattle.address_view.specs.Windows.{see};
ghost use Rattle.address_view.specs.Seen.{all_pass, is_seen};
ghost use Rattle.address_view.specs.Stored.{lacks_seen};
ghost use Rattle.memory_services.specs.Ram.{IsOneRam, SameRam};
ghost use Rattle.memory_services.specs.PoolServices.{allocate_pool, block_given, block_zeroed, free_pool, pool_status};

use address_view::{View, lacks_cleared};
use guest_call::{Answer, argument, can_write, low_word, put_output};
use guest_memory::GuestMemory;
use page_alloc::PageMap;
use pool_alloc::{PageSpan, Pool, PoolRefusal};
use std::alloc::AllocError;
use uh_base::EfiStatus;

/// The status of a refusal.
fn pool_status(refusal: PoolRefusal) -> u64
    ensures { result ≡ pool_status refusal }
{
    match refusal {
        PoolRefusal::Invalid => EfiStatus::INVALID_PARAMETER.0,
        PoolRefusal::NoPages => EfiStatus::OUT_OF_RESOURCES.0,
        PoolRefusal::Memory => EfiStatus::OUT_OF_RESOURCES.0,
    }
}

/// The page of an address in RAM, counted from the base.
fn page_index(map: &PageMap, at: u64) -> u32
    requires low { map.now.base ≤ at }
    requires high { at ≤ map.now.base + 4096 * length map.now.pages }
    ensures { result ≡ (at - map.now.base) / 4096 }
{
    map.whole();
    ((at - map.base()) / 4096) as u32
}

/// Whether the store of an output of 8 bytes lacks frames once a block is zeroed.
fn lacks_zeroed(
    memory: &GuestMemory,
    view: &View,
    map: &PageMap,
    span: Option<PageSpan>,
    at: u64,
) -> bool
    requires ram { IsOneRam memory.now map.now }
    requires span { InRam span map.now }
    requires seen { all_pass (is_seen (see view.now) memory.now) at 8 ≡ true }
    ensures { (block size : ℕ) → result ≡ lacks_seen (see view.now) (block_zeroed memory.now span block size) at 8 }
{
    memory.whole();
    match span {
        Some(span) => {
            let page = page_index(map, span.start);
            lacks_cleared(memory, view, page, span.count as u32, at, 8)
        }
        None => lacks_cleared(memory, view, 0, 0, at, 8),
    }
}

/// Zeroes a block that is given or taken back: pages that go with it are cleared, and elsewhere its bytes become zeros.
fn zero_block(
    memory: &mut GuestMemory,
    map: &PageMap,
    span: Option<PageSpan>,
    block: u64,
    size: u64,
)
    requires ram { IsOneRam memory.old map.now }
    requires pages { InRam span map.now }
    requires bytes { IfNone span (BlockInRam block size map.now) }
    ensures gives { memory.new ≡ block_zeroed memory.old span block size }
    ensures base { memory.new.base ≡ memory.old.base }
    ensures pages { memory.new.pages ≡ memory.old.pages }
{
    memory.whole();
    match span {
        Some(span) => {
            let page = page_index(map, span.start);
            memory.clear(page, span.count as u32);
        }
        None => memory.zero(block, size),
    }
}

/// How many bytes a block of a size has: the size in whole units of 8 bytes, at least one.
fn rounded(size: u64) -> u64
    requires { size ≤ 4096 }
    ensures { result ≡ rounded size }
{
    if size == 0 { 8 } else { (size + 7) / 8 * 8 }
}

/// FreePool (address): takes a block back, which is zeros then. A page without a block is given back.
#[tactic(auto, unfolding(crate::specs::PoolServices::free_pool))]
pub fn free_pool(
    registers: &[u64; 32],
    memory: &mut GuestMemory,
    pages: &mut PageMap,
    pool: &mut Pool,
) -> u64
    requires ram { IsOneRam memory.old pages.old }
    requires together { Together pool.old pages.old }
    ensures done { record { status = result; memory = memory.new; pages = pages.new; pool = pool.new } ≡ free_pool registers.now memory.old pages.old pool.old }
    ensures same { SameRam memory.old memory.new pages.old pages.new }
    ensures together { Together pool.new pages.new }
{
    let at = argument(0, registers);
    pages.whole();
    pool.whole();
    let span = pool.pages_freed(at);
    match pool.free(pages, at) {
        Ok(size) => {
            zero_block(memory, pages, span, at, size);
            EfiStatus::SUCCESS.0
        }
        Err(refusal) => pool_status(refusal),
    }
}

/// AllocatePool (type, size, address): gives a block of zeros, and writes its address. `Err` is want of host memory.
#[tactic(auto, unfolding(crate::specs::PoolServices::allocate_pool))]
pub fn allocate_pool(
    registers: &[u64; 32],
    view: &View,
    memory: &mut GuestMemory,
    pages: &mut PageMap,
    pool: &mut Pool,
) -> Result<Answer, AllocError>
    requires ram { IsOneRam memory.old pages.old }
    requires together { Together pool.old pages.old }
    ensures ok { IfOk result (λ answer. record { answer = answer; memory = memory.new; pages = pages.new; pool = pool.new } ≡ allocate_pool registers.now (see view.now) memory.old pages.old pool.old) }
    ensures same { SameRam memory.old memory.new pages.old pages.new }
    ensures together { Together pool.new pages.new }
{
    let memory_type = low_word(argument(0, registers));
    let size = argument(1, registers);
    let output = argument(2, registers);
    if !can_write(memory, view, output, 8) {
        return Ok(Answer::Gives(EfiStatus::INVALID_PARAMETER.0));
    }
    match pool.allocation(pages, memory_type, size) {
        Err(refusal) => Ok(Answer::Gives(pool_status(refusal))),
        Ok(_) => give_block(memory_type, size, output, view, memory, pages, pool),
    }
}

/// How many bytes of a block have to be zeroed where no page is cleared for it.
fn block_size(span: Option<PageSpan>, size: u64) -> u64
    requires { IfNone span (size ≤ 2048) }
    ensures { IfNone span (result ≡ rounded size) }
{
    match span {
        Some(_) => 0,
        None => rounded(size),
    }
}

/// Gives a block where one fits, and writes its address.
fn give_block(
    memory_type: u32,
    size: u64,
    output: u64,
    view: &View,
    memory: &mut GuestMemory,
    pages: &mut PageMap,
    pool: &mut Pool,
) -> Result<Answer, AllocError>
    requires ram { IsOneRam memory.old pages.old }
    requires together { Together pool.old pages.old }
    requires seen { all_pass (is_seen (see view.now) memory.old) output 8 ≡ true }
    requires fits { is_ok (pool_allocation pool.old pages.old memory_type size) ≡ true }
    ensures ok { IfOk result (λ answer. record { answer = answer; memory = memory.new; pages = pages.new; pool = pool.new } ≡ block_given (see view.now) memory.old pages.old pool.old memory_type size output (pool_allocation pool.old pages.old memory_type size)) }
    ensures same { SameRam memory.old memory.new pages.old pages.new }
    ensures together { Together pool.new pages.new }
{
    pages.whole();
    pool.whole();
    let span = pool.pages_allocated(pages, memory_type, size);
    if lacks_zeroed(memory, view, pages, span, output) {
        return Ok(Answer::LacksFrames);
    }
    match pool.allocate(pages, memory_type, size) {
        Ok(block) => {
            zero_block(memory, pages, span, block, block_size(span, size));
            put_output(memory, view, output, 8, block)?;
            Ok(Answer::Gives(EfiStatus::SUCCESS.0))
        }
        Err(PoolRefusal::Memory) => Err(AllocError),
        Err(PoolRefusal::Invalid) => unreachable!(),
        Err(PoolRefusal::NoPages) => unreachable!(),
    }
}

//! Blocks of the pool that services give to their callers.
#![tactic(auto)]

ghost use Rattle.std.specs.Prelude.{◌≡◌, ◌≤◌, ◌+◌, ◌*◌, ◌∷◌, [], List, IfOk, IfSome, IsTrue, OnOk, Ok, Some, true, false, is_ok, length, nat_lt};
ghost use Rattle.uh_base.specs.Limits.{frame_limit};
ghost use Rattle.guest_memory.specs.Lists.{count_true};
ghost use Rattle.address_view.specs.Windows.{see};
ghost use Rattle.address_view.specs.Seen.{all_pass, is_seen};
ghost use Rattle.page_alloc.specs.Pages.{PageList};
ghost use Rattle.pool_alloc.specs.Pool.{BlockPage, Together};
ghost use Rattle.pool_alloc.specs.Blocks.{rounded};
ghost use Rattle.pool_alloc.specs.Calls.{Done as PoolDone, pool_allocation, pages_allocated, BlockInRam};
ghost use Rattle.protocol_services.specs.Blocks.{first_value, second_value, opened, with_contents, outputs_written, block_given, none_given, list_given, block_address, IsIn, marks_behind, IsRamView};

use crate::marks::{count_after, page_index};
use crate::outputs::ListOutputs;
use crate::searching::put_buffer;
use address_view::{ByteRange, View, lacks_after, ranges_suffice};
use guest_call::put_output;
use guest_memory::GuestMemory;
use page_alloc::PageMap;
use pool_alloc::{PageSpan, Pool, PoolRefusal};
use service_answer::{Served, gives, lacks_frames};
use std::alloc::{AllocError, Global};
use uh_base::{EfiStatus, FRAME_LIMIT};

/// The memory type of the blocks, EfiBootServicesData.
const BLOCK_TYPE: u32 = 4;

/// What is written first, of the address of a list and the number of its elements.
fn first_value(outputs: ListOutputs, at: u64, count: u64) -> u64
    ensures { result ≡ first_value outputs at count }
{
    if outputs.count_first { count } else { at }
}

/// What is written behind it.
fn second_value(outputs: ListOutputs, at: u64, count: u64) -> u64
    ensures { result ≡ second_value outputs at count }
{
    if outputs.count_first { at } else { count }
}

/// RAM as the firmware sees it, each place at its own address.
fn ram_view(alloc: Global, memory: &GuestMemory, base: u64) -> Result<View, AllocError>
    requires { base ≡ memory.now.base }
    ensures { IfOk result (λ view. IsRamView view memory.now) }
{
    memory.whole();
    View::identity(alloc, base, 4096 * u64::from(memory.pages()))
}

/// Clears the pages that are taken for a block.
fn open_pages(memory: &mut GuestMemory, base: u64, span: Option<PageSpan>)
    requires base { base ≡ memory.old.base }
    requires span { IsIn span memory.old.base memory.old.pages }
    ensures gives { memory.new ≡ opened memory.old span }
    ensures base { memory.new.base ≡ memory.old.base }
    ensures pages { memory.new.pages ≡ memory.old.pages }
{
    memory.whole();
    if let Some(span) = span {
        let page = page_index(memory, base, span.start);
        memory.clear(page, span.count as u32);
    }
}

/// Writes a block and the outputs, where there are frames for all.
#[tactic(auto, using(crate::proofs::BlockLemmas::block_fits, crate::proofs::BlockLemmas::first_fits, crate::proofs::BlockLemmas::second_fits))]
fn write_block(
    memory: &mut GuestMemory,
    base: u64,
    ram: &View,
    view: &View,
    span: Option<PageSpan>,
    block: u64,
    bytes: &[u8],
    outputs: ListOutputs,
    count: u64,
) -> Result<(), AllocError>
    requires base { base ≡ memory.old.base }
    requires ram { IsRamView ram.now memory.old }
    requires span { IsIn span memory.old.base memory.old.pages }
    requires block { all_pass (is_seen (see ram.now) memory.old) block (length bytes.now) ≡ true }
    requires first { all_pass (is_seen (see view.now) memory.old) outputs.first 8 ≡ true }
    requires second { all_pass (is_seen (see view.now) memory.old) outputs.second 8 ≡ true }
    requires frames { nat_lt frame_limit (count_true (outputs_written (see view.now) (with_contents memory.old span block bytes.now) outputs block count).touched) ≡ false }
    ensures ok { OnOk result (memory.new ≡ outputs_written (see view.now) (with_contents memory.old span block bytes.now) outputs block count) }
    ensures base { memory.new.base ≡ memory.old.base }
    ensures pages { memory.new.pages ≡ memory.old.pages }
{
    open_pages(memory, base, span);
    put_buffer(memory, ram, block, bytes)?;
    let first = first_value(outputs, block, count);
    put_output(memory, view, outputs.first, 8, first)?;
    let second = second_value(outputs, block, count);
    put_output(memory, view, outputs.second, 8, second)
}

/// Where a block of a size would lie, found by an allocation in copies of the pool and of its pages. None where there is
/// none.
fn block_in(pages: &PageMap, pool: &Pool, size: u64) -> Result<Option<u64>, AllocError>
    requires { Together pool.now pages.now }
    ensures lies { IfOk result (λ block. IfSome block (λ at. BlockInRam at (rounded size) pages.now)) }
    ensures found { IfOk result (λ block. (done : PoolDone) → pool_allocation pool.now pages.now 4 size ≡ Ok done → block ≡ Some done.answer) }
{
    let mut pages = pages.copy()?;
    let mut pool = pool.copy()?;
    match pool.allocate(&mut pages, BLOCK_TYPE, size) {
        Ok(at) => Ok(Some(at)),
        Err(PoolRefusal::Memory) => Err(AllocError),
        Err(PoolRefusal::Invalid) => Ok(None),
        Err(PoolRefusal::NoPages) => Ok(None),
    }
}

/// Whether there are frames for so many pages more.
fn is_room(memory: &GuestMemory, size: u64) -> bool
    ensures { IsTrue result → count_true memory.now.touched + size + 16 ≤ frame_limit }
{
    memory.whole();
    let room = u64::from(FRAME_LIMIT - memory.touched());
    room >= 16 && size <= room - 16
}

/// Whether more than 65,536 pages would be touched once a block of a size and the outputs are written.
#[tactic(auto, using(crate::proofs::BlockLemmas::seen_in_ram, crate::proofs::BlockLemmas::no_lack))]
fn lacks_given(
    alloc: Global,
    memory: &GuestMemory,
    ram: &View,
    view: &View,
    pages: &PageMap,
    pool: &Pool,
    span: Option<PageSpan>,
    size: u64,
    outputs: ListOutputs,
) -> Result<bool, AllocError>
    requires base { pages.now.base ≡ memory.now.base }
    requires count { length pages.now.pages ≡ memory.now.pages }
    requires together { Together pool.now pages.now }
    requires ram { IsRamView ram.now memory.now }
    requires span { IsIn span memory.now.base memory.now.pages }
    requires first { all_pass (is_seen (see view.now) memory.now) outputs.first 8 ≡ true }
    requires second { all_pass (is_seen (see view.now) memory.now) outputs.second 8 ≡ true }
    ensures { IfOk result (λ lacks. (done : PoolDone) → pool_allocation pool.now pages.now 4 size ≡ Ok done → lacks ≡ nat_lt frame_limit (count_true (marks_behind (see ram.now) (see view.now) memory.now.base (opened memory.now span).touched (record { at = done.answer; len = size }) outputs))) }
{
    memory.whole();
    if is_room(memory, size) {
        return Ok(false);
    }
    match block_in(pages, pool, size)? {
        None => Ok(false),
        Some(at) => {
            let block = ByteRange { at, len: size };
            let mut marks = vec![in alloc; false; memory.pages() as usize]?;
            let base = pages.base();
            let marks = marks.as_mut_slice();
            Ok(
                count_after(memory, base, ram, view, span, block, outputs, marks)
                    > u64::from(FRAME_LIMIT),
            )
        }
    }
}

/// The address that a block of a size will have, 0 where none is given.
pub(crate) fn block_address(pages: &PageMap, pool: &Pool, size: u64) -> u64
    ensures { result ≡ block_address pages.now pool.now size }
{
    match pool.allocation(pages, BLOCK_TYPE, size) {
        Ok(at) => at,
        Err(_) => 0,
    }
}

/// Gives a block where one fits.
#[tactic(auto, using(crate::proofs::BlockLemmas::marks_are, crate::proofs::BlockLemmas::seen_in_ram))]
fn give_block(
    alloc: Global,
    view: &View,
    memory: &mut GuestMemory,
    pages: &mut PageMap,
    pool: &mut Pool,
    outputs: ListOutputs,
    bytes: &[u8],
    count: u64,
) -> Result<Served, AllocError>
    requires base { pages.old.base ≡ memory.old.base }
    requires count { length pages.old.pages ≡ memory.old.pages }
    requires together { Together pool.old pages.old }
    requires first { all_pass (is_seen (see view.now) memory.old) outputs.first 8 ≡ true }
    requires second { all_pass (is_seen (see view.now) memory.old) outputs.second 8 ≡ true }
    requires fits { is_ok (pool_allocation pool.old pages.old 4 (length bytes.now)) ≡ true }
    ensures ok { IfOk result (λ answer. record { answer = answer; memory = memory.new; pages = pages.new; pool = pool.new } ≡ block_given (see view.now) memory.old pages.old pool.old outputs bytes.now count (pages_allocated pool.old pages.old 4 (length bytes.now)) (pool_allocation pool.old pages.old 4 (length bytes.now))) }
    ensures base { memory.new.base ≡ memory.old.base }
    ensures pages { memory.new.pages ≡ memory.old.pages }
    ensures map_base { pages.new.base ≡ pages.old.base }
    ensures map_pages { length pages.new.pages ≡ length pages.old.pages }
    ensures together { Together pool.new pages.new }
{
    memory.whole();
    pages.whole();
    pool.whole();
    let size = bytes.len() as u64;
    let base = pages.base();
    let ram = ram_view(alloc, memory, base)?;
    let span = pool.pages_allocated(pages, BLOCK_TYPE, size);
    if lacks_given(alloc, memory, &ram, view, pages, pool, span, size, outputs)? {
        return Ok(lacks_frames(alloc));
    }
    match pool.allocate(pages, BLOCK_TYPE, size) {
        Ok(block) => {
            write_block(memory, base, &ram, view, span, block, bytes, outputs, count)?;
            Ok(gives(alloc, EfiStatus::SUCCESS.0))
        }
        Err(PoolRefusal::Memory) => Err(AllocError),
        Err(PoolRefusal::Invalid) => unreachable!(),
        Err(PoolRefusal::NoPages) => unreachable!(),
    }
}

/// Gives an empty list, without a block.
#[tactic(auto, using(crate::proofs::BlockLemmas::none_lacks, crate::proofs::WordLemmas::size_fits, crate::proofs::WordLemmas::buffer_fits))]
fn give_none(
    alloc: Global,
    view: &View,
    memory: &mut GuestMemory,
    outputs: ListOutputs,
    count: u64,
) -> Result<Served, AllocError>
    requires first { all_pass (is_seen (see view.now) memory.old) outputs.first 8 ≡ true }
    requires second { all_pass (is_seen (see view.now) memory.old) outputs.second 8 ≡ true }
    ensures ok { (pages : PageList) (pool : List BlockPage) → IfOk result (λ answer. record { answer = answer; memory = memory.new; pages = pages; pool = pool } ≡ none_given (see view.now) memory.old pages pool outputs count) }
    ensures base { memory.new.base ≡ memory.old.base }
    ensures pages { memory.new.pages ≡ memory.old.pages }
{
    ranges_suffice();
    let first = ByteRange {
        at: outputs.first,
        len: 8,
    };
    let second = ByteRange {
        at: outputs.second,
        len: 8,
    };
    if lacks_after(memory, view, &[first, second]) {
        return Ok(lacks_frames(alloc));
    }
    put_output(
        memory,
        view,
        outputs.first,
        8,
        first_value(outputs, 0, count),
    )?;
    put_output(
        memory,
        view,
        outputs.second,
        8,
        second_value(outputs, 0, count),
    )?;
    Ok(gives(alloc, EfiStatus::SUCCESS.0))
}

/// Gives a list, by its bytes and how many elements it has. An empty one has address 0 and no block.
pub(crate) fn give_list(
    alloc: Global,
    view: &View,
    memory: &mut GuestMemory,
    pages: &mut PageMap,
    pool: &mut Pool,
    outputs: ListOutputs,
    bytes: &[u8],
    count: u64,
) -> Result<Served, AllocError>
    requires base { pages.old.base ≡ memory.old.base }
    requires count { length pages.old.pages ≡ memory.old.pages }
    requires together { Together pool.old pages.old }
    requires first { all_pass (is_seen (see view.now) memory.old) outputs.first 8 ≡ true }
    requires second { all_pass (is_seen (see view.now) memory.old) outputs.second 8 ≡ true }
    ensures ok { IfOk result (λ answer. record { answer = answer; memory = memory.new; pages = pages.new; pool = pool.new } ≡ list_given (see view.now) memory.old pages.old pool.old outputs bytes.now count) }
    ensures base { memory.new.base ≡ memory.old.base }
    ensures pages { memory.new.pages ≡ memory.old.pages }
    ensures map_base { pages.new.base ≡ pages.old.base }
    ensures map_pages { length pages.new.pages ≡ length pages.old.pages }
    ensures together { Together pool.new pages.new }
{
    if bytes.is_empty() {
        return give_none(alloc, view, memory, outputs, count);
    }
    match pool.allocation(pages, BLOCK_TYPE, bytes.len() as u64) {
        Err(_) => Ok(gives(alloc, EfiStatus::OUT_OF_RESOURCES.0)),
        Ok(_) => give_block(alloc, view, memory, pages, pool, outputs, bytes, count),
    }
}

//! The pool.
#![tactic(auto)]

ghost use Rattle.std.specs.Prelude.{◌≡◌, ◌<◌, ◌≤◌, ◌+◌, ◌%◌, ℕ, IfOk, IfSome, IfNone, OnOk, OnErr, IfErr, length, [], Some, None, true, take, drop, position, slice_set, slice_index_or};
ghost use Rattle.std.specs.Option.{option_map};
ghost use Rattle.page_alloc.specs.Pages.{PageList, Whole};
ghost use Rattle.page_alloc.specs.Calls.{may_be_given, allocation};
ghost use Rattle.pool_alloc.specs.Blocks.{rounded, pages_for};
ghost use Rattle.pool_alloc.specs.Calls.{Gives, GivesSurely, on_pages, gap_for, pool_allocation, pool_freeing, answer_of, span_at, pages_allocated, with_allocated, pages_freed, with_freed, InRam, BlockInRam};
ghost use Rattle.pool_alloc.specs.Pool.{BlockPage, Placed, put_first, with_block_on, take_first, begins_at, behind, TakeGives, CanFree, CanPut, IsPool, Together};

use crate::block::{Block, pages_for, rounded};
use crate::page::{LARGEST, PoolPage};
use crate::refusal::PoolRefusal;
use crate::span::PageSpan;
use page_alloc::{Owner, PageMap, given_are_owned, may_be_given, owned_are_freed, owned_stay};
use std::alloc::{AllocError, Global};
use std::marker::Model;

/// The pool: blocks of guest memory in pages of its own (UEFI 2.10, section 7.2, AllocatePool).
#[derive(Drop)]
pub struct Pool {
    pages: Vec<PoolPage>,
}

impl Model for Pool {
    ghost use Rattle.std.specs.Prelude.{List};
    ghost use Rattle.pool_alloc.specs.Pool.{BlockPage, IsPool};

    ghost Value = { List BlockPage };

    ghost view = { λ p. p.pages.items };

    ghost invariant = { λ p. IsPool p.pages.items };
}

/// The pages that a page map would give for a block of a memory type of so many bytes.
fn new_pages(map: &PageMap, memory_type: u32, size: u64) -> Option<PageSpan>
    ensures span { result ≡ span_at (pages_for (rounded size)) (allocation map.now 0 memory_type (pages_for (rounded size)) 0) }
    ensures inside { InRam result map.now }
{
    let count = pages_for(size.max(1));
    match map.allocation(0, memory_type, count, 0) {
        Ok(start) => Some(PageSpan { start, count }),
        Err(_) => None,
    }
}

impl Pool {
    /// A pool without pages. It takes no memory.
    pub fn new(alloc: Global) -> Pool
        ensures { result ≡ [] }
    {
        Pool {
            pages: Vec::new(alloc),
        }
    }

    /// What is so of every pool.
    pub fn whole(&self)
        ensures { IsPool self.now }
    {
        let _ = &self.pages;
    }

    /// The first page that has a gap for so many bytes of a memory type, by its place, and the lowest gap.
    fn first_gap(&self, memory_type: u32, size: u64) -> Option<(usize, u64)>
        requires some { 0 < size }
        requires few { size ≤ 2048 }
        requires rounded { size % 8 ≡ 0 }
        ensures none { IfNone result (put_first self.now memory_type size ≡ None) }
        ensures inside { IfSome result (λ place. place.0 < length self.now) }
        ensures can { IfSome result (λ place. (d : BlockPage) → CanPut (slice_index_or self.now place.0 d).blocks place.1 size) }
        ensures some { IfSome result (λ place. (d : BlockPage) → put_first self.now memory_type size ≡ Some (record { at = (slice_index_or self.now place.0 d).start + place.1; pages = slice_set self.now place.0 (with_block_on (slice_index_or self.now place.0 d) place.1 size) })) }
    {
        for (index, page) in self.pages.iter().enumerate() {
            if let Some(offset) = page.gap(memory_type, size) {
                return Some((index, offset));
            }
        }
        None
    }

    /// Puts a block into a gap of a page, and answers its address.
    fn put(&mut self, index: usize, offset: u64, size: u64) -> Result<u64, AllocError>
        requires inside { index < length self.old }
        requires can { (d : BlockPage) → CanPut (slice_index_or self.old index d).blocks offset size }
        ensures at { IfOk result (λ at. (d : BlockPage) → at ≡ (slice_index_or self.old index d).start + offset) }
        ensures ok { OnOk result ((d : BlockPage) → self.new ≡ slice_set self.old index (with_block_on (slice_index_or self.old index d) offset size)) }
        ensures err { OnErr result (self.new ≡ self.old) }
        ensures together { (m : PageList) → Together self.old m → Together self.new m }
        ensures block { (m : PageList) → Whole m → Together self.old m → IfOk result (λ at. BlockInRam at size m) }
    {
        let page = &mut self.pages[index];
        let at = page.start() + offset;
        page.put(offset, size)?;
        Ok(at)
    }

    /// Takes new pages at the highest start for a block.
    fn add(&mut self, map: &mut PageMap, memory_type: u32, size: u64) -> Result<u64, PoolRefusal>
        requires together { Together self.old map.old }
        requires known { may_be_given memory_type ≡ true }
        ensures gives { Gives result (on_pages self.old map.old memory_type (rounded size) (allocation map.old 0 memory_type (pages_for (rounded size)) 0)) self.old map.old self.new map.new }
        ensures pages { OnOk result (map.new ≡ with_allocated map.old memory_type (span_at (pages_for (rounded size)) (allocation map.old 0 memory_type (pages_for (rounded size)) 0))) }
        ensures inside { OnOk result (InRam (span_at (pages_for (rounded size)) (allocation map.old 0 memory_type (pages_for (rounded size)) 0)) map.old) }
        ensures block { IfOk result (λ at. BlockInRam at (rounded size) map.old) }
        ensures together { Together self.new map.new }
        ensures base { map.new.base ≡ map.old.base }
        ensures length { length map.new.pages ≡ length map.old.pages }
    {
        map.whole();
        given_are_owned();
        owned_stay();
        let blocks = Vec::with_capacity(*self.pages.allocator(), 1)?;
        self.pages.reserve(1)?;
        match map.allocate(Owner::Pool, 0, memory_type, pages_for(size.max(1)), 0) {
            Ok(start) => {
                let page = PoolPage::new(start, memory_type, blocks, rounded(size));
                self.pages.push_reserved(page);
                Ok(start)
            }
            Err(_) => Err(PoolRefusal::NoPages),
        }
    }

    /// The address of the gap that a block of at least so many bytes of a memory type would take.
    fn gap_address(&self, memory_type: u32, size: u64) -> Option<u64>
        ensures { result ≡ option_map (λ placed. placed.at) (gap_for self.now memory_type (rounded size)) }
    {
        if size > LARGEST {
            return None;
        }
        let Some((index, offset)) = self.first_gap(memory_type, rounded(size)) else {
            return None;
        };
        let page = &self.pages[index];
        Some(page.start() + offset)
    }

    /// The pages that `allocate` would take from the page map, None where its block would go into a gap and where it
    /// would refuse.
    #[tactic(auto, unfolding(crate::specs::Calls::pages_allocated))]
    pub fn pages_allocated(&self, map: &PageMap, memory_type: u32, size: u64) -> Option<PageSpan>
        ensures span { result ≡ pages_allocated self.now map.now memory_type size }
        ensures inside { InRam result map.now }
    {
        if !may_be_given(memory_type) {
            return None;
        }
        match self.gap_address(memory_type, size) {
            Some(_) => None,
            None => new_pages(map, memory_type, size),
        }
    }

    /// What `allocate` would answer, but for want of memory.
    #[tactic(auto, unfolding(crate::specs::Calls::pool_allocation))]
    pub fn allocation(&self, map: &PageMap, memory_type: u32, size: u64) -> Result<u64, PoolRefusal>
        ensures { result ≡ answer_of (pool_allocation self.now map.now memory_type size) }
    {
        if !may_be_given(memory_type) {
            return Err(PoolRefusal::Invalid);
        }
        if let Some(at) = self.gap_address(memory_type, size) {
            return Ok(at);
        }
        match new_pages(map, memory_type, size) {
            Some(span) => Ok(span.start),
            None => Err(PoolRefusal::NoPages),
        }
    }

    /// Gives a block of guest memory of at least so many bytes, as AllocatePool does (UEFI 2.10, section 7.2), and
    /// answers its address. The size is rounded up to a multiple of 8, and 0 to 8. A block of more than 2,048 bytes
    /// takes pages of its own. Others take the lowest gap of the first page of their type that has one, in the order
    /// in which the pages were made, or else a new page. New pages are at the highest start. `Invalid` is for a memory
    /// type that isn't given, `NoPages` where pages are needed and none fit.
    #[tactic(auto, unfolding(crate::specs::Calls::pool_allocation, crate::specs::Calls::pages_allocated))]
    pub fn allocate(
        &mut self,
        map: &mut PageMap,
        memory_type: u32,
        size: u64,
    ) -> Result<u64, PoolRefusal>
        requires { Together self.old map.old }
        ensures gives { Gives result (pool_allocation self.old map.old memory_type size) self.old map.old self.new map.new }
        ensures pages { OnOk result (map.new ≡ with_allocated map.old memory_type (pages_allocated self.old map.old memory_type size)) }
        ensures inside { OnOk result (InRam (pages_allocated self.old map.old memory_type size) map.old) }
        ensures block { IfOk result (λ at. BlockInRam at (rounded size) map.old) }
        ensures together { Together self.new map.new }
        ensures base { map.new.base ≡ map.old.base }
        ensures length { length map.new.pages ≡ length map.old.pages }
    {
        if !may_be_given(memory_type) {
            return Err(PoolRefusal::Invalid);
        }
        if size > LARGEST {
            return self.add(map, memory_type, size);
        }
        map.whole();
        let rounded_size = rounded(size);
        match self.first_gap(memory_type, rounded_size) {
            Some((index, offset)) => match self.put(index, offset, rounded_size) {
                Ok(at) => Ok(at),
                Err(_) => Err(PoolRefusal::Memory),
            },
            None => self.add(map, memory_type, size),
        }
    }

    /// The page, and the place on it, of the block that begins at an address.
    fn find(&self, at: u64) -> Option<(usize, usize)>
        ensures none { IfNone result (take_first self.now at ≡ None) }
        ensures inside { IfSome result (λ found. found.0 < length self.now) }
        ensures place { IfSome result (λ found. (d : BlockPage) → position (begins_at (slice_index_or self.now found.0 d) at) (slice_index_or self.now found.0 d).blocks ≡ Some found.1) }
        ensures before { IfSome result (λ found. behind (take found.0 self.now) (take_first (drop found.0 self.now) at) ≡ take_first self.now at) }
    {
        for (index, page) in self.pages.iter().enumerate() {
            if let Some(place) = page.position(at) {
                return Some((index, place));
            }
        }
        None
    }

    /// The pages that `free` would give back to the page map, None where other blocks are left there and where it
    /// would refuse.
    #[tactic(auto, unfolding(crate::specs::Calls::pages_freed))]
    pub fn pages_freed(&self, at: u64) -> Option<PageSpan>
        ensures { result ≡ pages_freed self.now at }
    {
        let Some((index, _)) = self.find(at) else {
            return None;
        };
        let page = &self.pages[index];
        if page.has_one() {
            Some(page.span())
        } else {
            None
        }
    }

    /// Takes the block that begins at an address out, and answers its size and the pages that have no block any more.
    /// These are no longer in the pool.
    fn take(&mut self, at: u64) -> Option<(u64, Option<PageSpan>)>
        ensures gives { TakeGives result (take_first self.old at) self.old self.new }
        ensures can { (m : PageList) → Whole m → Together self.old m → IfSome result (λ taken. CanFree taken.1 self.new m) }
    {
        let Some((index, place)) = self.find(at) else {
            return None;
        };
        owned_are_freed();
        let page = &mut self.pages[index];
        let freed = page.span();
        let size = page.remove(place);
        if !page.is_empty() {
            return Some((size, None));
        }
        self.pages.remove(index);
        Some((size, Some(freed)))
    }

    /// Takes the block that begins at an address back, as FreePool does (UEFI 2.10, section 7.2), and answers its size.
    /// Pages without a block are given back to the page map. `Invalid` is for an address at which no block begins. It
    /// takes no memory.
    #[tactic(auto, unfolding(crate::specs::Calls::pool_freeing, crate::specs::Calls::pages_freed))]
    pub fn free(&mut self, map: &mut PageMap, at: u64) -> Result<u64, PoolRefusal>
        requires { Together self.old map.old }
        ensures gives { GivesSurely result (pool_freeing self.old map.old at) self.old map.old self.new map.new }
        ensures pages { OnOk result (map.new ≡ with_freed map.old (pages_freed self.old at)) }
        ensures inside { OnOk result (InRam (pages_freed self.old at) map.old) }
        ensures together { Together self.new map.new }
        ensures base { map.new.base ≡ map.old.base }
        ensures length { length map.new.pages ≡ length map.old.pages }
    {
        map.whole();
        match self.take(at) {
            None => Err(PoolRefusal::Invalid),
            Some((size, None)) => Ok(size),
            Some((size, Some(span))) => match map.free(Owner::Pool, span.start, span.count) {
                Ok(()) => Ok(size),
                Err(_) => unreachable!(),
            },
        }
    }

    /// An equal pool.
    pub fn copy(&self) -> Result<Pool, AllocError>
        ensures { IfOk result (λ pool. pool ≡ self.now) }
    {
        let mut pages = Vec::with_capacity(*self.pages.allocator(), self.pages.len())?;
        for page in &self.pages {
            pages.push(page.copy()?)?;
        }
        Ok(Pool { pages })
    }
}

//! The map of the pages of RAM.
#![tactic(auto)]

ghost use Rattle.std.specs.Prelude.{◌≡◌, ◌≢◌, ◌<◌, ◌≤◌, ◌+◌, ◌-◌, ◌*◌, ◌/◌, ℕ, IfOk, ◌^◌, IsTrue, IfSome, IfNone, OnSome, length};
ghost use Rattle.std.specs.Option.{option_map};
ghost use Rattle.page_alloc.specs.Layout.{IsLayout};
ghost use Rattle.page_alloc.specs.Pages.{PageList, Whole, page_at, changed, index_of, IsNobodys};
ghost use Rattle.page_alloc.specs.Calls.{allocation, after_allocation, owns, freeing, after_freeing};
ghost use Rattle.page_alloc.specs.Opening.{at_opening};
ghost use Rattle.page_alloc.specs.Fit.{IsHighest, is_room, fit};
ghost use Rattle.page_alloc.specs.Runs.{all_pages, NoneEmpty};

use crate::layout::Layout;
use crate::page::{CONVENTIONAL, Owner, Page, PageRefusal, is_request};
use crate::runs::{Run, are_owned, fill, highest_room, opening_runs, page_in};
use std::alloc::{AllocError, Global};
use std::marker::Model;

/// The types and owners of the pages of RAM, and the key of its memory map (UEFI 2.10, section 7.2). It keeps runs
/// of equal pages, and from the start the room for as many runs as there are pages, so that it takes memory
/// when it is made and copied, and then no more.
#[derive(Drop)]
pub struct PageMap {
    base: u64,
    pages: u32,
    runs: Vec<Run>,
    key: u64,
}

impl Model for PageMap {
    ghost use Rattle.std.specs.Prelude.{◌≡◌, ◌≤◌, length, vec_capacity};
    ghost use Rattle.page_alloc.specs.Pages.{PageList, Whole};

    ghost Value = { PageList };

    ghost use Rattle.page_alloc.specs.Runs.{all_pages, NoneEmpty};

    ghost view = { λ m. record { base = m.base; pages = all_pages m.runs.items; key = m.key } };

    ghost invariant = { λ m. Whole (record { base = m.base; pages = all_pages m.runs.items; key = m.key }) × (length (all_pages m.runs.items) ≡ m.pages) × NoneEmpty m.runs.items × (m.pages ≤ vec_capacity m.runs) };
}

impl PageMap {
    /// The pages at opening, with key 1.
    #[tactic(auto, using(crate::proofs::Openings::opening_whole, crate::proofs::Openings::opening_length))]
    pub fn new(alloc: Global, layout: &Layout) -> Result<PageMap, AllocError>
        requires { IsLayout layout.now }
        ensures { IfOk result (λ map. map ≡ at_opening layout.now) }
    {
        let runs = opening_runs(alloc, layout)?;
        Ok(PageMap {
            base: layout.base,
            pages: layout.pages,
            runs,
            key: 1,
        })
    }

    /// What is so of every map.
    pub fn whole(&self)
        ensures { Whole self.now }
    {
        let _ = &self.base;
    }

    /// The key of the memory map. It is 1 at opening and rises by one whenever pages are given or taken back.
    pub fn key(&self) -> u64
        ensures { result ≡ self.now.key }
    {
        self.key
    }

    /// The first byte of RAM.
    pub fn base(&self) -> u64
        ensures { result ≡ self.now.base }
    {
        self.base
    }

    /// The memory type and the owner of the page at an address, None outside RAM.
    #[tactic(auto, unfolding(crate::specs::Pages::page_at))]
    pub fn type_at(&self, at: u64) -> Option<(u32, Owner)>
        ensures { result ≡ option_map (λ page. (page.memory_type, page.owner)) (page_at self.now at) }
    {
        if at < self.base {
            return None;
        }
        let page = page_in(self.runs.as_slice(), (at - self.base) / 4096)?;
        Some((page.memory_type, page.owner))
    }

    /// The pages as runs of equal pages, from the lowest address on. Runs that meet may have one type.
    pub fn runs(&self) -> &[Run]
        ensures pages { all_pages result.now ≡ self.now.pages }
        ensures none_empty { NoneEmpty result.now }
    {
        self.runs.as_slice()
    }

    /// An equal map.
    pub fn copy(&self) -> Result<PageMap, AllocError>
        ensures { IfOk result (λ map. map ≡ self.now) }
    {
        let mut runs = Vec::with_capacity(*self.runs.allocator(), self.pages as usize)?;
        runs.extend_from_slice(self.runs.as_slice())?;
        Ok(PageMap {
            base: self.base,
            pages: self.pages,
            runs,
            key: self.key,
        })
    }

    /// How many pages there are.
    fn total(&self) -> u64
        ensures { result ≡ length self.now.pages }
    {
        u64::from(self.pages)
    }

    /// How many pages from the base on end at most at an address.
    fn pages_up_to(&self, at: u64) -> u64
        ensures { result ≡ (at + 1 - self.now.base) / 4096 }
    {
        if at < self.base {
            0
        } else {
            (at - self.base + 1) / 4096
        }
    }

    /// How many pages lie below the one that begins at an address.
    fn start_at(&self, at: u64) -> Option<u64>
        ensures some { IfSome result (λ start. self.now.base + 4096 * start ≡ at) }
        ensures low { IfSome result (λ start. start < 2 ^ 52) }
        ensures none { IfNone result ((start : ℕ) → self.now.base + 4096 * start ≡ at → ⊥) }
    {
        if at < self.base || (at - self.base) % 4096 != 0 {
            None
        } else {
            Some((at - self.base) / 4096)
        }
    }

    /// The highest start of so many conventional pages that begin at least at a lowest start and end at most at a
    /// limit, in pages from the base.
    fn highest(&self, pages: u64, lowest: u64, limit: u64) -> Option<u64>
        requires some { 0 < pages }
        requires few { pages ≤ length self.now.pages }
        requires low { lowest < 2 ^ 52 }
        ensures { IsHighest (is_room self.now.pages pages lowest limit) result }
    {
        let runs = self.runs.as_slice();
        highest_room(runs, self.total(), pages, lowest, limit)
    }

    /// The address as the start of so many conventional pages, in pages from the base.
    fn fit_at(&self, at: u64, pages: u64) -> Option<u64>
        requires some { 0 < pages }
        requires few { pages ≤ length self.now.pages }
        ensures { result ≡ fit self.now 2 at pages }
    {
        self.whole();
        let Some(start) = self.start_at(at) else {
            return None;
        };
        self.highest(pages, start, start + pages)
    }

    /// The fit of a request, by its kind.
    fn fit_of(&self, kind: u32, at: u64, pages: u64) -> Option<u64>
        requires some { 0 < pages }
        requires kind { kind ≤ 2 }
        ensures { result ≡ fit self.now kind at pages }
    {
        if pages > self.total() {
            return None;
        }
        match kind {
            0 => self.highest(pages, 0, self.total()),
            1 => self.highest(pages, 0, self.pages_up_to(at)),
            _ => self.fit_at(at, pages),
        }
    }

    /// The fit of a request, in pages from the base.
    #[tactic(auto, using(crate::proofs::FitLemmas::fit_few))]
    fn fit(&self, kind: u32, at: u64, pages: u64) -> Option<u64>
        requires some { 0 < pages }
        requires kind { kind ≤ 2 }
        ensures fit { result ≡ fit self.now kind at pages }
        ensures inside { IfSome result (λ start. start + pages ≤ length self.now.pages) }
        ensures few { OnSome result (pages < 2 ^ 32) }
    {
        self.whole();
        self.fit_of(kind, at, pages)
    }

    /// The address of a page, by its index.
    fn address(&self, start: u64) -> u64
        requires { start ≤ length self.now.pages }
        ensures { result ≡ self.now.base + 4096 * start }
    {
        self.whole();
        self.base + 4096 * start
    }

    /// Makes so many pages from an address on the same, and raises the key.
    fn change(&mut self, at: u64, count: u32, page: Page)
        requires some { 0 < count }
        requires low { self.old.base ≤ at }
        requires inside { index_of self.old at + count ≤ length self.old.pages }
        requires nobodys { IsNobodys page }
        ensures map { self.new ≡ changed self.old at count page }
        ensures base { self.new.base ≡ self.old.base }
        ensures length { length self.new.pages ≡ length self.old.pages }
    {
        let start = (at - self.base) / 4096;
        fill(&mut self.runs, start, count, page);
        self.key = self.key.saturating_add(1);
    }

    /// What `allocate` would answer.
    #[tactic(auto, unfolding(crate::specs::Calls::allocation))]
    pub fn allocation(
        &self,
        kind: u32,
        memory_type: u32,
        pages: u64,
        at: u64,
    ) -> Result<u64, PageRefusal>
        ensures answer { result ≡ allocation self.now kind memory_type pages at }
        ensures some { IfOk result (λ start. 0 < pages) }
        ensures other { IfOk result (λ start. memory_type ≢ 7) }
        ensures low { IfOk result (λ start. self.now.base ≤ start) }
        ensures high { IfOk result (λ start. start + 4096 * pages ≤ self.now.base + 4096 * length self.now.pages) }
    {
        if !is_request(kind, memory_type, pages) {
            return Err(PageRefusal::Invalid);
        }
        match self.fit(kind, at, pages) {
            Some(start) => Ok(self.address(start)),
            None if kind == 2 => Err(PageRefusal::NotFound),
            None => Err(PageRefusal::NoPages),
        }
    }

    /// Gives an owner conventional pages, as AllocatePages does (UEFI 2.10, section 7.2), and answers the address of
    /// the first. Kind 0 takes the highest start, kind 1 the highest whose last byte is at most `at`, and kind 2 the
    /// start `at`. `Invalid` is for a kind above 2, no pages, or a memory type that pages aren't given; where nothing
    /// fits, kind 2 answers `NotFound` and the others `NoPages`. It takes no memory.
    pub fn allocate(
        &mut self,
        owner: Owner,
        kind: u32,
        memory_type: u32,
        pages: u64,
        at: u64,
    ) -> Result<u64, PageRefusal>
        ensures answer { result ≡ allocation self.old kind memory_type pages at }
        ensures map { self.new ≡ after_allocation result self.old owner memory_type pages }
        ensures base { self.new.base ≡ self.old.base }
        ensures length { length self.new.pages ≡ length self.old.pages }
        ensures low { IfOk result (λ start. self.old.base ≤ start) }
        ensures high { IfOk result (λ start. start + 4096 * pages ≤ self.old.base + 4096 * length self.old.pages) }
    {
        self.whole();
        let start = self.allocation(kind, memory_type, pages, at)?;
        self.change(start, pages as u32, Page { memory_type, owner });
        Ok(start)
    }

    /// Whether so many pages from an address on, a multiple of 4,096, are all an owner's.
    #[tactic(auto, unfolding(crate::specs::Calls::owns), using(crate::proofs::PageLemmas::too_many_fail))]
    fn owns(&self, owner: Owner, at: u64, pages: u64) -> bool
        requires { 0 < pages }
        ensures owns { result ≡ owns self.now owner at pages }
        ensures low { IsTrue result → self.now.base ≤ at }
        ensures inside { IsTrue result → index_of self.now at + pages ≤ length self.now.pages }
    {
        if at < self.base {
            return false;
        }
        if pages > self.total() {
            return false;
        }
        are_owned(self.runs.as_slice(), (at - self.base) / 4096, pages, owner)
    }

    /// Takes an owner's pages back, as FreePages does (UEFI 2.10, section 7.2); they are then conventional. `Invalid`
    /// is for an address that is no multiple of 4,096 and for no pages, `NotFound` for a page that isn't the owner's.
    /// It takes no memory.
    #[tactic(auto, unfolding(crate::specs::Calls::freeing))]
    pub fn free(&mut self, owner: Owner, at: u64, pages: u64) -> Result<(), PageRefusal>
        ensures answer { result ≡ freeing self.old owner at pages }
        ensures map { self.new ≡ after_freeing result self.old at pages }
        ensures base { self.new.base ≡ self.old.base }
        ensures length { length self.new.pages ≡ length self.old.pages }
        ensures low { IfOk result (λ done. self.old.base ≤ at) }
        ensures high { IfOk result (λ done. at + 4096 * pages ≤ self.old.base + 4096 * length self.old.pages) }
    {
        if at % 4096 != 0 || pages == 0 {
            return Err(PageRefusal::Invalid);
        }
        self.whole();
        if !self.owns(owner, at, pages) {
            return Err(PageRefusal::NotFound);
        }
        self.change(at, pages as u32, CONVENTIONAL);
        Ok(())
    }
}

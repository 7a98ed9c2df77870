//! The memory of a guest in one piece.
#![tactic(auto)]

ghost use Rattle.std.specs.Prelude.{◌≡◌, ◌<◌, ◌≤◌, ◌+◌, ◌*◌, ◌-◌, ◌/◌, ◌%◌, ◌^◌, ℕ, true, false, IsTrue, IfOk, OnOk, OnErr, Some, None, length, replicate, slice_get, if◌then◌else◌};
ghost use Rattle.uh_base.specs.Bytes.{is_width, number_at, with_byte, with_number};
ghost use Rattle.guest_memory.specs.Lists.{count_true};
ghost use Rattle.guest_memory.specs.Runs.{bytes_from, with_bytes};
ghost use Rattle.guest_memory.specs.Pages.{Pages, Whole, InPage, all_rights, holds, page_of, bytes_of, rights_at, is_touched, touched_at, with_mark};
ghost use Rattle.guest_memory.specs.Changes.{TouchGives, PutGives, NumberGives, PartGives, PagesGive, ReserveGives, put_number, has_pages, cleared, with_rights, in_run, in_range, zeroed};

use crate::parts::{bytes_are_bytes, count_part, fill, number_of, write_low};
use crate::rights::{PutEnd, Rights};
use std::alloc::{AllocError, Global};
use std::marker::Model;
use uh_base::FRAME_LIMIT;

/// The bytes of a page.
const PAGE: usize = 4096;

const ALL: Rights = Rights {
    read: true,
    write: true,
    exec: true,
};

/// The memory of a guest: pages of 4,096 bytes from a base on. A page is touched once something was put
/// there or it was reserved, until it is cleared.
#[derive(Drop)]
pub struct GuestMemory {
    base: u64,
    pages: u32,
    bytes: Vec<u8>,
    rights: Vec<Rights>,
    touched: Vec<bool>,
    count: u32,
}

impl Model for GuestMemory {
    ghost use Rattle.std.specs.Prelude.{◌≡◌};
    ghost use Rattle.guest_memory.specs.Lists.{count_true};
    ghost use Rattle.guest_memory.specs.Pages.{Pages, Whole};

    ghost Value = { Pages };

    ghost view = { λ m. record { base = m.base; pages = m.pages; bytes = m.bytes.items; rights = m.rights.items; touched = m.touched.items } };

    ghost invariant = { λ m. Whole (record { base = m.base; pages = m.pages; bytes = m.bytes.items; rights = m.rights.items; touched = m.touched.items }) × (m.count ≡ count_true m.touched.items) };
}

impl GuestMemory {
    /// So many pages from an address on, all of them zeros, with all rights and untouched.
    pub fn new(alloc: Global, base: u64, pages: u32) -> Result<GuestMemory, AllocError>
        requires low { 4096 ≤ base }
        requires even { base % 4096 ≡ 0 }
        requires some { 1 ≤ pages }
        requires few { pages ≤ 1048576 }
        requires end { base + 4096 * pages ≤ 2 ^ 47 }
        ensures { IfOk result (λ m. m ≡ record { base = base; pages = pages; bytes = replicate (4096 * pages) 0; rights = replicate pages all_rights; touched = replicate pages false }) }
    {
        let mut bytes = Vec::new(alloc);
        bytes.resize(pages as usize * PAGE, 0)?;
        let mut rights = Vec::new(alloc);
        rights.resize(pages as usize, ALL)?;
        let mut touched = Vec::new(alloc);
        touched.resize(pages as usize, false)?;
        Ok(GuestMemory {
            base,
            pages,
            bytes,
            rights,
            touched,
            count: 0,
        })
    }

    /// What is so of every memory.
    #[inline(always)]
    pub fn whole(&self)
        ensures { Whole self.now }
    {
        let _ = &self.base;
    }

    /// Every byte is below 256.
    #[tactic(auto, unfolding(crate::specs::Pages::bytes_of))]
    pub fn bytes_fit(&self)
        ensures { (at : ℕ) → bytes_of self.now at < 256 }
    {
        bytes_are_bytes(&self.bytes);
    }

    #[inline(always)]
    fn holds(&self, at: u64) -> bool
        ensures { result ≡ holds self.now at }
    {
        at >= self.base && at < self.base + PAGE as u64 * u64::from(self.pages)
    }

    /// The byte at an address, None outside. Rights don't matter here.
    #[tactic(auto, unfolding(crate::specs::Pages::bytes_of))]
    pub fn get(&self, at: u64) -> Option<u8>
        ensures { result ≡ (if holds self.now at then Some (bytes_of self.now at) else None) }
    {
        if self.holds(at) {
            Some(self.bytes[(at - self.base) as usize])
        } else {
            None
        }
    }

    /// The rights at an address, None outside.
    #[tactic(auto, unfolding(crate::specs::Pages::rights_at))]
    #[inline(always)]
    pub fn rights_at(&self, at: u64) -> Option<Rights>
        ensures { result ≡ rights_at self.now at }
    {
        if self.holds(at) {
            Some(self.rights[((at - self.base) / PAGE as u64) as usize])
        } else {
            None
        }
    }

    /// The rights of a page, counted from the base.
    pub fn rights(&self, page: u32) -> Rights
        requires { page < self.now.pages }
        ensures { slice_get self.now.rights page ≡ Some result }
    {
        self.rights[page as usize]
    }

    /// How many pages it has.
    pub fn pages(&self) -> u32
        ensures { result ≡ self.now.pages }
    {
        self.pages
    }

    /// How many pages are touched.
    pub fn touched(&self) -> u32
        ensures { result ≡ count_true self.now.touched }
    {
        self.count
    }

    /// Whether a page is touched, counted from the base.
    #[inline(always)]
    pub fn is_touched(&self, page: u32) -> bool
        requires { page < self.now.pages }
        ensures { result ≡ is_touched self.now page }
    {
        self.touched[page as usize]
    }

    /// The page that holds an address, counted from the base, None outside.
    pub fn page_at(&self, at: u64) -> Option<u32>
        ensures { result ≡ (if holds self.now at then Some (page_of self.now at) else None) }
    {
        if self.holds(at) {
            Some(((at - self.base) / PAGE as u64) as u32)
        } else {
            None
        }
    }

    /// Copies the touched marks, one for each page. No memory is taken.
    pub fn copy_marks(&self, to: &mut [bool])
        requires { length to.old ≡ self.now.pages }
        ensures { to.new ≡ self.now.touched }
    {
        to.copy_from_slice(&self.touched);
    }

    #[inline(always)]
    fn touch(&mut self, page: u32) -> Result<(), PutEnd>
        requires { page < self.old.pages }
        ensures { TouchGives result self.old self.new page }
    {
        if self.is_touched(page) {
            return Ok(());
        }
        if self.touched() == FRAME_LIMIT {
            return Err(PutEnd::Frames);
        }
        self.touched[page as usize] = true;
        self.count += 1;
        Ok(())
    }

    fn put_byte(&mut self, at: u64, byte: u8) -> Result<(), PutEnd>
        ensures { PutGives result self.old self.new at byte }
    {
        if !self.holds(at) {
            return Err(PutEnd::Outside);
        }
        let place = (at - self.base) as usize;
        self.touch((place / PAGE) as u32)?;
        self.bytes[place] = byte;
        Ok(())
    }

    /// Puts a byte at an address and touches its page.
    #[tactic(auto, using(crate::proofs::PageLemmas::bytes_after, crate::proofs::PageLemmas::rights_after, crate::proofs::PageLemmas::base_after, crate::proofs::PageLemmas::pages_after, crate::proofs::TouchedLemmas::touched_after))]
    pub fn put(&mut self, at: u64, byte: u8) -> Result<(), PutEnd>
        ensures gives { PutGives result self.old self.new at byte }
        ensures bytes { OnOk result (bytes_of self.new ≡ with_byte (bytes_of self.old) at byte) }
        ensures touched { OnOk result (touched_at self.new ≡ with_mark (touched_at self.old) at) }
        ensures rights { rights_at self.new ≡ rights_at self.old }
        ensures base { self.new.base ≡ self.old.base }
        ensures pages { self.new.pages ≡ self.old.pages }
    {
        self.whole();
        self.put_byte(at, byte)
    }

    /// Touches so many pages from a page on, counted from the base, and changes no byte. Where no page is
    /// asked for, none is outside.
    #[tactic(auto, using(crate::proofs::RunLemmas::bytes_reserved, crate::proofs::RunLemmas::rights_reserved, crate::proofs::RunLemmas::base_reserved, crate::proofs::RunLemmas::pages_reserved, crate::proofs::TouchedLemmas::touched_reserved))]
    pub fn reserve(&mut self, page: u32, count: u32) -> Result<(), PutEnd>
        ensures gives { ReserveGives result self.old self.new page count }
        ensures touched { OnOk result (touched_at self.new ≡ (λ at. if in_run self.old page count at then true else touched_at self.old at)) }
        ensures bytes { bytes_of self.new ≡ bytes_of self.old }
        ensures rights { rights_at self.new ≡ rights_at self.old }
        ensures base { self.new.base ≡ self.old.base }
        ensures pages { self.new.pages ≡ self.old.pages }
    {
        self.whole();
        if count == 0 {
            return Ok(());
        }
        if !self.has_pages(page, count) {
            return Err(PutEnd::Outside);
        }
        self.mark(page, count)
    }

    /// Writes bytes over whole pages from a page on, counted from the base, and touches these pages.
    #[tactic(auto, using(crate::proofs::TouchedLemmas::touched_written, crate::proofs::PartLemmas::bytes_written, crate::proofs::PartLemmas::bytes_unwritten, crate::proofs::PartLemmas::rights_written, crate::proofs::PartLemmas::base_written, crate::proofs::PartLemmas::pages_written))]
    pub fn write_pages(&mut self, page: u32, bytes: &[u8]) -> Result<(), PutEnd>
        requires whole { length bytes.now % 4096 ≡ 0 }
        requires inside { 4096 * page + length bytes.now ≤ 4096 * self.old.pages }
        ensures gives { PagesGive result self.old self.new page bytes.now }
        ensures bytes { OnOk result (bytes_of self.new ≡ with_bytes (bytes_of self.old) (self.old.base + 4096 * page) bytes.now) }
        ensures touched { OnOk result (touched_at self.new ≡ (λ at. if in_run self.old page (length bytes.now / 4096) at then true else touched_at self.old at)) }
        ensures kept { OnErr result (bytes_of self.new ≡ bytes_of self.old) }
        ensures rights { rights_at self.new ≡ rights_at self.old }
        ensures base { self.new.base ≡ self.old.base }
        ensures pages { self.new.pages ≡ self.old.pages }
    {
        self.whole();
        self.pages_written(page, bytes)
    }

    fn pages_written(&mut self, page: u32, bytes: &[u8]) -> Result<(), PutEnd>
        requires whole { length bytes.now % 4096 ≡ 0 }
        requires inside { 4096 * page + length bytes.now ≤ 4096 * self.old.pages }
        ensures { PagesGive result self.old self.new page bytes.now }
    {
        self.whole();
        let count = (bytes.len() / PAGE) as u32;
        match self.reserve(page, count) {
            Ok(()) => {
                let first = PAGE * page as usize;
                self.bytes[first..first + bytes.len()].copy_from_slice(bytes);
                Ok(())
            }
            Err(PutEnd::Outside) => unreachable!(),
            Err(end) => Err(end),
        }
    }

    fn has_pages(&self, page: u32, count: u32) -> bool
        requires { 1 ≤ count }
        ensures { result ≡ has_pages self.now page count }
    {
        page < self.pages && count <= self.pages - page
    }

    /// Touches pages in memory.
    fn mark(&mut self, page: u32, count: u32) -> Result<(), PutEnd>
        requires { page + count ≤ self.old.pages }
        ensures { ReserveGives result self.old self.new page count }
    {
        let first = page as usize;
        let before = count_part(&self.touched, first, count as usize);
        let after = self.count - before + count;
        if after > FRAME_LIMIT {
            return Err(PutEnd::Frames);
        }
        fill(&mut self.touched, first, count as usize, true);
        self.count = after;
        Ok(())
    }

    /// Sets the bytes of so many pages to 0, gives them all rights and untouches them.
    #[tactic(auto, using(crate::proofs::RunLemmas::bytes_cleared, crate::proofs::RunLemmas::rights_cleared, crate::proofs::TouchedLemmas::touched_cleared))]
    pub fn clear(&mut self, page: u32, count: u32)
        requires { page + count ≤ self.old.pages }
        ensures gives { self.new ≡ cleared self.old page count }
        ensures bytes { bytes_of self.new ≡ (λ at. if in_run self.old page count at then 0 else bytes_of self.old at) }
        ensures rights { rights_at self.new ≡ (λ at. if in_run self.old page count at then Some all_rights else rights_at self.old at) }
        ensures touched { touched_at self.new ≡ (λ at. if in_run self.old page count at then false else touched_at self.old at) }
        ensures base { self.new.base ≡ self.old.base }
        ensures pages { self.new.pages ≡ self.old.pages }
    {
        self.whole();
        self.clear_pages(page, count);
    }

    fn clear_pages(&mut self, page: u32, count: u32)
        requires { page + count ≤ self.old.pages }
        ensures { self.new ≡ cleared self.old page count }
    {
        let first = page as usize;
        let count = count as usize;
        fill(&mut self.bytes, PAGE * first, PAGE * count, 0);
        fill(&mut self.rights, first, count, ALL);
        self.count -= count_part(&self.touched, first, count);
        fill(&mut self.touched, first, count, false);
    }

    /// Sets the rights of so many pages.
    #[tactic(auto, using(crate::proofs::RunLemmas::bytes_right, crate::proofs::RunLemmas::rights_right, crate::proofs::TouchedLemmas::touched_right))]
    pub fn set_rights(&mut self, page: u32, count: u32, rights: Rights)
        requires { page + count ≤ self.old.pages }
        ensures gives { self.new ≡ with_rights self.old page count rights }
        ensures bytes { bytes_of self.new ≡ bytes_of self.old }
        ensures rights { rights_at self.new ≡ (λ at. if in_run self.old page count at then Some rights else rights_at self.old at) }
        ensures touched { touched_at self.new ≡ touched_at self.old }
        ensures base { self.new.base ≡ self.old.base }
        ensures pages { self.new.pages ≡ self.old.pages }
    {
        self.whole();
        self.give_rights(page, count, rights);
    }

    fn give_rights(&mut self, page: u32, count: u32, rights: Rights)
        requires { page + count ≤ self.old.pages }
        ensures { self.new ≡ with_rights self.old page count rights }
    {
        fill(&mut self.rights, page as usize, count as usize, rights);
    }

    /// Sets so many bytes from an address on to 0. Rights don't matter here, and no page is touched.
    #[tactic(auto, using(crate::proofs::RunLemmas::bytes_zeroed, crate::proofs::RunLemmas::rights_zeroed, crate::proofs::TouchedLemmas::touched_zeroed))]
    pub fn zero(&mut self, at: u64, len: u64)
        requires low { self.old.base ≤ at }
        requires high { at + len ≤ self.old.base + 4096 * self.old.pages }
        ensures gives { self.new ≡ zeroed self.old at len }
        ensures bytes { bytes_of self.new ≡ (λ here. if in_range at len here then 0 else bytes_of self.old here) }
        ensures rights { rights_at self.new ≡ rights_at self.old }
        ensures touched { touched_at self.new ≡ touched_at self.old }
        ensures base { self.new.base ≡ self.old.base }
        ensures pages { self.new.pages ≡ self.old.pages }
    {
        self.whole();
        self.zero_bytes(at, len);
    }

    fn zero_bytes(&mut self, at: u64, len: u64)
        requires low { self.old.base ≤ at }
        requires high { at + len ≤ self.old.base + 4096 * self.old.pages }
        ensures { self.new ≡ zeroed self.old at len }
    {
        fill(&mut self.bytes, (at - self.base) as usize, len as usize, 0);
    }

    /// The number of 1, 2, 4 or 8 bytes in one page, the least byte first.
    #[inline(always)]
    pub fn number(&self, at: u64, width: u8) -> u64
        requires inside { InPage self.now at width }
        requires width { IsTrue (is_width width) }
        ensures value { result ≡ number_at (bytes_of self.now) at width }
        ensures below { result < 256 ^ width }
    {
        let first = (at - self.base) as usize;
        number_of(&self.bytes[first..first + width as usize])
    }

    /// So many bytes in one page.
    pub fn part(&self, at: u64, len: u64) -> &[u8]
        requires { InPage self.now at len }
        ensures { result.now ≡ bytes_from (bytes_of self.now) at len }
    {
        let first = (at - self.base) as usize;
        &self.bytes[first..first + len as usize]
    }

    /// Copies bytes out of one page.
    pub fn read_part(&self, at: u64, to: &mut [u8])
        requires { InPage self.now at (length to.old) }
        ensures { to.new ≡ bytes_from (bytes_of self.now) at (length to.old) }
    {
        let first = (at - self.base) as usize;
        let last = first + to.len();
        to.copy_from_slice(&self.bytes[first..last]);
    }

    /// Copies bytes into one page, and touches the page.
    #[tactic(auto, using(crate::proofs::PartLemmas::bytes_parted, crate::proofs::PartLemmas::rights_parted, crate::proofs::PartLemmas::base_parted, crate::proofs::PartLemmas::pages_parted, crate::proofs::TouchedLemmas::touched_parted))]
    pub fn put_part(&mut self, at: u64, from: &[u8]) -> Result<(), PutEnd>
        requires inside { InPage self.old at (length from.now) }
        requires some { 1 ≤ length from.now }
        ensures gives { PartGives result self.old self.new at from.now }
        ensures bytes { OnOk result (bytes_of self.new ≡ with_bytes (bytes_of self.old) at from.now) }
        ensures touched { OnOk result (touched_at self.new ≡ with_mark (touched_at self.old) at) }
        ensures rights { rights_at self.new ≡ rights_at self.old }
        ensures base { self.new.base ≡ self.old.base }
        ensures pages { self.new.pages ≡ self.old.pages }
    {
        self.whole();
        self.part_in_page(at, from)
    }

    fn part_in_page(&mut self, at: u64, from: &[u8]) -> Result<(), PutEnd>
        requires inside { InPage self.old at (length from.now) }
        requires some { 1 ≤ length from.now }
        ensures { PartGives result self.old self.new at from.now }
    {
        self.touch(((at - self.base) / PAGE as u64) as u32)?;
        let first = (at - self.base) as usize;
        self.bytes[first..first + from.len()].copy_from_slice(from);
        Ok(())
    }

    /// Puts a number of 1, 2, 4 or 8 bytes in one page, the least byte first, and touches the page.
    #[tactic(auto, using(crate::proofs::NumberLemmas::bytes_numbered, crate::proofs::NumberLemmas::rights_numbered, crate::proofs::NumberLemmas::base_numbered, crate::proofs::NumberLemmas::pages_numbered, crate::proofs::TouchedLemmas::touched_numbered))]
    #[inline(always)]
    pub fn put_number(&mut self, at: u64, width: u8, value: u64) -> Result<(), PutEnd>
        requires inside { InPage self.old at width }
        requires width { IsTrue (is_width width) }
        ensures gives { NumberGives result self.old self.new at width value }
        ensures bytes { OnOk result (bytes_of self.new ≡ with_number (bytes_of self.old) at width value) }
        ensures touched { OnOk result (touched_at self.new ≡ with_mark (touched_at self.old) at) }
        ensures rights { rights_at self.new ≡ rights_at self.old }
        ensures base { self.new.base ≡ self.old.base }
        ensures pages { self.new.pages ≡ self.old.pages }
    {
        self.whole();
        self.put_in_page(at, width, value)
    }

    #[inline(always)]
    fn put_in_page(&mut self, at: u64, width: u8, value: u64) -> Result<(), PutEnd>
        requires inside { InPage self.old at width }
        requires width { IsTrue (is_width width) }
        ensures { NumberGives result self.old self.new at width value }
    {
        self.touch(((at - self.base) / PAGE as u64) as u32)?;
        self.write_number(at, width, value);
        Ok(())
    }

    /// Writes a number over the bytes of a touched page.
    fn write_number(&mut self, at: u64, width: u8, value: u64)
        requires inside { InPage self.old at width }
        requires width { IsTrue (is_width width) }
        requires touched { is_touched self.old (page_of self.old at) ≡ true }
        ensures { self.new ≡ put_number self.old at width value }
    {
        write_low(&mut self.bytes, (at - self.base) as usize, width, value);
    }
}

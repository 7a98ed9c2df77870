//! The pages in which the regions of a driver lie, and the frames that these need.
#![tactic(auto)]

ghost use Rattle.std.specs.Prelude.{◌≡◌, ◌≤◌, ◌<◌, ◌+◌, ◌*◌, ◌^◌, IfOk, OnOk, length, replicate, true};
ghost use Rattle.guest_memory.specs.Changes.{TouchedBesides};
ghost use Rattle.guest_memory.specs.Lists.{count_true, filled};
ghost use Rattle.provenance_attest.specs.Frames.{AreInRam, IsInRam, page_at, pages_in, with_pages, with_regions};

use guest_memory::GuestMemory;
use std::alloc::{AllocError, Global};

/// The page of an address, counted from that of RAM's base.
fn page_at(base: u64, at: u64) -> u32
    requires low { base ≤ at }
    requires high { at ≤ base + 2 ^ 32 }
    ensures { result ≡ page_at base at }
{
    ((at - base) / 4096) as u32
}

/// How many pages so many bytes from an address on lie in.
fn pages_in(base: u64, at: u64, len: u64) -> u32
    requires low { base ≤ at }
    requires high { at + len ≤ base + 2 ^ 32 }
    requires end { base < 2 ^ 63 }
    ensures { result ≡ pages_in base at len }
{
    if len == 0 {
        0
    } else {
        page_at(base, at + len - 1) - page_at(base, at) + 1
    }
}

/// Marks so many pages from one on.
#[tactic(auto, using(crate::proofs::MarkLemmas::part_filled))]
fn mark(marks: &mut [bool], first: usize, count: usize)
    requires { first + count ≤ length marks.old }
    ensures value { marks.new ≡ filled marks.old first count true }
    ensures long { length marks.new ≡ length marks.old }
{
    mark_all(&mut marks[first..first + count]);
}

/// Sets all marks.
fn mark_all(marks: &mut [bool])
    ensures { marks.new ≡ replicate (length marks.old) true }
{
    for mark in marks.iter_mut() {
        *mark = true;
    }
}

/// How many are set.
#[tactic(auto, unfolding(guest_memory::specs::Lists::count_true))]
fn count_of(marks: &[bool]) -> u32
    requires { length marks.now < 2 ^ 32 }
    ensures { result ≡ count_true marks.now }
{
    let mut count = 0;
    for mark in marks {
        if *mark {
            count += 1;
        }
    }
    count
}

/// Marks the pages of so many bytes.
fn mark_pages(memory: &GuestMemory, base: u64, marks: &mut [bool], at: u64, len: u64)
    requires base { base ≡ memory.now.base }
    requires ram { IsInRam base memory.now.pages at len }
    requires long { length marks.old ≡ memory.now.pages }
    ensures value { marks.new ≡ with_pages base marks.old at len }
    ensures long { length marks.new ≡ length marks.old }
{
    memory.whole();
    mark(
        marks,
        page_at(base, at) as usize,
        pages_in(base, at, len) as usize,
    );
}

/// Marks the pages of regions.
#[tactic(auto, unfolding(crate::specs::Frames::with_regions))]
fn mark_regions(memory: &GuestMemory, base: u64, marks: &mut [bool], starts: &[u64], lens: &[u64])
    requires base { base ≡ memory.now.base }
    requires ram { AreInRam base memory.now.pages starts.now lens.now }
    requires long { length marks.old ≡ memory.now.pages }
    ensures value { marks.new ≡ with_regions base marks.old starts.now lens.now }
    ensures long { length marks.new ≡ length marks.old }
{
    let mut rest = lens;
    for start in starts {
        match rest.split_first() {
            Some((len, lens)) => {
                mark_pages(memory, base, marks, *start, *len);
                rest = lens;
            }
            None => return,
        }
    }
}

/// How many pages are touched with those of regions.
pub(crate) fn frames_for(
    alloc: Global,
    memory: &GuestMemory,
    base: u64,
    starts: &[u64],
    lens: &[u64],
) -> Result<u32, AllocError>
    requires base { base ≡ memory.now.base }
    requires ram { AreInRam base memory.now.pages starts.now lens.now }
    ensures { IfOk result (λ n. n ≡ count_true (with_regions base memory.now.touched starts.now lens.now)) }
{
    memory.whole();
    let mut marks = Vec::new(alloc);
    marks.resize(memory.pages() as usize, false)?;
    let marks = marks.as_mut_slice();
    memory.copy_marks(marks);
    mark_regions(memory, base, marks, starts, lens);
    Ok(count_of(marks))
}

/// Touches the pages of so many bytes. Where frames suffice only memory of the host may be wanting.
fn reserve_pages(memory: &mut GuestMemory, base: u64, at: u64, len: u64) -> Result<(), AllocError>
    requires base { base ≡ memory.old.base }
    requires ram { IsInRam base memory.old.pages at len }
    ensures ok { OnOk result (memory.new ≡ record memory.old { touched = with_pages base memory.old.touched at len }) }
    ensures besides { TouchedBesides memory.old memory.new }
{
    memory.whole();
    match memory.reserve(page_at(base, at), pages_in(base, at, len)) {
        Ok(()) => Ok(()),
        Err(_) => Err(AllocError),
    }
}

/// Touches the pages of regions.
#[tactic(auto, unfolding(crate::specs::Frames::with_regions))]
pub(crate) fn reserve_all(
    memory: &mut GuestMemory,
    base: u64,
    starts: &[u64],
    lens: &[u64],
) -> Result<(), AllocError>
    requires base { base ≡ memory.old.base }
    requires ram { AreInRam base memory.old.pages starts.now lens.now }
    ensures ok { OnOk result (memory.new ≡ record memory.old { touched = with_regions base memory.old.touched starts.now lens.now }) }
    ensures besides { TouchedBesides memory.old memory.new }
{
    let mut rest = lens;
    for start in starts {
        match rest.split_first() {
            Some((len, lens)) => {
                reserve_pages(memory, base, *start, *len)?;
                rest = lens;
            }
            None => return Ok(()),
        }
    }
    Ok(())
}

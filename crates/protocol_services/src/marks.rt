//! How many pages are touched once a block and two outputs are written.
#![tactic(auto)]

ghost use Rattle.std.specs.Prelude.{◌≡◌, ◌<◌, ◌≤◌, ◌+◌, ◌*◌, ◌^◌, true, false, length, replicate};
ghost use Rattle.guest_memory.specs.Lists.{count_true, filled};
ghost use Rattle.address_view.specs.Windows.{see};
ghost use Rattle.address_view.specs.Seen.{all_pass, is_seen};
ghost use Rattle.address_view.specs.Stored.{mark_seen, marked};
ghost use Rattle.guest_memory.specs.Pages.{page_of};
ghost use Rattle.protocol_services.specs.Blocks.{opened, IsIn, marks_behind};

use crate::outputs::ListOutputs;
use address_view::{ByteRange, View};
use guest_memory::GuestMemory;
use pool_alloc::PageSpan;

/// Takes all marks off.
fn unmark_all(marks: &mut [bool])
    ensures { marks.new ≡ replicate (length marks.old) false }
{
    for mark in marks.iter_mut() {
        *mark = false;
    }
}

/// Takes so many marks off, from an index on.
#[tactic(auto, using(crate::proofs::MarkLemmas::part_filled))]
fn unmark(marks: &mut [bool], first: usize, count: usize)
    requires { first + count ≤ length marks.old }
    ensures marks { marks.new ≡ filled marks.old first count false }
    ensures long { length marks.new ≡ length marks.old }
{
    unmark_all(&mut marks[first..first + count]);
}

/// The page of an address in memory, counted from its base.
pub(crate) fn page_index(memory: &GuestMemory, base: u64, at: u64) -> u32
    requires base { base ≡ memory.now.base }
    requires low { base ≤ at }
    requires high { at ≤ base + 4096 * memory.now.pages }
    ensures { result ≡ page_of memory.now at }
{
    memory.whole();
    ((at - base) / 4096) as u32
}

/// Takes the marks of the pages that are taken for a block off.
fn unmark_span(memory: &GuestMemory, base: u64, span: Option<PageSpan>, marks: &mut [bool])
    requires base { base ≡ memory.now.base }
    requires span { IsIn span memory.now.base memory.now.pages }
    requires marks { marks.old ≡ memory.now.touched }
    ensures marks { marks.new ≡ (opened memory.now span).touched }
    ensures long { length marks.new ≡ memory.now.pages }
{
    memory.whole();
    if let Some(span) = span {
        let page = page_index(memory, base, span.start);
        unmark(marks, page as usize, span.count as usize);
    }
}

/// Marks the page that an address shows.
fn mark_one(memory: &GuestMemory, view: &View, marks: &mut [bool], at: u64)
    requires seen { is_seen (see view.now) memory.now at ≡ true }
    requires long { length marks.old ≡ memory.now.pages }
    ensures marks { marks.new ≡ mark_seen memory.now.base marks.old (see view.now at) }
    ensures long { length marks.new ≡ memory.now.pages }
{
    memory.whole();
    match view.translate(at) {
        Some(place) => match memory.page_at(place) {
            Some(page) => marks[page as usize] = true,
            None => unreachable!(),
        },
        None => unreachable!(),
    }
}

/// Marks the pages that so many addresses show.
fn mark(memory: &GuestMemory, view: &View, marks: &mut [bool], at: u64, len: u64)
    requires seen { all_pass (is_seen (see view.now) memory.now) at len ≡ true }
    requires long { length marks.old ≡ memory.now.pages }
    ensures marks { marks.new ≡ marked (see view.now) memory.now.base marks.old at len }
    ensures long { length marks.new ≡ memory.now.pages }
{
    let mut here = at;
    let mut left = len;
    while left > 0 {
        mark_one(memory, view, marks, here);
        here = here.wrapping_add(1);
        left -= 1;
    }
}

/// How many are true.
#[tactic(auto, unfolding(guest_memory::specs::Lists::count_true))]
fn count_of(marks: &[bool]) -> u64
    requires { length marks.now < 2 ^ 32 }
    ensures { result ≡ count_true marks.now }
{
    let mut count = 0;
    for mark in marks {
        if *mark {
            count += 1;
        }
    }
    count
}

/// How many pages are touched then.
pub(crate) fn count_after(
    memory: &GuestMemory,
    base: u64,
    ram: &View,
    view: &View,
    span: Option<PageSpan>,
    block: ByteRange,
    outputs: ListOutputs,
    marks: &mut [bool],
) -> u64
    requires base { base ≡ memory.now.base }
    requires span { IsIn span memory.now.base memory.now.pages }
    requires block { all_pass (is_seen (see ram.now) memory.now) block.at block.len ≡ true }
    requires first { all_pass (is_seen (see view.now) memory.now) outputs.first 8 ≡ true }
    requires second { all_pass (is_seen (see view.now) memory.now) outputs.second 8 ≡ true }
    requires long { length marks.old ≡ memory.now.pages }
    ensures { result ≡ count_true (marks_behind (see ram.now) (see view.now) memory.now.base (opened memory.now span).touched block outputs) }
{
    memory.whole();
    memory.copy_marks(marks);
    unmark_span(memory, base, span, marks);
    mark(memory, ram, marks, block.at, block.len);
    mark(memory, view, marks, outputs.first, 8);
    mark(memory, view, marks, outputs.second, 8);
    count_of(marks)
}

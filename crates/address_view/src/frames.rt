//! The frames that stores into several ranges take together.
#![tactic(auto)]

ghost use Rattle.std.specs.Prelude.{◌≡◌, ◌<◌, ◌≤◌, ◌+◌, ◌^◌, true, false, IsTrue, length, replicate};
ghost use Rattle.guest_memory.specs.Lists.{count_true, filled};
ghost use Rattle.guest_memory.specs.Changes.{cleared};
ghost use Rattle.address_view.specs.Windows.{see};
ghost use Rattle.address_view.specs.Seen.{all_pass, is_seen};
ghost use Rattle.address_view.specs.Stored.{marked, lacks_seen, AllSeen};
ghost use Rattle.address_view.specs.Ranges.{RangesSeen, marked_ranges, lacks_ranges, total_length};

use crate::store::{count_marks, no_marks};
use crate::view::View;
use guest_memory::GuestMemory;
use uh_base::FRAME_LIMIT;

/// Addresses of a guest.
#[derive(Clone, Copy, Debug, PartialEq, Eq, Drop)]
pub struct ByteRange {
    /// The first of them.
    pub at: u64,
    /// How many they are, in bytes.
    pub len: u64,
}

/// Whether stores into all of these ranges, each of which is seen, would touch more pages than `FRAME_LIMIT`. A page that
/// several ranges meet counts once. Nothing is written and no memory is taken.
#[tactic(auto, using(crate::proofs::FrameLemmas::few_ranges))]
pub fn lacks_after(memory: &GuestMemory, view: &View, ranges: &[ByteRange]) -> bool
    requires { RangesSeen (see view.now) memory.now ranges.now }
    ensures { result ≡ lacks_ranges (see view.now) memory.now ranges.now }
{
    memory.whole();
    if are_few(ranges, u64::from(FRAME_LIMIT - memory.touched())) {
        return false;
    }
    count_after(memory, view, ranges) > u64::from(FRAME_LIMIT)
}

/// Whether more than `FRAME_LIMIT` pages would be touched by a store of so many bytes, each of which is seen, after so many
/// pages were cleared. Pages are counted only where that could be. Nothing changes, and no memory is taken.
#[tactic(auto, using(crate::proofs::FrameLemmas::room_cleared, crate::proofs::StoreLaws::all_seen))]
pub fn lacks_cleared(
    memory: &GuestMemory,
    view: &View,
    page: u32,
    count: u32,
    at: u64,
    len: u64,
) -> bool
    requires inside { page + count ≤ memory.now.pages }
    requires seen { all_pass (is_seen (see view.now) memory.now) at len ≡ true }
    ensures { result ≡ lacks_seen (see view.now) (cleared memory.now page count) at len }
{
    memory.whole();
    if len <= u64::from(FRAME_LIMIT - memory.touched()) {
        return false;
    }
    count_cleared(memory, view, page, count, at, len) > u64::from(FRAME_LIMIT)
}

/// How many pages would be touched after so many pages were cleared and so many bytes were stored. The marks are copied
/// to the stack, so that no memory is taken.
#[inline(never)]
fn count_cleared(memory: &GuestMemory, view: &View, page: u32, count: u32, at: u64, len: u64) -> u64
    requires inside { page + count ≤ memory.now.pages }
    requires seen { AllSeen (see view.now) memory.now at len }
    ensures { result ≡ count_true (marked (see view.now) memory.now.base (cleared memory.now page count).touched at len) }
{
    memory.whole();
    let mut marks = no_marks();
    let marks = &mut marks[..memory.pages() as usize];
    memory.copy_marks(marks);
    unmark(marks, page as usize, count as usize);
    let before = count_of(marks);
    count_marks(memory, view, marks, before, at, len)
}

/// Takes so many marks off, from an index on.
#[tactic(auto, using(crate::proofs::FrameLemmas::part_filled))]
fn unmark(marks: &mut [bool], first: usize, count: usize)
    requires { first + count ≤ length marks.old }
    ensures marks { marks.new ≡ filled marks.old first count false }
    ensures long { length marks.new ≡ length marks.old }
{
    unmark_all(&mut marks[first..first + count]);
}

/// Takes all marks off.
fn unmark_all(marks: &mut [bool])
    ensures { marks.new ≡ replicate (length marks.old) false }
{
    for mark in marks.iter_mut() {
        *mark = false;
    }
}

/// How many are true.
#[tactic(auto, unfolding(guest_memory::specs::Lists::count_true))]
fn count_of(marks: &[bool]) -> u64
    requires { length marks.now < 2 ^ 32 }
    ensures { result ≡ count_true marks.now }
{
    let mut count = 0;
    for mark in marks {
        if *mark {
            count += 1;
        }
    }
    count
}

/// Whether the ranges have at most so many bytes.
#[tactic(auto, unfolding(crate::specs::Ranges::total_length))]
fn are_few(ranges: &[ByteRange], most: u64) -> bool
    ensures { IsTrue result → total_length ranges.now ≤ most }
{
    let mut left = most;
    for range in ranges {
        if range.len > left {
            return false;
        }
        left -= range.len;
    }
    true
}

/// How many pages would be touched after stores into the ranges. The marks are copied to the stack, so that no memory
/// is taken.
#[inline(never)]
fn count_after(memory: &GuestMemory, view: &View, ranges: &[ByteRange]) -> u64
    requires { RangesSeen (see view.now) memory.now ranges.now }
    ensures { result ≡ count_true (marked_ranges (see view.now) memory.now.base memory.now.touched ranges.now) }
{
    memory.whole();
    let mut marks = no_marks();
    let marks = &mut marks[..memory.pages() as usize];
    memory.copy_marks(marks);
    count_ranges(memory, view, marks, ranges)
}

/// How many pages are marked once those of the ranges are marked besides the touched ones.
#[tactic(auto, unfolding(crate::specs::Ranges::marked_ranges))]
fn count_ranges(memory: &GuestMemory, view: &View, marks: &mut [bool], ranges: &[ByteRange]) -> u64
    requires seen { RangesSeen (see view.now) memory.now ranges.now }
    requires marks { marks.old ≡ memory.now.touched }
    ensures { result ≡ count_true (marked_ranges (see view.now) memory.now.base memory.now.touched ranges.now) }
{
    memory.whole();
    let mut count = u64::from(memory.touched());
    for range in ranges {
        count = count_marks(memory, view, marks, count, range.at, range.len);
    }
    count
}

//! How many pages are touched once an image is loaded.
ghost use Rattle.std.specs.Prelude.{◌≡◌, ◌<◌, ◌≤◌, ◌+◌, ◌^◌, true, false, IfOk, All, length, replicate};
ghost use Rattle.uh_base.specs.Limits.{frame_limit};
ghost use Rattle.guest_memory.specs.Lists.{count_true, filled};
ghost use Rattle.guest_memory.specs.Changes.{reserved};
ghost use Rattle.image_services.specs.Loads.{also_marked, lacks_also};

use guest_memory::GuestMemory;
use std::alloc::{AllocError, Global};
use uh_base::FRAME_LIMIT;

/// Sets all marks.
fn mark_all(marks: &mut [bool])
    ensures { marks.new ≡ replicate (length marks.old) true }
{
    for mark in marks.iter_mut() {
        *mark = true;
    }
}

/// Sets so many marks, from an index on.
#[tactic(auto, using(crate::proofs::MarkLemmas::part_filled))]
fn mark(marks: &mut [bool], first: u32, count: u32)
    requires { first + count ≤ length marks.old }
    ensures marks { marks.new ≡ filled marks.old first count true }
    ensures long { length marks.new ≡ length marks.old }
{
    let from = first as usize;
    mark_all(&mut marks[from..from + count as usize]);
}

/// How many are true.
#[tactic(auto, unfolding(guest_memory::specs::Lists::count_true))]
fn count_marks(marks: &[bool]) -> u32
    requires { length marks.now < 2 ^ 32 }
    ensures { result ≡ count_true marks.now }
{
    let mut count = 0;
    for mark in marks {
        if *mark {
            count += 1;
        }
    }
    count
}

/// Sets the marks at some indexes.
#[tactic(auto, unfolding(crate::specs::Loads::also_marked))]
fn mark_also(marks: &mut [bool], also: &[u32])
    requires { All (λ page. page < length marks.old) also.now }
    ensures marks { marks.new ≡ also_marked marks.old also.now }
    ensures long { length marks.new ≡ length marks.old }
{
    for page in also {
        marks[*page as usize] = true;
    }
}

/// Whether more than 65,536 pages would be touched, once a block's page is and so many pages of an image from a page on, and
/// some pages besides.
pub(crate) fn lacks_frames(
    alloc: Global,
    memory: &GuestMemory,
    block: u32,
    first: u32,
    count: u32,
    also: &[u32],
) -> Result<bool, AllocError>
    requires block { block + 1 ≤ memory.now.pages }
    requires image { first + count ≤ memory.now.pages }
    requires also { All (λ page. page < memory.now.pages) also.now }
    ensures value { IfOk result (λ lacks. lacks ≡ lacks_also (reserved (reserved memory.now block 1) first count) also.now) }
    ensures alone { IfOk result (λ lacks. lacks ≡ false → count_true (reserved (reserved memory.now block 1) first count).touched ≤ frame_limit) }
{
    memory.whole();
    let mut marks = vec![in alloc; false; memory.pages() as usize]?;
    let touched = count_with(memory, marks.as_mut_slice(), block, first, count, also);
    Ok(touched > FRAME_LIMIT)
}

/// How many pages are touched behind that. The marks are counted in a copy.
#[tactic(auto, using(crate::proofs::MarkLemmas::also_more))]
fn count_with(
    memory: &GuestMemory,
    marks: &mut [bool],
    block: u32,
    first: u32,
    count: u32,
    also: &[u32],
) -> u32
    requires block { block + 1 ≤ memory.now.pages }
    requires image { first + count ≤ memory.now.pages }
    requires also { All (λ page. page < memory.now.pages) also.now }
    requires long { length marks.old ≡ memory.now.pages }
    ensures value { result ≡ count_true (also_marked (reserved (reserved memory.now block 1) first count).touched also.now) }
    ensures more { count_true (reserved (reserved memory.now block 1) first count).touched ≤ result }
{
    memory.whole();
    memory.copy_marks(marks);
    mark(marks, block, 1);
    mark(marks, first, count);
    mark_also(marks, also);
    count_marks(marks)
}

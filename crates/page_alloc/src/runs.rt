//! Runs of equal pages.
#![tactic(auto)]

ghost use Rattle.std.specs.Prelude.{IsTrue, ◌≡◌, ◌≤◌, ◌<◌, ◌+◌, ◌-◌, ◌/◌, ◌^◌, min, IfOk, Some, None, length, nat_le, if◌then◌else◌, vec_capacity, vec_len, take, drop, ◌++◌, ℕ, slice_get, slice_index_or};
ghost use Rattle.page_alloc.specs.Layout.{IsLayout};
ghost use Rattle.page_alloc.specs.Opening.{opening_pages};
ghost use Rattle.page_alloc.specs.Pages.{is_conventional, all_from, with_pages};
ghost use Rattle.page_alloc.specs.Calls.{is_same_owner};
ghost use Rattle.page_alloc.specs.Fit.{IsHighest, is_room};
ghost use Rattle.page_alloc.specs.Runs.{all_pages, NoneEmpty};

use crate::layout::Layout;
use crate::page::{CONVENTIONAL, Owner, Page, firmware};
use std::alloc::{AllocError, Global};

/// So many pages in a row that have one type and one owner.
#[derive(Clone, Copy, Debug, PartialEq, Eq, Drop)]
pub struct Run {
    /// How many pages there are.
    pub count: u32,
    /// What each of them is.
    pub page: Page,
}

/// The run of the pages from one address to another.
pub fn run_between(from: u64, to: u64, page: Page) -> Run
    requires low { from ≤ to }
    requires high { to < from + 2 ^ 44 }
    ensures { result ≡ record { count = (to - from) / 4096; page = page } }
{
    Run {
        count: ((to - from) / 4096) as u32,
        page,
    }
}

/// The runs at opening, with room for as many runs as there are pages.
#[tactic(auto, unfolding(crate::specs::Opening::opening_pages, crate::specs::Runs::all_pages, crate::specs::Layout::layout_at))]
pub fn opening_runs(alloc: Global, layout: &Layout) -> Result<Vec<Run>, AllocError>
    requires { IsLayout layout.now }
    ensures pages { IfOk result (λ runs. all_pages runs.items ≡ opening_pages layout.now) }
    ensures none_empty { IfOk result (λ runs. NoneEmpty runs.items) }
    ensures room { IfOk result (λ runs. layout.now.pages ≤ vec_capacity runs) }
{
    let mut runs = Vec::with_capacity(alloc, layout.pages as usize)?;
    runs.push_reserved(run_between(layout.base, layout.os_stack, CONVENTIONAL));
    runs.push_reserved(run_between(layout.os_stack, layout.boot_stack, firmware(2)));
    runs.push_reserved(run_between(layout.boot_stack, layout.system, firmware(4)));
    runs.push_reserved(run_between(layout.system, layout.slots, firmware(6)));
    runs.push_reserved(Run {
        count: 1,
        page: firmware(5),
    });
    Ok(runs)
}

/// The page at an index among the pages of the runs.
pub fn page_in(runs: &[Run], index: u64) -> Option<Page>
    ensures { result ≡ slice_get (all_pages runs.now) index }
{
    let mut left = index;
    for run in runs {
        if left < u64::from(run.count) {
            return Some(run.page);
        }
        left -= u64::from(run.count);
    }
    None
}

/// Where the conventional pages end that begin with a run, in pages: where those behind it end, or at its start.
fn room_end(run: &Run, start: u64, top: u64) -> u64
    ensures { result ≡ (if is_conventional run.now.page then top else min top start) }
{
    if run.page.memory_type == CONVENTIONAL.memory_type {
        top
    } else {
        top.min(start)
    }
}

/// The highest start of so many conventional pages that begin at least at a lowest start and end at most at a limit,
/// all in pages; `total` is the number of all pages. It goes over the runs from above, and stops where it finds one.
pub fn highest_room(runs: &[Run], total: u64, count: u64, lowest: u64, limit: u64) -> Option<u64>
    requires total { total ≡ length (all_pages runs.now) }
    requires some { 0 < count }
    requires none_empty { NoneEmpty runs.now }
    requires few { length (all_pages runs.now) < 2 ^ 32 }
    requires fewer { count ≤ length (all_pages runs.now) }
    requires low { lowest < 2 ^ 52 }
    ensures { IsHighest (is_room (all_pages runs.now) count lowest limit) result }
{
    let mut start = total;
    let mut top = total.min(limit);
    for place in (0..runs.len()).rev() {
        let run = &runs[place];
        start -= u64::from(run.count);
        top = room_end(run, start, top);
        if top < lowest + count {
            return None;
        }
        if top >= start + count {
            return Some(top - count);
        }
    }
    None
}

/// The place of the run that holds a page, and how many of its pages lie before that page. Behind the last page it is
/// the place behind the last run.
fn place_of(runs: &[Run], index: u64) -> (usize, u32)
    requires none_empty { NoneEmpty runs.now }
    requires inside { index ≤ length (all_pages runs.now) }
    ensures place { length (all_pages (take result.0 runs.now)) + result.1 ≡ index }
    ensures below { result.0 ≤ length runs.now }
    ensures part { 0 < result.1 → (result.0 < length runs.now) × ((d : Run) → result.1 < (slice_index_or runs.now result.0 d).count) }
{
    let mut left = index;
    for (place, run) in runs.iter().enumerate() {
        if left < u64::from(run.count) {
            return (place, left as u32);
        }
        left -= u64::from(run.count);
    }
    (runs.len(), 0)
}

/// Parts a run in two where it is needed, so that a run begins at a page, and answers the place of that run.
fn split(runs: &mut Vec<Run>, index: u64) -> usize
    requires none_empty { NoneEmpty runs.old.items }
    requires inside { index ≤ length (all_pages runs.old.items) }
    requires room { length (all_pages runs.old.items) ≤ vec_capacity runs.old }
    ensures pages { all_pages runs.new.items ≡ all_pages runs.old.items }
    ensures none_empty { NoneEmpty runs.new.items }
    ensures place { length (all_pages (take result runs.new.items)) ≡ index }
    ensures below { result ≤ vec_len runs.new }
    ensures before { (i : ℕ) → length (all_pages (take i runs.old.items)) ≤ index → take i runs.new.items ≡ take i runs.old.items }
    ensures room { vec_capacity runs.old ≤ vec_capacity runs.new }
{
    let (place, part) = place_of(runs.as_slice(), index);
    if part == 0 {
        return place;
    }
    let run = runs[place];
    runs[place].count = part;
    let rest = Run {
        count: run.count - part,
        page: run.page,
    };
    match runs.insert(place + 1, rest) {
        Ok(()) => place + 1,
        Err(_) => unreachable!(),
    }
}

/// Makes one run of two equal ones that meet at a place.
fn join(runs: &mut Vec<Run>, place: usize)
    requires none_empty { NoneEmpty runs.old.items }
    requires few { length (all_pages runs.old.items) < 2 ^ 32 }
    ensures pages { all_pages runs.new.items ≡ all_pages runs.old.items }
    ensures none_empty { NoneEmpty runs.new.items }
    ensures room { vec_capacity runs.old ≤ vec_capacity runs.new }
{
    if place == 0 || place >= runs.len() {
        return;
    }
    let before = runs[place - 1];
    let run = runs[place];
    if before.page == run.page {
        runs.remove(place);
        runs[place - 1] = Run {
            count: before.count + run.count,
            page: run.page,
        };
    }
}

/// Takes the runs from one place to another out.
fn cut(runs: &mut Vec<Run>, from: usize, to: usize)
    requires low { from ≤ to }
    requires high { to ≤ vec_len runs.old }
    ensures items { runs.new.items ≡ take from runs.old.items ++ drop to runs.old.items }
    ensures room { vec_capacity runs.new ≡ vec_capacity runs.old }
{
    runs.drain(from..to);
}

/// Makes one run of so many pages from an index on, and answers its place.
fn put_run(runs: &mut Vec<Run>, index: u64, count: u32, page: Page) -> usize
    requires none_empty { NoneEmpty runs.old.items }
    requires some { 0 < count }
    requires inside { index + count ≤ length (all_pages runs.old.items) }
    requires few { length (all_pages runs.old.items) < 2 ^ 32 }
    requires room { length (all_pages runs.old.items) ≤ vec_capacity runs.old }
    ensures pages { all_pages runs.new.items ≡ with_pages (all_pages runs.old.items) index count page }
    ensures length { length (all_pages runs.new.items) ≡ length (all_pages runs.old.items) }
    ensures none_empty { NoneEmpty runs.new.items }
    ensures room { vec_capacity runs.old ≤ vec_capacity runs.new }
    ensures below { result < vec_len runs.new }
{
    let first = split(runs, index);
    let last = split(runs, index + u64::from(count));
    runs[first] = Run { count, page };
    cut(runs, first + 1, last);
    first
}

/// Makes so many pages from an index on the same. Their run is joined with equal ones that it meets.
pub fn fill(runs: &mut Vec<Run>, index: u64, count: u32, page: Page)
    requires none_empty { NoneEmpty runs.old.items }
    requires some { 0 < count }
    requires inside { index + count ≤ length (all_pages runs.old.items) }
    requires few { length (all_pages runs.old.items) < 2 ^ 32 }
    requires room { length (all_pages runs.old.items) ≤ vec_capacity runs.old }
    ensures pages { all_pages runs.new.items ≡ with_pages (all_pages runs.old.items) index count page }
    ensures none_empty { NoneEmpty runs.new.items }
    ensures room { vec_capacity runs.old ≤ vec_capacity runs.new }
{
    let place = put_run(runs, index, count, page);
    join(runs, place + 1);
    join(runs, place);
}

/// Whether so many pages from an index on are there and all of them an owner's.
pub fn are_owned(runs: &[Run], index: u64, count: u64, owner: Owner) -> bool
    requires some { 0 < count }
    requires few { index + count < 2 ^ 64 }
    requires short { length (all_pages runs.now) < 2 ^ 32 }
    requires none_empty { NoneEmpty runs.now }
    ensures owned { result ≡ all_from (λ page. is_same_owner page.owner owner) (all_pages runs.now) index count }
    ensures inside { IsTrue result → index + count ≤ length (all_pages runs.now) }
{
    let stop = index + count;
    let mut end = 0;
    for run in runs {
        let start = end;
        end += u64::from(run.count);
        if end > index && start < stop && !run.page.owner.is(owner) {
            return false;
        }
    }
    stop <= end
}

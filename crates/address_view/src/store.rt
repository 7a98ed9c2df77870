//! Stores through a view.
#![tactic(auto)]

ghost use Rattle.std.specs.Prelude.{◌≡◌, ◌<◌, ◌≤◌, ◌+◌, ◌^◌, ℕ, true, false, IsTrue, IfOk, OnOk, OnErr, Ok, Err, None, length, slice_get};
ghost use Rattle.rv_step.specs.declared.bus.Access.{Access};
ghost use Rattle.uh_base.specs.Bytes.{is_width, first_refused};
ghost use Rattle.uh_base.specs.Limits.{frame_limit};
ghost use Rattle.rv_step.specs.Stores.{StoreEnds, StoredIn};
ghost use Rattle.guest_memory.specs.Lists.{count_true};
ghost use Rattle.guest_memory.specs.Pages.{bytes_of, rights_at};
ghost use Rattle.guest_memory.specs.Changes.{TouchedBesides};
ghost use Rattle.address_view.specs.Windows.{see};
ghost use Rattle.address_view.specs.Seen.{is_seen, view_allows, OnePage, IsRun};
ghost use Rattle.address_view.specs.Stored.{store_seen, stored, marked, lacks_seen, all_touched, StoreGives, TouchesGive, AllSeen};

use crate::access::{one_page, refused};
use crate::run::{PageRun, behind, seen_run};
use crate::view::View;
use guest_memory::{GuestMemory, PutEnd, parts_are_put};
use rv_step::{Access, BusEnd};
use std::alloc::AllocError;
use uh_base::{FRAME_LIMIT, write_number};

/// The most pages that a memory has.
const MOST_PAGES: usize = 1048576;

/// Whether each page that so many addresses show is touched.
#[tactic(auto, using(crate::proofs::RunLaws::run_all))]
fn are_all_touched(memory: &GuestMemory, view: &View, at: u64, len: u64) -> bool
    requires { AllSeen (see view.now) memory.now at len }
    ensures { result ≡ all_touched (see view.now) memory.now at len }
{
    memory.whole();
    let mut here = at;
    let mut left = len;
    while left > 0 {
        let run = seen_run(memory, view, here, left);
        if !memory.is_touched(run.page) {
            return false;
        }
        here = behind(here, run.len);
        left -= run.len;
    }
    true
}

/// Marks the page of a run, and says how many marks that adds.
fn mark(memory: &GuestMemory, view: &View, marks: &mut [bool], at: u64, run: PageRun) -> u64
    requires run { IsRun (see view.now) memory.now at run }
    requires long { length marks.old ≡ memory.now.pages }
    ensures marks { marks.new ≡ marked (see view.now) memory.now.base marks.old at run.len }
    ensures long { length marks.new ≡ memory.now.pages }
    ensures count { count_true marks.new ≡ count_true marks.old + result }
    ensures one { result ≤ 1 }
{
    memory.whole();
    let _ = view;
    let page = run.page as usize;
    if marks[page] {
        return 0;
    }
    marks[page] = true;
    1
}

/// How many pages are marked once those that so many addresses show are marked besides; so many are before.
pub(crate) fn count_marks(
    memory: &GuestMemory,
    view: &View,
    marks: &mut [bool],
    before: u64,
    at: u64,
    len: u64,
) -> u64
    requires allowed { AllSeen (see view.now) memory.now at len }
    requires long { length marks.old ≡ memory.now.pages }
    requires before { before ≡ count_true marks.old }
    ensures marks { marks.new ≡ marked (see view.now) memory.now.base marks.old at len }
    ensures long { length marks.new ≡ memory.now.pages }
    ensures count { result ≡ count_true marks.new }
{
    memory.whole();
    let mut count = before;
    let mut here = at;
    let mut left = len;
    while left > 0 {
        let run = seen_run(memory, view, here, left);
        count += mark(memory, view, marks, here, run);
        here = behind(here, run.len);
        left -= run.len;
    }
    count
}

/// Room for the marks of all pages that a memory may have.
pub(crate) fn no_marks() -> [bool; MOST_PAGES]
    ensures { length result ≡ 1048576 }
{
    [false; MOST_PAGES]
}

/// How many pages would be touched after a store of so many bytes. The marks are copied to the stack, so that no
/// memory is taken.
#[inline(never)]
fn count_after(memory: &GuestMemory, view: &View, at: u64, len: u64) -> u64
    requires { AllSeen (see view.now) memory.now at len }
    ensures { result ≡ count_true (marked (see view.now) memory.now.base memory.now.touched at len) }
{
    memory.whole();
    let mut marks = no_marks();
    let marks = &mut marks[..memory.pages() as usize];
    memory.copy_marks(marks);
    count_marks(memory, view, marks, u64::from(memory.touched()), at, len)
}

/// Whether a store of so many bytes would touch more pages than there are frames. Pages are counted only where it could.
#[tactic(auto, using(crate::proofs::MarkedLemmas::room_for, crate::proofs::MarkedLemmas::no_more))]
fn lacks_frames(memory: &GuestMemory, view: &View, at: u64, len: u64) -> bool
    requires { AllSeen (see view.now) memory.now at len }
    ensures { result ≡ lacks_seen (see view.now) memory.now at len }
{
    memory.whole();
    if len <= u64::from(FRAME_LIMIT - memory.touched()) {
        return false;
    }
    if are_all_touched(memory, view, at, len) {
        return false;
    }
    count_after(memory, view, at, len) > u64::from(FRAME_LIMIT)
}

/// Touches the page of a run.
#[tactic(auto, using(crate::proofs::LoopLemmas::run_has, crate::proofs::LoopLemmas::run_lacks))]
fn touch_run(memory: &mut GuestMemory, view: &View, at: u64, run: PageRun) -> Result<(), AllocError>
    requires run { IsRun (see view.now) memory.old at run }
    requires few { count_true (marked (see view.now) memory.old.base memory.old.touched at run.len) ≤ frame_limit }
    ensures ok { OnOk result (memory.new ≡ record memory.old { touched = marked (see view.now) memory.old.base memory.old.touched at run.len }) }
    ensures err { OnErr result ((all_touched (see view.now) memory.old at run.len ≡ false) × TouchedBesides memory.old memory.new) }
{
    memory.whole();
    let _ = view;
    match memory.reserve(run.page, 1) {
        Ok(()) => Ok(()),
        Err(PutEnd::Memory) => Err(AllocError),
        Err(PutEnd::Outside) => unreachable!(),
        Err(PutEnd::Frames) => unreachable!(),
    }
}

/// Touches the pages that so many addresses show.
fn touch_all(memory: &mut GuestMemory, view: &View, at: u64, len: u64) -> Result<(), AllocError>
    requires allowed { AllSeen (see view.now) memory.old at len }
    requires few { lacks_seen (see view.now) memory.old at len ≡ false }
    ensures ok { OnOk result (memory.new ≡ record memory.old { touched = marked (see view.now) memory.old.base memory.old.touched at len }) }
    ensures err { OnErr result ((all_touched (see view.now) memory.old at len ≡ false) × TouchedBesides memory.old memory.new) }
{
    let mut here = at;
    let mut left = len;
    while left > 0 {
        let run = seen_run(memory, view, here, left);
        match touch_run(memory, view, here, run) {
            Ok(()) => {}
            Err(end) => return Err(end),
        }
        here = behind(here, run.len);
        left -= run.len;
    }
    Ok(())
}

/// Puts bytes at the places of a run, whose page is touched.
fn put_run(memory: &mut GuestMemory, view: &View, at: u64, run: PageRun, bytes: &[u8])
    requires run { IsRun (see view.now) memory.old at run }
    requires long { length bytes.now ≡ run.len }
    requires touched { all_touched (see view.now) memory.old at run.len ≡ true }
    ensures { memory.new ≡ stored (see view.now) memory.old at bytes.now }
{
    memory.whole();
    parts_are_put();
    let _ = view;
    match memory.put_part(run.place, bytes) {
        Ok(()) => {}
        Err(PutEnd::Memory) => unreachable!(),
        Err(PutEnd::Outside) => unreachable!(),
        Err(PutEnd::Frames) => unreachable!(),
    }
}

/// Puts bytes at the places that addresses show, whose pages are touched.
pub(crate) fn put_all(memory: &mut GuestMemory, view: &View, at: u64, bytes: &[u8])
    requires allowed { AllSeen (see view.now) memory.old at (length bytes.now) }
    requires touched { all_touched (see view.now) memory.old at (length bytes.now) ≡ true }
    ensures { memory.new ≡ stored (see view.now) memory.old at bytes.now }
{
    let mut here = at;
    let mut rest = bytes;
    while rest.len() > 0 {
        let run = seen_run(memory, view, here, rest.len() as u64);
        let (part, later) = rest.split_at(run.len as usize);
        put_run(memory, view, here, run, part);
        here = behind(here, run.len);
        rest = later;
    }
}

/// Stores bytes at addresses that show memory, where there are frames for them.
#[tactic(auto, using(crate::proofs::BaseLemmas::base_of_stored, crate::proofs::BaseLemmas::pages_of_stored, crate::proofs::BaseLemmas::base_besides, crate::proofs::BaseLemmas::pages_besides))]
fn store_judged(
    memory: &mut GuestMemory,
    view: &View,
    at: u64,
    bytes: &[u8],
) -> Result<(), AllocError>
    requires allowed { AllSeen (see view.now) memory.old at (length bytes.now) }
    requires few { lacks_seen (see view.now) memory.old at (length bytes.now) ≡ false }
    ensures ok { OnOk result (memory.new ≡ stored (see view.now) memory.old at bytes.now) }
    ensures err { OnErr result ((all_touched (see view.now) memory.old at (length bytes.now) ≡ false) × TouchedBesides memory.old memory.new) }
    ensures base { memory.new.base ≡ memory.old.base }
    ensures pages { memory.new.pages ≡ memory.old.pages }
{
    memory.whole();
    match touch_all(memory, view, at, bytes.len() as u64) {
        Ok(()) => {
            put_all(memory, view, at, bytes);
            Ok(())
        }
        Err(end) => Err(end),
    }
}

/// Touches the pages that so many addresses show, all of them or none.
pub(crate) fn touch_pages(
    memory: &mut GuestMemory,
    view: &View,
    at: u64,
    len: u64,
) -> Result<(), PutEnd>
    requires { AllSeen (see view.now) memory.old at len }
    ensures { TouchesGive result (see view.now) memory.old memory.new at len }
{
    if lacks_frames(memory, view, at, len) {
        return Err(PutEnd::Frames);
    }
    match touch_all(memory, view, at, len) {
        Ok(()) => Ok(()),
        Err(AllocError) => Err(PutEnd::Memory),
    }
}

/// Stores bytes at addresses that show memory, all of them or none.
pub(crate) fn store_all(
    memory: &mut GuestMemory,
    view: &View,
    at: u64,
    bytes: &[u8],
) -> Result<(), PutEnd>
    requires { AllSeen (see view.now) memory.old at (length bytes.now) }
    ensures gives { StoreGives result (see view.now) memory.old memory.new at bytes.now (length bytes.now) }
    ensures base { memory.new.base ≡ memory.old.base }
    ensures pages { memory.new.pages ≡ memory.old.pages }
{
    if lacks_frames(memory, view, at, bytes.len() as u64) {
        Err(PutEnd::Frames)
    } else {
        match store_judged(memory, view, at, bytes) {
            Ok(()) => Ok(()),
            Err(AllocError) => Err(PutEnd::Memory),
        }
    }
}

/// Stores a number where it may meet several pages or windows.
#[tactic(auto, using(crate::proofs::StoreLaws::seen_if_allowed))]
fn store_slowly(
    memory: &mut GuestMemory,
    view: &View,
    at: u64,
    width: u8,
    value: u64,
) -> Result<(), BusEnd>
    requires { width ≤ 8 }
    ensures end { StoreEnds result (first_refused (view_allows (see view.now) (rights_at memory.old) Access.Store) at width) (lacks_seen (see view.now) memory.old at width) (all_touched (see view.now) memory.old at width) }
    ensures content { StoredIn TouchedBesides result memory.old (store_seen (see view.now) memory.old at width value) memory.new }
    ensures err { OnErr result (bytes_of memory.new ≡ bytes_of memory.old) }
    ensures rights { rights_at memory.new ≡ rights_at memory.old }
    ensures base { memory.new.base ≡ memory.old.base }
    ensures pages { memory.new.pages ≡ memory.old.pages }
{
    match refused(memory, view, at, u64::from(width), Access::Store) {
        Some(refused) => Err(BusEnd::Outside(refused)),
        None => store_allowed(memory, view, at, width, value),
    }
}

/// Stores a number at addresses that show memory.
fn store_allowed(
    memory: &mut GuestMemory,
    view: &View,
    at: u64,
    width: u8,
    value: u64,
) -> Result<(), BusEnd>
    requires few { width ≤ 8 }
    requires allowed { AllSeen (see view.now) memory.old at width }
    ensures end { StoreEnds result None (lacks_seen (see view.now) memory.old at width) (all_touched (see view.now) memory.old at width) }
    ensures content { StoredIn TouchedBesides result memory.old (store_seen (see view.now) memory.old at width value) memory.new }
    ensures err { OnErr result (bytes_of memory.new ≡ bytes_of memory.old) }
    ensures rights { rights_at memory.new ≡ rights_at memory.old }
    ensures base { memory.new.base ≡ memory.old.base }
    ensures pages { memory.new.pages ≡ memory.old.pages }
{
    if lacks_frames(memory, view, at, u64::from(width)) {
        return Err(BusEnd::Frames);
    }
    let mut bytes = [0; 8];
    write_number(&mut bytes[..width as usize], value);
    match store_judged(memory, view, at, &bytes[..width as usize]) {
        Ok(()) => Ok(()),
        Err(AllocError) => Err(BusEnd::Memory),
    }
}

/// Stores a number in one page.
#[tactic(auto, using(crate::proofs::RunLemmas::fast_content, crate::proofs::RunLemmas::lacks_is, crate::proofs::RunLemmas::unsure, crate::proofs::RunLemmas::kept_all))]
#[inline(always)]
fn store_page(
    memory: &mut GuestMemory,
    view: &View,
    at: u64,
    width: u8,
    value: u64,
    place: u64,
) -> Result<(), BusEnd>
    requires width { IsTrue (is_width width) }
    requires one { OnePage (see view.now) memory.old Access.Store at width place }
    ensures end { StoreEnds result None (lacks_seen (see view.now) memory.old at width) (all_touched (see view.now) memory.old at width) }
    ensures content { StoredIn TouchedBesides result memory.old (store_seen (see view.now) memory.old at width value) memory.new }
    ensures err { OnErr result (memory.new ≡ memory.old) }
    ensures base { memory.new.base ≡ memory.old.base }
    ensures pages { memory.new.pages ≡ memory.old.pages }
{
    memory.whole();
    match memory.put_number(place, width, value) {
        Ok(()) => Ok(()),
        Err(PutEnd::Frames) => Err(BusEnd::Frames),
        Err(PutEnd::Memory) => Err(BusEnd::Memory),
        Err(PutEnd::Outside) => unreachable!(),
    }
}

/// Stores a number, or changes no byte.
#[tactic(auto, using(crate::proofs::RunLemmas::fast_allowed, crate::proofs::StoreLaws::rights_of_stored))]
#[inline(always)]
pub(crate) fn store_through(
    memory: &mut GuestMemory,
    view: &View,
    at: u64,
    width: u8,
    value: u64,
) -> Result<(), BusEnd>
    requires { IsTrue (is_width width) }
    ensures end { StoreEnds result (first_refused (view_allows (see view.now) (rights_at memory.old) Access.Store) at width) (lacks_seen (see view.now) memory.old at width) (all_touched (see view.now) memory.old at width) }
    ensures content { StoredIn TouchedBesides result memory.old (store_seen (see view.now) memory.old at width value) memory.new }
    ensures err { OnErr result (bytes_of memory.new ≡ bytes_of memory.old) }
    ensures rights { rights_at memory.new ≡ rights_at memory.old }
    ensures base { memory.new.base ≡ memory.old.base }
    ensures pages { memory.new.pages ≡ memory.old.pages }
{
    match one_page(memory, view, at, u64::from(width), Access::Store) {
        Some(place) => store_page(memory, view, at, width, value, place),
        None => store_slowly(memory, view, at, width, value),
    }
}

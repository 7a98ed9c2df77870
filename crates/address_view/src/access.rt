//! Loads through a view.
#![tactic(auto)]

ghost use Rattle.std.specs.Prelude.{◌≡◌, ◌<◌, ◌≤◌, ◌+◌, ◌%◌, ◌^◌, IsTrue, IfSome, IfNone, IfOk, None, false};
ghost use Rattle.rv_step.specs.declared.bus.Access.{Access};
ghost use Rattle.rv_step.specs.Exec.{AreHalves};
ghost use Rattle.uh_base.specs.Bytes.{is_width, loaded, first_refused, number_at};
ghost use Rattle.guest_memory.specs.Pages.{bytes_of, rights_at};
ghost use Rattle.address_view.specs.Windows.{see, seen_bytes};
ghost use Rattle.address_view.specs.Seen.{may, view_allows, OnePage};

use crate::run::{behind, run_at};
use crate::view::View;
use guest_memory::{GuestMemory, Rights};
use rv_step::Access;

#[inline(always)]
fn allows(rights: Rights, kind: Access) -> bool
    ensures { result ≡ may kind (Some rights) }
{
    match kind {
        Access::Load => rights.read,
        Access::Store => rights.write,
        Access::Fetch => rights.exec,
    }
}

/// The place of so many bytes, if they lie in one window and one page that allows the access.
#[tactic(auto, using(crate::proofs::PageRun::one_page_is))]
#[inline(always)]
pub(crate) fn one_page(
    memory: &GuestMemory,
    view: &View,
    at: u64,
    width: u64,
    kind: Access,
) -> Option<u64>
    requires some { 1 ≤ width }
    requires few { width ≤ 4096 }
    ensures { IfSome result (λ place. OnePage (see view.now) memory.now kind at width place) }
{
    memory.whole();
    view.whole();
    let window = match view.window(at) {
        Some(window) => window,
        None => return None,
    };
    let into = at - window.virt;
    if window.len - into < width {
        return None;
    }
    let place = window.phys + into;
    if place % 4096 + width > 4096 {
        return None;
    }
    match memory.rights_at(place) {
        Some(rights) => {
            if allows(rights, kind) {
                Some(place)
            } else {
                None
            }
        }
        None => None,
    }
}

/// The address behind another. Behind the last one comes 0.
pub(crate) fn next(at: u64) -> u64
    ensures { result ≡ (at + 1) % 2 ^ 64 }
{
    at.wrapping_add(1)
}

/// How many addresses of one run allow an access, from an address on, of at most so many; none where that address doesn't.
#[tactic(auto, using(crate::proofs::RunLaws::run_allows, crate::proofs::RunLaws::run_refuses, crate::proofs::RunLaws::unseen_refuses))]
fn allowed_run(memory: &GuestMemory, view: &View, at: u64, most: u64, kind: Access) -> Option<u64>
    requires { 1 ≤ most }
    ensures some { IfSome result (λ count. 1 ≤ count) }
    ensures few { IfSome result (λ count. count ≤ most) }
    ensures pass { IfSome result (λ count. first_refused (view_allows (see view.now) (rights_at memory.now) kind) at count ≡ None) }
    ensures none { IfNone result (view_allows (see view.now) (rights_at memory.now) kind at ≡ false) }
{
    memory.whole();
    let run = match run_at(memory, view, at, most) {
        Some(run) => run,
        None => return None,
    };
    match memory.rights_at(run.place) {
        Some(rights) => {
            if allows(rights, kind) {
                Some(run.len)
            } else {
                None
            }
        }
        None => None,
    }
}

/// The first of so many addresses that doesn't allow an access.
pub fn refused(memory: &GuestMemory, view: &View, at: u64, len: u64, kind: Access) -> Option<u64>
    ensures { result ≡ first_refused (view_allows (see view.now) (rights_at memory.now) kind) at len }
{
    let mut here = at;
    let mut left = len;
    while left > 0 {
        match allowed_run(memory, view, here, left, kind) {
            Some(count) => {
                here = behind(here, count);
                left -= count;
            }
            None => return Some(here),
        }
    }
    None
}

/// The byte that is seen at an address, 0 where none is.
#[tactic(auto, unfolding(crate::specs::Windows::seen_bytes, guest_memory::specs::Pages::bytes_of))]
pub(crate) fn byte_at(memory: &GuestMemory, view: &View, at: u64) -> u8
    ensures { result ≡ seen_bytes (see view.now) (bytes_of memory.now) at }
{
    match view.translate(at) {
        Some(place) => match memory.get(place) {
            Some(byte) => byte,
            None => 0,
        },
        None => 0,
    }
}

/// The number that so many bytes make as they are seen, whatever their rights.
#[tactic(auto, unfolding(uh_base::specs::Bytes::number_at))]
pub fn number_slowly(memory: &GuestMemory, view: &View, at: u64, width: u8) -> u64
    requires { width ≤ 8 }
    ensures value { result ≡ number_at (seen_bytes (see view.now) (bytes_of memory.now)) at width }
    ensures below { result < 256 ^ width }
{
    if width == 0 {
        0
    } else {
        u64::from(byte_at(memory, view, at))
            + 256 * number_slowly(memory, view, next(at), width - 1)
    }
}

#[tactic(auto, unfolding(uh_base::specs::Bytes::loaded))]
fn load_slowly(
    memory: &GuestMemory,
    view: &View,
    at: u64,
    width: u8,
    kind: Access,
) -> Result<u64, u64>
    requires { width ≤ 8 }
    ensures loads { result ≡ loaded (seen_bytes (see view.now) (bytes_of memory.now)) (view_allows (see view.now) (rights_at memory.now) kind) at width }
    ensures below { IfOk result (λ number. number < 256 ^ width) }
{
    match refused(memory, view, at, u64::from(width), kind) {
        Some(refused) => Err(refused),
        None => Ok(number_slowly(memory, view, at, width)),
    }
}

/// The number of so many bytes at an address, or the first address that doesn't allow the access.
#[tactic(auto, using(crate::proofs::RunLemmas::fast_load))]
#[inline(always)]
pub fn load_through(
    memory: &GuestMemory,
    view: &View,
    at: u64,
    width: u8,
    kind: Access,
) -> Result<u64, u64>
    requires { IsTrue (is_width width) }
    ensures loads { result ≡ loaded (seen_bytes (see view.now) (bytes_of memory.now)) (view_allows (see view.now) (rights_at memory.now) kind) at width }
    ensures below { IfOk result (λ number. number < 256 ^ width) }
{
    match one_page(memory, view, at, u64::from(width), kind) {
        Some(place) => Ok(memory.number(place, width)),
        None => load_slowly(memory, view, at, width, kind),
    }
}

/// Both halves of an instruction of 32 bits, if they lie in one window and one page that may be executed.
#[tactic(auto, using(crate::proofs::RunLemmas::half_inside, crate::proofs::RunLemmas::other_inside))]
#[inline(always)]
pub(crate) fn both_halves(memory: &GuestMemory, view: &View, at: u64) -> Option<(u16, u16)>
    ensures { IfSome result (AreHalves (seen_bytes (see view.now) (bytes_of memory.now)) (view_allows (see view.now) (rights_at memory.now) Access.Fetch) at) }
{
    match one_page(memory, view, at, 4, Access::Fetch) {
        Some(place) => Some((
            memory.number(place, 2) as u16,
            memory.number(place + 2, 2) as u16,
        )),
        None => None,
    }
}

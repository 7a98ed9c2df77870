//! Byte ranges through a view.
#![tactic(auto)]

ghost use Rattle.guest_memory.specs.Runs.{bytes_from, with_bytes};
ghost use Rattle.std.specs.Prelude.{◌≡◌, ◌≤◌, true, false, IfSome, IfNone, IfOk, OnOk, OnErr, length, if◌then◌else◌};
ghost use Rattle.uh_base.specs.Bytes.{first_refused};
ghost use Rattle.rv_step.specs.declared.bus.Access.{Access};
ghost use Rattle.guest_memory.specs.Pages.{bytes_of, rights_at};
ghost use Rattle.address_view.specs.Windows.{see, seen_bytes};
ghost use Rattle.address_view.specs.Seen.{all_pass, is_seen, view_allows};
ghost use Rattle.address_view.specs.Stored.{stored, all_touched, StoreGives, TouchesGive};

use crate::access::refused;
use crate::run::{behind, run_at, seen_run};
use crate::store::{put_all, store_all, touch_pages};
use crate::view::View;
use guest_memory::{GuestMemory, PutEnd, bytes_are_put};
use rv_step::Access;
use std::alloc::{AllocError, Global};

/// Whether each of so many bytes is seen at a page with the right to read, or to write where `write` is true.
pub fn allowed(memory: &GuestMemory, view: &View, at: u64, len: u64, write: bool) -> bool
    ensures { result ≡ all_pass (view_allows (see view.now) (rights_at memory.now) (if write then Access.Store else Access.Load)) at len }
{
    let kind = if write { Access::Store } else { Access::Load };
    refused(memory, view, at, len, kind).is_none()
}

/// Whether each of so many bytes is seen at a page of memory, whatever its rights.
pub fn is_seen(memory: &GuestMemory, view: &View, at: u64, len: u64) -> bool
    ensures { result ≡ all_pass (is_seen (see view.now) memory.now) at len }
{
    unseen(memory, view, at, len).is_none()
}

/// The first of so many addresses that doesn't show memory.
fn unseen(memory: &GuestMemory, view: &View, at: u64, len: u64) -> Option<u64>
    ensures { result ≡ first_refused (is_seen (see view.now) memory.now) at len }
{
    let mut here = at;
    let mut left = len;
    while left > 0 {
        match run_at(memory, view, here, left) {
            Some(found) => {
                here = behind(here, found.len);
                left -= found.len;
            }
            None => return Some(here),
        }
    }
    None
}

/// The bytes that are seen from an address on as far as they lie in one page, at most so many, whatever the rights there;
/// none where the address shows no memory.
#[tactic(auto, using(crate::proofs::RunLaws::run_passes, crate::proofs::RunLaws::part_is, crate::proofs::RunLaws::part_long))]
pub fn seen_part<'m>(memory: &'m GuestMemory, view: &View, at: u64, most: u64) -> Option<&'m [u8]>
    requires { 1 ≤ most }
    ensures bytes { IfSome result (λ part. part.now ≡ bytes_from (seen_bytes (see view.now) (bytes_of memory.now)) at (length part.now)) }
    ensures seen { IfSome result (λ part. all_pass (is_seen (see view.now) memory.now) at (length part.now) ≡ true) }
    ensures some { IfSome result (λ part. 1 ≤ length part.now) }
    ensures few { IfSome result (λ part. length part.now ≤ most) }
    ensures none { IfNone result (is_seen (see view.now) memory.now at ≡ false) }
{
    match run_at(memory, view, at, most) {
        Some(found) => Some(memory.part(found.place, found.len)),
        None => None,
    }
}

/// So many bytes from an address on, each of which is seen at a page of memory, whatever its rights.
pub fn load_bytes(
    alloc: Global,
    memory: &GuestMemory,
    view: &View,
    at: u64,
    len: u64,
) -> Result<Vec<u8>, AllocError>
    requires { all_pass (is_seen (see view.now) memory.now) at len ≡ true }
    ensures { IfOk result (λ bytes. bytes.items ≡ bytes_from (seen_bytes (see view.now) (bytes_of memory.now)) at len) }
{
    let mut bytes = Vec::with_capacity(alloc, len as usize)?;
    let mut here = at;
    let mut left = len;
    while left > 0 {
        let run = seen_run(memory, view, here, left);
        bytes.extend_from_slice(memory.part(run.place, run.len))?;
        here = behind(here, run.len);
        left -= run.len;
    }
    Ok(bytes)
}

/// Stores bytes from an address on, all of them or none, where `allowed` says that they may be stored.
/// `Frames` comes where more pages than `FRAME_LIMIT` would be touched, and `Outside` never.
#[tactic(auto, using(crate::proofs::StoreLaws::seen_of_allowed))]
pub fn store_bytes(
    memory: &mut GuestMemory,
    view: &View,
    at: u64,
    bytes: &[u8],
) -> Result<(), PutEnd>
    requires { all_pass (view_allows (see view.now) (rights_at memory.old) Access.Store) at (length bytes.now) ≡ true }
    ensures gives { StoreGives result (see view.now) memory.old memory.new at bytes.now (length bytes.now) }
    ensures ok { OnOk result (seen_bytes (see view.now) (bytes_of memory.new) ≡ with_bytes (seen_bytes (see view.now) (bytes_of memory.old)) at bytes.now) }
    ensures err { OnErr result (bytes_of memory.new ≡ bytes_of memory.old) }
    ensures rights { rights_at memory.new ≡ rights_at memory.old }
    ensures base { memory.new.base ≡ memory.old.base }
    ensures pages { memory.new.pages ≡ memory.old.pages }
{
    put_bytes(memory, view, at, bytes)
}

/// Stores bytes from an address on, all of them or none, where `is_seen` says that they show memory, whatever the
/// rights there. `Frames` comes where more pages than `FRAME_LIMIT` would be touched, and `Outside` never.
#[tactic(auto, using(crate::proofs::StoreLaws::bytes_of_stored, crate::proofs::StoreLaws::bytes_of_kept, crate::proofs::StoreLaws::rights_of_kept, crate::proofs::StoreLaws::all_seen))]
pub fn put_bytes(memory: &mut GuestMemory, view: &View, at: u64, bytes: &[u8]) -> Result<(), PutEnd>
    requires { all_pass (is_seen (see view.now) memory.old) at (length bytes.now) ≡ true }
    ensures gives { StoreGives result (see view.now) memory.old memory.new at bytes.now (length bytes.now) }
    ensures ok { OnOk result (seen_bytes (see view.now) (bytes_of memory.new) ≡ with_bytes (seen_bytes (see view.now) (bytes_of memory.old)) at bytes.now) }
    ensures err { OnErr result (bytes_of memory.new ≡ bytes_of memory.old) }
    ensures rights { rights_at memory.new ≡ rights_at memory.old }
    ensures base { memory.new.base ≡ memory.old.base }
    ensures pages { memory.new.pages ≡ memory.old.pages }
{
    view.whole();
    memory.whole();
    bytes_are_put();
    store_all(memory, view, at, bytes)
}

/// Touches the pages that so many addresses show, all of them or none, and changes no byte.
#[tactic(auto, using(crate::proofs::TouchLaws::all_touched_then, crate::proofs::TouchLaws::bytes_touched, crate::proofs::TouchLaws::rights_touched, crate::proofs::TouchLaws::base_touched, crate::proofs::TouchLaws::pages_touched, crate::proofs::StoreLaws::all_seen))]
pub fn touch_bytes(memory: &mut GuestMemory, view: &View, at: u64, len: u64) -> Result<(), PutEnd>
    requires { all_pass (is_seen (see view.now) memory.old) at len ≡ true }
    ensures gives { TouchesGive result (see view.now) memory.old memory.new at len }
    ensures touched { OnOk result (all_touched (see view.now) memory.new at len ≡ true) }
    ensures bytes { bytes_of memory.new ≡ bytes_of memory.old }
    ensures rights { rights_at memory.new ≡ rights_at memory.old }
    ensures base { memory.new.base ≡ memory.old.base }
    ensures pages { memory.new.pages ≡ memory.old.pages }
{
    memory.whole();
    touch_pages(memory, view, at, len)
}

/// Stores bytes at addresses that show touched pages, as after `touch_bytes`. No frame and no memory is taken, so that
/// it is never refused.
#[tactic(auto, using(crate::proofs::TouchLaws::bytes_written, crate::proofs::TouchLaws::rights_written, crate::proofs::StoreLaws::all_seen))]
pub fn put_touched(memory: &mut GuestMemory, view: &View, at: u64, bytes: &[u8])
    requires seen { all_pass (is_seen (see view.now) memory.old) at (length bytes.now) ≡ true }
    requires touched { all_touched (see view.now) memory.old at (length bytes.now) ≡ true }
    ensures after { memory.new ≡ stored (see view.now) memory.old at bytes.now }
    ensures bytes { seen_bytes (see view.now) (bytes_of memory.new) ≡ with_bytes (seen_bytes (see view.now) (bytes_of memory.old)) at bytes.now }
    ensures rights { rights_at memory.new ≡ rights_at memory.old }
    ensures marks { memory.new.touched ≡ memory.old.touched }
    ensures base { memory.new.base ≡ memory.old.base }
    ensures pages { memory.new.pages ≡ memory.old.pages }
{
    view.whole();
    memory.whole();
    bytes_are_put();
    put_all(memory, view, at, bytes);
}

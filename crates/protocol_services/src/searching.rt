//! LocateHandle (UEFI 2.10, section 7.3.6).
#![tactic(auto)]

ghost use Rattle.std.specs.Prelude.{◌≡◌, ◌*◌, IfOk, IsTrue, OnOk, Some, true, false, length, if◌then◌else◌};
ghost use Rattle.std.specs.Int.{w64, to_le_bytes};
ghost use Rattle.std.specs.Option.{option_map};
ghost use Rattle.address_view.specs.Windows.{see};
ghost use Rattle.address_view.specs.Seen.{all_pass, is_seen};
ghost use Rattle.address_view.specs.Stored.{lacks_seen, stored};
ghost use Rattle.guest_call.specs.Checks.{number_seen};
ghost use Rattle.guest_call.specs.Outputs.{optional};
ghost use Rattle.uh_base.specs.Statuses.{buffer_too_small};
ghost use Rattle.protocol_services.specs.Outputs.{number_given};
ghost use Rattle.protocol_services.specs.Searching.{one_or_none, pending_for, with_protocol, handles_found, found_taken, words, handles_told, handles_fitted, handles_given, is_made, locate_handle};

use crate::output::{give_number, invalid};
use address_view::{ByteRange, View, lacks_after, put_bytes, ranges_suffice};
use guest_call::{
    argument, can_read_optional, can_write, can_write_buffer, guid_seen, low_word, number_seen,
    put_output,
};
use guest_memory::{GuestMemory, PutEnd};
use protocol_db::Protocols;
use service_answer::{Served, gives, lacks_frames};
use std::alloc::{AllocError, Global};
use uh_base::EfiStatus;

/// A handle that is pending, as a list.
fn one_or_none(alloc: Global, handle: Option<u64>) -> Result<Vec<u64>, AllocError>
    ensures { IfOk result (λ handles. handles.items ≡ one_or_none handle) }
{
    let mut handles = Vec::new(alloc);
    if let Some(handle) = handle {
        handles.push(handle)?;
    }
    Ok(handles)
}

/// The handle that is pending longest for a registration, if one is.
fn pending_for(
    alloc: Global,
    protocols: &Protocols,
    key: u64,
) -> Result<Option<Vec<u64>>, AllocError>
    ensures { IfOk result (λ found. option_map (λ list. list.items) found ≡ pending_for protocols.now key) }
{
    if !protocols.registered(key) {
        return Ok(None);
    }
    Ok(Some(one_or_none(alloc, protocols.first_notified(key))?))
}

/// The handles that have the protocol whose GUID is at an address.
fn with_protocol(
    alloc: Global,
    memory: &GuestMemory,
    view: &View,
    protocols: &Protocols,
    guid_at: u64,
) -> Result<Option<Vec<u64>>, AllocError>
    requires { all_pass (is_seen (see view.now) memory.now) guid_at (optional guid_at 16) ≡ true }
    ensures { IfOk result (λ found. option_map (λ list. list.items) found ≡ with_protocol (see view.now) memory.now protocols.now guid_at) }
{
    if guid_at == 0 {
        return Ok(None);
    }
    let guid = guid_seen(alloc, memory, view, guid_at)?;
    Ok(Some(protocols.handles().handles_of(Some(&guid))?))
}

/// The handles of a search. None where it is for nothing that there is.
#[tactic(auto, unfolding(crate::specs::Searching::handles_found))]
pub(crate) fn handles_found(
    alloc: Global,
    memory: &GuestMemory,
    view: &View,
    protocols: &Protocols,
    kind: u32,
    guid_at: u64,
    key: u64,
) -> Result<Option<Vec<u64>>, AllocError>
    requires { all_pass (is_seen (see view.now) memory.now) guid_at (optional guid_at 16) ≡ true }
    ensures { IfOk result (λ found. option_map (λ list. list.items) found ≡ handles_found (see view.now) memory.now protocols.now kind guid_at key) }
{
    match kind {
        0 => Ok(Some(protocols.handles().handles_of(None)?)),
        1 => pending_for(alloc, protocols, key),
        2 => with_protocol(alloc, memory, view, protocols, guid_at),
        _ => Ok(None),
    }
}

/// A handle that was found as pending is pending no more.
pub(crate) fn take_found(protocols: &mut Protocols, kind: u32, key: u64)
    ensures { protocols.new ≡ found_taken protocols.old kind key }
{
    if kind == 1 {
        let _ = protocols.take_notified(key);
    }
}

/// Numbers as bytes, eight each.
#[tactic(auto, unfolding(crate::specs::Searching::words))]
pub(crate) fn words(alloc: Global, numbers: &[u64]) -> Result<Vec<u8>, AllocError>
    ensures { IfOk result (λ bytes. bytes.items ≡ words numbers.now) }
{
    let mut bytes = Vec::new(alloc);
    for number in numbers {
        bytes.extend_from_slice(&number.to_le_bytes())?;
    }
    Ok(bytes)
}

/// Writes bytes where each address shows memory and frames suffice.
pub(crate) fn put_buffer(
    memory: &mut GuestMemory,
    view: &View,
    at: u64,
    bytes: &[u8],
) -> Result<(), AllocError>
    requires seen { all_pass (is_seen (see view.now) memory.old) at (length bytes.now) ≡ true }
    requires frames { lacks_seen (see view.now) memory.old at (length bytes.now) ≡ false }
    ensures ok { OnOk result (memory.new ≡ stored (see view.now) memory.old at bytes.now) }
    ensures base { memory.new.base ≡ memory.old.base }
    ensures pages { memory.new.pages ≡ memory.old.pages }
{
    match put_bytes(memory, view, at, bytes) {
        Ok(()) => Ok(()),
        Err(PutEnd::Memory) => Err(AllocError),
        Err(PutEnd::Frames) => unreachable!(),
        Err(PutEnd::Outside) => unreachable!(),
    }
}

/// Writes the size of the handles, and behind it the handles.
#[tactic(auto, using(crate::proofs::WordLemmas::size_fits, crate::proofs::WordLemmas::buffer_fits, crate::proofs::WordLemmas::many))]
fn tell_handles(
    alloc: Global,
    memory: &mut GuestMemory,
    view: &View,
    size_at: u64,
    buffer: u64,
    handles: &[u64],
) -> Result<Served, AllocError>
    requires size { all_pass (is_seen (see view.now) memory.old) size_at 8 ≡ true }
    requires buffer { all_pass (is_seen (see view.now) memory.old) buffer (8 * length handles.now) ≡ true }
    ensures ok { IfOk result (λ answer. record { answer = answer; memory = memory.new } ≡ handles_told (see view.now) memory.old size_at buffer handles.now) }
    ensures base { memory.new.base ≡ memory.old.base }
    ensures pages { memory.new.pages ≡ memory.old.pages }
{
    ranges_suffice();
    let bytes = words(alloc, handles)?;
    let len = bytes.len() as u64;
    let told = ByteRange {
        at: size_at,
        len: 8,
    };
    if lacks_after(memory, view, &[told, ByteRange { at: buffer, len }]) {
        return Ok(lacks_frames(alloc));
    }
    put_output(memory, view, size_at, 8, len)?;
    put_buffer(memory, view, buffer, bytes.as_slice())?;
    Ok(gives(alloc, EfiStatus::SUCCESS.0))
}

/// Tells the size that the buffer would need.
fn tell_size(
    alloc: Global,
    memory: &mut GuestMemory,
    view: &View,
    size_at: u64,
    size: u64,
) -> Result<Served, AllocError>
    requires { all_pass (is_seen (see view.now) memory.old) size_at 8 ≡ true }
    ensures ok { IfOk result (λ answer. record { answer = answer; memory = memory.new } ≡ number_given (see view.now) memory.old size_at 8 size buffer_too_small) }
    ensures base { memory.new.base ≡ memory.old.base }
    ensures pages { memory.new.pages ≡ memory.old.pages }
{
    let status = EfiStatus::BUFFER_TOO_SMALL.0;
    give_number(alloc, memory, view, size_at, 8, size, status)
}

/// Writes the handles where the buffer is long enough, and else the size that it would need.
#[tactic(auto, using(crate::proofs::WordLemmas::seen_before))]
fn fit_handles(
    alloc: Global,
    memory: &mut GuestMemory,
    view: &View,
    size_at: u64,
    buffer: u64,
    handles: &[u64],
) -> Result<Served, AllocError>
    requires size { all_pass (is_seen (see view.now) memory.old) size_at 8 ≡ true }
    ensures ok { IfOk result (λ answer. record { answer = answer; memory = memory.new } ≡ handles_fitted (see view.now) memory.old size_at buffer handles.now (number_seen (see view.now) memory.old size_at 8)) }
    ensures base { memory.new.base ≡ memory.old.base }
    ensures pages { memory.new.pages ≡ memory.old.pages }
{
    let room = number_seen(memory, view, size_at, 8);
    let size = 8 * handles.len() as u64;
    if room < size {
        return tell_size(alloc, memory, view, size_at, size);
    }
    if !can_write_buffer(memory, view, buffer, room) {
        return Ok(invalid(alloc));
    }
    tell_handles(alloc, memory, view, size_at, buffer, handles)
}

/// Writes the handles of a search.
fn give_handles(
    alloc: Global,
    memory: &mut GuestMemory,
    view: &View,
    size_at: u64,
    buffer: u64,
    handles: &[u64],
) -> Result<Served, AllocError>
    requires size { all_pass (is_seen (see view.now) memory.old) size_at 8 ≡ true }
    ensures ok { IfOk result (λ answer. record { answer = answer; memory = memory.new } ≡ handles_given (see view.now) memory.old size_at buffer (Some handles.now)) }
    ensures base { memory.new.base ≡ memory.old.base }
    ensures pages { memory.new.pages ≡ memory.old.pages }
{
    if handles.is_empty() {
        return Ok(gives(alloc, EfiStatus::NOT_FOUND.0));
    }
    fit_handles(alloc, memory, view, size_at, buffer, handles)
}

/// Whether a call was made.
pub(crate) fn is_made(served: &Served) -> bool
    ensures { result ≡ is_made served.now }
{
    !served.frames && served.value == EfiStatus::SUCCESS.0
}

/// LocateHandle (kind of search, GUID, registration, size, buffer): writes the handles that a search finds and their
/// size, or, where the buffer is too small, the size that it would need. `Err` is want of host memory.
#[tactic(auto, unfolding(crate::specs::Searching::locate_handle))]
pub fn locate_handle(
    alloc: Global,
    registers: &[u64; 32],
    view: &View,
    memory: &mut GuestMemory,
    protocols: &mut Protocols,
) -> Result<Served, AllocError>
    ensures ok { IfOk result (λ answer. record { answer = answer; memory = memory.new; protocols = protocols.new } ≡ locate_handle registers.now (see view.now) memory.old protocols.old) }
    ensures base { memory.new.base ≡ memory.old.base }
    ensures pages { memory.new.pages ≡ memory.old.pages }
{
    let kind = low_word(argument(0, registers));
    let guid_at = argument(1, registers);
    let key = argument(2, registers);
    let size_at = argument(3, registers);
    let buffer = argument(4, registers);
    if !can_read_optional(memory, view, guid_at, 16) || !can_write(memory, view, size_at, 8) {
        return Ok(invalid(alloc));
    }
    match handles_found(alloc, memory, view, protocols, kind, guid_at, key)? {
        None => Ok(invalid(alloc)),
        Some(handles) => {
            let served = give_handles(alloc, memory, view, size_at, buffer, handles.as_slice())?;
            if is_made(&served) {
                take_found(protocols, kind, key);
            }
            Ok(served)
        }
    }
}

//! Inputs of a call that stand in memory.
#![tactic(auto)]

ghost use Rattle.std.specs.Prelude.{◌≡◌, IfOk, IsTrue, true, length, if◌then◌else◌};
ghost use Rattle.address_view.specs.Windows.{see};
ghost use Rattle.address_view.specs.Seen.{all_pass, is_seen};
ghost use Rattle.guest_call.specs.Inputs.{can_read_optional, sixteen_seen, guid_seen};
ghost use Rattle.guest_call.specs.Outputs.{optional};

use crate::check::can_read;
use address_view::{View, load_bytes, seen_part};
use guest_memory::GuestMemory;
use std::alloc::{AllocError, Global};
use uh_base::Guid;

/// Whether so many bytes can be read at a pointer that may be left out, and then is 0.
#[tactic(auto, unfolding(crate::specs::Inputs::can_read_optional, uh_base::specs::Bytes::first_refused))]
pub fn can_read_optional(memory: &GuestMemory, view: &View, at: u64, len: u64) -> bool
    ensures test { result ≡ can_read_optional (see view.now) memory.now at len }
    ensures seen { IsTrue result → all_pass (is_seen (see view.now) memory.now) at (optional at len) ≡ true }
{
    at == 0 || can_read(memory, view, at, len)
}

/// The sixteen bytes from an address on, each of which is seen at a page of memory.
#[tactic(auto, unfolding(guest_memory::specs::Runs::bytes_from))]
pub fn sixteen_seen(
    alloc: Global,
    memory: &GuestMemory,
    view: &View,
    at: u64,
) -> Result<[u8; 16], AllocError>
    requires { all_pass (is_seen (see view.now) memory.now) at 16 ≡ true }
    ensures { IfOk result (λ bytes. bytes ≡ sixteen_seen (see view.now) memory.now at) }
{
    let mut bytes = [0; 16];
    if let Some(part) = seen_part(memory, view, at, 16) {
        if part.len() == 16 {
            bytes.copy_from_slice(part);
            return Ok(bytes);
        }
    }
    let loaded = load_bytes(alloc, memory, view, at, 16)?;
    bytes.copy_from_slice(loaded.as_slice());
    Ok(bytes)
}

/// The GUID at an address, each byte of which is seen at a page of memory.
pub fn guid_seen(
    alloc: Global,
    memory: &GuestMemory,
    view: &View,
    at: u64,
) -> Result<Guid, AllocError>
    requires { all_pass (is_seen (see view.now) memory.now) at 16 ≡ true }
    ensures { IfOk result (λ guid. guid ≡ guid_seen (see view.now) memory.now at) }
{
    let bytes = sixteen_seen(alloc, memory, view, at)?;
    Ok(Guid::from_bytes(&bytes))
}

//! Checks of a guest's pointers and buffers.
#![tactic(auto)]

ghost use Rattle.std.specs.Prelude.{◌≡◌, ◌≤◌, IsTrue, true, if◌then◌else◌};
ghost use Rattle.address_view.specs.Windows.{see};
ghost use Rattle.address_view.specs.Seen.{all_pass, is_seen};
ghost use Rattle.guest_call.specs.Checks.{can_write, can_read, can_write_buffer, can_read_buffer, number_seen};

use address_view::{View, allowed, is_seen, number_slowly, ranges_pass};
use guest_memory::GuestMemory;

/// Whether a pointer may take so many bytes: it isn't 0, and each byte is seen at a page that may be written.
#[tactic(auto, unfolding(crate::specs::Checks::can_write))]
pub fn can_write(memory: &GuestMemory, view: &View, at: u64, len: u64) -> bool
    ensures test { result ≡ can_write (see view.now) memory.now at len }
    ensures seen { IsTrue result → all_pass (is_seen (see view.now) memory.now) at len ≡ true }
{
    ranges_pass();
    at != 0 && allowed(memory, view, at, len, true)
}

/// Whether so many bytes can be read at a pointer: it isn't 0, and each byte is seen, whatever its rights.
#[tactic(auto, unfolding(crate::specs::Checks::can_read))]
pub fn can_read(memory: &GuestMemory, view: &View, at: u64, len: u64) -> bool
    ensures test { result ≡ can_read (see view.now) memory.now at len }
    ensures seen { IsTrue result → all_pass (is_seen (see view.now) memory.now) at len ≡ true }
{
    at != 0 && is_seen(memory, view, at, len)
}

/// Whether a buffer of a size may be written. One of size 0 is never refused.
#[tactic(auto, unfolding(crate::specs::Checks::can_write_buffer, uh_base::specs::Bytes::first_refused))]
pub fn can_write_buffer(memory: &GuestMemory, view: &View, at: u64, len: u64) -> bool
    ensures test { result ≡ can_write_buffer (see view.now) memory.now at len }
    ensures seen { IsTrue result → all_pass (is_seen (see view.now) memory.now) at len ≡ true }
{
    len == 0 || can_write(memory, view, at, len)
}

/// Whether a buffer of a size can be read. One of size 0 is never refused.
#[tactic(auto, unfolding(crate::specs::Checks::can_read_buffer, uh_base::specs::Bytes::first_refused))]
pub fn can_read_buffer(memory: &GuestMemory, view: &View, at: u64, len: u64) -> bool
    ensures test { result ≡ can_read_buffer (see view.now) memory.now at len }
    ensures seen { IsTrue result → all_pass (is_seen (see view.now) memory.now) at len ≡ true }
{
    len == 0 || can_read(memory, view, at, len)
}

/// The number of so many bytes that is seen at an address, the least byte first. A byte that isn't seen counts as 0.
pub fn number_seen(memory: &GuestMemory, view: &View, at: u64, width: u8) -> u64
    requires { width ≤ 8 }
    ensures { result ≡ number_seen (see view.now) memory.now at width }
{
    number_slowly(memory, view, at, width)
}

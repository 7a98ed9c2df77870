//! Outputs of a call.
#![tactic(auto)]

ghost use Rattle.std.specs.Prelude.{◌≡◌, ◌≤◌, OnOk, IsTrue, true, false, if◌then◌else◌};
ghost use Rattle.uh_base.specs.LittleEndian.{low_bytes};
ghost use Rattle.guest_memory.specs.Pages.{rights_at};
ghost use Rattle.address_view.specs.Windows.{see};
ghost use Rattle.address_view.specs.Seen.{all_pass, is_seen};
ghost use Rattle.address_view.specs.Stored.{lacks_seen, store_seen, StoreGives};
ghost use Rattle.guest_call.specs.Outputs.{can_write_optional, optional};

use crate::check::can_write;
use address_view::{ByteRange, View, lacks_after, put_bytes};
use guest_memory::{GuestMemory, PutEnd};
use std::alloc::AllocError;
use uh_base::write_number;

/// Whether an output may be written that is left out where its address is 0.
#[tactic(auto, unfolding(crate::specs::Outputs::can_write_optional, uh_base::specs::Bytes::first_refused))]
pub fn can_write_optional(memory: &GuestMemory, view: &View, at: u64, len: u64) -> bool
    ensures test { result ≡ can_write_optional (see view.now) memory.now at len }
    ensures seen { IsTrue result → all_pass (is_seen (see view.now) memory.now) at (optional at len) ≡ true }
{
    at == 0 || can_write(memory, view, at, len)
}

/// How many bytes of an output are written that is left out where its address is 0.
pub fn optional(at: u64, len: u8) -> u8
    ensures { result ≡ optional at len }
{
    if at == 0 { 0 } else { len }
}

/// Whether a store of so many bytes would touch more than 65,536 pages.
#[tactic(auto, unfolding(address_view::specs::Ranges::marked_ranges))]
pub fn lacks_output(memory: &GuestMemory, view: &View, at: u64, width: u8) -> bool
    requires { all_pass (is_seen (see view.now) memory.now) at width ≡ true }
    ensures { result ≡ lacks_seen (see view.now) memory.now at width }
{
    let len = u64::from(width);
    lacks_after(memory, view, &[ByteRange { at, len }])
}

/// Puts a number of so many bytes where each shows memory, the least byte first, whatever the rights there. `Frames`
/// comes where more than 65,536 pages would be touched, and `Outside` never.
pub fn put_number(
    memory: &mut GuestMemory,
    view: &View,
    at: u64,
    width: u8,
    value: u64,
) -> Result<(), PutEnd>
    requires width { width ≤ 8 }
    requires seen { all_pass (is_seen (see view.now) memory.old) at width ≡ true }
    ensures gives { StoreGives result (see view.now) memory.old memory.new at (low_bytes width value) width }
    ensures rights { rights_at memory.new ≡ rights_at memory.old }
    ensures base { memory.new.base ≡ memory.old.base }
    ensures pages { memory.new.pages ≡ memory.old.pages }
{
    let mut bytes = [0; 8];
    write_number(&mut bytes[..width as usize], value);
    put_bytes(memory, view, at, &bytes[..width as usize])
}

/// Puts a number of so many bytes where each shows memory and frames suffice.
pub fn put_output(
    memory: &mut GuestMemory,
    view: &View,
    at: u64,
    width: u8,
    value: u64,
) -> Result<(), AllocError>
    requires width { width ≤ 8 }
    requires seen { all_pass (is_seen (see view.now) memory.old) at width ≡ true }
    requires frames { lacks_seen (see view.now) memory.old at width ≡ false }
    ensures ok { OnOk result (memory.new ≡ store_seen (see view.now) memory.old at width value) }
    ensures rights { rights_at memory.new ≡ rights_at memory.old }
    ensures base { memory.new.base ≡ memory.old.base }
    ensures pages { memory.new.pages ≡ memory.old.pages }
{
    match put_number(memory, view, at, width, value) {
        Ok(()) => Ok(()),
        Err(PutEnd::Memory) => Err(AllocError),
        Err(PutEnd::Frames) => unreachable!(),
        Err(PutEnd::Outside) => unreachable!(),
    }
}

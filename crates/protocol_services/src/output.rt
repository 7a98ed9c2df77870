//! Answers and outputs.
#![tactic(auto)]

ghost use Rattle.std.specs.Prelude.{◌≡◌, ◌≤◌, IfOk, OnErr, true, length, if◌then◌else◌};
ghost use Rattle.service_answer.specs.Answers.{gives, announces, lacks_frames};
ghost use Rattle.address_view.specs.Windows.{see};
ghost use Rattle.address_view.specs.Seen.{all_pass, is_seen};
ghost use Rattle.address_view.specs.Stored.{lacks_seen, store_seen};
ghost use Rattle.protocol_services.specs.Outputs.{number_given};

use address_view::View;
use guest_call::{lacks_output, put_output};
use guest_memory::GuestMemory;
use service_answer::{Served, gives, lacks_frames};
use std::alloc::{AllocError, Global};
use uh_base::EfiStatus;

/// A status for the caller, and no event.
pub(crate) fn invalid(alloc: Global) -> Served
    ensures { result ≡ gives 0x8000000000000002 }
{
    gives(alloc, EfiStatus::INVALID_PARAMETER.0)
}

/// Writes a number of so many bytes, and gives a value.
pub(crate) fn give_number(
    alloc: Global,
    memory: &mut GuestMemory,
    view: &View,
    at: u64,
    width: u8,
    number: u64,
    value: u64,
) -> Result<Served, AllocError>
    requires width { width ≤ 8 }
    requires seen { all_pass (is_seen (see view.now) memory.old) at width ≡ true }
    ensures ok { IfOk result (λ answer. record { answer = answer; memory = memory.new } ≡ number_given (see view.now) memory.old at width number value) }
    ensures base { memory.new.base ≡ memory.old.base }
    ensures pages { memory.new.pages ≡ memory.old.pages }
{
    if lacks_output(memory, view, at, width) {
        return Ok(lacks_frames(alloc));
    }
    put_output(memory, view, at, width, number)?;
    Ok(gives(alloc, value))
}

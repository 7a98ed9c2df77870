//! GetTime, SetTime, GetWakeupTime and SetWakeupTime (UEFI 2.10, section 8.3).
#![tactic(auto)]

ghost use Rattle.std.specs.Prelude.{◌≡◌, ◌≤◌, IfOk, OnErr, true};
ghost use Rattle.guest_memory.specs.Pages.{rights_at};
ghost use Rattle.guest_memory.specs.Changes.{TouchedBesides};
ghost use Rattle.address_view.specs.Windows.{see};
ghost use Rattle.address_view.specs.Seen.{all_pass, is_seen};
ghost use Rattle.guest_call.specs.Outputs.{optional};
ghost use Rattle.runtime_services.specs.TimeServices.{get_time, time_given, set_time, get_wakeup_time, set_wakeup_time};

use crate::output::{Output, tell, unless_zero};
use address_view::View;
use guest_call::{argument, can_read, can_write, can_write_optional, sixteen_seen};
use guest_memory::GuestMemory;
use service_answer::{Served, gives};
use std::alloc::{AllocError, Global};
use time_service::{Clock, EfiTime};
use uh_base::EfiStatus;

/// EFI_TIME_CAPABILITIES: ten million units a second, an accuracy of 0, and a set that doesn't clear what is below the
/// unit.
const CAPABILITIES: [u8; 12] = [0x80, 0x96, 0x98, 0, 0, 0, 0, 0, 0, 0, 0, 0];

/// GetTime (time, capabilities): what the clock shows, as 16 bytes, and, unless their address is 0, its capabilities, as
/// 12 bytes. After 9999 the clock shows nothing. `Err` is want of host memory.
#[tactic(auto, unfolding(crate::specs::TimeServices::get_time))]
pub(crate) fn get_time(
    alloc: Global,
    registers: &[u64; 32],
    view: &View,
    memory: &mut GuestMemory,
    clock: &Clock,
    now: u64,
) -> Result<Served, AllocError>
    requires { clock.now.set_at ≤ now }
    ensures ok { IfOk result (λ answer. record { answer = answer; memory = memory.new } ≡ get_time registers.now (see view.now) memory.old clock.now now) }
    ensures err { OnErr result (TouchedBesides memory.old memory.new) }
    ensures rights { rights_at memory.new ≡ rights_at memory.old }
    ensures base { memory.new.base ≡ memory.old.base }
    ensures pages { memory.new.pages ≡ memory.old.pages }
{
    let at = argument(0, registers);
    let capabilities = argument(1, registers);
    if !can_write(memory, view, at, 16) || !can_write_optional(memory, view, capabilities, 12) {
        return Ok(gives(alloc, EfiStatus::INVALID_PARAMETER.0));
    }
    match clock.moment(now) {
        Some(time) => give_time(alloc, view, memory, at, capabilities, &time),
        None => Ok(gives(alloc, EfiStatus::DEVICE_ERROR.0)),
    }
}

/// Gives a time, and the capabilities unless their address is 0.
#[tactic(auto, unfolding(time_service::specs::Times::bytes_of), using(crate::proofs::OutputLemmas::optional_seen))]
fn give_time(
    alloc: Global,
    view: &View,
    memory: &mut GuestMemory,
    at: u64,
    capabilities: u64,
    time: &EfiTime,
) -> Result<Served, AllocError>
    requires time { all_pass (is_seen (see view.now) memory.old) at 16 ≡ true }
    requires capabilities { all_pass (is_seen (see view.now) memory.old) capabilities (optional capabilities 12) ≡ true }
    ensures ok { IfOk result (λ answer. record { answer = answer; memory = memory.new } ≡ time_given (see view.now) memory.old at capabilities time.now) }
    ensures err { OnErr result (TouchedBesides memory.old memory.new) }
    ensures rights { rights_at memory.new ≡ rights_at memory.old }
    ensures base { memory.new.base ≡ memory.old.base }
    ensures pages { memory.new.pages ≡ memory.old.pages }
{
    let bytes = time.to_bytes();
    let shown = Output { at, bytes: &bytes };
    let more = unless_zero(capabilities, &CAPABILITIES);
    let ranges = [shown.range(), more.range()];
    let served = tell(alloc, memory, view, 0, &[shown, more], &ranges)?;
    Ok(served)
}

/// SetTime (time): the clock is set to the time of 16 bytes, where it is valid. `Err` is want of host memory.
#[tactic(auto, unfolding(crate::specs::TimeServices::set_time))]
pub(crate) fn set_time(
    alloc: Global,
    registers: &[u64; 32],
    view: &View,
    memory: &GuestMemory,
    clock: &mut Clock,
    now: u64,
) -> Result<u64, AllocError>
    requires { clock.old.set_at ≤ now }
    ensures ok { IfOk result (λ status. record { status = status; clock = clock.new } ≡ set_time registers.now (see view.now) memory.now clock.old now) }
    ensures err { OnErr result (clock.new ≡ clock.old) }
    ensures set_at { clock.new.set_at ≤ now }
{
    let at = argument(0, registers);
    if !can_read(memory, view, at, 16) {
        return Ok(EfiStatus::INVALID_PARAMETER.0);
    }
    let bytes = sixteen_seen(alloc, memory, view, at)?;
    match EfiTime::read(&bytes) {
        Some(time) => {
            clock.set(now, &time);
            Ok(EfiStatus::SUCCESS.0)
        }
        None => Ok(EfiStatus::INVALID_PARAMETER.0),
    }
}

/// GetWakeupTime: the status. There is no alarm.
pub(crate) fn get_wakeup_time() -> u64
    ensures { result ≡ get_wakeup_time }
{
    EfiStatus::UNSUPPORTED.0
}

/// SetWakeupTime: the status. There is no alarm.
pub(crate) fn set_wakeup_time() -> u64
    ensures { result ≡ set_wakeup_time }
{
    EfiStatus::UNSUPPORTED.0
}

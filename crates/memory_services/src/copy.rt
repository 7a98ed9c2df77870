//! CopyMem, SetMem and CalculateCrc32 (UEFI 2.10, sections 7.5.3, 7.5.4 and 7.5.7).
#![tactic(auto)]

ghost use Rattle.std.specs.Prelude.{◌≡◌, IfOk, OnErr, true, length, if◌then◌else◌};
ghost use Rattle.guest_memory.specs.Pages.{rights_at};
ghost use Rattle.guest_memory.specs.Changes.{TouchedBesides};
ghost use Rattle.rv_step.specs.declared.bus.Access.{Access};
ghost use Rattle.address_view.specs.Windows.{see};
ghost use Rattle.address_view.specs.Seen.{all_pass, view_allows};
ghost use Rattle.memory_services.specs.Copies.{bytes_written, copy_mem, set_mem, calculate_crc32};

use address_view::{View, allowed, load_bytes, ranges_pass, store_bytes};
use guest_call::{Answer, argument, can_read_buffer, can_write, put_number};
use guest_memory::{GuestMemory, PutEnd};
use std::alloc::{AllocError, Global};
use uh_base::{EfiStatus, crc32};

/// Stores bytes that may be stored.
fn write_bytes(
    memory: &mut GuestMemory,
    view: &View,
    at: u64,
    bytes: &[u8],
) -> Result<Answer, AllocError>
    requires { all_pass (view_allows (see view.now) (rights_at memory.old) Access.Store) at (length bytes.now) ≡ true }
    ensures ok { IfOk result (λ answer. record { answer = answer; memory = memory.new } ≡ bytes_written (see view.now) memory.old at bytes.now) }
    ensures err { OnErr result (TouchedBesides memory.old memory.new) }
    ensures base { memory.new.base ≡ memory.old.base }
    ensures pages { memory.new.pages ≡ memory.old.pages }
{
    match store_bytes(memory, view, at, bytes) {
        Ok(()) => Ok(Answer::Gives(EfiStatus::SUCCESS.0)),
        Err(PutEnd::Frames) => Ok(Answer::LacksFrames),
        Err(PutEnd::Memory) => Err(AllocError),
        Err(PutEnd::Outside) => unreachable!(),
    }
}

/// CopyMem (to, from, size): copies bytes, also over an overlap. It gives 0, and does nothing where one of them may not
/// be read or written. `Err` is want of host memory; then at most marks of pages were added.
#[tactic(auto, unfolding(crate::specs::Copies::copy_mem), using(crate::proofs::MarkLemmas::nothing_touched))]
pub fn copy_mem(
    alloc: Global,
    registers: &[u64; 32],
    view: &View,
    memory: &mut GuestMemory,
) -> Result<Answer, AllocError>
    ensures ok { IfOk result (λ answer. record { answer = answer; memory = memory.new } ≡ copy_mem registers.now (see view.now) memory.old) }
    ensures err { OnErr result (TouchedBesides memory.old memory.new) }
    ensures base { memory.new.base ≡ memory.old.base }
    ensures pages { memory.new.pages ≡ memory.old.pages }
{
    let to = argument(0, registers);
    let from = argument(1, registers);
    let size = argument(2, registers);
    if !allowed(memory, view, from, size, false) || !allowed(memory, view, to, size, true) {
        return Ok(Answer::Gives(EfiStatus::SUCCESS.0));
    }
    ranges_pass();
    let bytes = load_bytes(alloc, memory, view, from, size)?;
    write_bytes(memory, view, to, bytes.as_slice())
}

/// SetMem (to, size, byte): sets bytes to the low byte of the register. It gives 0, and does nothing where one of them
/// may not be written. `Err` is want of host memory; then at most marks of pages were added.
#[tactic(auto, unfolding(crate::specs::Copies::set_mem), using(crate::proofs::MarkLemmas::nothing_touched))]
pub fn set_mem(
    alloc: Global,
    registers: &[u64; 32],
    view: &View,
    memory: &mut GuestMemory,
) -> Result<Answer, AllocError>
    ensures ok { IfOk result (λ answer. record { answer = answer; memory = memory.new } ≡ set_mem registers.now (see view.now) memory.old) }
    ensures err { OnErr result (TouchedBesides memory.old memory.new) }
    ensures base { memory.new.base ≡ memory.old.base }
    ensures pages { memory.new.pages ≡ memory.old.pages }
{
    let to = argument(0, registers);
    let size = argument(1, registers);
    let byte = (argument(2, registers) % 256) as u8;
    if !allowed(memory, view, to, size, true) {
        return Ok(Answer::Gives(EfiStatus::SUCCESS.0));
    }
    let mut bytes = Vec::new(alloc);
    bytes.resize(size as usize, byte)?;
    write_bytes(memory, view, to, bytes.as_slice())
}

/// CalculateCrc32 (buffer, size, crc): writes the CRC of a buffer as four bytes, which may lie in the buffer. `Err` is
/// want of host memory; then at most marks of pages were added.
#[tactic(auto, unfolding(crate::specs::Copies::calculate_crc32), using(crate::proofs::MarkLemmas::nothing_touched))]
pub fn calculate_crc32(
    alloc: Global,
    registers: &[u64; 32],
    view: &View,
    memory: &mut GuestMemory,
) -> Result<Answer, AllocError>
    ensures ok { IfOk result (λ answer. record { answer = answer; memory = memory.new } ≡ calculate_crc32 registers.now (see view.now) memory.old) }
    ensures err { OnErr result (TouchedBesides memory.old memory.new) }
    ensures base { memory.new.base ≡ memory.old.base }
    ensures pages { memory.new.pages ≡ memory.old.pages }
{
    let buffer = argument(0, registers);
    let size = argument(1, registers);
    let output = argument(2, registers);
    if !can_write(memory, view, output, 4)
        || size == 0
        || !can_read_buffer(memory, view, buffer, size)
    {
        return Ok(Answer::Gives(EfiStatus::INVALID_PARAMETER.0));
    }
    let bytes = load_bytes(alloc, memory, view, buffer, size)?;
    match put_number(memory, view, output, 4, u64::from(crc32(bytes.as_slice()))) {
        Ok(()) => Ok(Answer::Gives(EfiStatus::SUCCESS.0)),
        Err(PutEnd::Frames) => Ok(Answer::LacksFrames),
        Err(PutEnd::Memory) => Err(AllocError),
        Err(PutEnd::Outside) => unreachable!(),
    }
}

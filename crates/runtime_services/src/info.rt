//! QueryVariableInfo (UEFI 2.10, section 8.2).
#![tactic(auto)]

ghost use Rattle.std.specs.Prelude.{◌≡◌, IfOk, IsTrue, true, OnErr};
ghost use Rattle.guest_memory.specs.Pages.{rights_at};
ghost use Rattle.guest_memory.specs.Changes.{TouchedBesides};
ghost use Rattle.address_view.specs.Windows.{see};
ghost use Rattle.address_view.specs.Seen.{all_pass, is_seen};
ghost use Rattle.runtime_services.specs.VariableInfo.{info_outputs, are_info_outputs, has_unknown_bits, lacks_kept_bits, info_told, query_variable_info};

use crate::output::{Output, tell};
use address_view::View;
use guest_call::{argument, can_write, low_word};
use guest_memory::GuestMemory;
use service_answer::{Served, gives};
use std::alloc::{AllocError, Global};
use uh_base::EfiStatus;
use variable_store::Variables;

/// What all variables may cost.
const STORAGE: u64 = 65_536;

/// What a new variable costs besides its data and the units of its name.
const OVERHEAD: u64 = 34;

/// The addresses that a call brings.
#[derive(Clone, Copy, Debug, PartialEq, Eq, Drop)]
pub struct InfoOutputs {
    /// Where it is written what all variables may cost.
    pub most: u64,
    /// Where the room that is left is written.
    pub left: u64,
    /// Where it is written how much of it a new variable may use.
    pub one: u64,
}

/// The addresses that a call brings.
fn info_outputs(registers: &[u64; 32]) -> InfoOutputs
    ensures { result ≡ info_outputs registers.now }
{
    InfoOutputs {
        most: argument(1, registers),
        left: argument(2, registers),
        one: argument(3, registers),
    }
}

/// Whether each output may be written.
fn are_info_outputs(memory: &GuestMemory, view: &View, outputs: InfoOutputs) -> bool
    ensures test { result ≡ are_info_outputs (see view.now) memory.now outputs }
    ensures seen_most { IsTrue result → all_pass (is_seen (see view.now) memory.now) outputs.most 8 ≡ true }
    ensures seen_left { IsTrue result → all_pass (is_seen (see view.now) memory.now) outputs.left 8 ≡ true }
    ensures seen_one { IsTrue result → all_pass (is_seen (see view.now) memory.now) outputs.one 8 ≡ true }
{
    can_write(memory, view, outputs.most, 8)
        && can_write(memory, view, outputs.left, 8)
        && can_write(memory, view, outputs.one, 8)
}

fn has_unknown_bits(attributes: u32) -> bool
    ensures { result ≡ has_unknown_bits attributes }
{
    attributes | 7 != 7
}

fn lacks_kept_bits(attributes: u32) -> bool
    ensures { result ≡ lacks_kept_bits attributes }
{
    attributes & 3 != 3
}

/// Tells what all variables may cost, the room that is left, and what a new variable may use of it.
fn tell_info(
    alloc: Global,
    view: &View,
    memory: &mut GuestMemory,
    outputs: InfoOutputs,
    room: u64,
) -> Result<Served, AllocError>
    requires most { all_pass (is_seen (see view.now) memory.old) outputs.most 8 ≡ true }
    requires left { all_pass (is_seen (see view.now) memory.old) outputs.left 8 ≡ true }
    requires one { all_pass (is_seen (see view.now) memory.old) outputs.one 8 ≡ true }
    ensures ok { IfOk result (λ answer. record { answer = answer; memory = memory.new } ≡ info_told (see view.now) memory.old outputs room) }
    ensures err { OnErr result (TouchedBesides memory.old memory.new) }
    ensures rights { rights_at memory.new ≡ rights_at memory.old }
    ensures base { memory.new.base ≡ memory.old.base }
    ensures pages { memory.new.pages ≡ memory.old.pages }
{
    let most_bytes = STORAGE.to_le_bytes();
    let left_bytes = room.to_le_bytes();
    let one_bytes = room.saturating_sub(OVERHEAD).to_le_bytes();
    let most = Output {
        at: outputs.most,
        bytes: &most_bytes,
    };
    let left = Output {
        at: outputs.left,
        bytes: &left_bytes,
    };
    let one = Output {
        at: outputs.one,
        bytes: &one_bytes,
    };
    let ranges = [most.range(), left.range(), one.range()];
    let status = EfiStatus::SUCCESS.0;
    let served = tell(alloc, memory, view, status, &[most, left, one], &ranges)?;
    Ok(served)
}

/// QueryVariableInfo (attributes, most, left, one): what all variables may cost, the room that is left, and what a new
/// variable may use of it, as eight bytes each. `Err` is want of host memory.
#[tactic(auto, unfolding(crate::specs::VariableInfo::query_variable_info))]
pub(crate) fn query_variable_info(
    alloc: Global,
    registers: &[u64; 32],
    view: &View,
    memory: &mut GuestMemory,
    variables: &Variables,
) -> Result<Served, AllocError>
    ensures ok { IfOk result (λ answer. record { answer = answer; memory = memory.new } ≡ query_variable_info registers.now (see view.now) memory.old variables.now) }
    ensures err { OnErr result (TouchedBesides memory.old memory.new) }
    ensures rights { rights_at memory.new ≡ rights_at memory.old }
    ensures base { memory.new.base ≡ memory.old.base }
    ensures pages { memory.new.pages ≡ memory.old.pages }
{
    let outputs = info_outputs(registers);
    if !are_info_outputs(memory, view, outputs) {
        return Ok(gives(alloc, EfiStatus::INVALID_PARAMETER.0));
    }
    let attributes = low_word(argument(0, registers));
    if has_unknown_bits(attributes) {
        return Ok(gives(alloc, EfiStatus::UNSUPPORTED.0));
    }
    if lacks_kept_bits(attributes) {
        return Ok(gives(alloc, EfiStatus::INVALID_PARAMETER.0));
    }
    tell_info(alloc, view, memory, outputs, variables.room())
}

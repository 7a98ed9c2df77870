//! GetVariable (UEFI 2.10, section 8.2).
#![tactic(auto)]

ghost use Rattle.std.specs.Prelude.{◌≡◌, [], ◌∷◌, IfOk, IsTrue, true, length, OnErr};
ghost use Rattle.std.specs.Int.{w32, w64, to_le_bytes};
ghost use Rattle.guest_memory.specs.Pages.{rights_at};
ghost use Rattle.guest_memory.specs.Changes.{TouchedBesides};
ghost use Rattle.address_view.specs.Windows.{see};
ghost use Rattle.address_view.specs.Seen.{all_pass, is_seen};
ghost use Rattle.uh_base.specs.Statuses.{success, buffer_too_small};
ghost use Rattle.guest_call.specs.Checks.{number_seen};
ghost use Rattle.guest_call.specs.Outputs.{optional};
ghost use Rattle.runtime_services.specs.Outputs.{told, unless_zero};
ghost use Rattle.runtime_services.specs.GetVariable.{variable_outputs, are_variable_outputs, sizes_of, variable_given, get_variable};

use crate::input::read_string;
use crate::output::{Output, tell, unless_zero};
use address_view::View;
use guest_call::{
    argument, can_read, can_write, can_write_buffer, can_write_optional, guid_seen, number_seen,
};
use guest_memory::GuestMemory;
use service_answer::{Served, gives};
use std::alloc::{AllocError, Global};
use uh_base::EfiStatus;
use variable_store::{Variable, Variables};

/// The addresses that a call brings.
#[derive(Clone, Copy, Debug, PartialEq, Eq, Drop)]
pub struct VariableOutputs {
    /// Where the attributes are written, 0 for nowhere.
    pub attributes: u64,
    /// Where the size of the buffer stands, and the size of the data is written.
    pub size: u64,
    /// The buffer.
    pub buffer: u64,
}

/// The addresses that a call brings.
fn variable_outputs(registers: &[u64; 32]) -> VariableOutputs
    ensures { result ≡ variable_outputs registers.now }
{
    VariableOutputs {
        attributes: argument(2, registers),
        size: argument(3, registers),
        buffer: argument(4, registers),
    }
}

/// Whether each output but the buffer may be written.
fn are_variable_outputs(memory: &GuestMemory, view: &View, outputs: VariableOutputs) -> bool
    ensures test { result ≡ are_variable_outputs (see view.now) memory.now outputs }
    ensures seen_attributes { IsTrue result → all_pass (is_seen (see view.now) memory.now) outputs.attributes (optional outputs.attributes 4) ≡ true }
    ensures seen_size { IsTrue result → all_pass (is_seen (see view.now) memory.now) outputs.size 8 ≡ true }
{
    can_write_optional(memory, view, outputs.attributes, 4)
        && can_write(memory, view, outputs.size, 8)
}

/// The attributes of a variable, as four bytes.
fn attribute_bytes(variable: &Variable) -> [u8; 4]
    ensures { result ≡ to_le_bytes w32 variable.now.attributes }
{
    variable.attributes.to_le_bytes()
}

/// How many bytes of data a variable has, as eight bytes.
fn size_bytes(variable: &Variable) -> [u8; 8]
    ensures { result ≡ to_le_bytes w64 (length variable.now.data) }
{
    (variable.data.len() as u64).to_le_bytes()
}

/// Tells the attributes and the size of a variable's data, for which the buffer is too small.
#[tactic(auto, using(crate::proofs::OutputLemmas::optional_seen))]
fn tell_sizes(
    alloc: Global,
    view: &View,
    memory: &mut GuestMemory,
    outputs: VariableOutputs,
    variable: &Variable,
) -> Result<Served, AllocError>
    requires attributes { all_pass (is_seen (see view.now) memory.old) outputs.attributes (optional outputs.attributes 4) ≡ true }
    requires size { all_pass (is_seen (see view.now) memory.old) outputs.size 8 ≡ true }
    ensures ok { IfOk result (λ answer. record { answer = answer; memory = memory.new } ≡ told (see view.now) memory.old buffer_too_small (sizes_of outputs variable.now [])) }
    ensures err { OnErr result (TouchedBesides memory.old memory.new) }
    ensures rights { rights_at memory.new ≡ rights_at memory.old }
    ensures base { memory.new.base ≡ memory.old.base }
    ensures pages { memory.new.pages ≡ memory.old.pages }
{
    let attributes = attribute_bytes(variable);
    let size = size_bytes(variable);
    let first = unless_zero(outputs.attributes, &attributes);
    let second = Output {
        at: outputs.size,
        bytes: &size,
    };
    let ranges = [first.range(), second.range()];
    let status = EfiStatus::BUFFER_TOO_SMALL.0;
    let served = tell(alloc, memory, view, status, &[first, second], &ranges)?;
    Ok(served)
}

/// Writes attributes, unless their address is 0, a size and bytes.
#[tactic(auto, using(crate::proofs::OutputLemmas::optional_seen))]
fn write_variable<'a>(
    alloc: Global,
    view: &View,
    memory: &mut GuestMemory,
    outputs: VariableOutputs,
    attributes: &'a [u8],
    size: &'a [u8],
    bytes: &'a [u8],
) -> Result<Served, AllocError>
    requires four { length attributes.now ≡ 4 }
    requires eight { length size.now ≡ 8 }
    requires attributes { all_pass (is_seen (see view.now) memory.old) outputs.attributes (optional outputs.attributes 4) ≡ true }
    requires size { all_pass (is_seen (see view.now) memory.old) outputs.size 8 ≡ true }
    requires buffer { all_pass (is_seen (see view.now) memory.old) outputs.buffer (length bytes.now) ≡ true }
    ensures ok { IfOk result (λ answer. record { answer = answer; memory = memory.new } ≡ told (see view.now) memory.old success (unless_zero outputs.attributes attributes.now ∷ record { at = outputs.size; bytes = size.now } ∷ record { at = outputs.buffer; bytes = bytes.now } ∷ [])) }
    ensures err { OnErr result (TouchedBesides memory.old memory.new) }
    ensures rights { rights_at memory.new ≡ rights_at memory.old }
    ensures base { memory.new.base ≡ memory.old.base }
    ensures pages { memory.new.pages ≡ memory.old.pages }
{
    let first = unless_zero(outputs.attributes, attributes);
    let second = Output {
        at: outputs.size,
        bytes: size,
    };
    let third = Output {
        at: outputs.buffer,
        bytes,
    };
    let ranges = [first.range(), second.range(), third.range()];
    let status = EfiStatus::SUCCESS.0;
    tell(
        alloc,
        memory,
        view,
        status,
        &[first, second, third],
        &ranges,
    )
}

/// Gives a variable: its attributes, the size of its data, and its data.
fn tell_variable(
    alloc: Global,
    view: &View,
    memory: &mut GuestMemory,
    outputs: VariableOutputs,
    variable: &Variable,
) -> Result<Served, AllocError>
    requires attributes { all_pass (is_seen (see view.now) memory.old) outputs.attributes (optional outputs.attributes 4) ≡ true }
    requires size { all_pass (is_seen (see view.now) memory.old) outputs.size 8 ≡ true }
    requires buffer { all_pass (is_seen (see view.now) memory.old) outputs.buffer (length variable.now.data) ≡ true }
    ensures ok { IfOk result (λ answer. record { answer = answer; memory = memory.new } ≡ told (see view.now) memory.old success (sizes_of outputs variable.now (record { at = outputs.buffer; bytes = variable.now.data } ∷ []))) }
    ensures err { OnErr result (TouchedBesides memory.old memory.new) }
    ensures rights { rights_at memory.new ≡ rights_at memory.old }
    ensures base { memory.new.base ≡ memory.old.base }
    ensures pages { memory.new.pages ≡ memory.old.pages }
{
    let attributes = attribute_bytes(variable);
    let size = size_bytes(variable);
    let bytes = variable.data.as_slice();
    let served = write_variable(alloc, view, memory, outputs, &attributes, &size, bytes)?;
    Ok(served)
}

/// Gives a variable where the buffer is long enough, and else its attributes and how long the buffer has to be.
#[tactic(auto, using(crate::proofs::OutputLemmas::seen_before))]
fn give_variable(
    alloc: Global,
    view: &View,
    memory: &mut GuestMemory,
    outputs: VariableOutputs,
    variable: &Variable,
) -> Result<Served, AllocError>
    requires attributes { all_pass (is_seen (see view.now) memory.old) outputs.attributes (optional outputs.attributes 4) ≡ true }
    requires size { all_pass (is_seen (see view.now) memory.old) outputs.size 8 ≡ true }
    ensures ok { IfOk result (λ answer. record { answer = answer; memory = memory.new } ≡ variable_given (see view.now) memory.old outputs (number_seen (see view.now) memory.old outputs.size 8) variable.now) }
    ensures err { OnErr result (TouchedBesides memory.old memory.new) }
    ensures rights { rights_at memory.new ≡ rights_at memory.old }
    ensures base { memory.new.base ≡ memory.old.base }
    ensures pages { memory.new.pages ≡ memory.old.pages }
{
    let room = number_seen(memory, view, outputs.size, 8);
    if room < variable.data.len() as u64 {
        return tell_sizes(alloc, view, memory, outputs, variable);
    }
    if !can_write_buffer(memory, view, outputs.buffer, room) {
        return Ok(gives(alloc, EfiStatus::INVALID_PARAMETER.0));
    }
    tell_variable(alloc, view, memory, outputs, variable)
}

/// GetVariable (name, vendor, attributes, size, data): the variable of a vendor by its name, as long as it is seen; or,
/// where the buffer is too small, its attributes and how long the buffer has to be. `Err` is want of host memory.
#[tactic(auto, unfolding(crate::specs::GetVariable::get_variable), using(crate::proofs::MarkLemmas::nothing_touched))]
pub(crate) fn get_variable(
    alloc: Global,
    registers: &[u64; 32],
    view: &View,
    memory: &mut GuestMemory,
    variables: &Variables,
    gone: bool,
) -> Result<Served, AllocError>
    ensures ok { IfOk result (λ answer. record { answer = answer; memory = memory.new } ≡ get_variable registers.now (see view.now) memory.old variables.now gone) }
    ensures err { OnErr result (TouchedBesides memory.old memory.new) }
    ensures rights { rights_at memory.new ≡ rights_at memory.old }
    ensures base { memory.new.base ≡ memory.old.base }
    ensures pages { memory.new.pages ≡ memory.old.pages }
{
    let outputs = variable_outputs(registers);
    let guid = argument(1, registers);
    let name = match read_string(alloc, memory, view, argument(0, registers), false)? {
        Some(name) => name,
        None => return Ok(gives(alloc, EfiStatus::INVALID_PARAMETER.0)),
    };
    if !can_read(memory, view, guid, 16) || !are_variable_outputs(memory, view, outputs) {
        return Ok(gives(alloc, EfiStatus::INVALID_PARAMETER.0));
    }
    let vendor = guid_seen(alloc, memory, view, guid)?;
    match variables.find(name.as_slice(), &vendor, gone) {
        Some(place) => match variables.at(place) {
            Some(variable) => give_variable(alloc, view, memory, outputs, variable),
            None => unreachable!(),
        },
        None => Ok(gives(alloc, EfiStatus::NOT_FOUND.0)),
    }
}

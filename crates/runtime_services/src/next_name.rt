//! GetNextVariableName (UEFI 2.10, section 8.2).
#![tactic(auto)]

ghost use Rattle.std.specs.Prelude.{◌≡◌, ◌++◌, [], ◌∷◌, IfOk, OnOk, true, length, OnErr};
ghost use Rattle.guest_memory.specs.Pages.{rights_at};
ghost use Rattle.guest_memory.specs.Changes.{TouchedBesides};
ghost use Rattle.address_view.specs.Windows.{see};
ghost use Rattle.address_view.specs.Seen.{all_pass, is_seen};
ghost use Rattle.variable_store.specs.Store.{unit_bytes};
ghost use Rattle.guest_call.specs.Checks.{number_seen};
ghost use Rattle.runtime_services.specs.NextName.{name_outputs, name_bytes, name_given, size_told, name_told, get_next_variable_name};
ghost use Rattle.runtime_services.specs.Outputs.{told};
ghost use Rattle.uh_base.specs.Statuses.{success};

use crate::input::read_string;
use crate::output::{Output, tell};
use crate::status::variable_status;
use address_view::View;
use guest_call::{argument, can_write, can_write_buffer, guid_seen, number_seen};
use guest_memory::GuestMemory;
use service_answer::{Served, gives};
use std::alloc::{AllocError, Global};
use uh_base::{EfiStatus, Guid};
use variable_store::{Variable, Variables};

/// The addresses that a call brings.
#[derive(Clone, Copy, Debug, PartialEq, Eq, Drop)]
pub struct NameOutputs {
    /// Where the size of the buffer of the name stands, and the size of the next name is written.
    pub size: u64,
    /// The name, and where the next one is written.
    pub name: u64,
    /// The vendor, and where that of the next name is written.
    pub guid: u64,
}

/// The addresses that a call brings.
fn name_outputs(registers: &[u64; 32]) -> NameOutputs
    ensures { result ≡ name_outputs registers.now }
{
    NameOutputs {
        size: argument(0, registers),
        name: argument(1, registers),
        guid: argument(2, registers),
    }
}

/// Two bytes for each unit.
fn push_units(out: &mut Vec<u8>, units: &[u16]) -> Result<(), AllocError>
    ensures { OnOk result (out.new.items ≡ out.old.items ++ unit_bytes units.now) }
{
    for unit in units {
        out.extend_from_slice(&unit.to_le_bytes())?;
    }
    Ok(())
}

/// The bytes of a name, with its end.
fn name_bytes(alloc: Global, name: &[u16]) -> Result<Vec<u8>, AllocError>
    ensures { IfOk result (λ bytes. bytes.items ≡ name_bytes name.now) }
{
    let mut bytes = Vec::new(alloc);
    push_units(&mut bytes, name)?;
    bytes.extend_from_slice(&[0, 0])?;
    Ok(bytes)
}

/// Tells how long the buffer of the name has to be.
fn tell_size(
    alloc: Global,
    view: &View,
    memory: &mut GuestMemory,
    outputs: NameOutputs,
    bytes: &[u8],
) -> Result<Served, AllocError>
    requires size { all_pass (is_seen (see view.now) memory.old) outputs.size 8 ≡ true }
    ensures ok { IfOk result (λ answer. record { answer = answer; memory = memory.new } ≡ size_told (see view.now) memory.old outputs bytes.now) }
    ensures err { OnErr result (TouchedBesides memory.old memory.new) }
    ensures rights { rights_at memory.new ≡ rights_at memory.old }
    ensures base { memory.new.base ≡ memory.old.base }
    ensures pages { memory.new.pages ≡ memory.old.pages }
{
    let size_bytes = (bytes.len() as u64).to_le_bytes();
    let size = Output {
        at: outputs.size,
        bytes: &size_bytes,
    };
    let range = size.range();
    let status = EfiStatus::BUFFER_TOO_SMALL.0;
    tell(alloc, memory, view, status, &[size], &[range])
}

/// Writes a size, the bytes of a name and those of a vendor.
fn write_name<'a>(
    alloc: Global,
    view: &View,
    memory: &mut GuestMemory,
    outputs: NameOutputs,
    size: &'a [u8],
    bytes: &'a [u8],
    vendor: &'a [u8],
) -> Result<Served, AllocError>
    requires eight { length size.now ≡ 8 }
    requires sixteen { length vendor.now ≡ 16 }
    requires size { all_pass (is_seen (see view.now) memory.old) outputs.size 8 ≡ true }
    requires name { all_pass (is_seen (see view.now) memory.old) outputs.name (length bytes.now) ≡ true }
    requires guid { all_pass (is_seen (see view.now) memory.old) outputs.guid 16 ≡ true }
    ensures ok { IfOk result (λ answer. record { answer = answer; memory = memory.new } ≡ told (see view.now) memory.old success (record { at = outputs.size; bytes = size.now } ∷ record { at = outputs.name; bytes = bytes.now } ∷ record { at = outputs.guid; bytes = vendor.now } ∷ [])) }
    ensures err { OnErr result (TouchedBesides memory.old memory.new) }
    ensures rights { rights_at memory.new ≡ rights_at memory.old }
    ensures base { memory.new.base ≡ memory.old.base }
    ensures pages { memory.new.pages ≡ memory.old.pages }
{
    let first = Output {
        at: outputs.size,
        bytes: size,
    };
    let second = Output {
        at: outputs.name,
        bytes,
    };
    let third = Output {
        at: outputs.guid,
        bytes: vendor,
    };
    let ranges = [first.range(), second.range(), third.range()];
    let status = EfiStatus::SUCCESS.0;
    tell(
        alloc,
        memory,
        view,
        status,
        &[first, second, third],
        &ranges,
    )
}

/// Gives a name: its size, its bytes, and its vendor.
#[tactic(auto, unfolding(uh_base::specs::Guid::bytes_of))]
fn tell_name(
    alloc: Global,
    view: &View,
    memory: &mut GuestMemory,
    outputs: NameOutputs,
    bytes: &[u8],
    vendor: &Guid,
) -> Result<Served, AllocError>
    requires size { all_pass (is_seen (see view.now) memory.old) outputs.size 8 ≡ true }
    requires name { all_pass (is_seen (see view.now) memory.old) outputs.name (length bytes.now) ≡ true }
    requires guid { all_pass (is_seen (see view.now) memory.old) outputs.guid 16 ≡ true }
    ensures ok { IfOk result (λ answer. record { answer = answer; memory = memory.new } ≡ name_told (see view.now) memory.old outputs bytes.now vendor.now) }
    ensures err { OnErr result (TouchedBesides memory.old memory.new) }
    ensures rights { rights_at memory.new ≡ rights_at memory.old }
    ensures base { memory.new.base ≡ memory.old.base }
    ensures pages { memory.new.pages ≡ memory.old.pages }
{
    let size = (bytes.len() as u64).to_le_bytes();
    let vendor = vendor.to_bytes();
    let served = write_name(alloc, view, memory, outputs, &size, bytes, &vendor)?;
    Ok(served)
}

/// Gives a variable's name where its buffer is long enough, and else how long it has to be.
#[tactic(auto, using(crate::proofs::MarkLemmas::nothing_touched, crate::proofs::OutputLemmas::seen_before))]
fn give_name(
    alloc: Global,
    view: &View,
    memory: &mut GuestMemory,
    outputs: NameOutputs,
    variable: &Variable,
) -> Result<Served, AllocError>
    requires size { all_pass (is_seen (see view.now) memory.old) outputs.size 8 ≡ true }
    requires guid { all_pass (is_seen (see view.now) memory.old) outputs.guid 16 ≡ true }
    ensures ok { IfOk result (λ answer. record { answer = answer; memory = memory.new } ≡ name_given (see view.now) memory.old outputs (number_seen (see view.now) memory.old outputs.size 8) variable.now) }
    ensures err { OnErr result (TouchedBesides memory.old memory.new) }
    ensures rights { rights_at memory.new ≡ rights_at memory.old }
    ensures base { memory.new.base ≡ memory.old.base }
    ensures pages { memory.new.pages ≡ memory.old.pages }
{
    let room = number_seen(memory, view, outputs.size, 8);
    let bytes = name_bytes(alloc, &variable.name)?;
    if room < bytes.len() as u64 {
        return tell_size(alloc, view, memory, outputs, bytes.as_slice());
    }
    if !can_write_buffer(memory, view, outputs.name, room) {
        return Ok(gives(alloc, EfiStatus::INVALID_PARAMETER.0));
    }
    tell_name(
        alloc,
        view,
        memory,
        outputs,
        bytes.as_slice(),
        &variable.vendor,
    )
}

/// GetNextVariableName (size, name, vendor): the name behind one, of the variables that are seen, in the order in which
/// they were made; the first for an empty name. Where the buffer is too small, how long it has to be. `Err` is want of
/// host memory.
#[tactic(auto, unfolding(crate::specs::NextName::get_next_variable_name), using(crate::proofs::MarkLemmas::nothing_touched))]
pub(crate) fn get_next_variable_name(
    alloc: Global,
    registers: &[u64; 32],
    view: &View,
    memory: &mut GuestMemory,
    variables: &Variables,
    gone: bool,
) -> Result<Served, AllocError>
    ensures ok { IfOk result (λ answer. record { answer = answer; memory = memory.new } ≡ get_next_variable_name registers.now (see view.now) memory.old variables.now gone) }
    ensures err { OnErr result (TouchedBesides memory.old memory.new) }
    ensures rights { rights_at memory.new ≡ rights_at memory.old }
    ensures base { memory.new.base ≡ memory.old.base }
    ensures pages { memory.new.pages ≡ memory.old.pages }
{
    let outputs = name_outputs(registers);
    let name = match read_string(alloc, memory, view, outputs.name, true)? {
        Some(name) => name,
        None => return Ok(gives(alloc, EfiStatus::INVALID_PARAMETER.0)),
    };
    if !can_write(memory, view, outputs.size, 8) || !can_write(memory, view, outputs.guid, 16) {
        return Ok(gives(alloc, EfiStatus::INVALID_PARAMETER.0));
    }
    let vendor = guid_seen(alloc, memory, view, outputs.guid)?;
    match variables.next_index(name.as_slice(), &vendor, gone) {
        Err(refusal) => Ok(gives(alloc, variable_status(refusal))),
        Ok(None) => Ok(gives(alloc, EfiStatus::NOT_FOUND.0)),
        Ok(Some(place)) => match variables.at(place) {
            Some(variable) => give_name(alloc, view, memory, outputs, variable),
            None => Ok(gives(alloc, EfiStatus::NOT_FOUND.0)),
        },
    }
}

//! SetVariable (UEFI 2.10, section 8.2).
#![tactic(auto)]

ghost use Rattle.std.specs.Prelude.{◌≡◌, IfOk, OnErr, true};
ghost use Rattle.address_view.specs.Windows.{see};
ghost use Rattle.address_view.specs.Seen.{all_pass, is_seen};
ghost use Rattle.guest_call.specs.Checks.{can_read_buffer};
ghost use Rattle.runtime_services.specs.SetVariable.{given_of, set_given, set_variable};

use crate::input::read_string;
use crate::status::variable_status;
use address_view::{View, load_bytes};
use guest_call::{argument, can_read, can_read_buffer, guid_seen, low_word};
use guest_memory::GuestMemory;
use std::alloc::{AllocError, Global};
use uh_base::{EfiStatus, Guid};
use variable_store::{VarRefusal, Variables};

/// No variable has more bytes.
const MOST_BYTES: u64 = 65_536;

/// The attributes and the bytes that a call brings.
#[derive(Clone, Copy, Debug, PartialEq, Eq, Drop)]
pub struct GivenData {
    pub attributes: u32,
    /// How many bytes there are.
    pub size: u64,
    /// Where they stand.
    pub buffer: u64,
}

/// The attributes and the bytes that a call brings.
fn given_of(registers: &[u64; 32]) -> GivenData
    ensures { result ≡ given_of registers.now }
{
    GivenData {
        attributes: low_word(argument(2, registers)),
        size: argument(3, registers),
        buffer: argument(4, registers),
    }
}

/// Sets a variable to bytes that are seen.
#[tactic(auto, using(crate::proofs::SetLemmas::set_made))]
fn set_loaded(
    alloc: Global,
    view: &View,
    memory: &GuestMemory,
    variables: &mut Variables,
    gone: bool,
    name: &[u16],
    vendor: &Guid,
    given: GivenData,
) -> Result<u64, AllocError>
    requires test { can_read_buffer (see view.now) memory.now given.buffer given.size ≡ true }
    requires seen { all_pass (is_seen (see view.now) memory.now) given.buffer given.size ≡ true }
    ensures ok { IfOk result (λ status. record { status = status; variables = variables.new } ≡ set_given (see view.now) memory.now variables.old gone name.now vendor.now given) }
    ensures err { OnErr result (variables.new ≡ variables.old) }
{
    let bytes = load_bytes(alloc, memory, view, given.buffer, given.size)?;
    match variables.set(name, vendor, given.attributes, bytes.as_slice(), gone) {
        Ok(()) => Ok(EfiStatus::SUCCESS.0),
        Err(VarRefusal::Memory) => Err(AllocError),
        Err(VarRefusal::Invalid) => Ok(EfiStatus::INVALID_PARAMETER.0),
        Err(VarRefusal::Unsupported) => Ok(EfiStatus::UNSUPPORTED.0),
        Err(VarRefusal::NotFound) => Ok(EfiStatus::NOT_FOUND.0),
        Err(VarRefusal::WriteProtected) => Ok(EfiStatus::WRITE_PROTECTED.0),
        Err(VarRefusal::Full) => Ok(EfiStatus::OUT_OF_RESOURCES.0),
    }
}

/// Sets a variable to bytes that are more than one can have, or not all seen: a refusal of the set itself comes first.
fn set_unread(
    alloc: Global,
    view: &View,
    memory: &GuestMemory,
    variables: &mut Variables,
    gone: bool,
    name: &[u16],
    vendor: &Guid,
    given: GivenData,
) -> Result<u64, AllocError>
    ensures ok { IfOk result (λ status. record { status = status; variables = variables.new } ≡ set_given (see view.now) memory.now variables.old gone name.now vendor.now given) }
    ensures err { OnErr result (variables.new ≡ variables.old) }
{
    match variables.refusal(name, vendor, given.attributes, given.size, gone) {
        Some(refusal) => Ok(variable_status(refusal)),
        None => {
            if can_read_buffer(memory, view, given.buffer, given.size) {
                set_loaded(alloc, view, memory, variables, gone, name, vendor, given)
            } else {
                Ok(EfiStatus::INVALID_PARAMETER.0)
            }
        }
    }
}

/// Sets a variable. The variables are asked once, with the bytes, unless these are too many or not all seen.
fn set_given(
    alloc: Global,
    view: &View,
    memory: &GuestMemory,
    variables: &mut Variables,
    gone: bool,
    name: &[u16],
    vendor: &Guid,
    given: GivenData,
) -> Result<u64, AllocError>
    ensures ok { IfOk result (λ status. record { status = status; variables = variables.new } ≡ set_given (see view.now) memory.now variables.old gone name.now vendor.now given) }
    ensures err { OnErr result (variables.new ≡ variables.old) }
{
    if given.size <= MOST_BYTES && can_read_buffer(memory, view, given.buffer, given.size) {
        return set_loaded(alloc, view, memory, variables, gone, name, vendor, given);
    }
    set_unread(alloc, view, memory, variables, gone, name, vendor, given)
}

/// SetVariable (name, vendor, attributes, size, data): sets a variable of a vendor to bytes, or with append puts bytes
/// behind its own, or removes it. For the refusals and their order see docs/variables.md. `Err` is want of host memory;
/// then the variables are as before.
#[tactic(auto, unfolding(crate::specs::SetVariable::set_variable))]
pub(crate) fn set_variable(
    alloc: Global,
    registers: &[u64; 32],
    view: &View,
    memory: &GuestMemory,
    variables: &mut Variables,
    gone: bool,
) -> Result<u64, AllocError>
    ensures ok { IfOk result (λ status. record { status = status; variables = variables.new } ≡ set_variable registers.now (see view.now) memory.now variables.old gone) }
    ensures err { OnErr result (variables.new ≡ variables.old) }
{
    let guid = argument(1, registers);
    let name = match read_string(alloc, memory, view, argument(0, registers), false)? {
        Some(name) => name,
        None => return Ok(EfiStatus::INVALID_PARAMETER.0),
    };
    if !can_read(memory, view, guid, 16) {
        return Ok(EfiStatus::INVALID_PARAMETER.0);
    }
    let vendor = guid_seen(alloc, memory, view, guid)?;
    let given = given_of(registers);
    set_given(
        alloc,
        view,
        memory,
        variables,
        gone,
        name.as_slice(),
        &vendor,
        given,
    )
}

//! OpenProtocol and CloseProtocol (UEFI 2.10, sections 7.3.9 and 7.3.10).
#![tactic(auto)]

ghost use Rattle.std.specs.Prelude.{◌≡◌, ◌≢◌, ◌==◌, ◌||◌, not, IfOk, IsTrue, true, false, if◌then◌else◌};
ghost use Rattle.address_view.specs.Windows.{see};
ghost use Rattle.address_view.specs.Seen.{all_pass, is_seen};
ghost use Rattle.address_view.specs.Stored.{lacks_seen};
ghost use Rattle.guest_call.specs.Outputs.{optional};
ghost use Rattle.protocol_db.specs.Calls.{protocol_opening};
ghost use Rattle.protocol_db.specs.Registrations.{Protocols as State};
ghost use Rattle.protocol_db.specs.declared.refusal.ProtocolRefusal.TheVariants.{Memory};
ghost use Rattle.protocol_services.specs.Opening.{is_test, tells_none, not_opened, opened, answer_without, may_open, request_of, open_protocol, close_protocol};

use crate::output::invalid;
use crate::status::{refuse, refuse_surely};
use address_view::View;
use guest_call::{
    argument, can_read, can_write_optional, guid_seen, lacks_output, low_word, optional, put_output,
};
use guest_memory::GuestMemory;
use protocol_db::{OpenRequest, ProtocolRefusal, Protocols};
use service_answer::{Served, gives, lacks_frames};
use std::alloc::{AllocError, Global};
use uh_base::EfiStatus;

/// The attributes TEST_PROTOCOL.
const TEST_PROTOCOL: u32 = 4;

/// Whether a refusal tells that there is no interface.
fn tells_none(request: &OpenRequest, refusal: ProtocolRefusal) -> bool
    ensures { result ≡ tells_none request.now refusal }
{
    match refusal {
        ProtocolRefusal::Unsupported => request.attributes != TEST_PROTOCOL,
        _ => false,
    }
}

/// What an open comes to whose output lacks frames. The protocols stay.
#[tactic(auto, using(crate::proofs::RefusalLemmas::refused))]
fn refuse_lacking(
    alloc: Global,
    protocols: &Protocols,
    request: &OpenRequest,
) -> Result<Served, AllocError>
    ensures { IfOk result (λ answer. answer ≡ answer_without request.now (protocol_opening protocols.now request.now)) }
{
    let mut copy = protocols.copy()?;
    match copy.open_protocol(request) {
        Ok(_) => Ok(lacks_frames(alloc)),
        Err(refusal) => {
            if tells_none(request, refusal) {
                return Ok(lacks_frames(alloc));
            }
            refuse(alloc, refusal)
        }
    }
}

/// Refuses an open, and writes 0 where that tells that there is no interface.
fn refuse_open(
    alloc: Global,
    memory: &mut GuestMemory,
    view: &View,
    at: u64,
    request: &OpenRequest,
    refusal: ProtocolRefusal,
) -> Result<Served, AllocError>
    requires seen { all_pass (is_seen (see view.now) memory.old) at (optional at 8) ≡ true }
    requires frames { lacks_seen (see view.now) memory.old at (optional at 8) ≡ false }
    requires some { (is_test request.now.attributes || not (at == 0)) ≡ true }
    ensures other { IfOk result (λ answer. refusal ≢ Memory) }
    ensures ok { (p : State) → IfOk result (λ answer. record { answer = answer; memory = memory.new; protocols = p } ≡ not_opened (see view.now) memory.old p at request.now refusal) }
    ensures base { memory.new.base ≡ memory.old.base }
    ensures pages { memory.new.pages ≡ memory.old.pages }
{
    if tells_none(request, refusal) {
        put_output(memory, view, at, 8, 0)?;
        return refuse(alloc, refusal);
    }
    refuse(alloc, refusal)
}

/// Opens a protocol, and writes its interface.
fn open_at(
    alloc: Global,
    memory: &mut GuestMemory,
    view: &View,
    at: u64,
    request: &OpenRequest,
    protocols: &mut Protocols,
) -> Result<Served, AllocError>
    requires seen { all_pass (is_seen (see view.now) memory.old) at (optional at 8) ≡ true }
    requires some { (is_test request.now.attributes || not (at == 0)) ≡ true }
    ensures ok { IfOk result (λ answer. record { answer = answer; memory = memory.new; protocols = protocols.new } ≡ opened (see view.now) memory.old protocols.old at request.now (protocol_opening protocols.old request.now)) }
    ensures base { memory.new.base ≡ memory.old.base }
    ensures pages { memory.new.pages ≡ memory.old.pages }
{
    let width = optional(at, 8);
    if lacks_output(memory, view, at, width) {
        return refuse_lacking(alloc, protocols, request);
    }
    match protocols.open_protocol(request) {
        Ok(interface) => {
            put_output(memory, view, at, width, interface)?;
            Ok(gives(alloc, EfiStatus::SUCCESS.0))
        }
        Err(refusal) => refuse_open(alloc, memory, view, at, request, refusal),
    }
}

/// Whether the pointers of a call serve. Only a test may leave its output out.
fn may_open(memory: &GuestMemory, view: &View, guid_at: u64, at: u64, attributes: u32) -> bool
    ensures test { result ≡ may_open (see view.now) memory.now guid_at at attributes }
    ensures guid { IsTrue result → all_pass (is_seen (see view.now) memory.now) guid_at 16 ≡ true }
    ensures seen { IsTrue result → all_pass (is_seen (see view.now) memory.now) at (optional at 8) ≡ true }
    ensures some { IsTrue result → (is_test attributes || not (at == 0)) ≡ true }
{
    can_read(memory, view, guid_at, 16)
        && can_write_optional(memory, view, at, 8)
        && (attributes == TEST_PROTOCOL || at != 0)
}

/// OpenProtocol (handle, GUID, interface, agent, controller, attributes): writes the interface of a protocol, and notes
/// who opened it. Where the handle hasn't the protocol, 0 is written, unless that was only asked. `Err` is want of host
/// memory.
#[tactic(auto, unfolding(crate::specs::Opening::open_protocol))]
pub fn open_protocol(
    alloc: Global,
    registers: &[u64; 32],
    view: &View,
    memory: &mut GuestMemory,
    protocols: &mut Protocols,
) -> Result<Served, AllocError>
    ensures ok { IfOk result (λ answer. record { answer = answer; memory = memory.new; protocols = protocols.new } ≡ open_protocol registers.now (see view.now) memory.old protocols.old) }
    ensures base { memory.new.base ≡ memory.old.base }
    ensures pages { memory.new.pages ≡ memory.old.pages }
{
    let guid_at = argument(1, registers);
    let at = argument(2, registers);
    let attributes = low_word(argument(5, registers));
    if !may_open(memory, view, guid_at, at, attributes) {
        return Ok(invalid(alloc));
    }
    let request = OpenRequest {
        handle: argument(0, registers),
        guid: guid_seen(alloc, memory, view, guid_at)?,
        agent: argument(3, registers),
        controller: argument(4, registers),
        attributes,
    };
    open_at(alloc, memory, view, at, &request, protocols)
}

/// CloseProtocol (handle, GUID, agent, controller): takes the entries of an agent for a controller away. `Err` is want of
/// host memory.
#[tactic(auto, unfolding(crate::specs::Opening::close_protocol))]
pub fn close_protocol(
    alloc: Global,
    registers: &[u64; 32],
    view: &View,
    memory: &GuestMemory,
    protocols: &mut Protocols,
) -> Result<Served, AllocError>
    ensures { IfOk result (λ answer. record { answer = answer; memory = memory.now; protocols = protocols.new } ≡ close_protocol registers.now (see view.now) memory.now protocols.old) }
{
    let handle = argument(0, registers);
    let guid_at = argument(1, registers);
    let agent = argument(2, registers);
    let controller = argument(3, registers);
    if !can_read(memory, view, guid_at, 16) {
        return Ok(invalid(alloc));
    }
    let guid = guid_seen(alloc, memory, view, guid_at)?;
    match protocols.close_protocol(handle, &guid, agent, controller) {
        Ok(()) => Ok(gives(alloc, EfiStatus::SUCCESS.0)),
        Err(refusal) => Ok(refuse_surely(alloc, refusal)),
    }
}

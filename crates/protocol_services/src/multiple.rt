//! InstallMultipleProtocolInterfaces and UninstallMultipleProtocolInterfaces (UEFI 2.10, sections 7.3.17 and 7.3.18).
#![tactic(auto)]

ghost use Rattle.std.specs.Prelude.{◌≡◌, ◌∷◌, IfOk, Some, true, length, if◌then◌else◌};
ghost use Rattle.address_view.specs.Windows.{see};
ghost use Rattle.address_view.specs.Seen.{all_pass, is_seen};
ghost use Rattle.protocol_db.specs.Calls.{installation_of_all};
ghost use Rattle.protocol_services.specs.Outputs.{refusal_for};
ghost use Rattle.protocol_services.specs.Multiple.{handle_written, all_installed, pairs_installed, install_multiple_protocol_interfaces, uninstall_multiple_protocol_interfaces};

use crate::installing::handle_asked;
use crate::output::invalid;
use crate::pairs::pairs_of;
use crate::status::refuse;
use address_view::View;
use guest_call::{argument, can_write, lacks_output, number_seen, put_output};
use guest_memory::GuestMemory;
use protocol_db::Protocols;
use service_answer::{Served, announces, gives, lacks_frames};
use std::alloc::{AllocError, Global};
use uh_base::{EfiStatus, Guid};

/// A handle as it is written, 0 for none.
fn handle_written(handle: Option<u64>) -> u64
    ensures { result ≡ handle_written handle }
{
    handle.unwrap_or(0)
}

/// What an install of pairs comes to whose output lacks frames. The protocols stay.
#[tactic(auto, using(crate::proofs::RefusalLemmas::refused))]
fn refuse_install(
    alloc: Global,
    protocols: &Protocols,
    handle: Option<u64>,
    pairs: &[(Guid, u64)],
) -> Result<Served, AllocError>
    ensures { IfOk result (λ answer. answer ≡ refusal_for (installation_of_all protocols.now handle pairs.now)) }
{
    let mut copy = protocols.copy()?;
    match copy.install_all(handle, pairs) {
        Ok(_) => Ok(lacks_frames(alloc)),
        Err(refusal) => refuse(alloc, refusal),
    }
}

/// Installs pairs, and writes their handle.
#[tactic(auto, using(crate::proofs::RefusalLemmas::refused))]
fn install_at(
    alloc: Global,
    memory: &mut GuestMemory,
    view: &View,
    at: u64,
    handle: Option<u64>,
    pairs: &[(Guid, u64)],
    protocols: &mut Protocols,
) -> Result<Served, AllocError>
    requires seen { all_pass (is_seen (see view.now) memory.old) at 8 ≡ true }
    ensures ok { IfOk result (λ answer. record { answer = answer; memory = memory.new; protocols = protocols.new } ≡ all_installed (see view.now) memory.old protocols.old at (installation_of_all protocols.old handle pairs.now)) }
    ensures base { memory.new.base ≡ memory.old.base }
    ensures pages { memory.new.pages ≡ memory.old.pages }
{
    if lacks_output(memory, view, at, 8) {
        return refuse_install(alloc, protocols, handle, pairs);
    }
    match protocols.install_all(handle, pairs) {
        Ok(installed) => {
            put_output(memory, view, at, 8, handle_written(installed.handle))?;
            Ok(announces(EfiStatus::SUCCESS.0, installed.events))
        }
        Err(refused) => refuse(alloc, refused),
    }
}

/// Installs pairs, if there is one.
fn install_pairs(
    alloc: Global,
    memory: &mut GuestMemory,
    view: &View,
    at: u64,
    pairs: &[(Guid, u64)],
    protocols: &mut Protocols,
) -> Result<Served, AllocError>
    requires seen { all_pass (is_seen (see view.now) memory.old) at 8 ≡ true }
    ensures ok { IfOk result (λ answer. record { answer = answer; memory = memory.new; protocols = protocols.new } ≡ pairs_installed (see view.now) memory.old protocols.old at (Some pairs.now)) }
    ensures base { memory.new.base ≡ memory.old.base }
    ensures pages { memory.new.pages ≡ memory.old.pages }
{
    if pairs.is_empty() {
        return Ok(gives(alloc, EfiStatus::SUCCESS.0));
    }
    let handle = handle_asked(number_seen(memory, view, at, 8));
    install_at(alloc, memory, view, at, handle, pairs, protocols)
}

/// InstallMultipleProtocolInterfaces (handle, pairs of a GUID and an interface, 0): installs all of them on one handle, or
/// on a new one where the handle is 0, and writes the handle; or none of them. Without a pair nothing is done. `Err` is
/// want of host memory.
#[tactic(auto, unfolding(crate::specs::Multiple::install_multiple_protocol_interfaces))]
pub fn install_multiple_protocol_interfaces(
    alloc: Global,
    registers: &[u64; 32],
    view: &View,
    memory: &mut GuestMemory,
    protocols: &mut Protocols,
) -> Result<Served, AllocError>
    ensures ok { IfOk result (λ answer. record { answer = answer; memory = memory.new; protocols = protocols.new } ≡ install_multiple_protocol_interfaces registers.now (see view.now) memory.old protocols.old) }
    ensures base { memory.new.base ≡ memory.old.base }
    ensures pages { memory.new.pages ≡ memory.old.pages }
{
    let at = argument(0, registers);
    if !can_write(memory, view, at, 8) {
        return Ok(invalid(alloc));
    }
    match pairs_of(alloc, registers, memory, view)? {
        None => Ok(invalid(alloc)),
        Some(pairs) => install_pairs(alloc, memory, view, at, pairs.as_slice(), protocols),
    }
}

/// UninstallMultipleProtocolInterfaces (handle, pairs of a GUID and an interface, 0): takes all of them away, or none.
/// `Err` is want of host memory.
#[tactic(auto, unfolding(crate::specs::Multiple::uninstall_multiple_protocol_interfaces))]
pub fn uninstall_multiple_protocol_interfaces(
    alloc: Global,
    registers: &[u64; 32],
    view: &View,
    memory: &GuestMemory,
    protocols: &mut Protocols,
) -> Result<Served, AllocError>
    ensures { IfOk result (λ answer. record { answer = answer; memory = memory.now; protocols = protocols.new } ≡ uninstall_multiple_protocol_interfaces registers.now (see view.now) memory.now protocols.old) }
{
    match pairs_of(alloc, registers, memory, view)? {
        None => Ok(invalid(alloc)),
        Some(pairs) => match protocols.uninstall_all(argument(0, registers), pairs.as_slice()) {
            Ok(()) => Ok(gives(alloc, EfiStatus::SUCCESS.0)),
            Err(_) => Ok(invalid(alloc)),
        },
    }
}

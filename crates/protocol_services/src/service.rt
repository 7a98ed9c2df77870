//! The services on handles and protocols by their slots.
#![tactic(auto)]

ghost use Rattle.std.specs.Prelude.{◌≡◌, IfOk, true, length};
ghost use Rattle.address_view.specs.Windows.{see};
ghost use Rattle.pool_alloc.specs.Pool.{Together};
ghost use Rattle.protocol_services.specs.Services.{is_protocol_slot, service_of, served, serve_protocol};

use crate::finding::{handle_protocol, locate_protocol};
use crate::installing::{
    install_protocol_interface, reinstall_protocol_interface, uninstall_protocol_interface,
};
use crate::lists::{locate_handle_buffer, open_protocol_information, protocols_per_handle};
use crate::multiple::{
    install_multiple_protocol_interfaces, uninstall_multiple_protocol_interfaces,
};
use crate::opening::{close_protocol, open_protocol};
use crate::searching::locate_handle;
use address_view::View;
use guest_memory::GuestMemory;
use page_alloc::PageMap;
use pool_alloc::Pool;
use protocol_db::Protocols;
use rv_step::Regs;
use service_answer::Served;
use std::alloc::{AllocError, Global};

/// A service on handles and protocols (UEFI 2.10, section 7.3).
#[derive(Clone, Copy, Debug, PartialEq, Eq, Drop)]
pub enum ProtocolService {
    InstallProtocolInterface,
    ReinstallProtocolInterface,
    UninstallProtocolInterface,
    HandleProtocol,
    LocateHandle,
    OpenProtocol,
    CloseProtocol,
    OpenProtocolInformation,
    ProtocolsPerHandle,
    LocateHandleBuffer,
    LocateProtocol,
    InstallMultipleProtocolInterfaces,
    UninstallMultipleProtocolInterfaces,
}

/// The service of a slot.
fn service_of(slot: u8) -> ProtocolService
    requires { is_protocol_slot slot ≡ true }
    ensures { result ≡ service_of slot }
{
    match slot {
        13 => ProtocolService::InstallProtocolInterface,
        14 => ProtocolService::ReinstallProtocolInterface,
        15 => ProtocolService::UninstallProtocolInterface,
        16 => ProtocolService::HandleProtocol,
        19 => ProtocolService::LocateHandle,
        32 => ProtocolService::OpenProtocol,
        33 => ProtocolService::CloseProtocol,
        34 => ProtocolService::OpenProtocolInformation,
        35 => ProtocolService::ProtocolsPerHandle,
        36 => ProtocolService::LocateHandleBuffer,
        37 => ProtocolService::LocateProtocol,
        38 => ProtocolService::InstallMultipleProtocolInterfaces,
        _ => ProtocolService::UninstallMultipleProtocolInterfaces,
    }
}

/// Whether a slot is one of these services'.
pub fn is_protocol_slot(slot: u8) -> bool
    ensures { result ≡ is_protocol_slot slot }
{
    matches!(slot, 13..=16 | 19 | 32..=39)
}

/// Makes a service.
#[tactic(auto, unfolding(crate::specs::Services::served))]
fn serve(
    alloc: Global,
    service: ProtocolService,
    registers: &[u64; 32],
    view: &View,
    memory: &mut GuestMemory,
    pages: &mut PageMap,
    pool: &mut Pool,
    protocols: &mut Protocols,
) -> Result<Served, AllocError>
    requires base { pages.old.base ≡ memory.old.base }
    requires count { length pages.old.pages ≡ memory.old.pages }
    requires together { Together pool.old pages.old }
    ensures ok { IfOk result (λ answer. record { answer = answer; memory = memory.new; pages = pages.new; pool = pool.new; protocols = protocols.new } ≡ served service registers.now (see view.now) memory.old pages.old pool.old protocols.old) }
    ensures base { memory.new.base ≡ memory.old.base }
    ensures pages { memory.new.pages ≡ memory.old.pages }
    ensures map_base { pages.new.base ≡ pages.old.base }
    ensures map_pages { length pages.new.pages ≡ length pages.old.pages }
    ensures together { Together pool.new pages.new }
{
    match service {
        ProtocolService::InstallProtocolInterface => {
            install_protocol_interface(alloc, registers, view, memory, protocols)
        }
        ProtocolService::ReinstallProtocolInterface => {
            reinstall_protocol_interface(alloc, registers, view, memory, protocols)
        }
        ProtocolService::UninstallProtocolInterface => {
            uninstall_protocol_interface(alloc, registers, view, memory, protocols)
        }
        ProtocolService::HandleProtocol => {
            handle_protocol(alloc, registers, view, memory, protocols)
        }
        ProtocolService::LocateHandle => {
            locate_handle(alloc, registers, view, memory, protocols)
        }
        ProtocolService::OpenProtocol => {
            open_protocol(alloc, registers, view, memory, protocols)
        }
        ProtocolService::CloseProtocol => {
            close_protocol(alloc, registers, view, memory, protocols)
        }
        ProtocolService::OpenProtocolInformation => {
            open_protocol_information(alloc, registers, view, memory, pages, pool, protocols)
        }
        ProtocolService::ProtocolsPerHandle => {
            protocols_per_handle(alloc, registers, view, memory, pages, pool, protocols)
        }
        ProtocolService::LocateHandleBuffer => {
            locate_handle_buffer(alloc, registers, view, memory, pages, pool, protocols)
        }
        ProtocolService::LocateProtocol => {
            locate_protocol(alloc, registers, view, memory, protocols)
        }
        ProtocolService::InstallMultipleProtocolInterfaces => {
            install_multiple_protocol_interfaces(alloc, registers, view, memory, protocols)
        }
        ProtocolService::UninstallMultipleProtocolInterfaces => {
            uninstall_multiple_protocol_interfaces(alloc, registers, view, memory, protocols)
        }
    }
}

/// Makes a service on handles and protocols (UEFI 2.10, section 7.3), by its slot. `Err` is want of host memory; then the
/// parts are of one RAM and belong together as before.
pub fn serve_protocol(
    alloc: Global,
    slot: u8,
    regs: &Regs,
    view: &View,
    memory: &mut GuestMemory,
    pages: &mut PageMap,
    pool: &mut Pool,
    protocols: &mut Protocols,
) -> Result<Served, AllocError>
    requires slot { is_protocol_slot slot ≡ true }
    requires base { pages.old.base ≡ memory.old.base }
    requires count { length pages.old.pages ≡ memory.old.pages }
    requires together { Together pool.old pages.old }
    ensures ok { IfOk result (λ answer. record { answer = answer; memory = memory.new; pages = pages.new; pool = pool.new; protocols = protocols.new } ≡ serve_protocol slot regs.now.x (see view.now) memory.old pages.old pool.old protocols.old) }
    ensures base { memory.new.base ≡ memory.old.base }
    ensures pages { memory.new.pages ≡ memory.old.pages }
    ensures map_base { pages.new.base ≡ pages.old.base }
    ensures map_pages { length pages.new.pages ≡ length pages.old.pages }
    ensures together { Together pool.new pages.new }
{
    let service = service_of(slot);
    serve(
        alloc, service, &regs.x, view, memory, pages, pool, protocols,
    )
}

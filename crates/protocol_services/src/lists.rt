//! OpenProtocolInformation, ProtocolsPerHandle and LocateHandleBuffer (UEFI 2.10, sections 7.3.11, 7.3.14 and 7.3.15).
#![tactic(auto)]

ghost use Rattle.std.specs.Prelude.{◌≡◌, ◌+◌, ◌*◌, ◌<◌, ◌^◌, ◌++◌, IfOk, OnOk, true, length, Some};
ghost use Rattle.std.specs.Int.{w64, to_le_bytes};
ghost use Rattle.std.specs.List.{flat_map};
ghost use Rattle.uh_base.specs.Guid.{bytes_of};
ghost use Rattle.address_view.specs.Windows.{see};
ghost use Rattle.address_view.specs.Seen.{all_pass, is_seen};
ghost use Rattle.pool_alloc.specs.Pool.{Together};
ghost use Rattle.protocol_services.specs.Lists.{entry_bytes, entries_bytes, guid_addresses, guid_list, open_protocol_information, protocols_per_handle, locate_handle_buffer, found_given, buffer_taken};

use crate::block::{block_address, give_list};
use crate::output::invalid;
use crate::outputs::ListOutputs;
use crate::searching::{handles_found, is_made, take_found, words};
use crate::status::refuse;
use address_view::View;
use guest_call::{argument, can_read, can_read_optional, can_write, guid_seen, low_word};
use guest_memory::GuestMemory;
use page_alloc::PageMap;
use pool_alloc::Pool;
use protocol_db::{OpenEntry, Protocols};
use service_answer::{Served, gives};
use std::alloc::{AllocError, Global};
use uh_base::{EfiStatus, Guid};

/// Puts an entry behind bytes: agent and controller of eight bytes each, attributes and count of four each.
fn push_entry(bytes: &mut Vec<u8>, entry: &OpenEntry) -> Result<(), AllocError>
    ensures { OnOk result (bytes.new.items ≡ bytes.old.items ++ entry_bytes entry.now) }
{
    bytes.extend_from_slice(&entry.agent.to_le_bytes())?;
    bytes.extend_from_slice(&entry.controller.to_le_bytes())?;
    bytes.extend_from_slice(&entry.attributes.to_le_bytes())?;
    bytes.extend_from_slice(&entry.count.to_le_bytes())?;
    Ok(())
}

/// Entries as bytes, 24 each.
#[tactic(auto, unfolding(crate::specs::Lists::entries_bytes))]
fn entries_bytes(alloc: Global, entries: &[OpenEntry]) -> Result<Vec<u8>, AllocError>
    ensures { IfOk result (λ bytes. bytes.items ≡ entries_bytes entries.now) }
{
    let mut bytes = Vec::new(alloc);
    for entry in entries {
        push_entry(&mut bytes, entry)?;
    }
    Ok(bytes)
}

/// The addresses of so many GUIDs, from one on.
fn guid_addresses(alloc: Global, first: u64, count: usize) -> Result<Vec<u64>, AllocError>
    ensures { IfOk result (λ addresses. addresses.items ≡ guid_addresses first count) }
{
    let mut addresses = Vec::new(alloc);
    let mut here = first;
    let mut left = count;
    while left > 0 {
        addresses.push(here)?;
        here = here.wrapping_add(16);
        left -= 1;
    }
    Ok(addresses)
}

/// Puts GUIDs behind bytes, sixteen bytes each.
fn push_guids(bytes: &mut Vec<u8>, guids: &[Guid]) -> Result<(), AllocError>
    ensures { OnOk result (bytes.new.items ≡ bytes.old.items ++ flat_map bytes_of guids.now) }
{
    for guid in guids {
        bytes.extend_from_slice(&guid.to_bytes())?;
    }
    Ok(())
}

/// Pointers to GUIDs, and behind them the GUIDs, in a block at an address.
#[tactic(auto, unfolding(crate::specs::Lists::guid_list))]
fn guid_list(alloc: Global, guids: &[Guid], at: u64) -> Result<Vec<u8>, AllocError>
    ensures { IfOk result (λ bytes. bytes.items ≡ guid_list guids.now at) }
{
    let first = at.wrapping_add(8 * guids.len() as u64);
    let addresses = guid_addresses(alloc, first, guids.len())?;
    let mut bytes = words(alloc, addresses.as_slice())?;
    push_guids(&mut bytes, guids)?;
    Ok(bytes)
}

/// OpenProtocolInformation (handle, GUID, entries, count): gives a block with the entries of a protocol's opens. `Err` is
/// want of host memory.
#[tactic(auto, unfolding(crate::specs::Lists::open_protocol_information), using(crate::proofs::RefusalLemmas::asked_refused))]
pub fn open_protocol_information(
    alloc: Global,
    registers: &[u64; 32],
    view: &View,
    memory: &mut GuestMemory,
    pages: &mut PageMap,
    pool: &mut Pool,
    protocols: &Protocols,
) -> Result<Served, AllocError>
    requires base { pages.old.base ≡ memory.old.base }
    requires count { length pages.old.pages ≡ memory.old.pages }
    requires together { Together pool.old pages.old }
    ensures ok { IfOk result (λ answer. record { answer = answer; memory = memory.new; pages = pages.new; pool = pool.new } ≡ open_protocol_information registers.now (see view.now) memory.old pages.old pool.old protocols.now) }
    ensures base { memory.new.base ≡ memory.old.base }
    ensures pages { memory.new.pages ≡ memory.old.pages }
    ensures map_base { pages.new.base ≡ pages.old.base }
    ensures map_pages { length pages.new.pages ≡ length pages.old.pages }
    ensures together { Together pool.new pages.new }
{
    let handle = argument(0, registers);
    let guid_at = argument(1, registers);
    let outputs = ListOutputs {
        first: argument(2, registers),
        second: argument(3, registers),
        count_first: false,
    };
    if !can_read(memory, view, guid_at, 16)
        || !can_write(memory, view, outputs.first, 8)
        || !can_write(memory, view, outputs.second, 8)
    {
        return Ok(invalid(alloc));
    }
    let guid = guid_seen(alloc, memory, view, guid_at)?;
    match protocols.information(handle, &guid) {
        Ok(opens) => {
            let bytes = entries_bytes(alloc, opens.as_slice())?;
            let count = opens.len() as u64;
            give_list(
                alloc,
                view,
                memory,
                pages,
                pool,
                outputs,
                bytes.as_slice(),
                count,
            )
        }
        Err(refusal) => refuse(alloc, refusal),
    }
}

/// ProtocolsPerHandle (handle, pointers, count): gives a block with pointers to the GUIDs of a handle's protocols, and with
/// the GUIDs. `Err` is want of host memory.
#[tactic(auto, unfolding(crate::specs::Lists::protocols_per_handle))]
pub fn protocols_per_handle(
    alloc: Global,
    registers: &[u64; 32],
    view: &View,
    memory: &mut GuestMemory,
    pages: &mut PageMap,
    pool: &mut Pool,
    protocols: &Protocols,
) -> Result<Served, AllocError>
    requires base { pages.old.base ≡ memory.old.base }
    requires count { length pages.old.pages ≡ memory.old.pages }
    requires together { Together pool.old pages.old }
    ensures ok { IfOk result (λ answer. record { answer = answer; memory = memory.new; pages = pages.new; pool = pool.new } ≡ protocols_per_handle registers.now (see view.now) memory.old pages.old pool.old protocols.now) }
    ensures base { memory.new.base ≡ memory.old.base }
    ensures pages { memory.new.pages ≡ memory.old.pages }
    ensures map_base { pages.new.base ≡ pages.old.base }
    ensures map_pages { length pages.new.pages ≡ length pages.old.pages }
    ensures together { Together pool.new pages.new }
{
    let handle = argument(0, registers);
    let outputs = ListOutputs {
        first: argument(1, registers),
        second: argument(2, registers),
        count_first: false,
    };
    if !can_write(memory, view, outputs.first, 8)
        || !can_write(memory, view, outputs.second, 8)
        || !protocols.handles().is_handle(handle)
    {
        return Ok(invalid(alloc));
    }
    let guids = protocols.handles().guids_of(handle)?;
    let count = guids.len() as u64;
    let block = block_address(pages, pool, 24 * count);
    let bytes = guid_list(alloc, guids.as_slice(), block)?;
    give_list(
        alloc,
        view,
        memory,
        pages,
        pool,
        outputs,
        bytes.as_slice(),
        count,
    )
}

/// Gives a block with the handles of a search.
fn give_found(
    alloc: Global,
    view: &View,
    memory: &mut GuestMemory,
    pages: &mut PageMap,
    pool: &mut Pool,
    outputs: ListOutputs,
    handles: &[u64],
) -> Result<Served, AllocError>
    requires base { pages.old.base ≡ memory.old.base }
    requires count { length pages.old.pages ≡ memory.old.pages }
    requires together { Together pool.old pages.old }
    requires first { all_pass (is_seen (see view.now) memory.old) outputs.first 8 ≡ true }
    requires second { all_pass (is_seen (see view.now) memory.old) outputs.second 8 ≡ true }
    ensures ok { IfOk result (λ answer. record { answer = answer; memory = memory.new; pages = pages.new; pool = pool.new } ≡ found_given (see view.now) memory.old pages.old pool.old outputs (Some handles.now)) }
    ensures base { memory.new.base ≡ memory.old.base }
    ensures pages { memory.new.pages ≡ memory.old.pages }
    ensures map_base { pages.new.base ≡ pages.old.base }
    ensures map_pages { length pages.new.pages ≡ length pages.old.pages }
    ensures together { Together pool.new pages.new }
{
    if handles.is_empty() {
        return Ok(gives(alloc, EfiStatus::NOT_FOUND.0));
    }
    let bytes = words(alloc, handles)?;
    let count = handles.len() as u64;
    give_list(
        alloc,
        view,
        memory,
        pages,
        pool,
        outputs,
        bytes.as_slice(),
        count,
    )
}

/// LocateHandleBuffer (kind of search, GUID, registration, count, handles): gives a block with the handles that a search
/// finds. `Err` is want of host memory.
#[tactic(auto, unfolding(crate::specs::Lists::locate_handle_buffer))]
pub fn locate_handle_buffer(
    alloc: Global,
    registers: &[u64; 32],
    view: &View,
    memory: &mut GuestMemory,
    pages: &mut PageMap,
    pool: &mut Pool,
    protocols: &mut Protocols,
) -> Result<Served, AllocError>
    requires base { pages.old.base ≡ memory.old.base }
    requires count { length pages.old.pages ≡ memory.old.pages }
    requires together { Together pool.old pages.old }
    ensures ok { IfOk result (λ answer. record { answer = answer; memory = memory.new; pages = pages.new; pool = pool.new } ≡ locate_handle_buffer registers.now (see view.now) memory.old pages.old pool.old protocols.old) }
    ensures taken { IfOk result (λ answer. protocols.new ≡ buffer_taken registers.now protocols.old answer) }
    ensures base { memory.new.base ≡ memory.old.base }
    ensures pages { memory.new.pages ≡ memory.old.pages }
    ensures map_base { pages.new.base ≡ pages.old.base }
    ensures map_pages { length pages.new.pages ≡ length pages.old.pages }
    ensures together { Together pool.new pages.new }
{
    let kind = low_word(argument(0, registers));
    let guid_at = argument(1, registers);
    let key = argument(2, registers);
    let outputs = ListOutputs {
        first: argument(3, registers),
        second: argument(4, registers),
        count_first: true,
    };
    if !can_read_optional(memory, view, guid_at, 16)
        || !can_write(memory, view, outputs.first, 8)
        || !can_write(memory, view, outputs.second, 8)
    {
        return Ok(invalid(alloc));
    }
    match handles_found(alloc, memory, view, protocols, kind, guid_at, key)? {
        None => Ok(invalid(alloc)),
        Some(handles) => {
            let handles = handles.as_slice();
            let served = give_found(alloc, view, memory, pages, pool, outputs, handles)?;
            if is_made(&served) {
                take_found(protocols, kind, key);
            }
            Ok(served)
        }
    }
}

//! GetMemoryMap (UEFI 2.10, section 7.2.3).
#![tactic(auto)]

ghost use Rattle.std.specs.Prelude.{◌≡◌, ◌++◌, IfOk, IfErr, OnOk, OnErr, IsTrue, true, false, length, [], ◌∷◌, if◌then◌else◌};
ghost use Rattle.memory_map.specs.Map.{map_of};
ghost use Rattle.memory_map.specs.Bytes.{all_bytes, bytes_of};
ghost use Rattle.address_view.specs.Windows.{see};
ghost use Rattle.address_view.specs.Seen.{all_pass, is_seen};
ghost use Rattle.address_view.specs.Stored.{lacks_seen, stored};
ghost use Rattle.guest_call.specs.Outputs.{optional};
ghost use Rattle.memory_services.specs.MapService.{outputs_of, are_outputs, sizes_written, size_told, map_told, get_memory_map, each_written, version_written};

use address_view::{ByteRange, View, lacks_after, put_bytes, ranges_suffice, stores_follow};
use guest_call::{
    Answer, argument, can_write, can_write_buffer, can_write_optional, number_seen, optional,
    put_output,
};
use guest_memory::{GuestMemory, PutEnd};
use memory_map::{DESCRIPTOR_SIZE, Descriptor, MapCursor, write_map};
use page_alloc::PageMap;
use std::alloc::AllocError;
use uh_base::EfiStatus;

/// The addresses that a call brings.
#[derive(Clone, Copy, Debug, PartialEq, Eq, Drop)]
pub struct MapOutputs {
    /// Where the size of the buffer stands, and the size of the map is written.
    pub size: u64,
    /// The buffer.
    pub buffer: u64,
    /// Where the key is written, 0 for nowhere.
    pub key: u64,
    /// Where the size of a descriptor is written, 0 for nowhere.
    pub descriptor_size: u64,
    /// Where the version of the descriptors is written, 0 for nowhere.
    pub version: u64,
}

/// The addresses that a call brings.
fn outputs_of(registers: &[u64; 32]) -> MapOutputs
    ensures { result ≡ outputs_of registers.now }
{
    MapOutputs {
        size: argument(0, registers),
        buffer: argument(1, registers),
        key: argument(2, registers),
        descriptor_size: argument(3, registers),
        version: argument(4, registers),
    }
}

/// Whether each output but the buffer may be written.
#[tactic(auto, unfolding(crate::specs::MapService::are_outputs))]
fn are_outputs(memory: &GuestMemory, view: &View, outputs: MapOutputs) -> bool
    ensures test { result ≡ are_outputs (see view.now) memory.now outputs }
    ensures seen_size { IsTrue result → all_pass (is_seen (see view.now) memory.now) outputs.size 8 ≡ true }
    ensures seen_key { IsTrue result → all_pass (is_seen (see view.now) memory.now) outputs.key (optional outputs.key 8) ≡ true }
    ensures seen_descriptor_size { IsTrue result → all_pass (is_seen (see view.now) memory.now) outputs.descriptor_size (optional outputs.descriptor_size 8) ≡ true }
    ensures seen_version { IsTrue result → all_pass (is_seen (see view.now) memory.now) outputs.version (optional outputs.version 4) ≡ true }
{
    can_write(memory, view, outputs.size, 8)
        && can_write_optional(memory, view, outputs.key, 8)
        && can_write_optional(memory, view, outputs.descriptor_size, 8)
        && can_write_optional(memory, view, outputs.version, 4)
}

/// How many bytes the memory map has.
#[tactic(auto, using(crate::proofs::MapLemmas::counted))]
fn map_size(pages: &PageMap) -> u64
    ensures { result ≡ length (all_bytes (map_of pages.now)) }
{
    pages.whole();
    let mut cursor = MapCursor::new(pages);
    let mut size = 0;
    while let Some(descriptor) = cursor.next() {
        let _ = descriptor;
        size += DESCRIPTOR_SIZE as u64;
    }
    size
}

/// So many bytes of an output that is left out where its address is 0.
fn optional_range(at: u64, len: u8) -> ByteRange
    ensures { result ≡ record { at = at; len = optional at len } }
{
    ByteRange {
        at,
        len: u64::from(optional(at, len)),
    }
}

/// Writes the size and the version of a descriptor and the size of the map, where there are frames for them.
fn write_sizes(
    memory: &mut GuestMemory,
    view: &View,
    outputs: MapOutputs,
    size: u64,
) -> Result<(), AllocError>
    requires seen_size { all_pass (is_seen (see view.now) memory.old) outputs.size 8 ≡ true }
    requires seen_descriptor_size { all_pass (is_seen (see view.now) memory.old) outputs.descriptor_size (optional outputs.descriptor_size 8) ≡ true }
    requires seen_version { all_pass (is_seen (see view.now) memory.old) outputs.version (optional outputs.version 4) ≡ true }
    requires frames { lacks_seen (see view.now) memory.old outputs.descriptor_size (optional outputs.descriptor_size 8) ≡ false }
    requires frames_behind { lacks_seen (see view.now) (each_written (see view.now) memory.old outputs) outputs.version (optional outputs.version 4) ≡ false }
    requires frames_last { lacks_seen (see view.now) (version_written (see view.now) memory.old outputs) outputs.size 8 ≡ false }
    ensures ok { OnOk result (memory.new ≡ sizes_written (see view.now) memory.old outputs size) }
    ensures base { memory.new.base ≡ memory.old.base }
    ensures pages { memory.new.pages ≡ memory.old.pages }
{
    let each = optional(outputs.descriptor_size, 8);
    put_output(
        memory,
        view,
        outputs.descriptor_size,
        each,
        DESCRIPTOR_SIZE as u64,
    )?;
    let version = optional(outputs.version, 4);
    put_output(memory, view, outputs.version, version, 1)?;
    put_output(memory, view, outputs.size, 8, size)
}

/// Tells the size that the buffer would need.
#[tactic(auto, using(crate::proofs::MapLemmas::first_fits, crate::proofs::MapLemmas::version_fits, crate::proofs::MapLemmas::size_fits))]
fn tell_size(
    memory: &mut GuestMemory,
    view: &View,
    outputs: MapOutputs,
    size: u64,
) -> Result<Answer, AllocError>
    requires seen_size { all_pass (is_seen (see view.now) memory.old) outputs.size 8 ≡ true }
    requires seen_descriptor_size { all_pass (is_seen (see view.now) memory.old) outputs.descriptor_size (optional outputs.descriptor_size 8) ≡ true }
    requires seen_version { all_pass (is_seen (see view.now) memory.old) outputs.version (optional outputs.version 4) ≡ true }
    ensures ok { IfOk result (λ answer. record { answer = answer; memory = memory.new } ≡ size_told (see view.now) memory.old outputs size) }
    ensures base { memory.new.base ≡ memory.old.base }
    ensures pages { memory.new.pages ≡ memory.old.pages }
{
    ranges_suffice();
    let descriptor_size = optional_range(outputs.descriptor_size, 8);
    let version = optional_range(outputs.version, 4);
    let told = ByteRange {
        at: outputs.size,
        len: 8,
    };
    if lacks_after(memory, view, &[descriptor_size, version, told]) {
        return Ok(Answer::LacksFrames);
    }
    write_sizes(memory, view, outputs, size)?;
    Ok(Answer::Gives(EfiStatus::BUFFER_TOO_SMALL.0))
}

/// Writes a descriptor where each byte shows memory and frames suffice.
fn write_descriptor(
    memory: &mut GuestMemory,
    view: &View,
    at: u64,
    descriptor: Descriptor,
) -> Result<(), AllocError>
    requires seen { all_pass (is_seen (see view.now) memory.old) at (length (bytes_of descriptor)) ≡ true }
    requires frames { lacks_seen (see view.now) memory.old at (length (bytes_of descriptor)) ≡ false }
    ensures ok { OnOk result (memory.new ≡ stored (see view.now) memory.old at (bytes_of descriptor)) }
    ensures base { memory.new.base ≡ memory.old.base }
    ensures pages { memory.new.pages ≡ memory.old.pages }
{
    let bytes = descriptor_bytes(descriptor);
    match put_bytes(memory, view, at, &bytes) {
        Ok(()) => Ok(()),
        Err(PutEnd::Memory) => Err(AllocError),
        Err(PutEnd::Frames) => unreachable!(),
        Err(PutEnd::Outside) => unreachable!(),
    }
}

/// The bytes of a descriptor.
#[tactic(auto, using(crate::proofs::MapLemmas::one_descriptor))]
fn descriptor_bytes(descriptor: Descriptor) -> [u8; DESCRIPTOR_SIZE]
    ensures { result ≡ bytes_of descriptor }
{
    let mut bytes = [0; DESCRIPTOR_SIZE];
    match write_map(&[descriptor], &mut bytes) {
        Ok(_) => bytes,
        Err(_) => unreachable!(),
    }
}

/// Writes the descriptors of the memory map where each byte shows memory and frames suffice.
#[tactic(auto, using(crate::proofs::MapLemmas::listing_over))]
fn write_list(
    memory: &mut GuestMemory,
    view: &View,
    at: u64,
    pages: &PageMap,
) -> Result<(), AllocError>
    requires seen { all_pass (is_seen (see view.now) memory.old) at (length (all_bytes (map_of pages.now))) ≡ true }
    requires frames { lacks_seen (see view.now) memory.old at (length (all_bytes (map_of pages.now))) ≡ false }
    ensures ok { OnOk result (memory.new ≡ stored (see view.now) memory.old at (all_bytes (map_of pages.now))) }
    ensures base { memory.new.base ≡ memory.old.base }
    ensures pages { memory.new.pages ≡ memory.old.pages }
{
    stores_follow();
    let mut cursor = MapCursor::new(pages);
    let mut here = at;
    while let Some(descriptor) = cursor.next() {
        write_descriptor(memory, view, here, descriptor)?;
        here = here.wrapping_add(DESCRIPTOR_SIZE as u64);
    }
    Ok(())
}

/// Tells the map, and its key.
#[tactic(auto, using(crate::proofs::MapLemmas::first_fits, crate::proofs::MapLemmas::version_fits, crate::proofs::MapLemmas::size_fits, crate::proofs::MapLemmas::list_fits, crate::proofs::MapLemmas::key_fits))]
fn tell_map(
    memory: &mut GuestMemory,
    view: &View,
    outputs: MapOutputs,
    pages: &PageMap,
    size: u64,
) -> Result<Answer, AllocError>
    requires size { size ≡ length (all_bytes (map_of pages.now)) }
    requires seen_size { all_pass (is_seen (see view.now) memory.old) outputs.size 8 ≡ true }
    requires seen_key { all_pass (is_seen (see view.now) memory.old) outputs.key (optional outputs.key 8) ≡ true }
    requires seen_descriptor_size { all_pass (is_seen (see view.now) memory.old) outputs.descriptor_size (optional outputs.descriptor_size 8) ≡ true }
    requires seen_version { all_pass (is_seen (see view.now) memory.old) outputs.version (optional outputs.version 4) ≡ true }
    requires buffer { all_pass (is_seen (see view.now) memory.old) outputs.buffer (length (all_bytes (map_of pages.now))) ≡ true }
    ensures ok { IfOk result (λ answer. record { answer = answer; memory = memory.new } ≡ map_told (see view.now) memory.old outputs (all_bytes (map_of pages.now)) pages.now.key) }
    ensures base { memory.new.base ≡ memory.old.base }
    ensures pages { memory.new.pages ≡ memory.old.pages }
{
    ranges_suffice();
    let descriptor_size = optional_range(outputs.descriptor_size, 8);
    let version = optional_range(outputs.version, 4);
    let told = ByteRange {
        at: outputs.size,
        len: 8,
    };
    let buffer = ByteRange {
        at: outputs.buffer,
        len: size,
    };
    let key_range = optional_range(outputs.key, 8);
    if lacks_after(
        memory,
        view,
        &[descriptor_size, version, told, buffer, key_range],
    ) {
        return Ok(Answer::LacksFrames);
    }
    write_sizes(memory, view, outputs, size)?;
    write_list(memory, view, outputs.buffer, pages)?;
    put_output(
        memory,
        view,
        outputs.key,
        optional(outputs.key, 8),
        pages.key(),
    )?;
    Ok(Answer::Gives(EfiStatus::SUCCESS.0))
}

/// GetMemoryMap (size, buffer, key, size of a descriptor, version): tells the memory map and its key, or, where the
/// buffer is too small, how long it has to be. `Err` is want of host memory.
#[tactic(auto, unfolding(crate::specs::MapService::get_memory_map), using(crate::proofs::MapLemmas::seen_before))]
pub fn get_memory_map(
    registers: &[u64; 32],
    view: &View,
    memory: &mut GuestMemory,
    pages: &PageMap,
) -> Result<Answer, AllocError>
    ensures ok { IfOk result (λ answer. record { answer = answer; memory = memory.new } ≡ get_memory_map registers.now (see view.now) memory.old pages.now) }
    ensures base { memory.new.base ≡ memory.old.base }
    ensures pages { memory.new.pages ≡ memory.old.pages }
{
    let outputs = outputs_of(registers);
    if !are_outputs(memory, view, outputs) {
        return Ok(Answer::Gives(EfiStatus::INVALID_PARAMETER.0));
    }
    let room = number_seen(memory, view, outputs.size, 8);
    let size = map_size(pages);
    if room < size {
        return tell_size(memory, view, outputs, size);
    }
    if !can_write_buffer(memory, view, outputs.buffer, room) {
        return Ok(Answer::Gives(EfiStatus::INVALID_PARAMETER.0));
    }
    tell_map(memory, view, outputs, pages, size)
}

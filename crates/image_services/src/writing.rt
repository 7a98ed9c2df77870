//! The memory of an image that is loaded.
ghost use Rattle.std.specs.Prelude.{◌≡◌, ◌≤◌, ◌+◌, ◌*◌, ◌/◌, ◌%◌, true, None, Ok, IfOk, OnOk, OnErr, length};
ghost use Rattle.uh_base.specs.Limits.{frame_limit};
ghost use Rattle.guest_memory.specs.Lists.{count_true, filled};
ghost use Rattle.guest_memory.specs.Pages.{InPage, page_of, is_touched};
ghost use Rattle.guest_memory.specs.Changes.{TouchedBesides, put_part, reserved, written_pages};
ghost use Rattle.pe_image.specs.ImageOf.{fields_of};
ghost use Rattle.pe_image.specs.Placed.{in_pages};
ghost use Rattle.pe_image.specs.Sound.{IsImage};
ghost use Rattle.protocol_db.specs.Calls.{installation};
ghost use Rattle.image_services.specs.Blocks.{block_size, loaded_image_protocol};
ghost use Rattle.image_services.specs.Placing.{page_count};
ghost use Rattle.image_services.specs.Loads.{touched_for, with_new_page, loaded_memory};
ghost use Rattle.image_services.specs.Views.{AreWithin, Within, InstallsNext, place_by};

use crate::claiming::Claim;
use crate::installing::install_block;
use crate::rights::{ALL, set_image_rights};
use crate::unload::page_index;
use guest_memory::{GuestMemory, PutEnd};
use page_alloc::Layout;
use pe_image::Image;
use pool_alloc::PageSpan;
use protocol_db::{Installed, Protocols};
use std::alloc::AllocError;

/// Touches so many pages from a page on, where there are frames for them.
fn touch(memory: &mut GuestMemory, first: u32, count: u32) -> Result<(), AllocError>
    requires inside { first + count ≤ memory.old.pages }
    requires frames { count_true (reserved memory.old first count).touched ≤ frame_limit }
    ensures ok { OnOk result (memory.new ≡ reserved memory.old first count) }
    ensures besides { TouchedBesides memory.old memory.new }
    ensures base { memory.new.base ≡ memory.old.base }
    ensures pages { memory.new.pages ≡ memory.old.pages }
{
    memory.whole();
    match memory.reserve(first, count) {
        Ok(()) => Ok(()),
        Err(PutEnd::Memory) => Err(AllocError),
        Err(PutEnd::Frames) => unreachable!(),
        Err(PutEnd::Outside) => unreachable!(),
    }
}

/// Touches a block's page and an image's.
fn touch_both(
    memory: &mut GuestMemory,
    block: u32,
    first: u32,
    count: u32,
) -> Result<(), AllocError>
    requires block { block + 1 ≤ memory.old.pages }
    requires image { first + count ≤ memory.old.pages }
    requires frames { count_true (reserved (reserved memory.old block 1) first count).touched ≤ frame_limit }
    ensures ok { OnOk result (memory.new ≡ reserved (reserved memory.old block 1) first count) }
    ensures besides { TouchedBesides memory.old memory.new }
    ensures base { memory.new.base ≡ memory.old.base }
    ensures pages { memory.new.pages ≡ memory.old.pages }
{
    memory.whole();
    touch(memory, block, 1)?;
    touch(memory, first, count)
}

/// Makes a page that was taken for a block zeros, with all rights.
fn open_page(layout: &Layout, memory: &mut GuestMemory, taken: Option<PageSpan>)
    requires base { memory.old.base ≡ layout.now.base }
    requires inside { AreWithin memory.old.base memory.old.pages taken }
    ensures gives { memory.new ≡ with_new_page memory.old taken }
    ensures base { memory.new.base ≡ memory.old.base }
    ensures pages { memory.new.pages ≡ memory.old.pages }
    ensures touched { memory.new.touched ≡ memory.old.touched }
{
    memory.whole();
    match taken {
        Some(span) => {
            let first = page_index(layout, memory, span.start);
            memory.zero(span.start, 4096 * span.count);
            memory.set_rights(first, span.count as u32, ALL);
        }
        None => {}
    }
}

/// Writes the bytes of an image over its pages, which are touched.
fn write_bytes(memory: &mut GuestMemory, first: u32, bytes: &[u8])
    requires whole { length bytes.now % 4096 ≡ 0 }
    requires inside { 4096 * first + length bytes.now ≤ 4096 * memory.old.pages }
    requires touched { filled memory.old.touched first (length bytes.now / 4096) true ≡ memory.old.touched }
    ensures gives { memory.new ≡ written_pages memory.old first bytes.now }
    ensures base { memory.new.base ≡ memory.old.base }
    ensures pages { memory.new.pages ≡ memory.old.pages }
    ensures same { memory.new.touched ≡ memory.old.touched }
{
    memory.whole();
    match memory.write_pages(first, bytes) {
        Ok(()) => {}
        Err(_) => unreachable!(),
    }
}

/// Puts bytes into a page that is touched.
#[tactic(auto, using(crate::proofs::MarkLemmas::set_again))]
fn put_bytes(memory: &mut GuestMemory, at: u64, bytes: &[u8])
    requires inside { InPage memory.old at (length bytes.now) }
    requires some { 1 ≤ length bytes.now }
    requires touched { is_touched memory.old (page_of memory.old at) ≡ true }
    ensures gives { memory.new ≡ put_part memory.old at bytes.now }
    ensures base { memory.new.base ≡ memory.old.base }
    ensures pages { memory.new.pages ≡ memory.old.pages }
    ensures same { memory.new.touched ≡ memory.old.touched }
{
    match memory.put_part(at, bytes) {
        Ok(()) => {}
        Err(_) => unreachable!(),
    }
}

/// Writes an image and its block where they lie, gives the image's pages their rights, and installs its protocol. There are
/// frames for all pages, and there is a new handle. After want of memory at most more pages are touched.
#[tactic(auto, unfolding(crate::specs::Loads::loaded_memory))]
pub(crate) fn write_loaded(
    layout: &Layout,
    memory: &mut GuestMemory,
    claim: &Claim,
    image: &Image,
    bytes: &[u8],
    block: &[u8],
    protocols: &mut Protocols,
    handle: u64,
) -> Result<Installed, AllocError>
    requires base { memory.old.base ≡ layout.now.base }
    requires within { Within memory.old.base memory.old.pages (place_by claim.now) (page_count (fields_of image.now)) }
    requires image { IsImage (fields_of image.now) }
    requires bytes { length bytes.now ≡ in_pages image.now.size }
    requires block { length block.now ≡ block_size }
    requires frames { count_true (touched_for memory.old (place_by claim.now) (fields_of image.now)).touched ≤ frame_limit }
    requires next { InstallsNext handle (installation protocols.old None loaded_image_protocol claim.now.block) protocols.old claim.now.block }
    ensures handle { IfOk result (λ installed. installed.handle ≡ handle) }
    ensures installed { IfOk result (λ installed. installation protocols.old None loaded_image_protocol claim.now.block ≡ Ok (record { answer = installed; after = protocols.new })) }
    ensures kept { OnErr result (protocols.new ≡ protocols.old) }
    ensures ok { OnOk result (memory.new ≡ loaded_memory memory.old (place_by claim.now) (fields_of image.now) bytes.now block.now) }
    ensures touched { OnOk result (memory.new.touched ≡ (touched_for memory.old (place_by claim.now) (fields_of image.now)).touched) }
    ensures err { OnErr result (TouchedBesides memory.old memory.new) }
    ensures base { memory.new.base ≡ memory.old.base }
    ensures pages { memory.new.pages ≡ memory.old.pages }
{
    memory.whole();
    let first = page_index(layout, memory, claim.base);
    let count = (image.size + 4095) / 4096;
    let page = page_index(layout, memory, claim.block);
    touch_both(memory, page, first, count)?;
    let installed = install_block(protocols, handle, claim.block)?;
    open_page(layout, memory, claim.new);
    write_bytes(memory, first, bytes);
    set_image_rights(memory, first, image);
    put_bytes(memory, claim.block, block);
    Ok(installed)
}

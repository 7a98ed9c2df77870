//! Loading images (UEFI 2.10, 7.4).
ghost use Rattle.std.specs.Prelude.{◌≡◌, ◌≤◌, ◌<◌, ◌+◌, ◌-◌, ◌*◌, ◌%◌, ◌^◌, false, All, None, Ok, IfOk, OnOk, OnErr, length};
ghost use Rattle.uh_base.specs.Limits.{frame_limit};
ghost use Rattle.guest_memory.specs.Lists.{count_true};
ghost use Rattle.guest_memory.specs.Changes.{TouchedBesides};
ghost use Rattle.pool_alloc.specs.Pool.{Together};
ghost use Rattle.pe_image.specs.ImageOf.{fields_of};
ghost use Rattle.pe_image.specs.Placed.{in_pages};
ghost use Rattle.pe_image.specs.Sound.{IsImage};
ghost use Rattle.base_reloc.specs.Sites.{AreSites};
ghost use Rattle.virtual_map.specs.States.{AreOneRam};
ghost use Rattle.protocol_db.specs.Calls.{installation};
ghost use Rattle.image_services.specs.Blocks.{loaded_image_protocol, block_bytes as fields_bytes};
ghost use Rattle.image_services.specs.Placing.{displacement, page_count};
ghost use Rattle.image_services.specs.Stores.{Store};
ghost use Rattle.image_services.specs.Loads.{lacks_also, lacks_frames, loaded_memory, load_counting, load_of, loaded_file, stored, touched_for};
ghost use Rattle.image_services.specs.Views.{LoadGives, Within, InstallsNext, place_by, file_image};

use crate::block::block_bytes;
use crate::claiming::{Claim, claim_pages};
use crate::images::{Images, Loaded};
use crate::installing::next_handle;
use crate::marks::lacks_frames;
use crate::reading::{FileImage, move_sites, read_file, words_of};
use crate::refusal::LoadRefusal;
use crate::unload::page_index;
use crate::writing::write_loaded;
use base_reloc::Site;
use guest_memory::GuestMemory;
use page_alloc::{Layout, PageMap};
use pe_image::Image;
use pool_alloc::Pool;
use protocol_db::{Installed, Protocols};
use std::alloc::{AllocError, Global};

/// The displacement of what moves from one address to another, modulo 2^64.
fn displacement(from: u64, to: u64) -> u64
    requires from { from % 4096 ≡ 0 }
    requires to { to % 4096 ≡ 0 }
    ensures value { result ≡ displacement from to }
    ensures even { result % 4096 ≡ 0 }
{
    to.wrapping_sub(from)
}

/// Whether more than 65,536 pages would be touched once an image is loaded, and some pages besides.
fn lacks_room(
    alloc: Global,
    layout: &Layout,
    memory: &GuestMemory,
    claim: &Claim,
    image: &Image,
    also: &[u32],
) -> Result<bool, AllocError>
    requires base { memory.now.base ≡ layout.now.base }
    requires within { Within memory.now.base memory.now.pages (place_by claim.now) (page_count (fields_of image.now)) }
    requires image { IsImage (fields_of image.now) }
    requires also { All (λ page. page < memory.now.pages) also.now }
    ensures value { IfOk result (λ lacks. lacks ≡ lacks_frames memory.now (place_by claim.now) (fields_of image.now) also.now) }
    ensures alone { IfOk result (λ lacks. lacks ≡ false → count_true (touched_for memory.now (place_by claim.now) (fields_of image.now)).touched ≤ frame_limit) }
{
    memory.whole();
    let page = page_index(layout, memory, claim.block);
    let first = page_index(layout, memory, claim.base);
    lacks_frames(alloc, memory, page, first, (image.size + 4095) / 4096, also)
}

/// An image as it stands in the list, with its handle, its sites and their words.
fn loaded(claim: &Claim, image: &Image, sites: Vec<Site>, words: Vec<u64>, handle: u64) -> Loaded
    requires image { IsImage (fields_of image.now) }
    requires base { claim.now.base ≤ 2 ^ 47 }
    ensures { result ≡ record { handle = handle; base = claim.now.base; pages = page_count (fields_of image.now); subsystem = image.now.subsystem; entry = claim.now.base + image.now.entry; block = claim.now.block; started = false; sites = sites.items; words = words.items } }
{
    Loaded {
        handle,
        base: claim.base,
        pages: (image.size + 4095) / 4096,
        subsystem: image.subsystem,
        entry: claim.base + u64::from(image.entry),
        block: claim.block,
        started: false,
        sites,
        words,
    }
}

/// Writes an image and its block where they lie, and installs its protocol. There are frames for all their pages, and there
/// is a new handle.
fn write_with_block(
    alloc: Global,
    layout: &Layout,
    memory: &mut GuestMemory,
    claim: &Claim,
    image: &Image,
    bytes: &[u8],
    parent: u64,
    protocols: &mut Protocols,
    handle: u64,
) -> Result<Installed, AllocError>
    requires base { memory.old.base ≡ layout.now.base }
    requires within { Within memory.old.base memory.old.pages (place_by claim.now) (page_count (fields_of image.now)) }
    requires image { IsImage (fields_of image.now) }
    requires bytes { length bytes.now ≡ in_pages image.now.size }
    requires frames { count_true (touched_for memory.old (place_by claim.now) (fields_of image.now)).touched ≤ frame_limit }
    requires next { InstallsNext handle (installation protocols.old None loaded_image_protocol claim.now.block) protocols.old claim.now.block }
    ensures handle { IfOk result (λ installed. installed.handle ≡ handle) }
    ensures installed { IfOk result (λ installed. installation protocols.old None loaded_image_protocol claim.now.block ≡ Ok (record { answer = installed; after = protocols.new })) }
    ensures kept { OnErr result (protocols.new ≡ protocols.old) }
    ensures ok { OnOk result (memory.new ≡ loaded_memory memory.old (place_by claim.now) (fields_of image.now) bytes.now (fields_bytes parent layout.now.system claim.now.base image.now.size image.now.subsystem)) }
    ensures touched { OnOk result (memory.new.touched ≡ (touched_for memory.old (place_by claim.now) (fields_of image.now)).touched) }
    ensures err { OnErr result (TouchedBesides memory.old memory.new) }
    ensures base { memory.new.base ≡ memory.old.base }
    ensures pages { memory.new.pages ≡ memory.old.pages }
{
    let block = block_bytes(
        alloc,
        parent,
        layout.system,
        claim.base,
        image.size,
        image.subsystem,
    )?;
    write_loaded(
        layout,
        memory,
        claim,
        image,
        bytes,
        block.as_slice(),
        protocols,
        handle,
    )
}

/// Stores an image at the place that was found for it.
#[tactic(auto, unfolding(crate::specs::Loads::stored))]
fn store(
    alloc: Global,
    images: &mut Images,
    layout: &Layout,
    memory: &mut GuestMemory,
    pages: &mut PageMap,
    pool: &mut Pool,
    protocols: &mut Protocols,
    image: &Image,
    bytes: &[u8],
    sites: Vec<Site>,
    claim: Claim,
    parent: u64,
    also: &[u32],
) -> Result<Installed, LoadRefusal>
    requires room { length images.old < 16 }
    requires ram { AreOneRam layout.now memory.old pages.old }
    requires together { Together pool.old pages.old }
    requires image { IsImage (fields_of image.now) }
    requires bytes { length bytes.now ≡ in_pages image.now.size }
    requires sites { AreSites (length bytes.now) sites.items }
    requires within { Within memory.old.base memory.old.pages (place_by claim) (page_count (fields_of image.now)) }
    requires base { claim.pages.base ≡ pages.old.base }
    requires count { length claim.pages.pages ≡ length pages.old.pages }
    requires claimed { Together claim.pool claim.pages }
    requires also { All (λ page. page < memory.old.pages) also.now }
    ensures gives { LoadGives result (stored layout.now (record { images = images.old; memory = memory.old; pages = pages.old; pool = pool.old; protocols = protocols.old }) parent also.now (fields_of image.now) (place_by claim) bytes.now sites.items) (record { images = images.old; memory = memory.old; pages = pages.old; pool = pool.old; protocols = protocols.old }) (record { images = images.new; memory = memory.new; pages = pages.new; pool = pool.new; protocols = protocols.new }) }
    ensures ram { AreOneRam layout.now memory.new pages.new }
    ensures together { Together pool.new pages.new }
    ensures counted { IfOk result (λ installed. lacks_also memory.new also.now ≡ false) }
{
    memory.whole();
    let Some(handle) = next_handle(protocols, claim.block) else {
        return Err(LoadRefusal::Full);
    };
    if lacks_room(alloc, layout, memory, &claim, image, also)? {
        return Err(LoadRefusal::Frames);
    }
    let words = words_of(alloc, bytes, sites.as_slice())?;
    images.add(loaded(&claim, image, sites, words, handle))?;
    match write_with_block(
        alloc, layout, memory, &claim, image, bytes, parent, protocols, handle,
    ) {
        Ok(installed) => {
            *pages = claim.pages;
            *pool = claim.pool;
            Ok(installed)
        }
        Err(stop) => {
            images.drop_last();
            Err(LoadRefusal::from(stop))
        }
    }
}

/// Finds a place for the image of a file, moves it there and stores it.
#[tactic(auto, unfolding(crate::specs::Loads::loaded_file))]
fn load_file(
    alloc: Global,
    images: &mut Images,
    layout: &Layout,
    memory: &mut GuestMemory,
    pages: &mut PageMap,
    pool: &mut Pool,
    protocols: &mut Protocols,
    file: FileImage,
    parent: u64,
    also: &[u32],
) -> Result<Installed, LoadRefusal>
    requires room { length images.old < 16 }
    requires ram { AreOneRam layout.now memory.old pages.old }
    requires together { Together pool.old pages.old }
    requires image { IsImage (fields_of file.image) }
    requires bytes { length file.bytes.items ≡ in_pages file.image.size }
    requires sites { AreSites (length file.bytes.items) file.sites.items }
    requires also { All (λ page. page < memory.old.pages) also.now }
    ensures gives { LoadGives result (loaded_file layout.now (record { images = images.old; memory = memory.old; pages = pages.old; pool = pool.old; protocols = protocols.old }) parent also.now (file_image file)) (record { images = images.old; memory = memory.old; pages = pages.old; pool = pool.old; protocols = protocols.old }) (record { images = images.new; memory = memory.new; pages = pages.new; pool = pool.new; protocols = protocols.new }) }
    ensures ram { AreOneRam layout.now memory.new pages.new }
    ensures together { Together pool.new pages.new }
    ensures counted { IfOk result (λ installed. lacks_also memory.new also.now ≡ false) }
{
    let FileImage {
        image,
        mut bytes,
        sites,
    } = file;
    let claim = claim_pages(pages, pool, &image)?;
    let by = displacement(image.image_base, claim.base);
    move_sites(bytes.as_mut_slice(), sites.as_slice(), by)?;
    store(
        alloc,
        images,
        layout,
        memory,
        pages,
        pool,
        protocols,
        &image,
        bytes.as_slice(),
        sites,
        claim,
        parent,
        also,
    )
}

/// Loads the image of a file of at most 4 MiB for a parent, which is a handle or 0. The image is moved to its pages, whose
/// rights are those of its sections. Its block holds an EFI_LOADED_IMAGE_PROTOCOL (UEFI 2.10, 9.1), and that protocol is
/// installed on a new handle, which is the image's; the answer has this handle and the events that are to be signalled.
/// After a refusal all is as it was, but that after want of memory more pages may be touched.
pub fn load_image(
    alloc: Global,
    images: &mut Images,
    layout: &Layout,
    memory: &mut GuestMemory,
    pages: &mut PageMap,
    pool: &mut Pool,
    protocols: &mut Protocols,
    bytes: &[u8],
    parent: u64,
) -> Result<Installed, LoadRefusal>
    requires ram { AreOneRam layout.now memory.old pages.old }
    requires together { Together pool.old pages.old }
    requires file { length bytes.now ≤ 0x400000 }
    ensures gives { LoadGives result (load_of layout.now (record { images = images.old; memory = memory.old; pages = pages.old; pool = pool.old; protocols = protocols.old }) bytes.now parent) (record { images = images.old; memory = memory.old; pages = pages.old; pool = pool.old; protocols = protocols.old }) (record { images = images.new; memory = memory.new; pages = pages.new; pool = pool.new; protocols = protocols.new }) }
    ensures ram { AreOneRam layout.now memory.new pages.new }
    ensures together { Together pool.new pages.new }
{
    load_image_counting(
        alloc,
        images,
        layout,
        memory,
        pages,
        pool,
        protocols,
        bytes,
        parent,
        &[],
    )
}

/// Loads an image as `load_image` does, where some pages are going to be touched besides, as those of an output. They are
/// given by their numbers from the base of RAM, and are counted with the load's own: `Frames` comes exactly where more than
/// 65,536 pages would be touched in all. They aren't touched here.
#[tactic(auto, unfolding(crate::specs::Loads::load_counting))]
pub fn load_image_counting(
    alloc: Global,
    images: &mut Images,
    layout: &Layout,
    memory: &mut GuestMemory,
    pages: &mut PageMap,
    pool: &mut Pool,
    protocols: &mut Protocols,
    bytes: &[u8],
    parent: u64,
    also: &[u32],
) -> Result<Installed, LoadRefusal>
    requires ram { AreOneRam layout.now memory.old pages.old }
    requires together { Together pool.old pages.old }
    requires file { length bytes.now ≤ 0x400000 }
    requires also { All (λ page. page < memory.old.pages) also.now }
    ensures gives { LoadGives result (load_counting layout.now (record { images = images.old; memory = memory.old; pages = pages.old; pool = pool.old; protocols = protocols.old }) bytes.now parent also.now) (record { images = images.old; memory = memory.old; pages = pages.old; pool = pool.old; protocols = protocols.old }) (record { images = images.new; memory = memory.new; pages = pages.new; pool = pool.new; protocols = protocols.new }) }
    ensures counted { IfOk result (λ installed. lacks_also memory.new also.now ≡ false) }
    ensures ram { AreOneRam layout.now memory.new pages.new }
    ensures together { Together pool.new pages.new }
{
    if !images.has_room() {
        return Err(LoadRefusal::TooMany);
    }
    let file = read_file(alloc, bytes)?;
    load_file(
        alloc, images, layout, memory, pages, pool, protocols, file, parent, also,
    )
}

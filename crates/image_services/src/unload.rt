//! Unloading images (UEFI 2.10, 7.4).
ghost use Rattle.std.specs.Prelude.{◌≡◌, ◌≤◌, ◌+◌, ◌-◌, ◌*◌, ◌/◌, List, length};
ghost use Rattle.guest_memory.specs.Pages.{page_of};
ghost use Rattle.page_alloc.specs.Calls.{freeing, after_freeing};
ghost use Rattle.page_alloc.specs.declared.page.Owner.TheVariants as owners;
ghost use Rattle.pool_alloc.specs.Pool.{BlockPage, IsPool, Together};
ghost use Rattle.virtual_map.specs.States.{AreOneRam};
ghost use Rattle.image_services.specs.Stores.{Space, Store};
ghost use Rattle.image_services.specs.Unloads.{block_cleared, without_block, pages_cleared, without_pages, discarded, unloaded, ClearedInRam};
ghost use Rattle.image_services.specs.Views.{UnloadGives};

use crate::images::Images;
use crate::installing::discard_protocol;
use crate::refusal::UnloadRefusal;
use guest_memory::GuestMemory;
use page_alloc::{Layout, Owner, PageMap};
use pool_alloc::{PageSpan, Pool, pool_stays_together};
use protocol_db::Protocols;

/// The page of an address in RAM, counted from its base.
pub(crate) fn page_index(layout: &Layout, memory: &GuestMemory, at: u64) -> u32
    requires base { memory.now.base ≡ layout.now.base }
    requires low { memory.now.base ≤ at }
    requires high { at ≤ memory.now.base + 4096 * memory.now.pages }
    ensures { result ≡ page_of memory.now at }
{
    memory.whole();
    ((at - layout.base) / 4096) as u32
}

/// Clears the page that goes back with a block, or else the block's bytes.
fn clear_block(
    layout: &Layout,
    memory: &mut GuestMemory,
    span: Option<PageSpan>,
    at: u64,
    size: u64,
)
    requires base { memory.old.base ≡ layout.now.base }
    requires inside { ClearedInRam span memory.old at size }
    ensures gives { memory.new ≡ block_cleared memory.old span at size }
    ensures base { memory.new.base ≡ memory.old.base }
    ensures pages { memory.new.pages ≡ memory.old.pages }
{
    memory.whole();
    match span {
        Some(span) => {
            let first = page_index(layout, memory, span.start);
            memory.clear(first, span.count as u32);
        }
        None => memory.zero(at, size),
    }
}

/// Frees the block at an address, where one begins there.
#[tactic(auto, unfolding(crate::specs::Unloads::without_block))]
fn free_block(
    layout: &Layout,
    memory: &mut GuestMemory,
    pages: &mut PageMap,
    pool: &mut Pool,
    at: u64,
)
    requires ram { AreOneRam layout.now memory.old pages.old }
    requires together { Together pool.old pages.old }
    ensures gives { record { memory = memory.new; pages = pages.new; pool = pool.new } ≡ without_block (record { memory = memory.old; pages = pages.old; pool = pool.old }) at }
    ensures ram { AreOneRam layout.now memory.new pages.new }
    ensures together { Together pool.new pages.new }
{
    pages.whole();
    pool.whole();
    let span = pool.pages_freed(at);
    match pool.free(pages, at) {
        Ok(size) => clear_block(layout, memory, span, at, size),
        Err(_) => {}
    }
}

/// Frees pages of an image and clears them, where they are images'. None of them is the pool's.
fn free_pages(layout: &Layout, memory: &mut GuestMemory, pages: &mut PageMap, at: u64, count: u32)
    requires ram { AreOneRam layout.now memory.old pages.old }
    ensures memory { memory.new ≡ pages_cleared memory.old at count (freeing pages.old owners.Image at count) }
    ensures map { pages.new ≡ after_freeing (freeing pages.old owners.Image at count) pages.old at count }
    ensures ram { AreOneRam layout.now memory.new pages.new }
    ensures together { (pool : List BlockPage) → IsPool pool → Together pool pages.old → Together pool pages.new }
{
    pages.whole();
    pool_stays_together();
    match pages.free(Owner::Image, at, u64::from(count)) {
        Ok(()) => {
            let first = page_index(layout, memory, at);
            memory.clear(first, count);
        }
        Err(_) => {}
    }
}

/// Takes the image of a handle out of memory, whether or not it was started: its handle loses the loaded image protocol, its
/// block is freed and its pages are, which are zeros then, with all rights and untouched. What of it isn't the pool's or an
/// image's any more is left alone. An unknown handle changes nothing.
#[tactic(auto, unfolding(crate::specs::Unloads::discarded, crate::specs::Unloads::without_pages))]
pub fn discard_image(
    images: &mut Images,
    layout: &Layout,
    memory: &mut GuestMemory,
    pages: &mut PageMap,
    pool: &mut Pool,
    protocols: &mut Protocols,
    handle: u64,
)
    requires ram { AreOneRam layout.now memory.old pages.old }
    requires together { Together pool.old pages.old }
    ensures gives { record { images = images.new; memory = memory.new; pages = pages.new; pool = pool.new; protocols = protocols.new } ≡ discarded (record { images = images.old; memory = memory.old; pages = pages.old; pool = pool.old; protocols = protocols.old }) handle }
    ensures ram { AreOneRam layout.now memory.new pages.new }
    ensures together { Together pool.new pages.new }
{
    let Some(image) = images.find(handle) else {
        return;
    };
    let (handle, block) = (image.handle, image.block);
    let (base, count) = (image.base, image.pages);
    images.remove(handle);
    discard_protocol(protocols, handle);
    free_block(layout, memory, pages, pool, block);
    pool.whole();
    free_pages(layout, memory, pages, base, count);
}

/// Unloads the image of a handle: it is discarded, unless it was started.
#[tactic(auto, unfolding(crate::specs::Unloads::unloaded))]
pub fn unload_image(
    images: &mut Images,
    layout: &Layout,
    memory: &mut GuestMemory,
    pages: &mut PageMap,
    pool: &mut Pool,
    protocols: &mut Protocols,
    handle: u64,
) -> Result<(), UnloadRefusal>
    requires ram { AreOneRam layout.now memory.old pages.old }
    requires together { Together pool.old pages.old }
    ensures gives { UnloadGives result (unloaded (record { images = images.old; memory = memory.old; pages = pages.old; pool = pool.old; protocols = protocols.old }) handle) (record { images = images.old; memory = memory.old; pages = pages.old; pool = pool.old; protocols = protocols.old }) (record { images = images.new; memory = memory.new; pages = pages.new; pool = pool.new; protocols = protocols.new }) }
    ensures ram { AreOneRam layout.now memory.new pages.new }
    ensures together { Together pool.new pages.new }
{
    let Some(image) = images.find(handle) else {
        return Err(UnloadRefusal::Unknown);
    };
    let handle = image.handle;
    if image.started {
        return Err(UnloadRefusal::Started);
    }
    discard_image(images, layout, memory, pages, pool, protocols, handle);
    Ok(())
}

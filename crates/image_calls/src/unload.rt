//! UnloadImage (UEFI 2.10, section 7.4.3).
#![tactic(auto)]

ghost use Rattle.std.specs.Prelude.{◌≡◌};
ghost use Rattle.pool_alloc.specs.Pool.{Together};
ghost use Rattle.virtual_map.specs.States.{AreOneRam};
ghost use Rattle.image_calls.specs.Loading.{unload_image};

use guest_call::argument;
use guest_memory::GuestMemory;
use image_services::{Images, UnloadRefusal, unload_image};
use page_alloc::{Layout, PageMap};
use pool_alloc::Pool;
use protocol_db::Protocols;
use uh_base::EfiStatus;

/// UnloadImage (image): takes an image that wasn't started out of memory, and answers the status.
#[tactic(auto, unfolding(crate::specs::Loading::unload_image))]
pub fn unload_image_of(
    registers: &[u64; 32],
    layout: &Layout,
    memory: &mut GuestMemory,
    pages: &mut PageMap,
    pool: &mut Pool,
    protocols: &mut Protocols,
    images: &mut Images,
) -> u64
    requires ram { AreOneRam layout.now memory.old pages.old }
    requires together { Together pool.old pages.old }
    ensures gives { record { status = result; after = record { images = images.new; memory = memory.new; pages = pages.new; pool = pool.new; protocols = protocols.new } } ≡ unload_image registers.now (record { images = images.old; memory = memory.old; pages = pages.old; pool = pool.old; protocols = protocols.old }) }
    ensures ram { AreOneRam layout.now memory.new pages.new }
    ensures together { Together pool.new pages.new }
{
    let handle = argument(0, registers);
    match unload_image(images, layout, memory, pages, pool, protocols, handle) {
        Ok(()) => EfiStatus::SUCCESS.0,
        Err(UnloadRefusal::Unknown) => EfiStatus::INVALID_PARAMETER.0,
        Err(UnloadRefusal::Started) => EfiStatus::UNSUPPORTED.0,
    }
}

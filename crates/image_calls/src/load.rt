//! LoadImage (UEFI 2.10, section 7.4.1).
#![tactic(auto)]

ghost use Rattle.std.specs.Prelude.{◌≡◌, ◌≤◌, IfOk, OnOk, OnErr, IfNone, None, true, false, length};
ghost use Rattle.uh_base.specs.Bytes.{first_refused};
ghost use Rattle.pool_alloc.specs.Pool.{Together};
ghost use Rattle.virtual_map.specs.States.{AreOneRam};
ghost use Rattle.address_view.specs.Windows.{see};
ghost use Rattle.address_view.specs.Seen.{all_pass, is_seen};
ghost use Rattle.guest_call.specs.Arguments.{argument};
ghost use Rattle.image_services.specs.Loads.{load_counting};
ghost use Rattle.image_calls.specs.Loading.{is_image, refused, pages_shown, loaded_to, load_image, most_bytes};

use crate::answer::{gives, lacks_frames};
use crate::shown::pages_shown;
use address_view::{View, load_bytes};
use guest_call::{argument, can_read_buffer, can_write, put_output};
use guest_memory::GuestMemory;
use image_services::{Images, LoadRefusal, load_image_counting};
use page_alloc::{Layout, PageMap};
use pool_alloc::Pool;
use protocol_db::Protocols;
use service_answer::Served;
use std::alloc::{AllocError, Global};
use uh_base::EfiStatus;

/// The most bytes that a file may have: 4 MiB.
const MOST_BYTES: u64 = 0x40_0000;

/// Why a call is refused before its file is read, if it is.
#[tactic(auto, unfolding(crate::specs::Loading::refused))]
fn refusal(
    registers: &[u64; 32],
    view: &View,
    memory: &GuestMemory,
    images: &Images,
) -> Option<EfiStatus>
    ensures status { result ≡ refused registers.now (see view.now) memory.now images.now }
    ensures output { IfNone result (all_pass (is_seen (see view.now) memory.now) (argument 5 registers.now) 8 ≡ true) }
    ensures file { IfNone result (all_pass (is_seen (see view.now) memory.now) (argument 3 registers.now) (argument 4 registers.now) ≡ true) }
    ensures few { IfNone result (argument 4 registers.now ≤ most_bytes) }
{
    let path = argument(2, registers);
    let source = argument(3, registers);
    let size = argument(4, registers);
    if !can_write(memory, view, argument(5, registers), 8)
        || !is_image(images, argument(1, registers))
    {
        return Some(EfiStatus::INVALID_PARAMETER);
    }
    if source == 0 && path == 0 {
        return Some(EfiStatus::NOT_FOUND);
    }
    if source == 0 || size > MOST_BYTES {
        return Some(EfiStatus::UNSUPPORTED);
    }
    if !can_read_buffer(memory, view, source, size) {
        return Some(EfiStatus::INVALID_PARAMETER);
    }
    None
}

/// Whether a loaded image has the handle.
fn is_image(images: &Images, handle: u64) -> bool
    ensures { result ≡ is_image images.now handle }
{
    images.find(handle).is_some()
}

/// Loads the file and writes its handle. The output and the file are seen.
#[tactic(auto, using(crate::proofs::ShownLemmas::suffices))]
fn load_and_tell(
    alloc: Global,
    view: &View,
    layout: &Layout,
    memory: &mut GuestMemory,
    pages: &mut PageMap,
    pool: &mut Pool,
    protocols: &mut Protocols,
    images: &mut Images,
    file: &[u8],
    parent: u64,
    at: u64,
) -> Result<Served, AllocError>
    requires ram { AreOneRam layout.now memory.old pages.old }
    requires together { Together pool.old pages.old }
    requires file { length file.now ≤ most_bytes }
    requires seen { all_pass (is_seen (see view.now) memory.old) at 8 ≡ true }
    ensures ok { IfOk result (λ served. record { served = served; after = record { images = images.new; memory = memory.new; pages = pages.new; pool = pool.new; protocols = protocols.new } } ≡ loaded_to (see view.now) at (record { images = images.old; memory = memory.old; pages = pages.old; pool = pool.old; protocols = protocols.old }) (load_counting layout.now (record { images = images.old; memory = memory.old; pages = pages.old; pool = pool.old; protocols = protocols.old }) file.now parent (pages_shown (see view.now) memory.old.base at 8))) }
    ensures ram { AreOneRam layout.now memory.new pages.new }
    ensures together { Together pool.new pages.new }
{
    let shown = pages_shown(alloc, memory, view, at, 8)?;
    match load_image_counting(
        alloc,
        images,
        layout,
        memory,
        pages,
        pool,
        protocols,
        file,
        parent,
        shown.as_slice(),
    ) {
        Ok(installed) => {
            put_output(memory, view, at, 8, installed.handle)?;
            Ok(Served {
                value: EfiStatus::SUCCESS.0,
                frames: false,
                events: installed.events,
            })
        }
        Err(LoadRefusal::Frames) => Ok(lacks_frames(alloc)),
        Err(LoadRefusal::Memory) => Err(AllocError),
        Err(LoadRefusal::TooMany) => Ok(gives(alloc, LoadRefusal::TooMany.status().0)),
        Err(LoadRefusal::Pe(fault)) => Ok(gives(alloc, LoadRefusal::Pe(fault).status().0)),
        Err(LoadRefusal::Reloc(fault)) => Ok(gives(alloc, LoadRefusal::Reloc(fault).status().0)),
        Err(LoadRefusal::Placed) => Ok(gives(alloc, LoadRefusal::Placed.status().0)),
        Err(LoadRefusal::NoPages) => Ok(gives(alloc, LoadRefusal::NoPages.status().0)),
        Err(LoadRefusal::Full) => Ok(gives(alloc, LoadRefusal::Full.status().0)),
    }
}

/// LoadImage (policy, parent, path, source, size, image): loads the image of a file that is a buffer of the guest, for a
/// parent that is a loaded image, and writes its handle. The events of the answer are those of its loaded image protocol.
/// `Err` is want of host memory.
#[tactic(auto, unfolding(crate::specs::Loading::load_image))]
pub fn load_image_from(
    alloc: Global,
    registers: &[u64; 32],
    view: &View,
    layout: &Layout,
    memory: &mut GuestMemory,
    pages: &mut PageMap,
    pool: &mut Pool,
    protocols: &mut Protocols,
    images: &mut Images,
) -> Result<Served, AllocError>
    requires ram { AreOneRam layout.now memory.old pages.old }
    requires together { Together pool.old pages.old }
    ensures ok { IfOk result (λ served. record { served = served; after = record { images = images.new; memory = memory.new; pages = pages.new; pool = pool.new; protocols = protocols.new } } ≡ load_image registers.now (see view.now) layout.now (record { images = images.old; memory = memory.old; pages = pages.old; pool = pool.old; protocols = protocols.old })) }
    ensures ram { AreOneRam layout.now memory.new pages.new }
    ensures together { Together pool.new pages.new }
{
    match refusal(registers, view, memory, images) {
        Some(status) => Ok(gives(alloc, status.0)),
        None => {
            let (source, size) = (argument(3, registers), argument(4, registers));
            let file = load_bytes(alloc, memory, view, source, size)?;
            load_and_tell(
                alloc,
                view,
                layout,
                memory,
                pages,
                pool,
                protocols,
                images,
                file.as_slice(),
                argument(1, registers),
                argument(5, registers),
            )
        }
    }
}

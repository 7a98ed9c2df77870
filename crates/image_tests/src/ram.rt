//! RAM with images, what is called on it, and what is seen there.

ghost use Rattle.std.specs.Prelude.{◌≤◌, length};
ghost use Rattle.page_alloc.specs.Layout.{IsRam};

use crate::application::{Patch, file_of};
use address_view::View;
use base_reloc::Site;
use guest_call::number_seen;
use guest_memory::{GuestMemory, Rights};
use image_services::{
    Images, LOADED_IMAGE_PROTOCOL, LoadRefusal, UnloadRefusal, discard_image, load_image,
    unload_image,
};
use page_alloc::{Layout, Owner, PageMap, opening_covers_ram};
use pool_alloc::Pool;
use protocol_db::{Installed, ProtocolRefusal, Protocols};
use std::alloc::{AllocError, Global};
use std::marker::Model;
use std::process::Abort;
use std::test::Fail;
use uh_base::{EfiStatus, Guid};

/// A protocol of the console, EFI_SIMPLE_TEXT_OUTPUT_PROTOCOL_GUID.
pub const CONSOLE: Guid = Guid {
    d1: 0x3874_77c2,
    d2: 0x69c7,
    d3: 0x11d2,
    d4: 0x8e39_00a0_c969_723b,
};

/// RAM with its page map, its pool and the images in it, and the protocols on handles.
#[derive(Drop)]
pub struct Ram {
    layout: Layout,
    memory: GuestMemory,
    pages: PageMap,
    pool: Pool,
    images: Images,
    protocols: Protocols,
}

impl Model for Ram {
    ghost use Rattle.image_services.specs.Stores.{Store};
    ghost use Rattle.pool_alloc.specs.Pool.{Together};
    ghost use Rattle.virtual_map.specs.States.{AreOneRam};

    ghost Value = { Store };

    ghost view = { λ r. record { images = r.images; memory = r.memory; pages = r.pages; pool = r.pool; protocols = r.protocols } };

    ghost invariant = { λ r. AreOneRam r.layout r.memory r.pages × Together r.pool r.pages };
}

/// A call on RAM with images, or a look at it, with what it gives.
#[derive(Clone, Copy)]
pub enum Step<'a> {
    /// A load of the application with changes: its handle.
    Loads(&'a [Patch], u64),
    /// A load that is refused, and the status of that.
    Refuses(&'a [Patch], LoadRefusal, EfiStatus),
    /// A load, and the events that are to be signalled.
    Signals(u64, &'a [u64]),
    /// An unload.
    Unloads(u64, Result<(), UnloadRefusal>),
    /// What is done at an image's end.
    Discards(u64),
    /// An image is marked as started.
    Starts(u64),
    /// A registration for a protocol, by the event; its number.
    Registers(Guid, u64, u64),
    /// A protocol is installed on a handle, or on a new one for 0.
    Installs(u64, Guid),
    /// An image lies at a base, in so many pages, with its entry point and its block.
    Lies(u64, (u64, u32, u64, u64)),
    /// The image has these sites, with these words.
    Moves(u64, &'a [Site], &'a [u64]),
    /// The interface of the loaded image protocol on a handle.
    Has(u64, Option<u64>),
    /// The handle that is pending longest for a registration.
    Pends(u64, Option<u64>),
    /// The key of the page map, and how many pages are touched.
    Counts(u64, u32),
    /// The type and the owner of the page at an address.
    Owns(u64, u32, Owner),
    /// The rights at an address.
    Allows(u64, Rights),
    /// The number of eight bytes at an address.
    Holds(u64, u64),
}

impl Ram {
    /// RAM at opening, with the console on handle 16.
    #[tactic(auto, unfolding(page_alloc::specs::Layout::layout_at, page_alloc::specs::Opening::at_opening))]
    fn new(alloc: Global, base: u64, pages: u32) -> Result<Ram, ProtocolRefusal>
        requires { IsRam base pages }
    {
        opening_covers_ram();
        let layout = Layout::at(base, pages);
        let memory = GuestMemory::new(alloc, base, pages)?;
        let pages = PageMap::new(alloc, &layout)?;
        let mut protocols = Protocols::new(alloc);
        protocols.install(None, CONSOLE, 8)?;
        Ok(Ram {
            layout,
            memory,
            pages,
            pool: Pool::new(alloc),
            images: Images::new(alloc),
            protocols,
        })
    }

    fn load_file(&mut self, alloc: Global, file: &[u8]) -> Result<Installed, LoadRefusal>
        requires { length file.now ≤ 0x400000 }
    {
        load_image(
            alloc,
            &mut self.images,
            &self.layout,
            &mut self.memory,
            &mut self.pages,
            &mut self.pool,
            &mut self.protocols,
            file,
            7,
        )
    }

    fn load(&mut self, alloc: Global, patches: &[Patch]) -> Result<Installed, LoadRefusal> {
        let file = file_of(alloc, patches)?;
        self.load_file(alloc, file.as_slice())
    }

    fn loads(&mut self, alloc: Global, patches: &[Patch], handle: u64) -> bool {
        match self.load(alloc, patches) {
            Ok(installed) => installed.handle == handle && installed.events.is_empty(),
            Err(_) => false,
        }
    }

    fn refuses(&mut self, alloc: Global, patches: &[Patch], refusal: LoadRefusal) -> bool {
        match self.load(alloc, patches) {
            Ok(_) => false,
            Err(given) => given == refusal,
        }
    }

    fn signals(&mut self, alloc: Global, handle: u64, events: &[u64]) -> bool {
        match self.load(alloc, &[]) {
            Ok(installed) => installed.handle == handle && installed.events.as_slice() == events,
            Err(_) => false,
        }
    }

    fn unload(&mut self, handle: u64) -> Result<(), UnloadRefusal> {
        unload_image(
            &mut self.images,
            &self.layout,
            &mut self.memory,
            &mut self.pages,
            &mut self.pool,
            &mut self.protocols,
            handle,
        )
    }

    fn discard(&mut self, handle: u64) {
        discard_image(
            &mut self.images,
            &self.layout,
            &mut self.memory,
            &mut self.pages,
            &mut self.pool,
            &mut self.protocols,
            handle,
        );
    }

    fn installs(&mut self, handle: u64, guid: Guid) -> bool {
        let handle = if handle == 0 { None } else { Some(handle) };
        self.protocols.install(handle, guid, 8).is_ok()
    }

    fn lies(&self, handle: u64, place: (u64, u32, u64, u64)) -> bool {
        match self.images.find(handle) {
            None => false,
            Some(image) => place == (image.base, image.pages, image.entry, image.block),
        }
    }

    fn moves(&self, handle: u64, sites: &[Site], words: &[u64]) -> bool {
        match self.images.find(handle) {
            None => false,
            Some(image) => image.sites.as_slice() == sites && image.words.as_slice() == words,
        }
    }

    fn interface(&self, handle: u64) -> Option<u64> {
        self.protocols
            .handles()
            .interface(handle, &LOADED_IMAGE_PROTOCOL)
    }

    fn holds(&self, alloc: Global, at: u64, value: u64) -> Result<bool, AllocError> {
        let view = View::identity(alloc, 0x4000_0000, 0x100_0000)?;
        Ok(number_seen(&self.memory, &view, at, 8) == value)
    }

    /// Whether a step gives what it says.
    fn passes(&mut self, alloc: Global, step: Step<'_>) -> Result<bool, AllocError> {
        Ok(match step {
            Step::Loads(patches, handle) => self.loads(alloc, patches, handle),
            Step::Refuses(patches, refusal, status) => {
                refusal.status() == status && self.refuses(alloc, patches, refusal)
            }
            Step::Signals(handle, events) => self.signals(alloc, handle, events),
            Step::Unloads(handle, answer) => self.unload(handle) == answer,
            Step::Discards(handle) => {
                self.discard(handle);
                true
            }
            Step::Starts(handle) => {
                self.images.mark(handle);
                true
            }
            Step::Registers(guid, event, number) => {
                self.protocols.register(guid, event) == Ok(number)
            }
            Step::Installs(handle, guid) => self.installs(handle, guid),
            _ => self.shows(alloc, step)?,
        })
    }

    /// Whether a look shows what it says.
    fn shows(&self, alloc: Global, step: Step<'_>) -> Result<bool, AllocError> {
        Ok(match step {
            Step::Lies(handle, place) => self.lies(handle, place),
            Step::Moves(handle, sites, words) => self.moves(handle, sites, words),
            Step::Has(handle, interface) => self.interface(handle) == interface,
            Step::Pends(number, handle) => self.protocols.first_notified(number) == handle,
            Step::Counts(key, touched) => {
                self.pages.key() == key && self.memory.touched() == touched
            }
            Step::Owns(at, kind, owner) => self.pages.type_at(at) == Some((kind, owner)),
            Step::Allows(at, rights) => self.memory.rights_at(at) == Some(rights),
            Step::Holds(at, value) => self.holds(alloc, at, value)?,
            _ => false,
        })
    }
}

/// Refuses a step, of those on fresh RAM of 16 MiB from an address on, that doesn't give what it says.
pub fn makes_at(rt: &impl Abort, alloc: Global, base: u64, steps: &[Step<'_>]) -> Result<(), Fail>
    requires { IsRam base 4096 }
{
    let mut ram = Ram::new(alloc, base, 4096)?;
    for step in steps {
        assert!(rt; ram.passes(alloc, *step)?);
    }
    Ok(())
}

/// Refuses a step, of those on fresh RAM of 16 MiB, that doesn't give what it says.
pub fn makes(rt: &impl Abort, alloc: Global, steps: &[Step<'_>]) -> Result<(), Fail> {
    makes_at(rt, alloc, 0x4000_0000, steps)
}

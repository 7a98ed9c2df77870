//! The images that are loaded.
ghost use Rattle.std.specs.Prelude.{◌≡◌, ◌<◌, ◌++◌, ◌∷◌, [], nat_lt, slice_get, List, OnOk, OnErr, length};
ghost use Rattle.std.specs.Option.{option_copied};
ghost use Rattle.image_services.specs.Images.{Loaded as LoadedImage, find_image, without_image, with_started, has_handle, started_at, most_images};

use base_reloc::Site;
use std::alloc::{AllocError, Global};
use std::marker::Model;

/// The most images that are loaded at a time.
const MOST: usize = 16;

/// An image in memory.
#[derive(Drop)]
pub struct Loaded {
    /// Its handle, a multiple of 16.
    pub handle: u64,
    /// The physical address of its first byte.
    pub base: u64,
    /// How many pages of 4,096 bytes it has.
    pub pages: u32,
    /// 10 for an application, 11 for a boot driver, 12 for a runtime driver.
    pub subsystem: u16,
    /// The physical address of its entry point.
    pub entry: u64,
    /// The physical address of its block, an EFI_LOADED_IMAGE_PROTOCOL of 96 bytes (UEFI 2.10, 9.1).
    pub block: u64,
    /// Whether it was started.
    pub started: bool,
    /// What moved with it, in the order of its base relocations; offsets are from its base.
    pub sites: Vec<Site>,
    /// The words of these sites as the load left them, of 8 bytes for `Dir64` and of 4 for the others.
    pub words: Vec<u64>,
}

impl Model for Loaded {
    ghost use Rattle.image_services.specs.Images.{Loaded as LoadedImage};

    ghost Value = { LoadedImage };

    ghost view = { λ i. record { handle = i.handle; base = i.base; pages = i.pages; subsystem = i.subsystem; entry = i.entry; block = i.block; started = i.started; sites = i.sites.items; words = i.words.items } };
}

impl Loaded {
    /// Whether it has the handle.
    fn has(&self, handle: u64) -> bool
        ensures { result ≡ has_handle handle self.now }
    {
        self.handle == handle
    }

    /// Notes that it was started, if it has the handle.
    fn start_at(&mut self, handle: u64)
        ensures { self.new ≡ started_at handle self.old }
    {
        if self.handle == handle {
            self.started = true;
        }
    }
}

/// The images that are loaded, at most 16, in order of loading.
#[derive(Drop)]
pub struct Images {
    images: Vec<Loaded>,
}

impl Model for Images {
    ghost use Rattle.std.specs.Prelude.{◌≤◌, List, length};
    ghost use Rattle.image_services.specs.Images.{Loaded};

    ghost Value = { List Loaded };

    ghost view = { λ i. i.images.items };

    ghost invariant = { λ i. length i.images.items ≤ 16 };
}

impl Images {
    /// No image. It takes no memory.
    pub fn new(alloc: Global) -> Images
        ensures { result ≡ [] }
    {
        Images {
            images: Vec::new(alloc),
        }
    }

    /// The image of a handle.
    pub fn find(&self, handle: u64) -> Option<&Loaded>
        ensures { option_copied result ≡ find_image self.now handle }
    {
        self.images.iter().find(|image| image.has(handle))
    }

    /// The image at an index, in order of loading from 0 on; None where there are no more.
    pub fn at(&self, index: usize) -> Option<&Loaded>
        ensures { option_copied result ≡ slice_get self.now index }
    {
        self.images.get(index)
    }

    /// The images, in order of loading.
    pub(crate) fn list(&self) -> &[Loaded]
        ensures { result.now ≡ self.now }
    {
        self.images.as_slice()
    }

    /// Notes that the image of a handle was started.
    pub fn mark(&mut self, handle: u64)
        ensures { self.new ≡ with_started self.old handle }
    {
        mark_started(&mut self.images, handle);
    }

    /// Takes the image of a handle off the list.
    pub(crate) fn remove(&mut self, handle: u64)
        ensures { self.new ≡ without_image self.old handle }
    {
        self.images.retain(|image| !image.has(handle));
    }

    /// Puts an image last.
    pub(crate) fn add(&mut self, image: Loaded) -> Result<(), AllocError>
        requires { length self.old < 16 }
        ensures ok { OnOk result (self.new ≡ self.old ++ image ∷ []) }
        ensures err { OnErr result (self.new ≡ self.old) }
    {
        self.images.push(image)?;
        Ok(())
    }

    /// Takes the last image off the list.
    #[tactic(auto, using(crate::proofs::InstallLemmas::but_last))]
    pub(crate) fn drop_last(&mut self)
        ensures { (images : List LoadedImage) → (image : LoadedImage) → self.old ≡ images ++ image ∷ [] → self.new ≡ images }
    {
        let _ = self.images.pop();
    }

    /// Whether there is room for one image more.
    pub(crate) fn has_room(&self) -> bool
        ensures { result ≡ nat_lt (length self.now) most_images }
    {
        self.images.len() < MOST
    }
}

/// Notes that the image of a handle was started.
fn mark_started(images: &mut [Loaded], handle: u64)
    ensures value { images.new ≡ with_started images.old handle }
    ensures long { length images.new ≡ length images.old }
{
    for image in images.iter_mut() {
        image.start_at(handle);
    }
}

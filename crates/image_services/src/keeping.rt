//! The images that stay when boot services end.
ghost use Rattle.std.specs.Prelude.{◌≡◌, IfOk};
ghost use Rattle.image_services.specs.Kept.{is_runtime_driver, kept_image, kept_drivers};

use crate::images::{Images, Loaded};
use map_faults::Kept;
use std::alloc::{AllocError, Global};

/// The subsystem of runtime drivers.
const RUNTIME_DRIVER: u16 = 12;

/// Whether an image is a runtime driver.
fn is_runtime_driver(image: &Loaded) -> bool
    ensures { result ≡ is_runtime_driver image.now }
{
    image.subsystem == RUNTIME_DRIVER
}

/// What stays of an image.
fn keep(alloc: Global, image: &Loaded) -> Result<Kept, AllocError>
    ensures { IfOk result (λ kept. kept ≡ kept_image image.now) }
{
    Ok(Kept {
        handle: image.handle,
        base: image.base,
        pages: image.pages,
        sites: Vec::from_slice(alloc, image.sites.as_slice())?,
        words: Vec::from_slice(alloc, image.words.as_slice())?,
        same: vec![in alloc; false; image.sites.len()]?,
    })
}

/// The runtime drivers among some images.
#[tactic(auto, using(std::proofs::lemmas::List::append_assoc))]
fn keep_all(alloc: Global, images: &[Loaded]) -> Result<Vec<Kept>, AllocError>
    ensures { IfOk result (λ kept. kept.items ≡ kept_drivers images.now) }
{
    let mut kept = Vec::new(alloc);
    for image in images {
        if is_runtime_driver(image) {
            kept.push(keep(alloc, image)?)?;
        }
    }
    Ok(kept)
}

impl Images {
    /// What stays when boot services end: the runtime drivers, started or not, in order of loading (UEFI 2.10, 7.4.6). Each has
    /// a mark for each of its sites, and all marks are false.
    pub fn kept_drivers(&self, alloc: Global) -> Result<Vec<Kept>, AllocError>
        ensures { IfOk result (λ kept. kept.items ≡ kept_drivers self.now) }
    {
        keep_all(alloc, self.list())
    }
}

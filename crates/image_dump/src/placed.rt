//! The bytes of a placed image.
ghost use Rattle.std.specs.Prelude.{◌≡◌, IfOk, Ok, length};
ghost use Rattle.pe_image.specs.ImageOf.{fields_of, image_of};
ghost use Rattle.pe_image.specs.Placed.{in_pages};
ghost use Rattle.pe_image.specs.Sound.{IsImage};
ghost use Rattle.image_dump.specs.Reports.{placed};

use pe_image::{Image, place};
use std::alloc::{AllocError, Global};

/// Places an image.
#[tactic(auto, using(crate::proofs::PlacedLemmas::each_value))]
fn place_whole(image: &Image, file: &[u8], to: &mut [u8])
    requires read { image_of file.now ≡ Ok (fields_of image.now) }
    requires room { length to.old ≡ in_pages image.now.size }
    ensures { to.new ≡ placed (fields_of image.now) file.now }
{
    place(image, file, to);
}

/// The bytes of a placed image, in whole pages.
#[tactic(auto, using(crate::proofs::PlacedLemmas::whole_written))]
pub fn placed(alloc: Global, image: &Image, file: &[u8]) -> Result<Vec<u8>, AllocError>
    requires image { IsImage (fields_of image.now) }
    requires read { image_of file.now ≡ Ok (fields_of image.now) }
    ensures bytes { IfOk result (λ bytes. bytes.items ≡ placed (fields_of image.now) file.now) }
    ensures room { IfOk result (λ bytes. length bytes.items ≡ in_pages image.now.size) }
{
    let size = (image.size as usize + 4095) / 4096 * 4096;
    let mut bytes = vec![in alloc; 0u8; size]?;
    place_whole(image, file, bytes.as_mut_slice());
    Ok(bytes)
}

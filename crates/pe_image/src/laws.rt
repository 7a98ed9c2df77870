//! Laws of images.
#![tactic(auto)]

ghost use Rattle.std.specs.Prelude.{◌≡◌, List, ℕ, length, Ok};
ghost use Rattle.pe_image.specs.ImageOf.{Fields, image_of};
ghost use Rattle.pe_image.specs.Sound.{IsImage, IsCopiedFrom};

/// An image that is read has numbers in their ranges. Its sections lie in it, behind the headers, ascending and
/// disjoint, and what is copied lies in the file.
pub fn read_images_are_sound()
    ensures image { (file : List ℕ) (image : Fields) → image_of file ≡ Ok image → IsImage image }
    ensures copied { (file : List ℕ) (image : Fields) → image_of file ≡ Ok image → IsCopiedFrom (length file) image }
{}

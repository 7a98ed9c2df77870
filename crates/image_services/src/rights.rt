//! The rights to the pages of an image.
ghost use Rattle.std.specs.Prelude.{◌≡◌, ◌≤◌, ◌+◌, ◌/◌, [], ◌∷◌, All};
ghost use Rattle.pe_image.specs.ImageOf.{fields_of};
ghost use Rattle.pe_image.specs.Sound.{IsImage};
ghost use Rattle.image_services.specs.Placing.{page_count, rights_in, with_section_rights, with_image_rights, MeetsIn};

use guest_memory::{GuestMemory, Rights};
use pe_image::{Image, Section};

/// Every right.
pub(crate) const ALL: Rights = Rights {
    read: true,
    write: true,
    exec: true,
};

/// The right to read alone.
const READABLE: Rights = Rights {
    read: true,
    write: false,
    exec: false,
};

/// What a section's rights allow: 1 to read, 2 to write, 4 to execute.
fn rights_in(rights: u8) -> Rights
    ensures { result ≡ rights_in rights }
{
    Rights {
        read: rights % 2 == 1,
        write: rights / 2 % 2 == 1,
        exec: rights / 4 % 2 == 1,
    }
}

/// Gives the pages that a section meets its rights.
fn set_section_rights(memory: &mut GuestMemory, first: u32, section: &Section)
    requires { first + (section.now.at + section.now.len + 4095) / 4096 ≤ memory.old.pages }
    ensures gives { memory.new ≡ with_section_rights memory.old first (section.now ∷ []) }
    ensures base { memory.new.base ≡ memory.old.base }
    ensures pages { memory.new.pages ≡ memory.old.pages }
    ensures touched { memory.new.touched ≡ memory.old.touched }
{
    memory.whole();
    let from = section.at / 4096;
    let to = ((u64::from(section.at) + u64::from(section.len) + 4095) / 4096) as u32;
    memory.set_rights(first + from, to - from, rights_in(section.rights));
}

/// Gives the pages that each section meets its rights.
fn set_sections_rights(memory: &mut GuestMemory, first: u32, sections: &[Section])
    requires { All (MeetsIn memory.old.pages first) sections.now }
    ensures gives { memory.new ≡ with_section_rights memory.old first sections.now }
    ensures base { memory.new.base ≡ memory.old.base }
    ensures pages { memory.new.pages ≡ memory.old.pages }
    ensures touched { memory.new.touched ≡ memory.old.touched }
{
    for section in sections {
        set_section_rights(memory, first, section);
    }
}

/// Gives the pages of an image their rights. They begin at the page `first`, counted from the base of RAM.
#[tactic(auto, unfolding(crate::specs::Placing::with_image_rights))]
pub(crate) fn set_image_rights(memory: &mut GuestMemory, first: u32, image: &Image)
    requires image { IsImage (fields_of image.now) }
    requires inside { first + page_count (fields_of image.now) ≤ memory.old.pages }
    ensures gives { memory.new ≡ with_image_rights memory.old first (fields_of image.now) }
    ensures base { memory.new.base ≡ memory.old.base }
    ensures pages { memory.new.pages ≡ memory.old.pages }
    ensures touched { memory.new.touched ≡ memory.old.touched }
{
    let count = (image.size + 4095) / 4096;
    if image.alignment < 4096 {
        memory.set_rights(first, count, ALL);
    } else {
        memory.set_rights(first, count, READABLE);
        set_sections_rights(memory, first, &image.sections);
    }
}

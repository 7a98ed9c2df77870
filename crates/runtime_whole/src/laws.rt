//! What the definitions come to. Each law is the contract of a function that does nothing.
#![tactic(auto)]

ghost use Rattle.runtime_whole.specs.Laws.{OpeningIsWhole, HandlesKeep, StartsKeep, GuardedSuffice, WritesKeep, StoresKeep, InstructionsKeep, LoadsKeep, DiscardsKeep, UnloadsKeep, EndIsWhole, StoresStayWhole, InstructionsStayWhole, TurnsStayWhole};

use base_reloc::{read_sites_are_sound, sites_are_entries};
use image_services::images_stay_in_order;
use map_transition::{places_are_firmwares, touched_stay, whole_stays};
use page_alloc::{calls_leave_others, opening_covers_ram, others_stay};
use pe_image::read_images_are_sound;
use pool_alloc::pool_leaves_others;

/// At opening, with no image, `BootWhole` holds.
pub fn opening_is_whole()
    ensures { OpeningIsWhole }
{
    opening_covers_ram();
    places_are_firmwares();
}

/// `BootWhole` stays where handles are made.
pub fn handles_keep()
    ensures { HandlesKeep }
{
    images_stay_in_order();
}

/// `BootWhole` stays where guarded pages, those of the firmware and of images, are left as they are.
pub fn guarded_suffice()
    ensures { GuardedSuffice }
{}

/// `BootWhole` stays where bytes are written and pages touched, as by stores of code and by outputs of services.
pub fn writes_keep()
    ensures { WritesKeep }
{}

/// `BootWhole` stays where bytes are stored, through any view, and behind each instruction, however it ends.
pub fn instructions_keep()
    ensures stores { StoresKeep }
    ensures instructions { InstructionsKeep }
{
    touched_stay();
}

/// `BootWhole` stays where an image file is loaded or refused, and where the host lacks memory for it.
pub fn loads_keep()
    ensures { LoadsKeep }
{
    calls_leave_others();
    read_images_are_sound();
    read_sites_are_sound();
    sites_are_entries();
    images_stay_in_order();
}

/// `BootWhole` stays where an image is started.
pub fn starts_keep()
    ensures { StartsKeep }
{
    images_stay_in_order();
}

/// `BootWhole` stays where an image goes, with its protocol, its block and its pages, and where it isn't known or was started.
pub fn discards_keep()
    ensures discards { DiscardsKeep }
    ensures unloads { UnloadsKeep }
{
    calls_leave_others();
    others_stay();
    pool_leaves_others();
    images_stay_in_order();
}

/// Where `BootWhole` holds, the state behind the end of boot services is `Whole`, as the making of a virtual address map asks.
pub fn end_is_whole()
    ensures { EndIsWhole }
{
    places_are_firmwares();
}

/// `Whole` stays where bytes are stored, through any view, and behind each instruction and each turn at run time, however it
/// ends.
pub fn turns_stay_whole()
    ensures stores { StoresStayWhole }
    ensures instructions { InstructionsStayWhole }
    ensures turns { TurnsStayWhole }
{
    touched_stay();
    whole_stays();
}

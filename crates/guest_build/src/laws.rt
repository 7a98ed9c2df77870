//! Laws of assembled texts. A law that follows from another crate's calls that one.
#![tactic(auto)]

ghost use Rattle.guest_build.specs.Decodes.{InstructionsDecode};
ghost use Rattle.guest_build.specs.Read.{AssembledImagesAreRead, AssembledImagesAreShort, LinesStandAtTheirPlaces, SitesAreOfLabels};

use base_reloc::blocks_follow_each_other;
use rv_decode::words_are_read_back;

/// The bytes of an instruction's line decode to that instruction, with the immediate that its operand makes.
pub fn instructions_decode()
    ensures { InstructionsDecode }
{
    words_are_read_back();
}

/// An image that is assembled is read as what its text says. Only its entry point can be refused, where `start` stands
/// at an odd offset or behind all bytes.
pub fn assembled_images_are_read()
    ensures { AssembledImagesAreRead }
{}

/// An image that is assembled has at most 4 MiB, so that it can be loaded as a file can.
pub fn assembled_images_are_short()
    ensures { AssembledImagesAreShort }
{}

/// The sites that are read in an assembled image, once it is placed, are those of its labels.
pub fn sites_are_of_labels()
    ensures { SitesAreOfLabels }
{
    blocks_follow_each_other();
}

/// The sections begin where they are read. The bytes of each line stand in its section behind those of the lines before
/// it, and its label names that place.
pub fn lines_stand_at_their_places()
    ensures { LinesStandAtTheirPlaces }
{}

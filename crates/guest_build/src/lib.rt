//! PE32+ images from RISC-V assembly text.
#![tactic(auto)]

mod assembly;
mod bytes;
mod directive;
mod encoding;
mod fault;
mod image;
mod instruction;
mod labels;
mod laws;
mod layout;
mod line;
mod little_endian;
mod measure;
mod number;
mod operand;
mod places;
mod relocation;
mod sections;
mod statement;
mod text;
mod word;

pub use assembly::assemble;
pub use fault::{AsmFault, AsmKind};
pub use laws::{
    assembled_images_are_read, assembled_images_are_short, instructions_decode,
    lines_stand_at_their_places, sites_are_of_labels,
};

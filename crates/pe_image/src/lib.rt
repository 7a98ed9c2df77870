//! PE32+ images for RISC-V: what a file holds, and the bytes of an image where it is placed.
//!
//! Sections are named by those of the PE/COFF specification.
#![tactic(auto)]

mod fault;
mod fields;
mod headers;
mod image;
mod laws;
mod placing;
mod reading;
mod sections;

pub use fault::PeFault;
pub use fields::{u16_in, u32_in, u64_in};
pub use image::{Image, Section};
pub use laws::read_images_are_sound;
pub use placing::place;
pub use reading::read_image;

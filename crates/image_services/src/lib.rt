//! The images that are loaded, and how they come into memory and go again (UEFI 2.10, 7.4 and 9.1).
#![tactic(auto)]

mod block;
mod claiming;
mod images;
mod installing;
mod keeping;
mod laws;
mod load;
mod marks;
mod reading;
mod refusal;
mod rights;
mod unload;
mod writing;

pub use images::{Images, Loaded};
pub use installing::LOADED_IMAGE_PROTOCOL;
pub use laws::{fields_stand_at_their_offsets, images_stay_in_order};
pub use load::{load_image, load_image_counting};
pub use refusal::{LoadRefusal, UnloadRefusal};
pub use unload::{discard_image, unload_image};

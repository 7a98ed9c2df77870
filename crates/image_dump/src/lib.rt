//! What an image file holds, in lines: its headers, sections and base relocations, and the instructions of its code.
#![tactic(auto)]

mod code;
mod headers;
mod image;
mod instruction;
mod laws;
mod listing;
mod placed;
mod refused;
mod sites;
mod stop;

pub use image::put_image;
pub use laws::{instructions_decode, lines_keep_forms, words_are_bytes};
pub use listing::put_list;
pub use stop::Stop;

//! The memory map that a guest asks for.
#![tactic(auto)]

mod cursor;
mod descriptor;
mod laws;
mod map;
mod write;

pub use cursor::MapCursor;
pub use descriptor::{Descriptor, TooSmall};
pub use laws::map_is_map;
pub use map::{descriptor_at, descriptors};
pub use write::{DESCRIPTOR_SIZE, descriptor_size, read_descriptor, write_map};

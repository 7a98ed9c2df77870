//! The memory of a guest: bytes by address, and rights and touched marks by page.
#![tactic(auto)]

mod laws;
mod memory;
mod parts;
mod rights;

pub use laws::{bytes_are_put, marks_are_put, only_marks_are_added, parts_are_put};
pub use memory::GuestMemory;
pub use rights::{PutEnd, Rights};

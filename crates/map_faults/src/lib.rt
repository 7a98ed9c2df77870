//! Which virtual address maps an operating system may make, and where a pointer goes (UEFI 2.10, section 8.4).
#![tactic(auto)]

mod check;
mod entries;
mod fault;
mod ground;
mod images;
mod laws;
mod pointer;
mod rules;

pub use check::check_map;
pub use fault::MapFault;
pub use ground::{Kept, MapCall, MapGround};
pub use images::displacement_at;
pub use laws::{entries_are_placed, offsets_stay, ranges_are_apart};
pub use pointer::{ConvertRefusal, convert_pointer, entry_at};
pub use rules::{is_named_by, is_runtime};

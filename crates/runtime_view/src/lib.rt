//! The view of RAM after a virtual address map (UEFI 2.10, section 8.4).
#![tactic(auto)]

mod after;
mod counting;
mod filling;

pub use after::view_after;
pub use counting::window_count;
pub use filling::virtual_of;

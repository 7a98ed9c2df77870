//! Base relocations of a PE32+ image for RISC-V: which bytes are moved with it, and moving them.
//!
//! Sections are named by those of the PE/COFF specification.
#![tactic(auto)]

mod entry;
mod fault;
mod laws;
mod moving;
mod reading;
mod site;

pub use fault::RelocFault;
pub use laws::{
    blocks_follow_each_other, dir64_moves, moves_add, no_move_changes_nothing, other_bytes_stay,
    read_sites_are_sound, sites_are_entries, words_move,
};
pub use moving::apply;
pub use reading::read_sites;
pub use site::{Site, SiteKind};

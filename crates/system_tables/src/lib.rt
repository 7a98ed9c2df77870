//! UEFI's tables in guest memory, and the text of what a guest prints.
#![tactic(auto)]

mod console;
mod fields;
mod laws;
mod memory;
mod offsets;
mod tables;

pub use console::console_text;
pub use laws::{crcs_are_right, crcs_stay_right, fields_read_back, tables_are_apart};
pub use memory::{build_tables, clear_boot, move_tables};

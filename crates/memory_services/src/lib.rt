//! The boot services on memory: each over the parts of a machine that it reads or changes.
#![tactic(auto)]

mod copy;
mod map;
mod output;
mod page;
mod pool;

pub use copy::{calculate_crc32, copy_mem, set_mem};
pub use map::get_memory_map;
pub use page::{allocate_pages, free_pages};
pub use pool::{allocate_pool, free_pool};

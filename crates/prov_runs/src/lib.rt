//! Laws of a driver's certificate over two runs: one whose memory is mapped where it was loaded, and one whose memory is
//! mapped elsewhere.
#![tactic(auto)]

mod fetches;
mod loads;
mod nodes;
mod stores;

pub use fetches::{decoded_fits, fetches_alike};
pub use loads::{joins_hold, loads_hold, reads_hold};
pub use nodes::{
    edges_serve, jump_node, memory_node, one_node, others_stand, register_node, step_for_step,
};
pub use stores::{regions_stay, stack_stores_keep, stores_keep};

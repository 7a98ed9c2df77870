//! What of a machine stays when boot services end, and one instruction over it.
#![tactic(auto)]

mod carrying;
mod state;

pub use carrying::instruction;
pub use state::RuntimeState;

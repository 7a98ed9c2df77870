//! What a service of the firmware answers its caller.
#![tactic(auto)]

mod answers;
mod served;

pub use answers::{announces, gives, lacks_frames};
pub use served::Served;

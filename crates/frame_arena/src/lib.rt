//! Frames of 4,096 bytes, taken and given back.
#![tactic(auto)]

mod arena;
mod frame;
mod laws;

pub use arena::{Arena, ArenaRefusal, FrameId};
pub use laws::frames_are_a_map;

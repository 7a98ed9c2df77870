//! Laws of a driver that was checked: what a certificate's rules say is so of two runs, one whose memory is mapped where
//! it was loaded, and one whose memory is mapped elsewhere.
#![tactic(auto)]

mod calls;
mod entries;
mod functions;

pub use calls::{
    call_nodes_are_judged, calls_end_alike, calls_go_alike, function_nodes_are_judged,
};
pub use entries::{buffers_keep, calls_begin};
pub use functions::{all_functions_return, change_moves, conversion_keeps, functions_return};

//! Kinds of values in two runs: what is known of a register or a word of memory, and what instructions make of it.
#![tactic(auto)]

mod edges;
mod fitting;
mod holding;
mod kinds;
mod laws;
mod rules;
mod spans;

pub use edges::{is_branch, narrow};
pub use fitting::fits;
pub use holding::{RegionLists, holds, is_proper, test_is_exact};
pub use kinds::{Kind, Place, Span};
pub use laws::{
    asks_hold, branches_compare_alike, fits_is_a_preorder, fits_is_sound, narrow_is_proper,
    narrow_is_sound, transfer_is_monotone, transfer_is_proper, transfer_is_sound,
};
pub use rules::transfer;

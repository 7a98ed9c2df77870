//! Two runs of a machine, one whose memory is mapped where it was loaded, and one behind an accepted virtual address map:
//! the premises of the laws of two runs, from the state, the map and the certificate's check.
#![tactic(auto)]

mod made;
mod places;
mod regions;
mod runs;

pub use made::{functions_are_code, transition_shows};
pub use places::ranges_are_seen;
pub use regions::{pointers_convert, regions_are_shown, regions_move};
pub use runs::runs_are_of;

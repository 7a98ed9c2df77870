//! A virtual address map is made: functions are notified, the words of runtime drivers move with them, the tables point to
//! their new places, and memory is seen by the map (UEFI 2.10, section 8.4).
#![tactic(auto)]

mod checking;
mod ends;
mod fixing;
mod laws;
mod making;
mod marking;
mod moving;
mod running;

pub use checking::check_map;
pub use ends::TransitionEnd;
pub use laws::{other_bytes_stay, places_are_firmwares, touched_stay, whole_stays, words_move};
pub use making::transition;

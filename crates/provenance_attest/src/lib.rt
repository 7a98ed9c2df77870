//! Whether a driver and its certificate meet all rules in a machine's runtime state, with the first rule that fails.
#![tactic(auto)]

mod checking;
mod frames;
mod laws;
mod nodes;
mod reaches;
mod regions;
mod rights;
mod rules;
mod sites;
mod targets;

pub use checking::{Verdict, attest, reserve_regions};
pub use laws::{none_fails_all_pass, touched_have_bytes};
pub use rules::check_rules;

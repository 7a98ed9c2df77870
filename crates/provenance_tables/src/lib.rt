//! Whether a driver and its certificate meet the rules that stand before those of each node: the driver is one that stays,
//! its regions are where the certificate says, and they hold what it says.
#![tactic(auto)]

mod laws;
mod notified;
mod regions;
mod sites;
mod spans;
mod tables;

pub use laws::none_fails_stands;
pub use tables::check_tables;

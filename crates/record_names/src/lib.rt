//! The names that lines of a run have: rules of a check, parts of a certificate and faults of a virtual address map.
//! Each is read back.
#![tactic(auto)]

mod fault;
mod fault_reading;
mod part;
mod rule;

pub use fault::{Fault, fault_text};
pub use fault_reading::{fault_of, faults_read_back};
pub use part::{Part, part_of, parts_read_back};
pub use rule::{Rule, rule_of, rules_read_back};

//! Whether a driver and its certificate meet the rules under which the driver runs on, wherever its memory is mapped.
#![tactic(auto)]

mod accesses;
mod asked;
mod branches;
mod check;
mod conditions;
mod edges;
mod entries;
mod ground;
mod jumps;
mod laws;
mod marks;
mod notified;
mod order;
mod reading;
mod registers;
mod rule;

pub use check::check_node;
pub use conditions::{are_formed, are_ordered, regions_end};
pub use entries::check_entries;
pub use ground::{Ground, PageRights};
pub use laws::{first_is_first, none_fails_judges};
pub use marks::reached;
pub use notified::{Marks, begins_notified, exits_leave, reached_from_each};
pub use rule::Rule;

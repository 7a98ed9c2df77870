//! The pages of RAM: their types and owners, and who is given which.
#![tactic(auto)]

mod laws;
mod layout;
mod map;
mod page;
mod runs;

pub use laws::{
    calls_leave_others, fit_is_highest, fit_means, free_restores, given_are_owned, key_counts,
    opening_covers_ram, others_stay, owned_are_freed, owned_stay,
};
pub use layout::Layout;
pub use map::PageMap;
pub use page::{Owner, Page, PageRefusal, may_be_given};
pub use runs::Run;

//! Protocols on handles: who may open what, and who is notified of what.
#![tactic(auto)]

mod installed;
mod laws;
mod opening;
mod pairs;
mod protocols;
mod refusal;
mod registration;
mod request;

pub use handle_db::OpenEntry;
pub use installed::{AllInstalled, Installed};
pub use laws::{
    all_installed_are_pending, all_installed_in_order, all_uninstalled_in_order,
    discarded_is_withdrawn, installed_is_pending, one_alone_stays, reinstalled_is_fresh,
    uninstalled_is_withdrawn,
};
pub use protocols::Protocols;
pub use refusal::ProtocolRefusal;
pub use request::OpenRequest;

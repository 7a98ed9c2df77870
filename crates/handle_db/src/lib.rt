//! The handle database: handles, the protocols installed on them, and the record of who opened each.
#![tactic(auto)]

mod entry;
mod handle;
mod handles;
mod laws;
mod protocol;
mod refusal;

pub use entry::OpenEntry;
pub use handles::Handles;
pub use laws::{
    discard_leaves_others, discarded_is_gone, new_is_new, removed_is_gone, replaced_is_fresh,
    same_is_equal,
};
pub use protocol::ProtocolInterface;
pub use refusal::HandleRefusal;

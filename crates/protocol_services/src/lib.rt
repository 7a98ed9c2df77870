//! The boot services on handles and protocols: each over the parts of a machine that it reads or changes.
#![tactic(auto)]

mod block;
mod finding;
mod installing;
mod lists;
mod marks;
mod multiple;
mod opening;
mod output;
mod outputs;
mod pairs;
mod searching;
mod service;
mod status;

pub use finding::{handle_protocol, locate_protocol};
pub use installing::{
    install_protocol_interface, reinstall_protocol_interface, uninstall_protocol_interface,
};
pub use lists::{locate_handle_buffer, open_protocol_information, protocols_per_handle};
pub use multiple::{install_multiple_protocol_interfaces, uninstall_multiple_protocol_interfaces};
pub use opening::{close_protocol, open_protocol};
pub use outputs::ListOutputs;
pub use pairs::NextPair;
pub use searching::locate_handle;
pub use service::{ProtocolService, is_protocol_slot, serve_protocol};

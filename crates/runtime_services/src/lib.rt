//! The runtime services but those on the virtual map and the reset (UEFI 2.10, chapter 8), and GetNextMonotonicCount
//! (section 7.5.5): each over the parts of a machine that it reads or changes.
#![tactic(auto)]

mod capsule;
mod count;
mod get;
mod info;
mod input;
mod next_name;
mod output;
mod serve;
mod service;
mod set;
mod status;
mod time;

pub use serve::serve_runtime;
pub use service::RuntimeService;

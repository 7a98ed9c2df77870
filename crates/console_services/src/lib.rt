//! The console's services, EFI_SIMPLE_TEXT_OUTPUT_PROTOCOL (UEFI 2.10, 12.4), over memory as a guest sees it.
#![tactic(auto)]

mod mode;
mod text;

pub use mode::{query_mode, set_mode};
pub use text::{Reply, output_string, test_string};

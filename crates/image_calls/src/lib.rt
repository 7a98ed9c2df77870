//! The boot services on images: each over the parts of a machine that it reads or changes (UEFI 2.10, section 7.4).
#![tactic(auto)]

mod answer;
mod exit;
mod load;
mod shown;
mod start;
mod unload;

pub use exit::{ExitStep, exit_of};
pub use load::load_image_from;
pub use start::{outputs_given, start_of};
pub use unload::unload_image_of;

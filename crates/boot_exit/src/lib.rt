//! The end of boot services (UEFI 2.10, section 7.4.6).
#![tactic(auto)]

mod begin;
mod finish;
mod laws;
mod refusal;
mod room;

pub use begin::begin_exit;
pub use finish::finish_exit;
pub use laws::{no_timer_runs_on, others_are_dropped};
pub use refusal::ExitRefusal;
pub use room::make_room;

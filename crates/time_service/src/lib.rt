//! The time services: EFI_TIME, and the clock.
#![tactic(auto)]

mod clock;
mod days;
mod efi_time;
mod laws;
mod text;

pub use clock::Clock;
pub use efi_time::EfiTime;
pub use laws::{
    clock_ends_after_9999, clock_shows_what_is_set, dates_are_numbered, texts_set_clocks,
    times_read_back,
};

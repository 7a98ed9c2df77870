//! The state that runtime services need is whole once boot services have ended: what has to be so of it before, and what
//! keeps that (UEFI 2.10, section 7.4.6).
#![tactic(auto)]

mod laws;
mod services;

pub use laws::{
    discards_keep, end_is_whole, guarded_suffice, handles_keep, instructions_keep, loads_keep,
    opening_is_whole, starts_keep, turns_stay_whole, writes_keep,
};
pub use services::{
    console_keeps, event_services_keep, image_services_keep, memory_writes_keep, pages_keep,
    pool_keeps, protocol_services_keep, runtime_services_keep,
};

//! The boot services on events, timers and task priority levels: each over the parts of a machine that it reads or changes.
#![tactic(auto)]

mod awaited;
mod change;
mod check;
mod clock;
mod create;
mod decision;
mod laws;
mod level;
mod notice;
mod status;
mod wait;

pub use awaited::Awaited;
pub use change::{close_event, set_timer, signal_event};
pub use check::{check_event, check_event_notified};
pub use clock::{set_watchdog_timer, stall};
pub use create::{create_event, create_event_ex};
pub use laws::{first_event_decides, first_signal_is_taken};
pub use level::{LevelSet, raise_tpl, restore_tpl};
pub use notice::register_protocol_notify;
pub use wait::{wait_anew, wait_for_event, wait_for_signal};

//! The machine that runs guest code, one turn at a time.
//!
//! A turn is a tick of the timers, the start of a notification, one service of the firmware where the program counter stands at
//! its slot, or one instruction.
#![tactic(auto)]

mod boot_end;
mod call_spec;
mod calls;
mod conclusion;
mod event_service;
mod event_slots;
mod exit_step;
mod firmware;
mod frame;
mod happened;
mod image_service;
mod image_slots;
mod job;
mod laws;
mod loading;
mod machine;
mod opening;
mod plain;
mod returning;
mod runtime_call;
mod service;
mod serving;
mod slots;
mod turn;

pub use call_spec::{CallBuffer, CallSpec};
pub use happened::{Halt, Happened, JobEnd};
pub use job::{Job, begin, run_machine};
pub use laws::{free_turns_are_few, jobs_are_turns, jobs_end};
pub use loading::{load, unload};
pub use machine::{Machine, Setup};
pub use turn::step_machine;

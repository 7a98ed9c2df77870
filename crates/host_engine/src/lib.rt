//! The commands of the host, over files and outputs that the caller hands in.
#![tactic(auto)]

mod assembly;
mod build;
mod call_step;
mod code;
mod command;
mod course;
mod dump;
mod execution;
mod flat;
mod flat_line;
mod flat_memory;
mod host;
mod inputs;
mod job;
mod limits;
mod message;
mod refusal;
mod run;
mod script_run;
mod status;
mod unbuilt;

pub use code::ImageFile;
pub use execution::execution_reaches_its_end;
pub use host::host_main;
pub use inputs::Inputs;
pub use message::explain;
pub use script_run::{Outcome, run_script};
pub use status::Status;

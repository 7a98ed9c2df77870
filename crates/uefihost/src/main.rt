//! The program: the commands of the host over the system's files and outputs.
#![tactic(auto)]

mod command_line;
mod host_files;
mod host_out;
#[cfg(test)]
mod tests;

use command_line::{answer, words};
use host_files::HostFiles;
use host_out::HostOut;
use std::process::ExitCode;

fn main(rt: HostRuntime) -> ExitCode {
    let mut files = HostFiles::new(&rt);
    let mut out = HostOut::new(rt.stdout());
    let mut err = HostOut::new(rt.stderr());
    let status = answer(rt.alloc(), words(&rt), &mut files, &mut out, &mut err);
    ExitCode::from(status.code())
}

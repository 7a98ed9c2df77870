//! A job: what the machine says up to its end. Each line is put as it comes.
ghost use Rattle.std.specs.Prelude.{◌≡◌, IfOk};
ghost use Rattle.firmware_core.specs.Jobs.{job_of};
ghost use Rattle.host_engine.specs.Jobs.{line_bytes, bytes_of, Ended, Puts};

use firmware_core::{Happened, JobEnd, Machine, run_machine};
use record_text::{Line, line_text};
use std::alloc::Global;
use uh_base::Sink;

/// Why a run stops before its end.
#[derive(Clone, Copy, Debug, PartialEq, Eq)]
pub enum Stop {
    /// The output failed.
    Write,
    /// Memory was wanting.
    Memory,
}

/// Puts a line and LF.
pub fn put_line<O: Sink>(alloc: Global, line: &Line, out: &mut O) -> Result<(), Stop>
    ensures { Puts result (line_bytes line.now) (O.written out.old) (O.faults out.old) (O.written out.new) (O.faults out.new) }
{
    let mut text = match line_text(alloc, line) {
        Ok(text) => text,
        Err(_) => return Err(Stop::Memory),
    };
    if text.push_str("\n").is_err() {
        return Err(Stop::Memory);
    }
    match out.put(text.as_bytes()) {
        Ok(()) => Ok(()),
        Err(_) => Err(Stop::Write),
    }
}

/// Puts a line that was made for it, and LF.
pub fn say<O: Sink>(alloc: Global, line: Line, out: &mut O) -> Result<(), Stop>
    ensures { Puts result (line_bytes line) (O.written out.old) (O.faults out.old) (O.written out.new) (O.faults out.new) }
{
    put_line(alloc, &line, out)
}

/// Makes turns until the job under way ends, and puts their lines. Gives its end.
pub fn run_job<O: Sink>(alloc: Global, machine: &mut Machine, out: &mut O) -> Result<JobEnd, Stop>
    ensures ended { IfOk result (λ end. Ended (job_of machine.old) end machine.new) }
    ensures puts { Puts result (bytes_of (job_of machine.old).lines) (O.written out.old) (O.faults out.old) (O.written out.new) (O.faults out.new) }
{
    loop {
        match run_machine(alloc, machine) {
            Ok(Happened::Turned) => unreachable!(),
            Ok(Happened::Said(line)) => match say(alloc, line, out) {
                Ok(()) => {}
                Err(stop) => return Err(stop),
            },
            Ok(Happened::Left { value, steps }) => return Ok(JobEnd::Left { value, steps }),
            Ok(Happened::Trapped { cause, steps }) => return Ok(JobEnd::Trapped { cause, steps }),
            Ok(Happened::Reset { kind, status }) => return Ok(JobEnd::Reset { kind, status }),
            Ok(Happened::Halted(halt)) => return Ok(JobEnd::Halted(halt)),
            Err(_) => return Err(Stop::Memory),
        }
    }
}

//! The command `flat FILE BOUND`.
#![tactic(auto)]

ghost use Rattle.std.specs.Prelude.{◌≡◌, ◌≤◌, length, IfOk};
ghost use Rattle.host_engine.specs.Commands.{plan_of, halts};
ghost use Rattle.host_engine.specs.Executions.{flat_end};
ghost use Rattle.host_engine.specs.Gives.{CommandGives};
ghost use Rattle.host_engine.specs.Limits.{code_limit};
ghost use Rattle.host_engine.specs.Lines.{flat_text};
ghost use Rattle.host_engine.specs.Outside.{outside};
ghost use Rattle.host_engine.specs.Views.{cause_of};
ghost use Rattle.host_engine.specs.Words.{Flat};

use crate::execution::{FlatCause, execute};
use crate::flat_line::line;
use crate::flat_memory::{BASE, FlatMemory};
use crate::limits::CODE_LIMIT;
use crate::refusal::{Refusal, read_file};
use rv_decode::KnownWords;
use rv_step::{Regs, Trap};
use std::alloc::{AllocError, Global};
use uh_base::{Files, Sink};

/// Whether an execution that ended so is halted.
fn halts(cause: FlatCause) -> bool
    ensures { result ≡ halts (cause_of cause) }
{
    match cause {
        FlatCause::Trap(Trap::Ebreak) => false,
        _ => true,
    }
}

/// The execution of a file's bytes: whether it is halted, and its text. It is a function of its own, so that the loop in it
/// has the processor's registers to itself.
#[inline(never)]
fn execute_file(alloc: Global, file: &[u8], bound: u64) -> Result<(bool, Vec<u8>), AllocError>
    requires { length file.now ≤ code_limit }
    ensures halted { IfOk result (λ ran. ran.0 ≡ halts (flat_end file.now bound).cause) }
    ensures text { IfOk result (λ ran. ran.1.items ≡ flat_text file.now bound) }
{
    let mut memory = FlatMemory::with_file(alloc, file)?;
    let mut known = KnownWords::new(alloc)?;
    let mut regs = Regs {
        x: [0; 32],
        pc: BASE,
    };
    let end = execute(&mut known, &mut regs, &mut memory, bound);
    Ok((halts(end.cause), line(alloc, end, &regs)?))
}

/// Reads a file, executes its bytes and puts the line of that; true where it is halted.
pub fn flat<F: Files, O: Sink>(
    alloc: Global,
    name: &str,
    bound: u64,
    files: &mut F,
    out: &mut O,
) -> Result<bool, Refusal>
    ensures { CommandGives (plan_of (Flat name.now bound)) result
        (outside (F.told files.old) (F.faults files.old) (F.longs files.old) (O.written out.old) (O.faults out.old))
        (outside (F.told files.new) (F.faults files.new) (F.longs files.new) (O.written out.new) (O.faults out.new)) }
{
    let file = match read_file(alloc, name, CODE_LIMIT, files) {
        Ok(file) => file,
        Err(refusal) => return Err(refusal),
    };
    let (halted, text) = match execute_file(alloc, file.as_slice(), bound) {
        Ok(ran) => ran,
        Err(_) => return Err(Refusal::Memory),
    };
    match out.put(text.as_slice()) {
        Ok(()) => Ok(halted),
        Err(_) => Err(Refusal::Write),
    }
}

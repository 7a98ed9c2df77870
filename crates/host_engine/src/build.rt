//! The command `build FILE`.
#![tactic(auto)]

ghost use Rattle.std.specs.Prelude.{◌≡◌, ◌≤◌, length};
ghost use Rattle.host_engine.specs.Assemblies.{in_words, assembled_file};
ghost use Rattle.host_engine.specs.Stages.{AssemblyGives};
ghost use Rattle.host_engine.specs.Commands.{plan_of};
ghost use Rattle.host_engine.specs.Gives.{CommandGives};
ghost use Rattle.host_engine.specs.Limits.{code_limit};
ghost use Rattle.host_engine.specs.Outside.{outside};
ghost use Rattle.host_engine.specs.Words.{Build};

use crate::assembly::{Unassembled, assembly, refused};
use crate::limits::CODE_LIMIT;
use crate::refusal::{Refusal, read_file};
use guest_build::AsmKind;
use std::alloc::Global;
use uh_base::{Files, Sink};

/// The image of a file's text.
fn assembly_of(alloc: Global, name: &str, file: &[u8]) -> Result<Vec<u8>, Unassembled>
    requires { length file.now ≤ code_limit }
    ensures { AssemblyGives (λ image. image.items) result (in_words name.now (assembled_file file.now)) }
{
    match str::from_utf8(file) {
        Ok(text) => assembly(alloc, name, text),
        Err(_) => Err(refused(alloc, name, 0, AsmKind::Word)),
    }
}

/// Reads a file, assembles its text and puts the image.
pub fn build<F: Files, O: Sink>(
    alloc: Global,
    name: &str,
    files: &mut F,
    out: &mut O,
) -> Result<bool, Refusal>
    ensures { CommandGives (plan_of (Build name.now)) result
        (outside (F.told files.old) (F.faults files.old) (F.longs files.old) (O.written out.old) (O.faults out.old))
        (outside (F.told files.new) (F.faults files.new) (F.longs files.new) (O.written out.new) (O.faults out.new)) }
{
    let file = match read_file(alloc, name, CODE_LIMIT, files) {
        Ok(file) => file,
        Err(refusal) => return Err(refusal),
    };
    let image = match assembly_of(alloc, name, file.as_slice()) {
        Ok(image) => image,
        Err(why) => return Err(Refusal::of_text(why)),
    };
    match out.put(image.as_slice()) {
        Ok(()) => Ok(false),
        Err(_) => Err(Refusal::Write),
    }
}
